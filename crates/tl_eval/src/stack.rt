ghost use Rattle.std.specs.Prelude.{◌≡◌, [], ◌∷◌, IfOk, OnOk, MatchOption, option_map, reverse};
ghost use Rattle.tl_eval.specs.Frames.{binds, names_of};
ghost use Rattle.tl_eval.specs.Held.{meant};
ghost use Rattle.tl_lang.specs.Names.{visible};

use crate::frame::Frame;
use crate::value::Value;
use std::alloc::Global;
use std::marker::Model;
use tl_lang::Name;
use tl_types::NoMemory;

/// The forms that wait, each for the value of a part that stands above it. Contracts see them from
/// the top down.
#[derive(Debug, Drop)]
pub struct Stack {
    frames: Vec<Frame>,
}

impl Model for Stack {
    ghost use Rattle.std.specs.Prelude.{List, reverse};
    ghost use Rattle.tl_eval.specs.declared.frame.Frame.{Frame};

    ghost Value = { List Frame };

    ghost use Rattle.std.specs.Coded.{codes};
    ghost use Rattle.tl_eval.specs.contracts.node.Node as node;

    ghost coded = { Prim.hlevel (codes, node.the_row.coded) };

    ghost view = { λ s. reverse s.frames.items };
}

impl Stack {
    pub fn new(alloc: Global) -> Stack
        ensures { result ≡ [] }
    {
        Stack {
            frames: Vec::new(alloc),
        }
    }

    pub fn push(&mut self, frame: Frame) -> Result<(), NoMemory>
        ensures { OnOk result (self.new ≡ frame ∷ self.old) }
    {
        self.frames.push(frame)?;
        Ok(())
    }

    pub fn pop(&mut self) -> Option<Frame>
        ensures { MatchOption result ((self.old ≡ []) × (self.new ≡ [])) (λ top. self.old ≡ top ∷ self.new) }
    {
        self.frames.pop()
    }

    pub fn clear(&mut self)
        ensures { self.new ≡ [] }
    {
        self.frames.clear();
    }

    /// What a name stands for above the stack.
    pub fn find(&self, name: &Name) -> Result<Option<Value>, NoMemory>
        ensures { IfOk result (λ found. option_map meant found ≡ visible name.now (names_of self.now)) }
    {
        find_in(self.frames.as_slice(), name)
    }
}

/// What a name stands for above these frames, of which the last is on top.
fn find_in(frames: &[Frame], name: &Name) -> Result<Option<Value>, NoMemory>
    ensures { IfOk result (λ found. option_map meant found ≡ visible name.now (names_of (reverse frames.now))) }
{
    let mut left = frames;
    while let Some((top, below)) = left.split_last() {
        let found = top.find(name)?;
        if found.is_some() {
            return Ok(found);
        }
        left = below;
    }
    Ok(None)
}
