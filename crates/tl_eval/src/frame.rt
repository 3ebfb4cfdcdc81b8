ghost use Rattle.std.specs.Prelude.{◌≡◌, IfOk, option_map};
ghost use Rattle.tl_eval.specs.Frames.{binds};
ghost use Rattle.tl_eval.specs.Held.{meant};
ghost use Rattle.tl_lang.specs.Names.{visible};

use crate::gathered::Gathered;
use crate::node::Node;
use crate::op::{Binary, Unary};
use crate::text::Text;
use crate::value::Value;
use crate::walk::Walk;
use std::sync::Arc;
use tl_lang::{Items, Name};
use tl_types::{NoMemory, Shared};

/// A form that waits for the value of one of its parts, with what it has so far and what it still
/// needs.
#[derive(Debug, Drop)]
pub enum Frame {
    Unary(Unary),
    /// Waits for its first part; the second.
    Binary(Binary, Arc<Node>),
    /// Waits for its second part; the first.
    BinaryEnd(Binary, Value),
    Sub(Arc<Node>, Arc<Node>),
    SubFrom(Value, Arc<Node>),
    SubTo(Value, Value),
    /// Waits for the condition.
    If(Arc<Node>, Arc<Node>),
    /// Waits for what the name stands for.
    Let(Shared<Name>, Arc<Node>),
    /// Waits for the body, which sees the name.
    LetBody(Shared<Name>, Value),
    /// Waits for the part after these texts.
    List(Arc<Items<Arc<Node>>>, Items<Text>),
    /// Waits for the list.
    Each(Shared<Name>, Arc<Node>),
    /// Waits for the body at an item, after what it gave for the items before.
    EachItem(Walk, Gathered),
    /// Waits for the list.
    Keep(Shared<Name>, Arc<Node>),
    /// Waits for the body at an item, after the items that were kept.
    KeepItem(Walk, Items<Text>),
    /// Waits for the list.
    Fold(Shared<Name>, Shared<Name>, Arc<Node>, Arc<Node>),
    /// Waits for the start, after the list.
    FoldStart(Shared<Name>, Shared<Name>, Value, Arc<Node>),
    /// Waits for the body at an item, which sees the value so far.
    FoldItem(Shared<Name>, Value, Walk),
}

impl Frame {
    /// What the frame itself lets a name stand for.
    pub fn find(&self, name: &Name) -> Result<Option<Value>, NoMemory>
        ensures { IfOk result (λ found. option_map meant found ≡ visible name.now (binds self.now)) }
    {
        match self {
            Frame::LetBody(own, value) => {
                if name == own.get() {
                    return Ok(Some(value.try_clone()?));
                }
                Ok(None)
            }
            Frame::EachItem(walk, _) => walk.find(name),
            Frame::KeepItem(walk, _) => walk.find(name),
            Frame::FoldItem(state, so_far, walk) => {
                let item = walk.find(name)?;
                if item.is_some() {
                    return Ok(item);
                }
                if name == state.get() {
                    return Ok(Some(so_far.try_clone()?));
                }
                Ok(None)
            }
            _ => Ok(None),
        }
    }
}
