ghost use Rattle.std.specs.Prelude.{◌≡◌, ◌∷◌, List, IfOk, ok_or};
ghost use Rattle.tl_eval.specs.Frames.{Leads, names_of, goes_on};
ghost use Rattle.tl_eval.specs.Held.{answered};
ghost use Rattle.tl_eval.specs.Nodes.{gives};
ghost use Rattle.tl_eval.specs.declared.frame.Frame.{Frame};
ghost use Rattle.tl_lang.specs.Fuel.{and_then, answer as at_no_cost};
ghost use Rattle.tl_lang.specs.Names.{visible};
ghost use Rattle.tl_lang.specs.Value.{no_meaning};

use crate::answer::Answer;
use crate::fault::Fault;
use crate::frame::Frame;
use crate::next::Next;
use crate::node::Node;
use crate::stack::Stack;
use crate::value::Value;
use std::sync::Arc;
use tl_lang::Name;
use tl_types::NoMemory;

/// Has the frame wait for what the part gives.
pub fn wait(stack: &mut Stack, frame: Frame, part: &Arc<Node>) -> Result<Next, NoMemory>
    ensures { IfOk result (λ next. Leads next stack.old stack.new (λ left. and_then (gives part.now.value (names_of (frame ∷ stack.old)) left) (goes_on frame (names_of stack.old)))) }
{
    stack.push(frame)?;
    Ok(Next::Enter(Arc::try_clone(part)?))
}

/// What a name stands for.
pub fn named(name: &Name, stack: &Stack) -> Result<Next, NoMemory>
    ensures { IfOk result (λ next. Leads next stack.now stack.now (at_no_cost (ok_or (visible name.now (names_of stack.now)) no_meaning))) }
{
    match stack.find(name)? {
        Some(value) => Ok(Next::Give(value)),
        None => Ok(Next::Stop(Fault::NoMeaning)),
    }
}

/// The value, or the fault.
pub fn settled(answer: Answer) -> Next
    ensures { (stack : List Frame) → Leads result stack stack (at_no_cost (answered answer)) }
{
    match answer {
        Ok(value) => Next::Give(value),
        Err(fault) => Next::Stop(fault),
    }
}
