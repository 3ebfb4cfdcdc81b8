ghost use Rattle.std.specs.Prelude.{◌≡◌, ℕ, suc, [], IfOk, IsTrue};
ghost use Rattle.tl_eval.specs.Frames.{names_of, next_ending, resume as resumed, is_given};
ghost use Rattle.tl_eval.specs.Held.{meant};
ghost use Rattle.tl_eval.specs.Nodes.{gives};
ghost use Rattle.tl_eval.specs.Stops.{StopsAt};
ghost use Rattle.tl_lang.specs.Fuel.{done};
ghost use Rattle.tl_lang.specs.Mean.{outcome_of};

use crate::enter::enter;
use crate::fault::Fault;
use crate::next::Next;
use crate::node::Node;
use crate::resume::resume;
use crate::stack::Stack;
use crate::text::Text;
use crate::value::Value;
use std::alloc::Global;
use std::sync::Arc;
use tl_types::{NoMemory, Outcome};

/// Where the evaluation of an output rests.
#[derive(Debug, Drop)]
pub enum Stop {
    /// This node is entered next, and there is fuel for it.
    Enter(Arc<Node>),
    End(Outcome),
}

/// Enters a node, after which `left` units of fuel are left, and goes on through all that costs
/// none.
pub fn advance(alloc: Global, node: &Node, left: u32, stack: &mut Stack) -> Result<Stop, NoMemory>
    ensures { IfOk result (λ stop. StopsAt stop stack.new left (resumed stack.old (gives node.now (names_of stack.old) (suc left)))) }
{
    let next = enter(alloc, node, stack)?;
    let next = unwind(alloc, next, stack)?;
    rest(next, left, stack)
}

/// Hands values down the stack until a node is entered next or the stack is empty.
fn unwind(alloc: Global, next: Next, stack: &mut Stack) -> Result<Next, NoMemory>
    ensures same { IfOk result (λ last. (left : ℕ) → next_ending last stack.new left ≡ next_ending next stack.old left) }
    ensures empty { IfOk result (λ last. IsTrue (is_given last) → stack.new ≡ []) }
{
    let mut next = next;
    loop {
        let value = match next {
            Next::Give(value) => value,
            other => return Ok(other),
        };
        let Some(frame) = stack.pop() else {
            return Ok(Next::Give(value));
        };
        next = resume(alloc, frame, value, stack)?;
    }
}

/// Rests where a node is entered next and there is fuel for it, else ends.
fn rest(next: Next, left: u32, stack: &Stack) -> Result<Stop, NoMemory>
    requires { IsTrue (is_given next) → stack.now ≡ [] }
    ensures { IfOk result (λ stop. StopsAt stop stack.now left (next_ending next stack.now left)) }
{
    match next {
        Next::Enter(node) => {
            if left == 0 {
                return Ok(Stop::End(Outcome::Fault(Fault::NoFuel.code())));
            }
            Ok(Stop::Enter(node))
        }
        Next::Give(value) => Ok(Stop::End(outcome(value)?)),
        Next::Stop(fault) => Ok(Stop::End(Outcome::Fault(fault.code()))),
    }
}

/// The outcome of an output that has this value.
fn outcome(value: Value) -> Result<Outcome, NoMemory>
    ensures { (left : ℕ) → IfOk result (λ outcome. outcome ≡ outcome_of (done (meant value) left)) }
{
    match value {
        Value::Text(text) => Ok(Outcome::Value(text.to_bytes()?)),
        _ => Ok(Outcome::Fault(Fault::NoMeaning.code())),
    }
}
