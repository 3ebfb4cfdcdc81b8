ghost use Rattle.std.specs.Prelude.{◌≡◌, suc, IfOk};
ghost use Rattle.tl_eval.specs.Frames.{Leads, names_of};
ghost use Rattle.tl_eval.specs.Nodes.{gives};

use crate::frame::Frame;
use crate::listing;
use crate::next::Next;
use crate::node::Node;
use crate::stack::Stack;
use crate::wait::{named, wait};
use std::alloc::Global;
use std::sync::Arc;
use tl_types::NoMemory;

/// Enters a node: where the evaluation goes on, once the unit of fuel is paid.
pub fn enter(alloc: Global, node: &Node, stack: &mut Stack) -> Result<Next, NoMemory>
    ensures { IfOk result (λ next. Leads next stack.old stack.new (λ left. gives node.now (names_of stack.old) (suc left))) }
{
    match node {
        Node::Known(value) => Ok(Next::Give(value.try_clone()?)),
        Node::Unknown(fault) => Ok(Next::Stop(*fault)),
        Node::Var(name) => named(name.get(), stack),
        Node::Unary(op, part) => wait(stack, Frame::Unary(*op), part),
        Node::Binary(op, first, second) => {
            let frame = Frame::Binary(*op, Arc::try_clone(second)?);
            wait(stack, frame, first)
        }
        Node::Sub(whole, from, to) => {
            let frame = Frame::Sub(Arc::try_clone(from)?, Arc::try_clone(to)?);
            wait(stack, frame, whole)
        }
        Node::If(condition, one, other) => {
            let frame = Frame::If(Arc::try_clone(one)?, Arc::try_clone(other)?);
            wait(stack, frame, condition)
        }
        Node::Let(name, part, body) => {
            let frame = Frame::Let(name.try_clone()?, Arc::try_clone(body)?);
            wait(stack, frame, part)
        }
        Node::List(parts) => listing::begin(alloc, parts, stack),
        Node::Each(name, items, body) => {
            let frame = Frame::Each(name.try_clone()?, Arc::try_clone(body)?);
            wait(stack, frame, items)
        }
        Node::Keep(name, items, body) => {
            let frame = Frame::Keep(name.try_clone()?, Arc::try_clone(body)?);
            wait(stack, frame, items)
        }
        Node::Fold(state, name, items, start, body) => {
            let frame = Frame::Fold(
                state.try_clone()?,
                name.try_clone()?,
                Arc::try_clone(start)?,
                Arc::try_clone(body)?,
            );
            wait(stack, frame, items)
        }
    }
}
