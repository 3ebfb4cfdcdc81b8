ghost use Rattle.std.specs.Prelude.{◌≡◌, IfOk};
ghost use Rattle.tl_eval.specs.Frames.{Leads, names_of, goes_on};
ghost use Rattle.tl_eval.specs.Held.{meant};

use crate::fault::Fault;
use crate::frame::Frame;
use crate::next::Next;
use crate::stack::Stack;
use crate::value::Value;
use crate::wait::{settled, wait};
use crate::{apply, listing, loops};
use std::alloc::Global;
use tl_types::NoMemory;

/// Hands a frame, which stood on the stack, the value that it waits for.
pub fn resume(
    alloc: Global,
    frame: Frame,
    value: Value,
    stack: &mut Stack,
) -> Result<Next, NoMemory>
    ensures { IfOk result (λ next. Leads next stack.old stack.new (goes_on frame (names_of stack.old) (meant value))) }
{
    match frame {
        Frame::Unary(op) => Ok(settled(apply::unary(alloc, op, &value)?)),
        Frame::Binary(op, second) => wait(stack, Frame::BinaryEnd(op, value), &second),
        Frame::BinaryEnd(op, first) => Ok(settled(apply::binary(alloc, op, &first, &value)?)),
        Frame::Sub(from, to) => wait(stack, Frame::SubFrom(value, to), &from),
        Frame::SubFrom(whole, to) => wait(stack, Frame::SubTo(whole, value), &to),
        Frame::SubTo(whole, from) => Ok(settled(apply::sub(alloc, &whole, &from, &value)?)),
        Frame::If(one, other) => match value {
            Value::Number(0) => Ok(Next::Enter(other)),
            Value::Number(_) => Ok(Next::Enter(one)),
            _ => Ok(Next::Stop(Fault::NoMeaning)),
        },
        Frame::Let(name, body) => wait(stack, Frame::LetBody(name, value), &body),
        Frame::LetBody(_, _) => Ok(Next::Give(value)),
        Frame::List(parts, texts) => listing::go_on(alloc, parts, texts, value, stack),
        Frame::Each(name, body) => loops::begin_each(alloc, name, body, value, stack),
        Frame::EachItem(walk, results) => loops::go_on_each(alloc, walk, results, value, stack),
        Frame::Keep(name, body) => loops::begin_keep(alloc, name, body, value, stack),
        Frame::KeepItem(walk, texts) => loops::go_on_keep(alloc, walk, texts, value, stack),
        Frame::Fold(state, name, start, body) => {
            wait(stack, Frame::FoldStart(state, name, value, body), &start)
        }
        Frame::FoldStart(state, name, items, body) => {
            loops::begin_fold(state, name, items, body, value, stack)
        }
        Frame::FoldItem(state, _, walk) => loops::go_on_fold(state, walk, value, stack),
    }
}
