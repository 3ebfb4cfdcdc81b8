ghost use Rattle.std.specs.Prelude.{[], IfOk};
ghost use Rattle.tl_eval.specs.Frames.{Leads, names_of, goes_on, listed};
ghost use Rattle.tl_eval.specs.Held.{meant};
ghost use Rattle.tl_eval.specs.declared.frame.Frame.TheVariants as frame;

use crate::fault::Fault;
use crate::frame::Frame;
use crate::gathered::list_of;
use crate::next::Next;
use crate::node::Node;
use crate::stack::Stack;
use crate::text::Text;
use crate::value::Value;
use crate::wait::{settled, wait};
use std::alloc::Global;
use std::sync::Arc;
use tl_lang::Items;
use tl_types::NoMemory;

/// Enters the first part of a list.
pub fn begin(
    alloc: Global,
    parts: &Arc<Items<Arc<Node>>>,
    stack: &mut Stack,
) -> Result<Next, NoMemory>
    ensures { IfOk result (λ next. Leads next stack.old stack.new (listed (names_of stack.old) [] parts.now.value)) }
{
    let texts = Items::new(alloc);
    match parts.get(0) {
        Some(first) => {
            let frame = Frame::List(Arc::try_clone(parts)?, texts);
            wait(stack, frame, first)
        }
        None => Ok(settled(list_of(alloc, texts)?)),
    }
}

/// Goes on with the value of a part of a list: enters the next part, or is at its end.
pub fn go_on(
    alloc: Global,
    parts: Arc<Items<Arc<Node>>>,
    texts: Items<Text>,
    value: Value,
    stack: &mut Stack,
) -> Result<Next, NoMemory>
    ensures { IfOk result (λ next. Leads next stack.old stack.new (goes_on (frame.List parts texts) (names_of stack.old) (meant value))) }
{
    let Value::Text(text) = value else {
        return Ok(Next::Stop(Fault::NoMeaning));
    };
    let mut texts = texts;
    texts.push(text)?;
    match parts.get(texts.len()) {
        Some(part) => {
            let frame = Frame::List(Arc::try_clone(&parts)?, texts);
            wait(stack, frame, part)
        }
        None => Ok(settled(list_of(alloc, texts)?)),
    }
}
