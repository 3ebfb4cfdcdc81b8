ghost use Rattle.std.specs.Prelude.{◌≡◌, IfOk};
ghost use Rattle.tl_eval.specs.Held.{answered};
ghost use Rattle.tl_eval.specs.Ops.{of_list_text};
ghost use Rattle.tl_lang.specs.Lists.{at as text_at, count as count_of, join as join_of, sort as sorting_of};

use crate::answer::{Answer, text_of};
use crate::fault::Fault;
use crate::gathered::list_of;
use crate::op::OnListText;
use crate::text::Text;
use crate::value::Value;
use std::alloc::Global;
use tl_lang::Items;
use tl_types::{BYTES_LIMIT, NoMemory, Shared};

/// What a form on a list and a text gives.
pub fn binary(
    alloc: Global,
    op: OnListText,
    texts: &[Text],
    text: &Text,
) -> Result<Answer, NoMemory>
    ensures { IfOk result (λ answer. answered answer ≡ of_list_text op texts.now text.now) }
{
    match op {
        OnListText::Join => join(alloc, texts, text.as_slice()),
        OnListText::Append => {
            let mut all = copy_of(alloc, texts)?;
            all.push(text.try_clone()?)?;
            list_of(alloc, Items::from_vec(all))
        }
    }
}

/// The texts, shared once more.
fn copy_of(alloc: Global, texts: &[Text]) -> Result<Vec<Text>, NoMemory>
    ensures { IfOk result (λ copy. copy.items ≡ texts.now) }
{
    let mut copy = Vec::new(alloc);
    for text in texts {
        copy.push(text.try_clone()?)?;
    }
    Ok(copy)
}

/// The texts with `between` between them.
fn join(alloc: Global, texts: &[Text], between: &[u8]) -> Result<Answer, NoMemory>
    ensures { IfOk result (λ answer. answered answer ≡ join_of texts.now between.now) }
{
    let Some((first, rest)) = texts.split_first() else {
        return text_of(alloc, Vec::new(alloc));
    };
    let mut bytes = first.as_slice().to_vec(alloc)?;
    for text in rest {
        bytes.extend_from_slice(between)?;
        bytes.extend_from_slice(text.as_slice())?;
        if bytes.len() > BYTES_LIMIT {
            return Ok(Err(Fault::TooLong));
        }
    }
    text_of(alloc, bytes)
}

/// The text at a place.
pub fn at(texts: &Items<Text>, place: &i64) -> Result<Answer, NoMemory>
    ensures { IfOk result (λ answer. answered answer ≡ text_at texts.now place.now) }
{
    let Ok(place) = usize::try_from(*place) else {
        return Ok(Err(Fault::OutOfRange));
    };
    match texts.get(place) {
        Some(text) => Ok(Ok(Value::Text(text.try_clone()?))),
        None => Ok(Err(Fault::OutOfRange)),
    }
}

/// The number of texts.
pub fn count(texts: &[Text]) -> Answer
    ensures { answered result ≡ count_of texts.now }
{
    Ok(Value::Number(texts.len() as i64))
}

/// The texts, ascending by bytes.
pub fn sort(alloc: Global, texts: &[Text]) -> Result<Answer, NoMemory>
    ensures { IfOk result (λ answer. answered answer ≡ sorting_of texts.now) }
{
    let mut sorted = copy_of(alloc, texts)?;
    sorted.sort()?;
    Ok(Ok(Value::List(Shared::new(alloc, Items::from_vec(sorted))?)))
}
