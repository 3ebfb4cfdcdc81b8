ghost use Rattle.std.specs.Prelude.{◌≡◌, IfOk};
ghost use Rattle.tl_eval.specs.Held.{answered};
ghost use Rattle.tl_eval.specs.Ops.{of_texts};
ghost use Rattle.tl_lang.specs.Texts.{len as length_of, num as number_of, occurs, sub as part_of};

use crate::answer::{Answer, text_of};
use crate::fault::Fault;
use crate::numbers::truth;
use crate::op::OnTexts;
use crate::split;
use crate::text::Text;
use crate::value::Value;
use memchr::memmem;
use std::alloc::Global;
use tl_text::read_signed;
use tl_types::NoMemory;

/// What a form on two texts gives.
pub fn binary(alloc: Global, op: OnTexts, s: &Text, t: &Text) -> Result<Answer, NoMemory>
    ensures { IfOk result (λ answer. answered answer ≡ of_texts op s.now t.now) }
{
    match op {
        OnTexts::Cat => {
            let mut bytes = s.as_slice().to_vec(alloc)?;
            bytes.extend_from_slice(t.as_slice())?;
            text_of(alloc, bytes)
        }
        OnTexts::Eq => Ok(Ok(truth(s == t))),
        OnTexts::Has => Ok(Ok(truth(has(s.as_slice(), t.as_slice())))),
        OnTexts::Split => split::split(alloc, s.as_slice(), t.as_slice()),
    }
}

/// Whether `part` stands at some place of `text`.
fn has(text: &[u8], part: &[u8]) -> bool
    ensures { result ≡ occurs part.now text.now }
{
    memmem::find(text, part).is_some()
}

/// The length of a text.
pub fn len(text: &Text) -> Answer
    ensures { answered result ≡ length_of text.now }
{
    Ok(Value::Number(text.len() as i64))
}

/// The number that a text spells.
pub fn num(text: &Text) -> Answer
    ensures { answered result ≡ number_of text.now }
{
    let bytes = text.as_slice();
    match read_signed(bytes, 0) {
        Ok((number, end)) => {
            if end != bytes.len() {
                return Err(Fault::BadNumber);
            }
            Ok(Value::Number(number))
        }
        Err(_) => Err(Fault::BadNumber),
    }
}

/// The bytes from `from` to below `to`.
pub fn sub(alloc: Global, text: &Text, from: &i64, to: &i64) -> Result<Answer, NoMemory>
    ensures { IfOk result (λ answer. answered answer ≡ part_of text.now from.now to.now) }
{
    let bytes = text.as_slice();
    let (Ok(from), Ok(to)) = (usize::try_from(*from), usize::try_from(*to)) else {
        return Ok(Err(Fault::OutOfRange));
    };
    if from > to || to > bytes.len() {
        return Ok(Err(Fault::OutOfRange));
    }
    text_of(alloc, bytes[from..to].to_vec(alloc)?)
}
