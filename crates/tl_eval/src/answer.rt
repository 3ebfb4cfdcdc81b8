ghost use Rattle.std.specs.Prelude.{◌≡◌, IfOk};
ghost use Rattle.tl_eval.specs.Held.{answered};
ghost use Rattle.tl_lang.specs.Value.{text_within};

use crate::fault::Fault;
use crate::text::Text;
use crate::value::Value;
use std::alloc::Global;
use tl_types::{Bytes, NoMemory};

/// A value, or why there is none.
pub type Answer = Result<Value, Fault>;

/// The text of these bytes, or that it is too long.
pub fn text_of(alloc: Global, bytes: Vec<u8>) -> Result<Answer, NoMemory>
    ensures { IfOk result (λ answer. answered answer ≡ text_within bytes.items) }
{
    match Bytes::new(bytes) {
        Some(bytes) => Ok(Ok(Value::Text(Text::new(alloc, bytes)?))),
        None => Ok(Err(Fault::TooLong)),
    }
}
