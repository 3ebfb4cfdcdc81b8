ghost use Rattle.std.specs.Prelude.{◌≡◌, IfOk};
ghost use Rattle.tl_eval.specs.Held.{meant, zero_test};

use crate::text::Text;
use tl_lang::Items;
use tl_types::{NoMemory, Shared};

/// The texts of a list, in order.
pub type Texts = Shared<Items<Text>>;

/// A value of the job language. Its bytes are shared by all that hold it.
#[derive(Debug, Drop)]
pub enum Value {
    Text(Text),
    Number(i64),
    List(Texts),
}

impl Value {
    /// One more owner of the same value.
    pub fn try_clone(&self) -> Result<Value, NoMemory>
        ensures { IfOk result (λ copy. copy ≡ self.now) }
    {
        match self {
            Value::Text(text) => Ok(Value::Text(text.try_clone()?)),
            Value::Number(number) => Ok(Value::Number(*number)),
            Value::List(texts) => Ok(Value::List(texts.try_clone()?)),
        }
    }

    /// Whether a number is 0; `None` where it is no number.
    pub fn is_zero(&self) -> Option<bool>
        ensures { result ≡ zero_test (meant self.now) }
    {
        match self {
            Value::Number(0) => Some(true),
            Value::Number(_) => Some(false),
            _ => None,
        }
    }
}
