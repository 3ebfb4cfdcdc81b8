ghost use Rattle.std.specs.Prelude.{◌≡◌, ℤ, pos, if◌then◌else◌, IfOk, MatchOption};
ghost use Rattle.tl_eval.specs.Held.{answered, meant};
ghost use Rattle.tl_eval.specs.Ops.{of_numbers};
ghost use Rattle.tl_lang.specs.Texts.{str as spelling};
ghost use Rattle.tl_lang.specs.Value.{number as as_number, overflow};

use crate::answer::{Answer, text_of};
use crate::fault::Fault;
use crate::op::OnNumbers;
use crate::value::Value;
use std::alloc::Global;
use tl_text::print_signed;
use tl_types::NoMemory;

/// What a form on two numbers gives.
pub fn binary(op: OnNumbers, a: &i64, b: &i64) -> Answer
    ensures { answered result ≡ of_numbers op a.now b.now }
{
    let a = *a;
    let b = *b;
    match op {
        OnNumbers::Add => within(a.checked_add(b)),
        OnNumbers::Minus => within(a.checked_sub(b)),
        OnNumbers::Mul => within(a.checked_mul(b)),
        OnNumbers::Div => {
            if b == 0 {
                return Err(Fault::ZeroDivisor);
            }
            within(a.checked_div(b))
        }
        OnNumbers::Mod => {
            if b == 0 {
                return Err(Fault::ZeroDivisor);
            }
            within(a.checked_rem(b))
        }
        OnNumbers::Lt => Ok(truth(a < b)),
        OnNumbers::Same => Ok(truth(a == b)),
    }
}

/// The number, or that it is out of range.
fn within(number: Option<i64>) -> Answer
    ensures { MatchOption number (answered result ≡ Err overflow) (λ n. answered result ≡ Ok (as_number n)) }
{
    match number {
        Some(number) => Ok(Value::Number(number)),
        None => Err(Fault::Overflow),
    }
}

/// 1 where the test holds, else 0.
pub fn truth(holds: bool) -> Value
    ensures { meant result ≡ as_number (if holds then pos 1 else pos 0) }
{
    Value::Number(i64::from(holds))
}

/// The spelling of a number.
pub fn str(alloc: Global, number: &i64) -> Result<Answer, NoMemory>
    ensures { IfOk result (λ answer. answered answer ≡ spelling number.now) }
{
    let mut spelling = Vec::new(alloc);
    print_signed(&mut spelling, *number)?;
    text_of(alloc, spelling)
}
