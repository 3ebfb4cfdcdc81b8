ghost use Rattle.std.specs.Prelude.{◌≡◌, IfOk};
ghost use Rattle.tl_eval.specs.Held.{meant, answered};
ghost use Rattle.tl_eval.specs.Ops.{of_one, of_two, of_sub};

use crate::answer::Answer;
use crate::fault::Fault;
use crate::op::{Binary, Unary};
use crate::text::Text;
use crate::value::Value;
use crate::{lists, numbers, split, texts};
use std::alloc::Global;
use tl_types::NoMemory;

/// What a form with one part gives of the part's value.
pub fn unary(alloc: Global, op: Unary, value: &Value) -> Result<Answer, NoMemory>
    ensures { IfOk result (λ answer. answered answer ≡ of_one op (meant value.now)) }
{
    match (op, value) {
        (Unary::Len, Value::Text(text)) => Ok(texts::len(text)),
        (Unary::Num, Value::Text(text)) => Ok(texts::num(text)),
        (Unary::Str, Value::Number(number)) => numbers::str(alloc, number),
        (Unary::Lines, Value::Text(text)) => split::lines(alloc, text.as_slice()),
        (Unary::Count, Value::List(texts)) => Ok(lists::count(texts.get().as_slice())),
        (Unary::Sort, Value::List(texts)) => lists::sort(alloc, texts.get().as_slice()),
        _ => Ok(Err(Fault::NoMeaning)),
    }
}

/// What a form with two parts gives of the parts' values.
pub fn binary(alloc: Global, op: Binary, left: &Value, right: &Value) -> Result<Answer, NoMemory>
    ensures { IfOk result (λ answer. answered answer ≡ of_two op (meant left.now) (meant right.now)) }
{
    match op {
        Binary::Texts(op) => match (left, right) {
            (Value::Text(s), Value::Text(t)) => texts::binary(alloc, op, s, t),
            _ => Ok(Err(Fault::NoMeaning)),
        },
        Binary::Numbers(op) => match (left, right) {
            (Value::Number(a), Value::Number(b)) => Ok(numbers::binary(op, a, b)),
            _ => Ok(Err(Fault::NoMeaning)),
        },
        Binary::ListText(op) => match (left, right) {
            (Value::List(list), Value::Text(text)) => lists::binary(
                alloc,
                op,
                list.get().as_slice(),
                text,
            ),
            _ => Ok(Err(Fault::NoMeaning)),
        },
        Binary::At => match (left, right) {
            (Value::List(list), Value::Number(place)) => lists::at(list.get(), place),
            _ => Ok(Err(Fault::NoMeaning)),
        },
    }
}

/// What `sub` gives of the parts' values.
pub fn sub(alloc: Global, whole: &Value, from: &Value, to: &Value) -> Result<Answer, NoMemory>
    ensures { IfOk result (λ answer. answered answer ≡ of_sub (meant whole.now) (meant from.now) (meant to.now)) }
{
    match (whole, from, to) {
        (Value::Text(text), Value::Number(from), Value::Number(to)) => {
            texts::sub(alloc, text, from, to)
        }
        _ => Ok(Err(Fault::NoMeaning)),
    }
}
