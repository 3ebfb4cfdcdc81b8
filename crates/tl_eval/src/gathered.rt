ghost use Rattle.std.specs.Prelude.{◌≡◌, [], ◌∷◌, ◌++◌, true, IfOk, MatchBool};
ghost use Rattle.tl_eval.specs.Held.{answered};
ghost use Rattle.tl_lang.specs.Value.{is_list, list_within};

use crate::answer::Answer;
use crate::fault::Fault;
use crate::text::Text;
use crate::value::Value;
use std::alloc::Global;
use std::marker::Model;
use tl_lang::Items;
use tl_types::{BYTES_LIMIT, NoMemory, Shared};

/// The greatest number of texts in a list.
pub const TEXTS_LIMIT: usize = 65_536;

/// Texts that are gathered one by one, within the limits of a list. Contracts see them as the list
/// of the texts.
#[derive(Debug, Drop)]
pub struct Gathered {
    texts: Items<Text>,
    bytes: usize,
}

impl Model for Gathered {
    ghost use Rattle.std.specs.Prelude.{◌≡◌, ℕ, List, length, sum_by, true};
    ghost use Rattle.tl_lang.specs.Value.{is_list};

    ghost Value = { List (List ℕ) };

    ghost view = { λ g. g.texts };

    ghost invariant = { λ g. (g.bytes ≡ sum_by length g.texts) × (is_list g.texts ≡ true) };
}

impl Gathered {
    /// No texts.
    pub fn new(alloc: Global) -> Gathered
        ensures { result ≡ [] }
    {
        Gathered {
            texts: Items::new(alloc),
            bytes: 0,
        }
    }

    /// Adds a text at the end; false where the list would be over its limits.
    pub fn push(&mut self, text: Text) -> Result<bool, NoMemory>
        ensures fits { IfOk result (λ fits. fits ≡ is_list (self.old ++ text ∷ [])) }
        ensures added { IfOk result (λ fits. MatchBool fits (self.new ≡ self.old ++ text ∷ []) (self.new ≡ self.old)) }
    {
        let bytes = self.bytes + text.len();
        if self.texts.len() >= TEXTS_LIMIT || bytes > BYTES_LIMIT {
            return Ok(false);
        }
        self.texts.push(text)?;
        self.bytes = bytes;
        Ok(true)
    }

    /// The list of the texts.
    pub fn into_list(self, alloc: Global) -> Result<Value, NoMemory>
        ensures value { IfOk result (λ v. v ≡ Value.List self) }
        ensures within { is_list self ≡ true }
    {
        Ok(Value::List(Shared::new(alloc, self.texts)?))
    }
}

/// The list of these texts, or that it is too long.
pub fn list_of(alloc: Global, texts: Items<Text>) -> Result<Answer, NoMemory>
    ensures { IfOk result (λ answer. answered answer ≡ list_within texts) }
{
    if !is_within(texts.as_slice()) {
        return Ok(Err(Fault::TooLong));
    }
    Ok(Ok(Value::List(Shared::new(alloc, texts)?)))
}

fn is_within(texts: &[Text]) -> bool
    ensures { result ≡ is_list texts.now }
{
    if texts.len() > TEXTS_LIMIT {
        return false;
    }
    let mut bytes = 0;
    for text in texts {
        bytes += text.len();
    }
    bytes <= BYTES_LIMIT
}
