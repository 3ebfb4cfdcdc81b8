ghost use Rattle.std.specs.Prelude.{◌≡◌, ◌≤◌, IfOk, IsTrue, length, map, option_map};
ghost use Rattle.tl_eval.specs.Materials.{given_of, entry_of};
ghost use Rattle.std.specs.Option.{option_copied};
ghost use Rattle.tl_lang.specs.Conf.{pairs_of, is_conf};
ghost use Rattle.tl_lang.specs.Mean.{values};
ghost use Rattle.tl_lang.specs.Names.{visible};

use crate::text::Text;
use std::alloc::Global;
use tl_types::{BYTES_LIMIT, Bytes, NoMemory, Outcome};

/// A key of the configuration with its value.
#[derive(Debug, Drop)]
pub struct Entry<'a> {
    pub key: &'a [u8],
    pub value: Text,
}

/// What a job hands to its program, with each text at hand to be shared.
#[derive(Debug, Drop)]
pub struct Material<'a> {
    pub alloc: Global,
    pub inputs: &'a [Text],
    pub entries: &'a [Entry<'a>],
}

/// The inputs' values, moved to where they can be shared; `None` where an input is a fault.
pub fn shared_inputs(alloc: Global, inputs: Vec<Outcome>) -> Result<Option<Vec<Text>>, NoMemory>
    ensures { IfOk result (λ texts. option_map (λ v. v.items) texts ≡ values inputs.items) }
{
    let mut inputs = inputs;
    let mut texts = Vec::new(alloc);
    while let Some(input) = inputs.pop() {
        match input {
            Outcome::Value(bytes) => texts.push(Text::new(alloc, bytes)?)?,
            Outcome::Fault(_) => return Ok(None),
        }
    }
    texts.reverse();
    Ok(Some(texts))
}

/// The pairs of a configuration, with a copy of each value that can be shared.
pub fn shared_conf<'a>(
    alloc: Global,
    pairs: &'a [(Vec<u8>, Vec<u8>)],
) -> Result<Vec<Entry<'a>>, NoMemory>
    requires { IsTrue (is_conf (pairs_of pairs.now)) }
    ensures { IfOk result (λ entries. map entry_of entries.items ≡ pairs_of pairs.now) }
{
    let mut entries = Vec::new(alloc);
    for pair in pairs {
        let value = copy_of(alloc, pair.1.as_slice())?;
        let key = pair.0.as_slice();
        entries.push(Entry { key, value })?;
    }
    Ok(entries)
}

fn copy_of(alloc: Global, bytes: &[u8]) -> Result<Text, NoMemory>
    requires { length bytes.now ≤ BYTES_LIMIT }
    ensures { IfOk result (λ text. text ≡ bytes.now) }
{
    let Some(bytes) = Bytes::new(bytes.to_vec(alloc)?) else {
        unreachable!();
    };
    Text::new(alloc, bytes)
}

/// The value of a key.
pub fn value_of<'a>(entries: &'a [Entry<'a>], key: &[u8]) -> Option<&'a Text>
    ensures { option_copied result ≡ visible key.now (map entry_of entries.now) }
{
    for entry in entries {
        if key == entry.key {
            return Some(&entry.value);
        }
    }
    None
}
