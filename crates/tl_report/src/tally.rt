//! The summary of a journal: how often each kind of event stands in it, as one JSON object.

ghost use Rattle.std.specs.Prelude.{◌≡◌, ◌++◌, ◌∷◌, [], ℕ, length, take, map, string_bytes, IfOk, OnOk, OnErr};
ghost use Rattle.serde_json.specs.Data.{object};
ghost use Rattle.serde_json.specs.View.{view};
ghost use Rattle.tl_report.specs.Summary.{counts, how_many, members, keys, object_text, summary};

use crate::print::word;
use serde_json::{Value, json};
use std::alloc::{AllocError, Global};
use tl_model::{Act, Event, Journal, Reply};
use tl_types::NoMemory;

// What the summary counts, each under a key of its own.
#[derive(Clone, Copy)]
enum Key {
    Calls,
    Claims,
    Collected,
    Done,
    Drops,
    Loads,
    Losses,
    Records,
    Saved,
    Served,
}

impl Key {
    // Whether it counts the act.
    fn counts<T>(self, act: &Act<T>) -> bool
        ensures { result ≡ counts self act.now }
    {
        match self {
            Key::Calls => matches!(act, Act::Call(..)),
            Key::Claims => matches!(act, Act::Claim(..)),
            Key::Collected => matches!(act, Act::Collect(_)),
            Key::Done => matches!(act, Act::Done(..)),
            Key::Drops => matches!(act, Act::Drop(..)),
            Key::Loads => matches!(act, Act::Load(..)),
            Key::Losses => matches!(act, Act::Lose(_)),
            Key::Records => matches!(act, Act::Call(_, Reply::Made(_))),
            Key::Saved => matches!(act, Act::Saved(..)),
            Key::Served => matches!(act, Act::Served(..)),
        }
    }
}

// How many of the events it counts.
fn how_many<T>(key: Key, events: &[Event<T>]) -> u64
    ensures { result ≡ how_many key events.now }
{
    events.iter().filter(|event| key.counts(&event.act)).count() as u64
}

// The object of the counts.
fn object<T>(alloc: Global, events: &[Event<T>]) -> Result<Value, AllocError>
    ensures { IfOk result (λ value. view value ≡ object (members (λ key. how_many key events.now) keys)) }
{
    let calls = how_many(Key::Calls, events);
    let claims = how_many(Key::Claims, events);
    let collected = how_many(Key::Collected, events);
    let done = how_many(Key::Done, events);
    let drops = how_many(Key::Drops, events);
    let loads = how_many(Key::Loads, events);
    let losses = how_many(Key::Losses, events);
    let records = how_many(Key::Records, events);
    let saved = how_many(Key::Saved, events);
    let served = how_many(Key::Served, events);
    json!(in alloc; {
        "calls": calls,
        "claims": claims,
        "collected": collected,
        "done": done,
        "drops": drops,
        "loads": loads,
        "losses": losses,
        "records": records,
        "saved": saved,
        "served": served
    })
}

// The object as a text.
fn object_text<T>(alloc: Global, events: &[Event<T>]) -> Result<String, AllocError>
    ensures { IfOk result (λ text. string_bytes text ≡ object_text (λ key. how_many key events.now)) }
{
    let value = object(alloc, events)?;
    value.to_string(alloc)
}

// Appends the bytes and a line feed, or some front of that.
fn append_line(out: &mut Vec<u8>, bytes: &[u8]) -> Result<(), NoMemory>
    ensures ok { OnOk result (out.new.items ≡ out.old.items ++ (bytes.now ++ 0x0A ∷ [])) }
    ensures err { OnErr result (take (length out.old.items) out.new.items ≡ out.old.items) }
{
    word(out, bytes)?;
    word(out, b"\n")
}

// Appends the bytes and a line feed. An `Err` leaves `out` as it was.
fn whole_line(out: &mut Vec<u8>, bytes: &[u8]) -> Result<(), NoMemory>
    ensures ok { OnOk result (out.new.items ≡ out.old.items ++ (bytes.now ++ 0x0A ∷ [])) }
    ensures err { OnErr result (out.new.items ≡ out.old.items) }
{
    let start = out.len();
    let printed = append_line(out, bytes);
    if printed.is_err() {
        out.truncate(start);
    }
    printed
}

/// Appends the summary of a journal, one line: a JSON object without spaces that tells under each
/// key how many events of a kind there are. The keys stand in the order of their bytes: `calls`,
/// `claims`, `collected`, `done`, `drops`, `loads`, `losses`, `records` (the calls that were
/// answered `Made`), `saved` and `served`. An `Err` leaves `out` as it was.
pub fn summary<T>(out: &mut Vec<u8>, journal: &Journal<T>) -> Result<(), NoMemory>
    ensures ok { OnOk result (out.new.items ≡ out.old.items ++ summary journal.now.events) }
    ensures err { OnErr result (out.new.items ≡ out.old.items) }
{
    let text = object_text(*out.allocator(), journal.events())?;
    whole_line(out, text.as_bytes())
}
