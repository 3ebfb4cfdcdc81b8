//! Which command the words name, and what it is asked.

ghost use Rattle.std.specs.Prelude.{◌≡◌, ◌≢◌, ◌↔◌, ◌≤◌, ℕ, length, map, slice_get, false, codes};
ghost use Rattle.std.specs.Prelude.{Some, None, IfOk, IfSome, string_bytes};
ghost use Rattle.std.specs.Fmt.{decimal};
ghost use Rattle.std.specs.List.{list_any};
ghost use Rattle.std.specs.Str.{bytes_eq};
ghost use Rattle.tl_words.specs.Parts.{AsksFor, text_of};
ghost use Rattle.tl_words.specs.Spells.{IsExact, Spells, has_dashes, refusal_line};

use crate::flags::{Flags, flags_of};
use crate::generator::{Numbers, numbers_of};
use crate::number::number_of;
use crate::request::Request;
use std::alloc::Global;
use tl_types::NoMemory;

/// How many crew threads there are where the words don't say.
const USUAL_CREW: u8 = 2;

/// The most crew threads that may be asked for.
const CREW_LIMIT: u8 = 8;

/// The most jobs that a generated script may have.
const COUNT_LIMIT: u32 = 100_000;

/// What the words after the program's name ask for. `None` where they are none that the program
/// knows.
pub fn words(alloc: Global, args: &[String]) -> Result<Option<Request>, NoMemory>
    ensures { IfOk result (λ said. (w : Request)
        → (said ≡ Some w) ↔ Spells (map string_bytes args.now) w) }
{
    if has_break(args) {
        return Ok(None);
    }
    let Some(command) = args.first() else {
        return Ok(None);
    };
    match command.as_str() {
        "alone" => alone(alloc, args),
        "run" => run(alloc, args),
        "gen" => generate(alloc, args),
        "check" => Ok(by_itself(args, Request::Check)),
        "upgrade" => Ok(by_itself(args, Request::Upgrade)),
        _ => Ok(None),
    }
}

/// The line that is printed where the words are none that the program knows.
pub fn refusal() -> &'static str
    ensures { result.now ≡ refusal_line }
{
    "words\n"
}

// Whether some word is two hyphens alone.
fn has_break(args: &[String]) -> bool
    ensures { result ≡ list_any (λ word. bytes_eq (string_bytes word) (codes "--")) args.now }
{
    args.iter().any(|word| is_break(word))
}

fn is_break(word: &String) -> bool
    ensures { result ≡ bytes_eq (string_bytes word.now) (codes "--") }
{
    word.as_str() == "--"
}

// The request, where no word stands after the command.
fn by_itself(args: &[String], request: Request) -> Option<Request>
    ensures alone { length args.now ≡ 1 → result ≡ Some request }
    ensures more { length args.now ≢ 1 → result ≡ None }
{
    if args.len() == 1 { Some(request) } else { None }
}

fn alone(alloc: Global, args: &[String]) -> Result<Option<Request>, NoMemory>
    requires command { slice_get (map string_bytes args.now) 0 ≡ Some (codes "alone") }
    requires whole { has_dashes (map string_bytes args.now) ≡ false }
    ensures { IfOk result (IsExact (map string_bytes args.now)) }
{
    let Some(Flags { journal, crew }) = flags_of(alloc, args)? else {
        return Ok(None);
    };
    if crew.is_some() {
        return Ok(None);
    }
    Ok(Some(Request::Alone { journal }))
}

fn run(alloc: Global, args: &[String]) -> Result<Option<Request>, NoMemory>
    requires command { slice_get (map string_bytes args.now) 0 ≡ Some (codes "run") }
    requires whole { has_dashes (map string_bytes args.now) ≡ false }
    ensures { IfOk result (IsExact (map string_bytes args.now)) }
{
    let Some(Flags { journal, crew }) = flags_of(alloc, args)? else {
        return Ok(None);
    };
    let Some(crew) = crew_of(crew) else {
        return Ok(None);
    };
    Ok(Some(Request::Run { crew, journal }))
}

// The number of crew threads, by the value of `--crew` where it is there.
fn crew_of(value: Option<&str>) -> Option<u8>
    ensures found { IfSome result (AsksFor (text_of value.entry)) }
    ensures only { (crew : ℕ) → AsksFor (text_of value.entry) crew → result ≡ Some crew }
{
    let Some(word) = value else {
        return Some(USUAL_CREW);
    };
    let crew = number_of(word)?;
    if crew <= u64::from(CREW_LIMIT) {
        Some(crew as u8)
    } else {
        None
    }
}

fn generate(alloc: Global, args: &[String]) -> Result<Option<Request>, NoMemory>
    requires command { slice_get (map string_bytes args.now) 0 ≡ Some (codes "gen") }
    requires whole { has_dashes (map string_bytes args.now) ≡ false }
    ensures { IfOk result (IsExact (map string_bytes args.now)) }
{
    let Some(Numbers { count, seed, run }) = numbers_of(alloc, args)? else {
        return Ok(None);
    };
    let Some(count) = count_of(count) else {
        return Ok(None);
    };
    let Some(seed) = number_of(seed) else {
        return Ok(None);
    };
    Ok(Some(Request::Generate { count, seed, run }))
}

// The number of jobs.
fn count_of(word: &str) -> Option<u32>
    ensures found { IfSome result (λ count. (1 ≤ count) × (count ≤ 100000)
        × (word.now ≡ decimal count)) }
    ensures only { (count : ℕ) → 1 ≤ count → count ≤ 100000 → word.now ≡ decimal count
        → result ≡ Some count }
{
    let count = number_of(word)?;
    if count >= 1 && count <= u64::from(COUNT_LIMIT) {
        Some(count as u32)
    } else {
        None
    }
}
