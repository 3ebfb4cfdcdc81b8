//! The numbers and the option of `gen`.

ghost use Rattle.std.specs.Prelude.{◌≡◌, true, false, IfOk, IfSome, codes, is_some, map};
ghost use Rattle.std.specs.Prelude.{string_bytes};
ghost use Rattle.clap.specs.Words.{first_value, found_of};
ghost use Rattle.tl_words.specs.Parts.{ReadsNumbers, TakesNumbers, TellsRun};
ghost use Rattle.tl_words.specs.Spells.{has_dashes};

use crate::matched::matched;
use clap::{Arg, ArgAction, ArgMatches, Command};
use std::alloc::Global;
use tl_types::NoMemory;

/// What stands after the command.
#[derive(Clone, Copy, Debug)]
pub(crate) struct Numbers<'a> {
    /// The first word that is no option.
    pub count: &'a str,
    /// The second one.
    pub seed: &'a str,
    /// Whether `--run` is there.
    pub run: bool,
}

/// What stands after the first word, which is the command: two words and the option. `None` where
/// other words stand there.
pub(crate) fn numbers_of<'a>(
    alloc: Global,
    args: &'a [String],
) -> Result<Option<Numbers<'a>>, NoMemory>
    requires { has_dashes (map string_bytes args.now) ≡ false }
    ensures read { IfOk result (ReadsNumbers (map string_bytes args.entry.now)) }
    ensures only { IfOk result (TakesNumbers (map string_bytes args.entry.now)) }
{
    let count = Arg::new(alloc, "count")
        .required(true)
        .action(ArgAction::Set);
    let seed = Arg::new(alloc, "seed")
        .required(true)
        .action(ArgAction::Set);
    let run = Arg::new(alloc, "run")
        .long("run")
        .action(ArgAction::SetTrue);
    let command = Command::new(alloc, "tachyon")
        .disable_help_flag(true)
        .arg(count)?
        .arg(seed)?
        .arg(run)?;
    let Some(matches) = matched(command, args)? else {
        return Ok(None);
    };
    Ok(numbers_in(&matches))
}

// What the matches have of the two words and the option.
fn numbers_in<'a>(matches: &ArgMatches<'a>) -> Option<Numbers<'a>>
    ensures count { IfSome result (λ numbers.
        Some numbers.count.now ≡ first_value (found_of matches.now) (codes "count")) }
    ensures seed { IfSome result (λ numbers.
        Some numbers.seed.now ≡ first_value (found_of matches.now) (codes "seed")) }
    ensures run { IfSome result (λ numbers. TellsRun matches.now numbers.run) }
    ensures only { is_some (first_value (found_of matches.now) (codes "count")) ≡ true
        → is_some (first_value (found_of matches.now) (codes "seed")) ≡ true
        → is_some result ≡ true }
{
    let count = matches.get_str("count")?;
    let seed = matches.get_str("seed")?;
    let run = matches.get_flag("run");
    Some(Numbers { count, seed, run })
}
