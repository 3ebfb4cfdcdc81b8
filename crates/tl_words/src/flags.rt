//! The options of `alone` and `run`.

ghost use Rattle.std.specs.Prelude.{◌≡◌, false, IfOk, map, string_bytes};
ghost use Rattle.tl_words.specs.Parts.{ReadsFlags, TakesFlags};
ghost use Rattle.tl_words.specs.Spells.{has_dashes};

use crate::matched::matched;
use clap::{Arg, ArgAction, Command};
use std::alloc::Global;
use tl_types::NoMemory;

/// What the options after a command say.
#[derive(Clone, Copy, Debug)]
pub(crate) struct Flags<'a> {
    /// Whether `--journal` is there.
    pub journal: bool,
    /// The value of `--crew`, where it is there.
    pub crew: Option<&'a str>,
}

/// The options after the first word, which is the command. `None` where other words stand there.
pub(crate) fn flags_of<'a>(alloc: Global, args: &'a [String]) -> Result<Option<Flags<'a>>, NoMemory>
    requires { has_dashes (map string_bytes args.now) ≡ false }
    ensures read { IfOk result (ReadsFlags (map string_bytes args.entry.now)) }
    ensures only { IfOk result (TakesFlags (map string_bytes args.entry.now)) }
{
    let journal = Arg::new(alloc, "journal")
        .long("journal")
        .action(ArgAction::SetTrue);
    let crew = Arg::new(alloc, "crew").long("crew").action(ArgAction::Set);
    let command = Command::new(alloc, "tachyon")
        .disable_help_flag(true)
        .arg(journal)?
        .arg(crew)?;
    let Some(matches) = matched(command, args)? else {
        return Ok(None);
    };
    Ok(Some(Flags {
        journal: matches.get_flag("journal"),
        crew: matches.get_str("crew"),
    }))
}
