//! The words as `clap` matches them.

ghost use Rattle.std.specs.Prelude.{◌≡◌, ◌≢◌, [], true, IfOk, IfSome, MatchOption, map};
ghost use Rattle.std.specs.Prelude.{string_bytes};
ghost use Rattle.clap.specs.Words.{HasMatchesOf, app_of, fault_of, is_simple_and_free};

use clap::error::ErrorKind;
use clap::{ArgMatches, Command};
use tl_types::NoMemory;

/// The matches of the command's arguments. `None` where it does not take the words.
pub(crate) fn matched<'a>(
    command: Command<'a>,
    args: &'a [String],
) -> Result<Option<ArgMatches<'a>>, NoMemory>
    ensures matches { IfOk result (λ said. IfSome said
        (HasMatchesOf (app_of command.entry) (map string_bytes args.entry.now))) }
    ensures taken { is_simple_and_free (app_of command.entry) ≡ true
        → IfOk result (λ said. MatchOption said
        (fault_of (app_of command.entry) (map string_bytes args.entry.now) ≢ [])
        (λ _. fault_of (app_of command.entry) (map string_bytes args.entry.now) ≡ [])) }
{
    match command.try_get_matches_from(args) {
        Ok(matches) => Ok(Some(matches)),
        Err(error) if error.kind() == ErrorKind::OutOfMemory => Err(NoMemory),
        Err(_) => Ok(None),
    }
}
