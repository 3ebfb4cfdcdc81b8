//! The program's words.

ghost use Rattle.std.specs.Prelude.{◌≡◌, ◌≢◌, ◌↔◌, List, ℕ, IfSome, IsTrue, vec_len};
ghost use Rattle.tl_model.specs.declared.header.Header.{Header};
ghost use Rattle.tl_script.specs.declared.script.Line.{Line};
ghost use Rattle.tl_script.specs.Lines.{lines_of};
ghost use Rattle.tl_script.specs.Script.{IsScript};
ghost use Rattle.tl_run.specs.Alone.{EndsWith, IsAlone, Kept, RefusesWords};

use crate::alone::{alone_call, finish};
use crate::status::Status;
use std::alloc::Global;
use tl_io::{Depot, Sink, Source};

/// The program: does what the words say and answers the exit status. The words are exactly
/// `alone`; others are refused by the line `words` and status 2, and then nothing is read.
pub fn tachyon<I: Source, O: Sink, D: Depot>(
    alloc: Global,
    words: &[String],
    input: &mut I,
    output: &mut O,
    depots: &mut Vec<D>,
) -> u8
    requires { vec_len depots.old ≡ 16 }

    ensures alone { IsAlone words.now → (kept : Kept) × EndsWith
        (record { left = I.left input.old; given = I.given input.old; faults = I.faults input.old })
        (record { left = I.left input.new; given = I.given input.new; faults = I.faults input.new })
        kept
        (record { bytes = O.held output.old; faults = O.faults output.old })
        (record { bytes = O.held output.new; faults = O.faults output.new })
        result }

    // A script is never refused.
    ensures accepted { IsAlone words.now → IfSome (I.left input.old) (λ bytes.
        (header : Header) (lines : List Line) → IsScript (lines_of bytes) header lines → result ≢ 3) }

    // Other words are refused, and nothing is read.
    ensures words { ¬ IsAlone words.now → RefusesWords
        (record { bytes = O.held output.old; faults = O.faults output.old })
        (record { bytes = O.held output.new; faults = O.faults output.new })
        result }
    ensures unread { ¬ IsAlone words.now → input.new ≡ input.old }
    ensures depots { depots.new ≡ depots.old }
{
    if is_alone(words) {
        alone_call(alloc, false, input, output, depots).status
    } else {
        finish(output, Status::BadWords, b"words\n").code()
    }
}

// Whether the one word is `alone`.
fn is_alone(words: &[String]) -> bool
    ensures { IsTrue result ↔ IsAlone words.now }
{
    match words {
        [word] => word.as_str() == "alone",
        _ => false,
    }
}
