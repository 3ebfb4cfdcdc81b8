//! Facts about scripts, each as the contract of a function that does nothing.

ghost use Rattle.std.specs.Prelude.{◌≡◌, ◌<◌, ◌≤◌, ◌^◌, ◌∷◌, ℕ, List};
ghost use Rattle.tl_model.specs.declared.header.Header.{Header};
ghost use Rattle.tl_script.specs.declared.bad_kind.BadKind.{BadKind};
ghost use Rattle.tl_script.specs.declared.script.Op.{Op};
ghost use Rattle.tl_script.specs.declared.script.Line.{Line};
ghost use Rattle.tl_script.specs.BadKinds.{bad_number};
ghost use Rattle.tl_script.specs.Places.{Place, command, Refused};
ghost use Rattle.tl_script.specs.Commands.{Says};
ghost use Rattle.tl_script.specs.Script.{LineSays, RefusedLine, IsScript, IsRefused};

/// No text says two commands.
pub fn one_command()
    ensures { (header : Header) (bytes : List ℕ) (op other : Op) → header.workers < 2 ^ 8 → Says header bytes op → Says header bytes other → op ≡ other }
{}

/// No command is refused.
pub fn refused_says_nothing()
    ensures { (header : Header) (bytes : List ℕ) (kind : BadKind) (op : Op) → header.workers < 2 ^ 8 → Refused (command header) (0x20 ∷ bytes) kind → ¬ Says header bytes op }
{}

/// Nothing is refused as two kinds.
pub fn one_kind()
    ensures { (place : Place) (bytes : List ℕ) (kind other : BadKind) → Refused place bytes kind → Refused place bytes other → kind ≡ other }
{}

/// A command alone is refused as its word, an argument, a path, a program or the kinds of one.
pub fn kinds_of_commands()
    ensures { (header : Header) (bytes : List ℕ) (kind : BadKind) → Refused (command header) bytes kind → (3 ≤ bad_number kind) × (bad_number kind ≤ 7) }
{}

/// No text is two scripts.
pub fn one_script()
    ensures { (lines : List (List ℕ)) (header header' : Header) (entries entries' : List Line) → IsScript lines header entries → IsScript lines header' entries'
        → (header ≡ header') × (entries ≡ entries') }
{}

/// No script is refused.
pub fn a_script_is_not_refused()
    ensures { (lines : List (List ℕ)) (header : Header) (entries : List Line) (at : ℕ) (kind : BadKind) → IsScript lines header entries → ¬ IsRefused lines at kind }
{}

/// No script is refused at two lines, or as two kinds.
pub fn one_refusal()
    ensures { (lines : List (List ℕ)) (at at' : ℕ) (kind kind' : BadKind) → IsRefused lines at kind → IsRefused lines at' kind' → (at ≡ at') × (kind ≡ kind') }
{}
