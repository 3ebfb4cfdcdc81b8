//! Facts about texts and programs, each as the contract of a function that does nothing.

ghost use Rattle.std.specs.Prelude.{◌≡◌, ◌≢◌, ◌≤◌, ℕ, List, length, take};
ghost use Rattle.tl_text.specs.Place.{CanBegin, IsFirstBad};
ghost use Rattle.tl_lang.specs.declared.program.Program.{Program};
ghost use Rattle.tl_kind.specs.declared.lang_error.LangErrorKind.{LangErrorKind};
ghost use Rattle.tl_kind.specs.Written.{IsProgram, IsWithin, program_text};
ghost use Rattle.tl_kind.specs.Refusals.{IsRefusedAt, Spells};

/// No text spells two programs.
pub fn one_program()
    ensures { (text : List ℕ) (p q : Program) → IsProgram text p → IsProgram text q → p ≡ q }
{}

/// No program has two spellings: what is read is printed as it was.
pub fn one_spelling()
    ensures { (text : List ℕ) (program : Program) → IsProgram text program → text ≡ program_text program }
{}

/// What is printed of a program within the limits spells it, so that it is read again.
pub fn printed_is_read()
    ensures { (program : Program) → IsWithin program → IsProgram (program_text program) program }
{}

/// Where a text is refused, it spells no program.
pub fn refused_spells_nothing()
    ensures { (text : List ℕ) (at : ℕ) (kind : LangErrorKind) → IsRefusedAt text at kind → (program : Program) → ¬ IsProgram text program }
{}

/// A text within the length is refused at the first byte that no program's text has there, or where
/// it ends too early. A word that is no form's is refused at its first letter, before which a program
/// can still go on.
pub fn first_bad_byte()
    ensures place { (text : List ℕ) (at : ℕ) (kind : LangErrorKind) → length text ≤ 4096 → IsRefusedAt text at kind → kind ≢ LangErrorKind.UnknownForm → IsFirstBad Spells text at }
    ensures front { (text : List ℕ) (at : ℕ) (kind : LangErrorKind) → length text ≤ 4096 → IsRefusedAt text at kind → CanBegin Spells (take at text) }
{}
