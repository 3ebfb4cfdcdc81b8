//! Facts about the definitions, each as the contract of a function that does nothing.
ghost use Rattle.std.specs.Prelude.{◌≡◌, ◌≢◌, ◌≤◌, ◌<◌, ℕ, ℤ, All, IsPermutation, IsSorted, IsTrue, List, length, Ok};
ghost use Rattle.std.specs.Cmp.Lexicographic.{slice_cmp};
ghost use Rattle.std.specs.Ordering.{nat_cmp};
ghost use Rattle.std.specs.Fmt.{signed_decimal};
ghost use Rattle.tl_types.specs.declared.outcome.Outcome as outcome;
ghost use Rattle.tl_types.specs.declared.outcome.Outcome.TheVariants.{Fault};
ghost use Rattle.tl_lang.specs.declared.expr.Expr.{out-Expr};
ghost use Rattle.tl_lang.specs.declared.kind.Kind.{Kind};
ghost use Rattle.tl_lang.specs.Fuel.{Enters};
ghost use Rattle.tl_lang.specs.Kinds.{Agree, EndsWith, IsOfKind, IsOutcome, kind_of, kinds_step};
ghost use Rattle.tl_lang.specs.Limits.{OnResult, given_within, is_within, literals_within, names_within};
ghost use Rattle.tl_lang.specs.Lists.{sorted};
ghost use Rattle.tl_lang.specs.Mean.{ending, entered_by, mean, outcome_of};
ghost use Rattle.tl_lang.specs.Meaning.{Given, evaluate, step};
ghost use Rattle.tl_lang.specs.Names.{Names};
ghost use Rattle.tl_lang.specs.Texts.{num};
ghost use Rattle.tl_lang.specs.Tree.{at_parts};
ghost use Rattle.tl_lang.specs.Value as value;
ghost use Rattle.tl_lang.specs.Value.{is_number};

use crate::checked::Checked;
use crate::expr::Expr;
use crate::program::Program;

/// Whatever fuel an expression is given, it enters the same expressions to the same end, as far as
/// the fuel lasts.
pub fn fuel_only_ends(_expr: &Expr)
    ensures { (given : Given) (names : Names value.Value) → Enters (evaluate given _expr.now names) }
{}

/// An expression of a kind gives a value of that kind or meets one of the faults 1 to 7, where the
/// visible names have values of their kinds: it meets no unbound name and no wrong kind.
pub fn kinds_are_kept(_expr: &Expr)
    ensures { (given : Given) (scope : Names Kind) (names : Names value.Value) (k : Kind) (fuel : ℕ) →
        kind_of (length given.inputs) _expr.now scope ≡ Ok k → Agree scope names →
        EndsWith (IsOfKind k) (evaluate given _expr.now names fuel) }
{}

/// A program has one outcome for each output.
pub fn one_outcome_each(_program: &Program)
    ensures { (conf : Names (List ℕ)) (inputs : List outcome.Outcome) (fuel : ℕ) →
        length (mean _program.now conf inputs fuel) ≡ length _program.now.outputs }
{}

/// More fuel than is enough changes nothing, and less than is used is not enough.
pub fn more_fuel_changes_nothing(_output: &Expr)
    ensures more { (given : Given) (fuel more : ℕ) → fuel ≤ more →
        outcome_of (ending given fuel _output.now) ≢ Fault 1 →
        outcome_of (ending given more _output.now) ≡ outcome_of (ending given fuel _output.now) }
    ensures less { (given : Given) (fuel units : ℕ) → units < entered_by given fuel _output.now →
        outcome_of (ending given fuel _output.now) ≢ Fault 1 →
        outcome_of (ending given units _output.now) ≡ Fault 1 }
{}

/// A text is read as a number exactly where it is the number's spelling.
pub fn numbers_are_spelled()
    ensures read { (n : ℤ) → IsTrue (is_number n) → num (signed_decimal n) ≡ Ok (value.number n) }
    ensures spelled { (s : List ℕ) (n : ℤ) → num s ≡ Ok (value.number n) → s ≡ signed_decimal n }
    ensures fits { (s : List ℕ) (n : ℤ) → num s ≡ Ok (value.number n) → IsTrue (is_number n) }
{}

/// `sorted` gives the one list that ascends by bytes and has the same texts.
pub fn sorting_is_unique()
    ensures ascends { (texts : List (List ℕ)) → IsSorted (slice_cmp nat_cmp) (sorted texts) }
    ensures permutes { (texts : List (List ℕ)) → IsPermutation texts (sorted texts) }
    ensures only { (texts others : List (List ℕ)) →
        IsPermutation texts others → IsSorted (slice_cmp nat_cmp) others → others ≡ sorted texts }
{}

/// An output of a checked program is a text or meets one of the faults 1 to 8, where there are as
/// many inputs as it was checked for.
pub fn checked_programs_end_well(checked: &Checked)
    ensures { (conf : Names (List ℕ)) (inputs : List outcome.Outcome) (fuel : ℕ) →
        length inputs ≡ checked.now.inputs →
        All IsOutcome (mean checked.now.program conf inputs fuel) }
{
    let _program = checked.program();
}

/// What an expression gives is within the limits of its kind, where its literals, the inputs, the
/// values of the configuration and those of the visible names are.
pub fn limits_are_kept(_expr: &Expr)
    ensures { (given : Given) (names : Names value.Value) (fuel : ℕ) →
        IsTrue (literals_within _expr.now) → IsTrue (given_within given) → IsTrue (names_within names) →
        OnResult (λ v. IsTrue (is_within v)) (evaluate given _expr.now names fuel) }
{}

/// What an expression gives, and its kind, by the form at its top.
pub fn forms_decide(_expr: &Expr)
    ensures kinds { (inputs : ℕ) → kind_of inputs _expr.now ≡ kinds_step inputs (at_parts (kind_of inputs) (out-Expr _expr.now)) }
    ensures meanings { (given : Given) → evaluate given _expr.now ≡ step given (at_parts (evaluate given) (out-Expr _expr.now)) }
{}
