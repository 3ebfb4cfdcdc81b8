//! The kind rules, tested without memory.

ghost use Rattle.std.specs.Prelude.{◌≡◌, ◌&&◌, ◌∷◌, [], map, IfOk, if◌then◌else◌, nat_lt, ok_or, None};
ghost use Rattle.tl_lang.specs.Kinds.{kind_of, then_outputs, refusal_in, refusal, and_then, takes, branches, same_kind, wrong_kind, unbound, no_input};
ghost use Rattle.tl_lang.specs.Names.{visible};
ghost use Rattle.tl_kind.specs.Kinds.{judged, refusal_of, list_of, folded};
ghost use Rattle.tl_kind.specs.Scope.{names};

use crate::kind_error::{KindError, KindErrorKind};
use crate::scope::{Scope, kind_of_name};
use tl_lang::{Boxed, Checked, Expr, Kind, Name, Program};

/// The program with these numbers of inputs and outputs, where the kind rules hold of it; else the
/// first that it breaks. It takes no memory.
pub fn check(program: Program, inputs: u8, outputs: u8) -> Result<Checked, KindError>
    ensures exact { refusal_of result ≡ refusal program inputs outputs }
    ensures kept { IfOk result (λ c. c ≡ record { program = program; inputs = inputs; outputs = outputs }) }
{
    if program.outputs.len() != usize::from(outputs) {
        return Err(KindError {
            kind: KindErrorKind::Outputs,
        });
    }
    check_outputs(program.outputs.as_slice(), inputs)?;
    Ok(Checked::new(program, inputs, outputs))
}

// The output is a text.
fn check_output(output: &Expr, inputs: u8) -> Result<(), KindError>
    ensures { refusal_of result ≡ then_outputs (kind_of inputs output.now []) None }
{
    match kind_of(output, &Scope::Empty, inputs)? {
        Kind::Text => Ok(()),
        Kind::Number | Kind::List => refused(),
    }
}

// Each output is a text.
fn check_outputs(outputs: &[Expr], inputs: u8) -> Result<(), KindError>
    ensures { refusal_of result ≡ refusal_in inputs outputs.now }
{
    for output in outputs {
        check_output(output, inputs)?;
    }
    Ok(())
}

fn refused<T>() -> Result<T, KindError>
    ensures { result ≡ Err (record { kind = KindErrorKind.WrongKind }) }
{
    Err(KindError {
        kind: KindErrorKind::WrongKind,
    })
}

// Whether it is the same kind.
fn same(found: Kind, wanted: Kind) -> bool
    ensures { result ≡ same_kind found wanted }
{
    found == wanted
}

// Whether a part has the kind that is wanted of it, and the parts after it theirs.
fn fits(found: Kind, wanted: Kind, rest: bool) -> bool
    ensures { result ≡ (same_kind found wanted && rest) }
{
    same(found, wanted) && rest
}

// The kind where the parts have theirs.
fn gives(fit: bool, kind: Kind) -> Result<Kind, KindError>
    ensures { judged result ≡ (if fit then Ok kind else Err wrong_kind) }
{
    if fit { Ok(kind) } else { refused() }
}

// The kind of an expression.
#[cycle(kinds)]
fn kind_of(expr: &Expr, scope: &Scope<'_>, inputs: u8) -> Result<Kind, KindError>
    ensures { judged result ≡ kind_of inputs expr.now (names scope.now) }
{
    match expr {
        Expr::Text(_) | Expr::Key(_) => Ok(Kind::Text),
        Expr::Number(_) => Ok(Kind::Number),
        Expr::Var(name) => variable(name, scope),
        Expr::Input(number) => input(*number, inputs),
        Expr::Cat(a, b) => two(a, b, scope, inputs, (Kind::Text, Kind::Text), Kind::Text),
        Expr::Len(a) => one(a, scope, inputs, Kind::Text, Kind::Number),
        Expr::Sub(a, i, j) => part_of(a, i, j, scope, inputs),
        Expr::Eq(a, b) => two(a, b, scope, inputs, (Kind::Text, Kind::Text), Kind::Number),
        Expr::Has(a, b) => two(a, b, scope, inputs, (Kind::Text, Kind::Text), Kind::Number),
        Expr::Num(a) => one(a, scope, inputs, Kind::Text, Kind::Number),
        Expr::Str(a) => one(a, scope, inputs, Kind::Number, Kind::Text),
        Expr::Add(a, b) => two(
            a,
            b,
            scope,
            inputs,
            (Kind::Number, Kind::Number),
            Kind::Number,
        ),
        Expr::Minus(a, b) => two(
            a,
            b,
            scope,
            inputs,
            (Kind::Number, Kind::Number),
            Kind::Number,
        ),
        Expr::Mul(a, b) => two(
            a,
            b,
            scope,
            inputs,
            (Kind::Number, Kind::Number),
            Kind::Number,
        ),
        Expr::Div(a, b) => two(
            a,
            b,
            scope,
            inputs,
            (Kind::Number, Kind::Number),
            Kind::Number,
        ),
        Expr::Mod(a, b) => two(
            a,
            b,
            scope,
            inputs,
            (Kind::Number, Kind::Number),
            Kind::Number,
        ),
        Expr::Lt(a, b) => two(
            a,
            b,
            scope,
            inputs,
            (Kind::Number, Kind::Number),
            Kind::Number,
        ),
        Expr::Same(a, b) => two(
            a,
            b,
            scope,
            inputs,
            (Kind::Number, Kind::Number),
            Kind::Number,
        ),
        Expr::If(c, a, b) => branch(c, a, b, scope, inputs),
        Expr::Let(name, a, b) => binding(name, a, b, scope, inputs),
        Expr::Lines(a) => one(a, scope, inputs, Kind::Text, Kind::List),
        Expr::Split(a, b) => two(a, b, scope, inputs, (Kind::Text, Kind::Text), Kind::List),
        Expr::Join(a, b) => two(a, b, scope, inputs, (Kind::List, Kind::Text), Kind::Text),
        Expr::List(parts) => texts(parts.as_slice(), scope, inputs),
        Expr::Append(a, b) => two(a, b, scope, inputs, (Kind::List, Kind::Text), Kind::List),
        Expr::At(a, b) => two(a, b, scope, inputs, (Kind::List, Kind::Number), Kind::Text),
        Expr::Count(a) => one(a, scope, inputs, Kind::List, Kind::Number),
        Expr::Sort(a) => one(a, scope, inputs, Kind::List, Kind::List),
        Expr::Each(name, m, a) => items(name, m, a, scope, inputs, Kind::Text),
        Expr::Keep(name, m, a) => items(name, m, a, scope, inputs, Kind::Number),
        Expr::Fold(so_far, name, m, i, a) => fold(so_far, name, m, i, a, scope, inputs),
    }
}

// The kind of a name.
fn variable(name: &Name, scope: &Scope<'_>) -> Result<Kind, KindError>
    ensures { judged result ≡ ok_or (visible name.now (names scope.now)) unbound }
{
    match kind_of_name(scope, name) {
        Some(kind) => Ok(kind),
        None => Err(KindError {
            kind: KindErrorKind::Unbound,
        }),
    }
}

// The kind of an input.
fn input(number: u64, inputs: u8) -> Result<Kind, KindError>
    ensures { judged result ≡ (if nat_lt number inputs then Ok Kind.Text else Err no_input) }
{
    if number < u64::from(inputs) {
        return Ok(Kind::Text);
    }
    Err(KindError {
        kind: KindErrorKind::NoInput,
    })
}

// The kind of a form with a part of this kind.
#[cycle(kinds)]
fn one(
    a: &Boxed<Expr>,
    scope: &Scope<'_>,
    inputs: u8,
    wanted: Kind,
    kind: Kind,
) -> Result<Kind, KindError>
    ensures { judged result ≡ takes (wanted ∷ []) kind (kind_of inputs a.now (names scope.now) ∷ []) }
{
    let found = kind_of(a.get(), scope, inputs)?;
    gives(fits(found, wanted, true), kind)
}

// The kind of a form with two parts of these kinds.
#[cycle(kinds)]
fn two(
    a: &Boxed<Expr>,
    b: &Boxed<Expr>,
    scope: &Scope<'_>,
    inputs: u8,
    wanted: (Kind, Kind),
    kind: Kind,
) -> Result<Kind, KindError>
    ensures { judged result ≡ takes (wanted.0 ∷ wanted.1 ∷ []) kind (kind_of inputs a.now (names scope.now) ∷ kind_of inputs b.now (names scope.now) ∷ []) }
{
    let first = kind_of(a.get(), scope, inputs)?;
    let second = kind_of(b.get(), scope, inputs)?;
    gives(fits(first, wanted.0, fits(second, wanted.1, true)), kind)
}

// The kind of a part of a text, between two numbers.
#[cycle(kinds)]
fn part_of(
    a: &Boxed<Expr>,
    i: &Boxed<Expr>,
    j: &Boxed<Expr>,
    scope: &Scope<'_>,
    inputs: u8,
) -> Result<Kind, KindError>
    ensures { judged result ≡ takes (Kind.Text ∷ Kind.Number ∷ Kind.Number ∷ []) Kind.Text (kind_of inputs a.now (names scope.now) ∷ kind_of inputs i.now (names scope.now) ∷ kind_of inputs j.now (names scope.now) ∷ []) }
{
    let text = kind_of(a.get(), scope, inputs)?;
    let start = kind_of(i.get(), scope, inputs)?;
    let end = kind_of(j.get(), scope, inputs)?;
    let numbers = fits(start, Kind::Number, fits(end, Kind::Number, true));
    gives(fits(text, Kind::Text, numbers), Kind::Text)
}

// The kind of a choice by a number, which is that of both branches.
#[cycle(kinds)]
fn branch(
    c: &Boxed<Expr>,
    a: &Boxed<Expr>,
    b: &Boxed<Expr>,
    scope: &Scope<'_>,
    inputs: u8,
) -> Result<Kind, KindError>
    ensures { judged result ≡ branches (kind_of inputs c.now (names scope.now)) (kind_of inputs a.now (names scope.now)) (kind_of inputs b.now (names scope.now)) }
{
    let test = kind_of(c.get(), scope, inputs)?;
    let first = kind_of(a.get(), scope, inputs)?;
    let second = kind_of(b.get(), scope, inputs)?;
    gives(fits(test, Kind::Number, same(first, second)), first)
}

// The kind of a body that sees one more name.
#[cycle(kinds)]
fn binding(
    name: &Name,
    a: &Boxed<Expr>,
    b: &Boxed<Expr>,
    scope: &Scope<'_>,
    inputs: u8,
) -> Result<Kind, KindError>
    ensures { judged result ≡ and_then (kind_of inputs a.now (names scope.now)) (λ k. kind_of inputs b.now ((name.now, k) ∷ names scope.now)) }
{
    let kind = kind_of(a.get(), scope, inputs)?;
    kind_of(b.get(), &Scope::Inner(name, kind, &*scope), inputs)
}

// The kind of a list of parts.
#[cycle(kinds)]
fn texts(parts: &[Expr], scope: &Scope<'_>, inputs: u8) -> Result<Kind, KindError>
    ensures { judged result ≡ list_of (map (λ a. kind_of inputs a (names scope.now)) parts.now) }
{
    let mut are_texts = true;
    for part in parts {
        let kind = kind_of(part, scope, inputs)?;
        are_texts = fits(kind, Kind::Text, are_texts);
    }
    gives(are_texts, Kind::List)
}

// The kind of a form that goes over the items of a list, by a body of this kind that sees the item.
#[cycle(kinds)]
fn items(
    name: &Name,
    m: &Boxed<Expr>,
    a: &Boxed<Expr>,
    scope: &Scope<'_>,
    inputs: u8,
    wanted: Kind,
) -> Result<Kind, KindError>
    ensures { judged result ≡ takes (Kind.List ∷ wanted ∷ []) Kind.List (kind_of inputs m.now (names scope.now) ∷ kind_of inputs a.now ((name.now, Kind.Text) ∷ names scope.now) ∷ []) }
{
    let list = kind_of(m.get(), scope, inputs)?;
    let body = kind_of(a.get(), &Scope::Inner(name, Kind::Text, &*scope), inputs)?;
    gives(fits(list, Kind::List, fits(body, wanted, true)), Kind::List)
}

// The kind of a fold over a list, by a body that sees the value so far and the item.
#[cycle(kinds)]
fn fold(
    so_far: &Name,
    name: &Name,
    m: &Boxed<Expr>,
    i: &Boxed<Expr>,
    a: &Boxed<Expr>,
    scope: &Scope<'_>,
    inputs: u8,
) -> Result<Kind, KindError>
    ensures { judged result ≡ folded (kind_of inputs m.now (names scope.now)) (kind_of inputs i.now (names scope.now))
        (λ k. kind_of inputs a.now ((name.now, Kind.Text) ∷ (so_far.now, k) ∷ names scope.now)) }
{
    let list = kind_of(m.get(), scope, inputs)?;
    let start = kind_of(i.get(), scope, inputs)?;
    let outer = Scope::Inner(so_far, start, &*scope);
    let body = kind_of(a.get(), &Scope::Inner(name, Kind::Text, &outer), inputs)?;
    gives(fits(list, Kind::List, fits(body, start, true)), start)
}
