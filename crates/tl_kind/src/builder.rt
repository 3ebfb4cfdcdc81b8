//! Expressions from the words and the parts of forms.

ghost use Rattle.std.specs.Prelude.{◌≡◌, ◌∷◌, [], map};
ghost use Rattle.tl_lang.specs.declared.expr.Expr.{out-Expr};
ghost use Rattle.tl_kind.specs.declared.word.Word.{Word};
ghost use Rattle.tl_kind.specs.Written.{an_expr, a_name, a_number, a_quote, quote, with_parts, written, with_one, with_two, with_three, with_name};

use crate::word::{Binding, One, Three, Two};
use tl_lang::{Boxed, Expr, Items, Name};
use tl_types::Bytes;

// The form with this part.
#[tactic(auto, unfolding(tl_lang::specs::Computing::computing))]
pub(crate) fn one(word: One, a: Boxed<Expr>) -> Expr
    ensures { written (out-Expr result) ≡ with_one word a }
{
    match word {
        One::Len => Expr::Len(a),
        One::Num => Expr::Num(a),
        One::Str => Expr::Str(a),
        One::Lines => Expr::Lines(a),
        One::Count => Expr::Count(a),
        One::Sort => Expr::Sort(a),
    }
}

// The form with these parts.
#[tactic(auto, unfolding(tl_lang::specs::Computing::computing))]
pub(crate) fn two(word: Two, a: Boxed<Expr>, b: Boxed<Expr>) -> Expr
    ensures { written (out-Expr result) ≡ with_two word a b }
{
    match word {
        Two::Cat => Expr::Cat(a, b),
        Two::Eq => Expr::Eq(a, b),
        Two::Has => Expr::Has(a, b),
        Two::Add => Expr::Add(a, b),
        Two::Minus => Expr::Minus(a, b),
        Two::Mul => Expr::Mul(a, b),
        Two::Div => Expr::Div(a, b),
        Two::Mod => Expr::Mod(a, b),
        Two::Lt => Expr::Lt(a, b),
        Two::Same => Expr::Same(a, b),
        Two::Split => Expr::Split(a, b),
        Two::Join => Expr::Join(a, b),
        Two::Append => Expr::Append(a, b),
        Two::At => Expr::At(a, b),
    }
}

// The form with these parts.
#[tactic(auto, unfolding(tl_lang::specs::Computing::computing))]
pub(crate) fn three(word: Three, a: Boxed<Expr>, b: Boxed<Expr>, c: Boxed<Expr>) -> Expr
    ensures { written (out-Expr result) ≡ with_three word a b c }
{
    match word {
        Three::Sub => Expr::Sub(a, b, c),
        Three::If => Expr::If(a, b, c),
    }
}

// The form with this name and these parts.
#[tactic(auto, unfolding(tl_lang::specs::Computing::computing))]
pub(crate) fn binding(word: Binding, name: Name, a: Boxed<Expr>, b: Boxed<Expr>) -> Expr
    ensures { written (out-Expr result) ≡ with_name word name a b }
{
    match word {
        Binding::Let => Expr::Let(name, a, b),
        Binding::Each => Expr::Each(name, a, b),
        Binding::Keep => Expr::Keep(name, a, b),
    }
}

// The form of a fold.
#[tactic(auto, unfolding(tl_lang::specs::Computing::computing))]
pub(crate) fn fold(so_far: Name, name: Name, m: Boxed<Expr>, i: Boxed<Expr>, a: Boxed<Expr>) -> Expr
    ensures { written (out-Expr result) ≡ with_parts Word.Fold (a_name so_far ∷ a_name name ∷ an_expr m ∷ an_expr i ∷ an_expr a ∷ []) }
{
    Expr::Fold(so_far, name, m, i, a)
}

// The form of a list.
#[tactic(auto, unfolding(tl_lang::specs::Computing::computing))]
pub(crate) fn list(parts: Vec<Expr>) -> Expr
    ensures { written (out-Expr result) ≡ with_parts Word.List (map an_expr parts.items) }
{
    Expr::List(Items::from_vec(parts))
}

// The form of an input.
#[tactic(auto, unfolding(tl_lang::specs::Computing::computing))]
pub(crate) fn input(number: u64) -> Expr
    ensures { written (out-Expr result) ≡ with_parts Word.Input (a_number number ∷ []) }
{
    Expr::Input(number)
}

// The form of a key.
#[tactic(auto, unfolding(tl_lang::specs::Computing::computing))]
pub(crate) fn key(key: Bytes) -> Expr
    ensures { written (out-Expr result) ≡ with_parts Word.Key (a_quote key ∷ []) }
{
    Expr::Key(key)
}

// The expression of a quoted text.
#[tactic(auto, unfolding(tl_lang::specs::Computing::computing))]
pub(crate) fn text(bytes: Bytes) -> Expr
    ensures { written (out-Expr result) ≡ quote bytes }
{
    Expr::Text(bytes)
}
