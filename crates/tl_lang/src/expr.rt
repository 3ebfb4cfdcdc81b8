use crate::name::Name;
use sqlite_items::{Boxed, Items};
use tl_types::Bytes;

/// An expression of the job language. A variant is the form that begins with its word, with the
/// form's parts in their order, as `Cat(a, b)` for `(cat A B)`; a `Name` stands for a variable.
#[derive(Debug, Drop)]
pub enum Expr {
    /// A quoted text.
    Text(Bytes),
    /// A signed number.
    Number(i64),
    /// A variable's name.
    Var(Name),
    /// `(in K)`, the K-th input from 0.
    Input(u64),
    /// `(conf "key")`, the value of a key.
    Key(Bytes),
    Cat(Boxed<Expr>, Boxed<Expr>),
    Len(Boxed<Expr>),
    Sub(Boxed<Expr>, Boxed<Expr>, Boxed<Expr>),
    Eq(Boxed<Expr>, Boxed<Expr>),
    Has(Boxed<Expr>, Boxed<Expr>),
    Num(Boxed<Expr>),
    Str(Boxed<Expr>),
    Add(Boxed<Expr>, Boxed<Expr>),
    Minus(Boxed<Expr>, Boxed<Expr>),
    Mul(Boxed<Expr>, Boxed<Expr>),
    Div(Boxed<Expr>, Boxed<Expr>),
    Mod(Boxed<Expr>, Boxed<Expr>),
    Lt(Boxed<Expr>, Boxed<Expr>),
    Same(Boxed<Expr>, Boxed<Expr>),
    If(Boxed<Expr>, Boxed<Expr>, Boxed<Expr>),
    Let(Name, Boxed<Expr>, Boxed<Expr>),
    Lines(Boxed<Expr>),
    Split(Boxed<Expr>, Boxed<Expr>),
    Join(Boxed<Expr>, Boxed<Expr>),
    List(Items<Expr>),
    Append(Boxed<Expr>, Boxed<Expr>),
    At(Boxed<Expr>, Boxed<Expr>),
    Count(Boxed<Expr>),
    Sort(Boxed<Expr>),
    Each(Name, Boxed<Expr>, Boxed<Expr>),
    Keep(Name, Boxed<Expr>, Boxed<Expr>),
    Fold(Name, Name, Boxed<Expr>, Boxed<Expr>, Boxed<Expr>),
}
