//! Expressions are read at a cursor. Where one is refused, the cursor stands at the first byte that
//! can't stand there.

ghost use Rattle.std.specs.Prelude.{◌≡◌, ℕ, suc, List, ◌∷◌, true, false, IfOk, IfErr, IsSome};
ghost use Rattle.tl_kind.specs.declared.begin.Begin.{Begin};
ghost use Rattle.tl_kind.specs.declared.word.Word.{Word};
ghost use Rattle.tl_kind.specs.Written.{an_expr, a_name};
ghost use Rattle.tl_kind.specs.Refusals.{expr, name, missing, part, inner, after, Head, IsPart, Refused};
ghost use Rattle.tl_kind.specs.Reading.{StopsAs, NextIs, NextRefused, IsForm, AreAll, TakesUpTo, begin_of};

use crate::begin::{Begin, begin_of};
use crate::builder;
use crate::cursor::Cursor;
use crate::lang_error::LangErrorKind;
use crate::stop::Stop;
use crate::token::{begun_quote, expect, name, number, quoted, signed, word};
use crate::word::{Binding, One, Three, Two, Word};
use std::alloc::Global;
use tl_lang::{Boxed, Expr, Name};

/// The greatest number of parts of a list.
const LIST_LIMIT: usize = 16;

// Reads an expression, in which so many parentheses may be open at once.
#[cycle(reading)]
fn expression(alloc: Global, cursor: &mut Cursor<'_>, room: u8) -> Result<Expr, Stop>
    ensures found { IfOk result (λ e. IsPart room cursor.old.rest.now (an_expr e) cursor.new.rest.now) }
    ensures bad { IfErr result (StopsAs (Refused (part expr room) cursor.old.rest.now) cursor.new.rest.now) }
{
    match begin_of(cursor.rest) {
        Begin::Nothing => Err(Stop::Refused(LangErrorKind::End)),
        Begin::Other => Err(Stop::Refused(LangErrorKind::Unexpected)),
        Begin::Quote => Ok(builder::text(begun_quote(alloc, cursor)?)),
        Begin::Number => Ok(Expr::Number(signed(cursor)?)),
        Begin::Name => Ok(Expr::Var(name(alloc, cursor)?)),
        Begin::Form => nested(alloc, cursor, room),
    }
}

// Reads a form, which has begun.
#[cycle(reading)]
fn nested(alloc: Global, cursor: &mut Cursor<'_>, room: u8) -> Result<Expr, Stop>
    requires { begin_of cursor.old.rest.now ≡ Begin.Form }
    ensures found { IfOk result (λ e. IsPart room cursor.old.rest.now (an_expr e) cursor.new.rest.now) }
    ensures bad { IfErr result (StopsAs (Refused (part expr room) cursor.old.rest.now) cursor.new.rest.now) }
{
    if room == 0 {
        return Err(Stop::Refused(LangErrorKind::TooDeep));
    }
    let (_, rest) = cursor.rest.split_at(1);
    cursor.rest = rest;
    form(alloc, cursor, room - 1)
}

// Reads a form after its parenthesis.
#[cycle(reading)]
fn form(alloc: Global, cursor: &mut Cursor<'_>, room: u8) -> Result<Expr, Stop>
    ensures found { IfOk result (λ e. IsPart (suc room) (0x28 ∷ cursor.old.rest.now) (an_expr e) cursor.new.rest.now) }
    ensures bad { IfErr result (StopsAs (Refused (part expr (suc room)) (0x28 ∷ cursor.old.rest.now)) cursor.new.rest.now) }
{
    let word = word(cursor)?;
    parts(word, alloc, cursor, room)
}

// Reads the parts of a form.
#[cycle(reading)]
fn parts(word: Word, alloc: Global, cursor: &mut Cursor<'_>, room: u8) -> Result<Expr, Stop>
    ensures found { IfOk result (λ e. IsForm room word cursor.old.rest.now e cursor.new.rest.now) }
    ensures bad { IfErr result (StopsAs (Refused (after (inner word) 0 room) cursor.old.rest.now) cursor.new.rest.now) }
{
    match word {
        Word::Input => input(cursor, room),
        Word::Key => key(alloc, cursor, room),
        Word::One(word) => one(word, alloc, cursor, room),
        Word::Two(word) => two(word, alloc, cursor, room),
        Word::Three(word) => three(word, alloc, cursor, room),
        Word::Binding(word) => binding(word, alloc, cursor, room),
        Word::Fold => fold(alloc, cursor, room),
        Word::List => list(alloc, cursor, room),
    }
}

// Reads a space and an expression.
#[cycle(reading)]
fn next_part(alloc: Global, cursor: &mut Cursor<'_>, room: u8) -> Result<Boxed<Expr>, Stop>
    ensures found { IfOk result (λ e. NextIs room cursor.old.rest.now (an_expr e) cursor.new.rest.now) }
    ensures bad { IfErr result (StopsAs (NextRefused expr room cursor.old.rest.now) cursor.new.rest.now) }
{
    expect(cursor, b' ')?;
    let expr = expression(alloc, cursor, room)?;
    Ok(Boxed::new(alloc, expr)?)
}

// Reads a space and a name.
fn next_name(alloc: Global, cursor: &mut Cursor<'_>) -> Result<Name, Stop>
    ensures found { IfOk result (λ x. (room : ℕ) → NextIs room cursor.old.rest.now (a_name x) cursor.new.rest.now) }
    ensures bad { IfErr result (λ stop. (room : ℕ) → StopsAs (NextRefused name room cursor.old.rest.now) cursor.new.rest.now stop) }
{
    expect(cursor, b' ')?;
    name(alloc, cursor)
}

// Reads the number of an input, and the end.
fn input(cursor: &mut Cursor<'_>, room: u8) -> Result<Expr, Stop>
    ensures found { IfOk result (λ e. IsForm room Word.Input cursor.old.rest.now e cursor.new.rest.now) }
    ensures bad { IfErr result (StopsAs (Refused (after (inner Word.Input) 0 room) cursor.old.rest.now) cursor.new.rest.now) }
{
    expect(cursor, b' ')?;
    let number = number(cursor)?;
    expect(cursor, b')')?;
    Ok(builder::input(number))
}

// Reads a key, and the end.
fn key(alloc: Global, cursor: &mut Cursor<'_>, room: u8) -> Result<Expr, Stop>
    ensures found { IfOk result (λ e. IsForm room Word.Key cursor.old.rest.now e cursor.new.rest.now) }
    ensures bad { IfErr result (StopsAs (Refused (after (inner Word.Key) 0 room) cursor.old.rest.now) cursor.new.rest.now) }
{
    expect(cursor, b' ')?;
    let bytes = quoted(alloc, cursor)?;
    expect(cursor, b')')?;
    Ok(builder::key(bytes))
}

// Reads one expression, and the end.
#[cycle(reading)]
fn one(word: One, alloc: Global, cursor: &mut Cursor<'_>, room: u8) -> Result<Expr, Stop>
    ensures found { IfOk result (λ e. IsForm room (Word.One word) cursor.old.rest.now e cursor.new.rest.now) }
    ensures bad { IfErr result (StopsAs (Refused (after (inner (Word.One word)) 0 room) cursor.old.rest.now) cursor.new.rest.now) }
{
    let a = next_part(alloc, cursor, room)?;
    expect(cursor, b')')?;
    Ok(builder::one(word, a))
}

// Reads two expressions, and the end.
#[cycle(reading)]
fn two(word: Two, alloc: Global, cursor: &mut Cursor<'_>, room: u8) -> Result<Expr, Stop>
    ensures found { IfOk result (λ e. IsForm room (Word.Two word) cursor.old.rest.now e cursor.new.rest.now) }
    ensures bad { IfErr result (StopsAs (Refused (after (inner (Word.Two word)) 0 room) cursor.old.rest.now) cursor.new.rest.now) }
{
    let a = next_part(alloc, cursor, room)?;
    let b = next_part(alloc, cursor, room)?;
    expect(cursor, b')')?;
    Ok(builder::two(word, a, b))
}

// Reads three expressions, and the end.
#[cycle(reading)]
fn three(word: Three, alloc: Global, cursor: &mut Cursor<'_>, room: u8) -> Result<Expr, Stop>
    ensures found { IfOk result (λ e. IsForm room (Word.Three word) cursor.old.rest.now e cursor.new.rest.now) }
    ensures bad { IfErr result (StopsAs (Refused (after (inner (Word.Three word)) 0 room) cursor.old.rest.now) cursor.new.rest.now) }
{
    let a = next_part(alloc, cursor, room)?;
    let b = next_part(alloc, cursor, room)?;
    let c = next_part(alloc, cursor, room)?;
    expect(cursor, b')')?;
    Ok(builder::three(word, a, b, c))
}

// Reads a name and two expressions, and the end.
#[cycle(reading)]
fn binding(word: Binding, alloc: Global, cursor: &mut Cursor<'_>, room: u8) -> Result<Expr, Stop>
    ensures found { IfOk result (λ e. IsForm room (Word.Binding word) cursor.old.rest.now e cursor.new.rest.now) }
    ensures bad { IfErr result (StopsAs (Refused (after (inner (Word.Binding word)) 0 room) cursor.old.rest.now) cursor.new.rest.now) }
{
    let name = next_name(alloc, cursor)?;
    let a = next_part(alloc, cursor, room)?;
    let b = next_part(alloc, cursor, room)?;
    expect(cursor, b')')?;
    Ok(builder::binding(word, name, a, b))
}

// Reads the names and the expressions of a fold, and the end.
#[cycle(reading)]
fn fold(alloc: Global, cursor: &mut Cursor<'_>, room: u8) -> Result<Expr, Stop>
    ensures found { IfOk result (λ e. IsForm room Word.Fold cursor.old.rest.now e cursor.new.rest.now) }
    ensures bad { IfErr result (StopsAs (Refused (after (inner Word.Fold) 0 room) cursor.old.rest.now) cursor.new.rest.now) }
{
    let so_far = next_name(alloc, cursor)?;
    let name = next_name(alloc, cursor)?;
    let m = next_part(alloc, cursor, room)?;
    let i = next_part(alloc, cursor, room)?;
    let a = next_part(alloc, cursor, room)?;
    expect(cursor, b')')?;
    Ok(builder::fold(so_far, name, m, i, a))
}

// Reads the parts of a list, and the end.
#[cycle(reading)]
fn list(alloc: Global, cursor: &mut Cursor<'_>, room: u8) -> Result<Expr, Stop>
    ensures found { IfOk result (λ e. IsForm room Word.List cursor.old.rest.now e cursor.new.rest.now) }
    ensures bad { IfErr result (StopsAs (Refused (after (inner Word.List) 0 room) cursor.old.rest.now) cursor.new.rest.now) }
{
    let parts = several(alloc, cursor, room, LIST_LIMIT)?;
    expect(cursor, b')')?;
    Ok(builder::list(parts))
}

// Whether a space stands first.
fn begins_with_space(text: &[u8]) -> bool
    ensures space { result ≡ true → (more : List ℕ) × (text.now ≡ 0x20 ∷ more) }
    ensures none { result ≡ false → IsSome (missing 0x20 text.now) }
{
    match text.split_first() {
        None => false,
        Some((first, _)) => *first == b' ',
    }
}

// Reads expressions, each after a space, as many as stand there up to the limit.
#[cycle(reading)]
pub(crate) fn several(
    alloc: Global,
    cursor: &mut Cursor<'_>,
    room: u8,
    limit: usize,
) -> Result<Vec<Expr>, Stop>
    ensures found { IfOk result (λ v. AreAll room limit cursor.old.rest.now v.items cursor.new.rest.now) }
    ensures bad { IfErr result (λ stop. (head : Head) → TakesUpTo head limit → StopsAs (Refused (after head 0 room) cursor.old.rest.now) cursor.new.rest.now stop) }
{
    let mut parts = Vec::new(alloc);
    for _ in 0..limit {
        if !begins_with_space(cursor.rest) {
            return Ok(parts);
        }
        expect(cursor, b' ')?;
        parts.push(expression(alloc, cursor, room)?)?;
    }
    Ok(parts)
}
