//! Programs are printed, each in its one spelling.

ghost use Rattle.std.specs.Prelude.{◌≡◌, ◌∷◌, [], ◌++◌, codes, length, map, take, OnOk, OnErr};
ghost use Rattle.tl_kind.specs.Written.{an_expr, a_name, a_number, a_quote, form_text, parts_text, spelling, program_text};

use tl_lang::{Boxed, Expr, Name, Program};
use tl_text::{print_number, print_quoted, print_signed};
use tl_types::NoMemory;

/// Appends the one spelling of the program. An `Err` leaves `out` as it was.
pub fn print(out: &mut Vec<u8>, program: &Program) -> Result<(), NoMemory>
    ensures ok { OnOk result (out.new.items ≡ out.old.items ++ program_text program.now) }
    ensures err { OnErr result (out.new.items ≡ out.old.items) }
{
    let start = out.len();
    let printed = list(out, b"job", program.outputs.as_slice());
    if printed.is_err() {
        out.truncate(start);
    }
    printed
}

// Appends the expression, or some front of its spelling.
#[cycle(printing)]
fn expression(out: &mut Vec<u8>, expr: &Expr) -> Result<(), NoMemory>
    ensures ok { OnOk result (out.new.items ≡ out.old.items ++ spelling expr.now) }
    ensures err { OnErr result (take (length out.old.items) out.new.items ≡ out.old.items) }
{
    match expr {
        Expr::Text(text) => print_quoted(out, text.as_slice()),
        Expr::Number(number) => print_signed(out, *number),
        Expr::Var(name) => word(out, name.as_slice()),
        Expr::Input(number) => input(out, *number),
        Expr::Key(key) => quoted_key(out, key.as_slice()),
        Expr::Cat(a, b) => two(out, b"cat", a, b),
        Expr::Len(a) => one(out, b"len", a),
        Expr::Sub(a, b, c) => three(out, b"sub", a, b, c),
        Expr::Eq(a, b) => two(out, b"eq", a, b),
        Expr::Has(a, b) => two(out, b"has", a, b),
        Expr::Num(a) => one(out, b"num", a),
        Expr::Str(a) => one(out, b"str", a),
        Expr::Add(a, b) => two(out, b"add", a, b),
        Expr::Minus(a, b) => two(out, b"minus", a, b),
        Expr::Mul(a, b) => two(out, b"mul", a, b),
        Expr::Div(a, b) => two(out, b"div", a, b),
        Expr::Mod(a, b) => two(out, b"mod", a, b),
        Expr::Lt(a, b) => two(out, b"lt", a, b),
        Expr::Same(a, b) => two(out, b"same", a, b),
        Expr::If(a, b, c) => three(out, b"if", a, b, c),
        Expr::Let(name, a, b) => binding(out, b"let", name, a, b),
        Expr::Lines(a) => one(out, b"lines", a),
        Expr::Split(a, b) => two(out, b"split", a, b),
        Expr::Join(a, b) => two(out, b"join", a, b),
        Expr::List(parts) => list(out, b"list", parts.as_slice()),
        Expr::Append(a, b) => two(out, b"append", a, b),
        Expr::At(a, b) => two(out, b"at", a, b),
        Expr::Count(a) => one(out, b"count", a),
        Expr::Sort(a) => one(out, b"sort", a),
        Expr::Each(name, a, b) => binding(out, b"each", name, a, b),
        Expr::Keep(name, a, b) => binding(out, b"keep", name, a, b),
        Expr::Fold(so_far, name, m, i, a) => fold(out, so_far, name, m, i, a),
    }
}

// Appends the bytes.
fn word(out: &mut Vec<u8>, bytes: &[u8]) -> Result<(), NoMemory>
    ensures ok { OnOk result (out.new.items ≡ out.old.items ++ bytes.now) }
    ensures err { OnErr result (take (length out.old.items) out.new.items ≡ out.old.items) }
{
    out.extend_from_slice(bytes)?;
    Ok(())
}

// Appends `(` and a form's word.
fn open(out: &mut Vec<u8>, bytes: &[u8]) -> Result<(), NoMemory>
    ensures ok { OnOk result (out.new.items ≡ out.old.items ++ 0x28 ∷ bytes.now) }
    ensures err { OnErr result (take (length out.old.items) out.new.items ≡ out.old.items) }
{
    out.push(b'(')?;
    word(out, bytes)
}

// Appends `)`.
fn close(out: &mut Vec<u8>) -> Result<(), NoMemory>
    ensures ok { OnOk result (out.new.items ≡ out.old.items ++ 0x29 ∷ []) }
    ensures err { OnErr result (take (length out.old.items) out.new.items ≡ out.old.items) }
{
    out.push(b')')?;
    Ok(())
}

// Appends a space and an expression, or some front of that.
#[cycle(printing)]
fn part(out: &mut Vec<u8>, expr: &Expr) -> Result<(), NoMemory>
    ensures ok { OnOk result (out.new.items ≡ out.old.items ++ 0x20 ∷ spelling expr.now) }
    ensures err { OnErr result (take (length out.old.items) out.new.items ≡ out.old.items) }
{
    out.push(b' ')?;
    expression(out, expr)
}

// Appends a space and a name, or some front of that.
fn name_part(out: &mut Vec<u8>, name: &Name) -> Result<(), NoMemory>
    ensures ok { OnOk result (out.new.items ≡ out.old.items ++ 0x20 ∷ name.now) }
    ensures err { OnErr result (take (length out.old.items) out.new.items ≡ out.old.items) }
{
    out.push(b' ')?;
    word(out, name.as_slice())
}

// Appends an input's form, or some front of it.
fn input(out: &mut Vec<u8>, number: u64) -> Result<(), NoMemory>
    ensures ok { OnOk result (out.new.items ≡ out.old.items ++ form_text (codes "in") (a_number number ∷ [])) }
    ensures err { OnErr result (take (length out.old.items) out.new.items ≡ out.old.items) }
{
    word(out, b"(in ")?;
    print_number(out, number)?;
    close(out)
}

// Appends a key's form, or some front of it.
fn quoted_key(out: &mut Vec<u8>, key: &[u8]) -> Result<(), NoMemory>
    ensures ok { OnOk result (out.new.items ≡ out.old.items ++ form_text (codes "conf") (a_quote key.now ∷ [])) }
    ensures err { OnErr result (take (length out.old.items) out.new.items ≡ out.old.items) }
{
    word(out, b"(conf ")?;
    print_quoted(out, key)?;
    close(out)
}

// Appends a form with one part, or some front of it.
#[cycle(printing)]
fn one(out: &mut Vec<u8>, bytes: &[u8], a: &Boxed<Expr>) -> Result<(), NoMemory>
    ensures ok { OnOk result (out.new.items ≡ out.old.items ++ form_text bytes.now (an_expr (spelling a.now) ∷ [])) }
    ensures err { OnErr result (take (length out.old.items) out.new.items ≡ out.old.items) }
{
    open(out, bytes)?;
    part(out, a.get())?;
    close(out)
}

// Appends a form with two parts, or some front of it.
#[cycle(printing)]
fn two(out: &mut Vec<u8>, bytes: &[u8], a: &Boxed<Expr>, b: &Boxed<Expr>) -> Result<(), NoMemory>
    ensures ok { OnOk result (out.new.items ≡ out.old.items ++ form_text bytes.now (an_expr (spelling a.now) ∷ an_expr (spelling b.now) ∷ [])) }
    ensures err { OnErr result (take (length out.old.items) out.new.items ≡ out.old.items) }
{
    open(out, bytes)?;
    part(out, a.get())?;
    part(out, b.get())?;
    close(out)
}

// Appends the last three parts of a form, or some front of that.
#[cycle(printing)]
fn three_parts(
    out: &mut Vec<u8>,
    a: &Boxed<Expr>,
    b: &Boxed<Expr>,
    c: &Boxed<Expr>,
) -> Result<(), NoMemory>
    ensures ok { OnOk result (out.new.items ≡ out.old.items ++ parts_text (an_expr (spelling a.now) ∷ an_expr (spelling b.now) ∷ an_expr (spelling c.now) ∷ [])) }
    ensures err { OnErr result (take (length out.old.items) out.new.items ≡ out.old.items) }
{
    part(out, a.get())?;
    part(out, b.get())?;
    part(out, c.get())?;
    close(out)
}

// Appends a form with three parts, or some front of it.
#[cycle(printing)]
fn three(
    out: &mut Vec<u8>,
    bytes: &[u8],
    a: &Boxed<Expr>,
    b: &Boxed<Expr>,
    c: &Boxed<Expr>,
) -> Result<(), NoMemory>
    ensures ok { OnOk result (out.new.items ≡ out.old.items ++ form_text bytes.now (an_expr (spelling a.now) ∷ an_expr (spelling b.now) ∷ an_expr (spelling c.now) ∷ [])) }
    ensures err { OnErr result (take (length out.old.items) out.new.items ≡ out.old.items) }
{
    open(out, bytes)?;
    three_parts(out, a, b, c)
}

// Appends a form with a name and two parts, or some front of it.
#[cycle(printing)]
fn binding(
    out: &mut Vec<u8>,
    bytes: &[u8],
    name: &Name,
    a: &Boxed<Expr>,
    b: &Boxed<Expr>,
) -> Result<(), NoMemory>
    ensures ok { OnOk result (out.new.items ≡ out.old.items ++ form_text bytes.now (a_name name.now ∷ an_expr (spelling a.now) ∷ an_expr (spelling b.now) ∷ [])) }
    ensures err { OnErr result (take (length out.old.items) out.new.items ≡ out.old.items) }
{
    open(out, bytes)?;
    name_part(out, name)?;
    part(out, a.get())?;
    part(out, b.get())?;
    close(out)
}

// Appends the word and the names of a fold, or some front of them.
fn open_fold(out: &mut Vec<u8>, so_far: &Name, name: &Name) -> Result<(), NoMemory>
    ensures ok { OnOk result (out.new.items ≡ out.old.items ++ codes "(fold " ++ so_far.now ++ 0x20 ∷ name.now) }
    ensures err { OnErr result (take (length out.old.items) out.new.items ≡ out.old.items) }
{
    open(out, b"fold")?;
    name_part(out, so_far)?;
    name_part(out, name)
}

// Appends a fold, or some front of it.
#[cycle(printing)]
fn fold(
    out: &mut Vec<u8>,
    so_far: &Name,
    name: &Name,
    m: &Boxed<Expr>,
    i: &Boxed<Expr>,
    a: &Boxed<Expr>,
) -> Result<(), NoMemory>
    ensures ok { OnOk result (out.new.items ≡ out.old.items ++ form_text (codes "fold") (a_name so_far.now ∷ a_name name.now ∷ an_expr (spelling m.now) ∷ an_expr (spelling i.now) ∷ an_expr (spelling a.now) ∷ [])) }
    ensures err { OnErr result (take (length out.old.items) out.new.items ≡ out.old.items) }
{
    open_fold(out, so_far, name)?;
    three_parts(out, m, i, a)
}

// Appends a form whose parts are these expressions, or some front of it.
#[cycle(printing)]
fn list(out: &mut Vec<u8>, bytes: &[u8], parts: &[Expr]) -> Result<(), NoMemory>
    ensures ok { OnOk result (out.new.items ≡ out.old.items ++ form_text bytes.now (map (λ e. an_expr (spelling e)) parts.now)) }
    ensures err { OnErr result (take (length out.old.items) out.new.items ≡ out.old.items) }
{
    open(out, bytes)?;
    for expr in parts {
        part(out, expr)?;
    }
    close(out)
}
