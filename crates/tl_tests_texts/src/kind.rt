use crate::row::{numbered, twice_numbered};
use std::alloc::AllocError;
use std::test::Fail;
use tl_kind::{KindError, LangError, check, parse, print};
use tl_lang::{Checked, Program};

// The place and the number of a refusal; `None` where there is none.
fn refusal(answer: &Result<Program, LangError>) -> Option<(usize, u8)> {
    match answer {
        Ok(_) => None,
        Err(LangError::Bad { at, kind }) => Some((*at, kind.number())),
        Err(LangError::NoMemory) => Some((0, 0)),
    }
}

// The place and the number of a text's refusal; `None` where it is read.
fn refused(rt: &HostRuntime, text: &[u8]) -> Option<(usize, u8)> {
    let answer = parse(rt.alloc(), text);
    refusal(&answer)
}

// The number of a broken kind rule; 0 where none is.
fn broken(answer: &Result<Checked, KindError>) -> u8 {
    match answer {
        Ok(_) => 0,
        Err(error) => error.kind.number(),
    }
}

// The first bytes, the next so often, and the last.
fn repeated(
    rt: &HostRuntime,
    first: &[u8],
    next: &[u8],
    count: usize,
    last: &[u8],
) -> Result<Vec<u8>, AllocError> {
    let mut text = Vec::from_slice(rt.alloc(), first)?;
    for _ in 0..count {
        text.extend_from_slice(next)?;
    }
    text.extend_from_slice(last)?;
    Ok(text)
}

// How the text of these parts is refused.
fn repeated_refused(
    rt: &HostRuntime,
    first: &[u8],
    next: &[u8],
    count: usize,
    last: &[u8],
) -> Result<Option<(usize, u8)>, AllocError> {
    let text = repeated(rt, first, next, count, last)?;
    Ok(refused(rt, &text))
}

// The place and the number of a refusal, and the text that is refused so.
const REFUSED: &[u8] = br#"0|1|
0|2|x
1|1|(
1|2|(Job 1)
1|2|( job 1)
1|3|(cat "a" "b")
1|3|(jobs 1)
1|3|(jo
4|1|(job
4|2|(job)
5|1|(job 
5|2|(job )
5|2|(job  1)
4|2|(job"a")
5|2|(job 'a')
6|1|(job 1
7|2|(job 1 )
6|1|(job (
6|2|(job ((
6|2|(job (1))
6|3|(job (foo))
6|3|(job (job 1))
6|3|(job (ca
6|3|(job (cats "a" "b"))
10|2|(job (list2))
9|2|(job (cat"a" "b"))
13|2|(job (cat "a"))
17|2|(job (cat "a" "b" "c"))
13|2|(job (len "a" "b"))
9|2|(job (len))
13|1|(job (len "a"
7|7|(job "a
8|7|(job "\x41")
9|7|(job "\x0a")
8|2|(job "a"b)
6|6|(job -
6|6|(job -x)
6|6|(job -0)
6|6|(job 01)
7|2|(job 12x)
23|6|(job 9223372036854775808)
24|6|(job -9223372036854775809)
9|2|(job (in x))
9|2|(job (in -1))
9|2|(job (in ))
10|6|(job (in 00))
28|6|(job (in 18446744073709551616))
8|1|(job (in
10|2|(job (in 1 2))
11|2|(job (conf x))
13|7|(job (conf "a
14|2|(job (conf "a" 1))
10|2|(job (let 5 1 x))
10|2|(job (let (in 0) 1 x))
10|2|(job (let X 1 x))
26|2|(job (let abcdefghijklmnopq 1 2))
21|2|(job abcdefghijklmnopq)
6|2|(job aB)
13|2|(job (fold a 1 (list) 0 a))
7|8|(job 1) 
7|8|(job 1))
7|8|(job 1)(job 1)"#;

#[test]
fn texts_are_refused(rt: HostRuntime) -> Result<(), Fail> {
    for row in REFUSED.split(|byte| *byte == b'\n') {
        let (at, kind, text) = twice_numbered(row).ok_or("a row is two numbers and a text")?;
        assert_eq!(rt; refused(&rt, text), Some((usize::from(at), kind)));
    }
    assert_eq!(rt; refused(&rt, b"(job \"\t\")"), Some((6, 7)));
    Ok(())
}

#[test]
fn counts_are_limited(rt: HostRuntime) -> Result<(), Fail> {
    let over = repeated_refused(&rt, b"(job", b" 1", 65, b")")?;
    assert_eq!(rt; over, Some((132, 9)));
    let spare = repeated_refused(&rt, b"(job", b" 1", 64, b" ")?;
    assert_eq!(rt; spare, Some((132, 9)));
    let whole = repeated_refused(&rt, b"(job", b" 1", 64, b")")?;
    assert_eq!(rt; whole, None);
    let long_list = repeated_refused(&rt, b"(job (list", b" 1", 17, b"))")?;
    assert_eq!(rt; long_list, Some((42, 2)));
    let list = repeated_refused(&rt, b"(job (list", b" 1", 16, b"))")?;
    assert_eq!(rt; list, None);
    Ok(())
}

#[test]
fn depth_is_limited(rt: HostRuntime) -> Result<(), Fail> {
    let deep = repeated_refused(&rt, b"(job", b" (len", 31, b" (in 0)")?;
    assert_eq!(rt; deep, Some((160, 4)));
    let name = repeated_refused(&rt, b"(job", b" (len", 30, b" (let (")?;
    assert_eq!(rt; name, Some((160, 2)));
    let open = repeated(&rt, b"(job", b" (len", 31, b" 1")?;
    let nested = repeated_refused(&rt, &open, b")", 32, b"")?;
    assert_eq!(rt; nested, None);
    Ok(())
}

#[test]
fn length_is_limited(rt: HostRuntime) -> Result<(), Fail> {
    let long = repeated_refused(&rt, b"(job \"", b"a", 4_089, b"\")")?;
    assert_eq!(rt; long, Some((4_096, 5)));
    let whole = repeated_refused(&rt, b"(job \"", b"a", 4_088, b"\")")?;
    assert_eq!(rt; whole, None);
    Ok(())
}

// A program with each form.
const FORMS: &[u8] = br#"(job "a\"\\\n\t\x00\xff" "")
(job 0 -1 9223372036854775807 -9223372036854775808)
(job abcdefghijklmnop x)
(job (in 18446744073709551615) (conf "k"))
(job (cat "a" "b") (len "a") (sub "abc" 0 1) (eq "a" "b") (has "a" "b"))
(job (num "1") (str 1) (add 1 2) (minus 1 2) (mul 1 2) (div 1 2) (mod 1 2))
(job (lt 1 2) (same 1 2) (if 1 "a" "b") (let x 1 x))
(job (lines "a") (split "a" ",") (join (list) "") (list "a" "b" "c"))
(job (append (list "a") "b") (at (list "a") 0) (count (list)) (sort (list)))
(job (each x (list "a") x) (keep x (list "a") 1) (fold a x (list) 0 a))
(job (str (fold a x (lines (in 0)) 0 (add a (len x)))))
(job (str (div -7 2)) (str (mod -7 2)))"#;

// What is printed after two bytes of the program that is read.
fn printed(rt: &HostRuntime, text: &[u8]) -> Result<Vec<u8>, Fail> {
    let mut out = Vec::from_slice(rt.alloc(), b"> ")?;
    let program = parse(rt.alloc(), text)?;
    print(&mut out, &program)?;
    Ok(out)
}

#[test]
fn every_form_is_read_and_printed(rt: HostRuntime) -> Result<(), Fail> {
    for text in FORMS.split(|byte| *byte == b'\n') {
        let out = printed(&rt, text)?;
        let wanted = repeated(&rt, b"> ", text, 1, b"")?;
        assert_eq!(rt; out.as_slice(), wanted.as_slice());
    }
    Ok(())
}

// The numbers of inputs and outputs, the number of the broken rule, and the program's text.
const RULES: &[u8] = br#"1|1|0|(job (in 0))
1|2|1|(job (in 0))
0|1|1|(job x 1)
0|1|2|(job x)
0|1|2|(job (cat 1 x))
0|1|2|(job (cat (let x "a" x) x))
0|1|2|(job (join (each x 1 y) ""))
0|1|3|(job 1)
0|2|3|(job 1 x)
0|1|3|(job (cat (len "a") "b"))
0|1|3|(job (str (if 1 1 "")))
0|1|3|(job (list "a" 1))
0|1|3|(job (fold x x (list) 1 x))
1|1|4|(job (in 1))
0|1|0|(job (let x 1 (let x "a" x)))
1|1|0|(job (str (fold a x (lines (in 0)) 0 (add a (len x)))))
0|1|0|(job (join (keep x (list "a") (len x)) ""))
0|1|0|(job (join (sort (append (split "a" ",") "b")) ""))
0|2|0|(job (at (list) (count (list))) (conf "k"))"#;

// The number of the rule that a program breaks with so many inputs and outputs.
fn broken_rule(rt: &HostRuntime, text: &[u8], inputs: u8, outputs: u8) -> Result<u8, LangError> {
    let program = parse(rt.alloc(), text)?;
    let answer = check(program, inputs, outputs);
    Ok(broken(&answer))
}

#[test]
fn kind_rules_are_tested(rt: HostRuntime) -> Result<(), Fail> {
    for row in RULES.split(|byte| *byte == b'\n') {
        let (inputs, outputs, rest) = twice_numbered(row).ok_or(
            "a row is three numbers and a text",
        )?;
        let (number, text) = numbered(rest).ok_or("a row is three numbers and a text")?;
        assert_eq!(rt; broken_rule(&rt, text, inputs, outputs)?, number);
    }
    Ok(())
}

#[test]
fn what_is_checked_is_kept(rt: HostRuntime) -> Result<(), Fail> {
    let program = parse(rt.alloc(), b"(job (in 2) \"a\")")?;
    let checked = check(program, 3, 2)?;
    assert_eq!(rt; (checked.inputs(), checked.outputs()), (3, 2));
    assert_eq!(rt; checked.program().outputs.len(), 2);
    Ok(())
}
