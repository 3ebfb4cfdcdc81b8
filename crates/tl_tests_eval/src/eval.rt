ghost use Rattle.std.specs.Prelude.{◌≡◌, ◌≤◌, length, IfOk};

use std::test::Fail;
use tl_eval::{Machine, Slice};
use tl_kind::{check, parse};
use tl_lang::{Conf, JobSpecCore};
use tl_text::read_number;
use tl_types::{Bytes, Outcome, Shared};

// The one input of the jobs, of two lines.
const INPUT: &[u8] = b"ab\nc";

// How many expressions a job enters, what it comes to (a text, or the number of a fault), and its program.
const ROWS: &[u8] = br#"1|=hi|(job "hi")
3|=4|(job (str (len (in 0))))
1|=v|(job (conf "key"))
1|!7|(job (conf "other"))
3|=v!|(job (cat (conf "key") "!"))
56|!2|(job (fold a x (split ",,,,,,,,,,,,,,,," ",") "0123456789abcdef" (cat a a)))
55|=1048576|(job (str (len (fold a x (split ",,,,,,,,,,,,,,," ",") "0123456789abcdef" (cat a a)))))
4|=b|(job (sub "abc" 1 2))
4|=|(job (sub "abc" 3 3))
4|!6|(job (sub "abc" 2 1))
4|!6|(job (sub "abc" 0 4))
4|!6|(job (sub "abc" -1 2))
4|=1|(job (str (eq "a" "a")))
4|=0|(job (str (eq "a" "")))
4|=1|(job (str (has "banana" "nan")))
4|=1|(job (str (has "" "")))
4|=0|(job (str (has "ab" "ba")))
3|=-9223372036854775808|(job (str (num "-9223372036854775808")))
3|!5|(job (str (num "9223372036854775808")))
3|!5|(job (str (num "007")))
3|!5|(job (str (num "-0")))
3|!5|(job (str (num "+7")))
3|!5|(job (str (num "7 ")))
3|!5|(job (str (num "")))
4|=9223372036854775807|(job (str (add 9223372036854775806 1)))
4|!3|(job (str (add 9223372036854775807 1)))
4|!3|(job (str (minus -9223372036854775808 1)))
4|!3|(job (str (mul 4294967296 2147483648)))
4|=-3|(job (str (div -7 2)))
4|!4|(job (str (div 7 0)))
4|!3|(job (str (div -9223372036854775808 -1)))
4|=-1|(job (str (mod -7 2)))
4|=1|(job (str (mod 7 -2)))
4|!4|(job (str (mod 7 0)))
4|!3|(job (str (mod -9223372036854775808 -1)))
4|=1|(job (str (lt -1 0)))
4|=0|(job (str (lt 0 0)))
4|=0|(job (str (same 5 6)))
3|=a|(job (if -1 "a" (conf "other")))
3|=b|(job (if 0 (conf "other") "b"))
3|=v|(job (let x "v" x))
4|=ab-c|(job (join (lines (in 0)) "-"))
56|=65536|(job (str (count (lines (fold a x (split ",,,,,,,,,,,,,,," ",") "\n" (cat a a))))))
58|!2|(job (str (count (lines (cat (fold a x (split ",,,,,,,,,,,,,,," ",") "\n" (cat a a)) "\n")))))
5|=a--b|(job (join (split "a,,b" ",") "-"))
4|!6|(job (join (split "a" "") "-"))
4|!6|(job (join (split "a" ", ") "-"))
60|=65536|(job (str (count (split (sub (fold a x (split ",,,,,,,,,,,,,,," ",") "," (cat a a)) 0 65535) ","))))
57|!2|(job (str (count (split (fold a x (split ",,,,,,,,,,,,,,," ",") "," (cat a a)) ","))))
56|!2|(job (let t (fold a x (split ",,,,,,,,,,,,,," ",") "0123456789abcdef" (cat a a)) (join (list t t) "-")))
58|=1048576|(job (let t (fold a x (split ",,,,,,,,,,,,,," ",") "0123456789abcdef" (cat a a)) (str (len (join (list t t) "")))))
59|!2|(job (let t (fold a x (split ",,,,,,,,,,,,,,," ",") "0123456789abcdef" (cat a a)) (str (count (list t "-")))))
61|!2|(job (let t (fold a x (split ",,,,,,,,,,,,,,," ",") "0123456789abcdef" (cat a a)) (str (count (append (list t "") "-")))))
6|=a-b|(job (join (append (list "a") "b") "-"))
3|=|(job (join (list) "-"))
5|=b|(job (at (list "a" "b") 1))
5|!6|(job (at (list "a" "b") 2))
5|!6|(job (at (list "a" "b") -1))
7|=-a-b|(job (join (sort (list "b" "a" "")) "-"))
12|=a!-b!|(job (join (each x (split "a,b" ",") (cat x "!")) "-"))
60|!2|(job (let t (fold a x (split ",,,,,,,,,,,,,," ",") "0123456789abcdef" (cat a a)) (str (count (each x (split ",,," ",") t)))))
19|=a!-b!|(job (join (each x (keep x (split "a,,b" ",") (len x)) (cat x "!")) "-"))
15|=b|(job (join (keep x (split "a,b,c" ",") (eq x "b")) "-"))
13|=3|(job (str (fold a x (lines (in 0)) 0 (add a (len x)))))
"#;

// The outcome of a row: a text, or the number of a fault.
fn outcome(rt: &HostRuntime, spelled: &[u8]) -> Result<Outcome, Fail> {
    match spelled {
        [b'=', text @ ..] => {
            let text = Bytes::new(text.to_vec(rt.alloc())?).ok_or("too long")?;
            Ok(Outcome::Value(text))
        }
        [b'!', digit] => Ok(Outcome::Fault(digit.saturating_sub(b'0'))),
        _ => Err(Fail::from("no outcome")),
    }
}

// The job of one input and so many outputs that the text spells, with this fuel.
fn job(rt: &HostRuntime, text: &[u8], outputs: u8, fuel: u32) -> Result<Shared<JobSpecCore>, Fail>
    ensures { IfOk result (λ job. job.program.inputs ≡ 1) }
{
    let alloc = rt.alloc();
    let Ok(program) = parse(alloc, text) else {
        return Err(Fail::from("no program"));
    };
    let Ok(program) = check(program, 1, outputs) else {
        return Err(Fail::from("a kind rule"));
    };
    let mut pairs = Vec::new(alloc);
    pairs.push((b"key".to_vec(alloc)?, b"v".to_vec(alloc)?))?;
    let conf = Conf::new(pairs).ok_or("no configuration")?;
    let core = JobSpecCore {
        program,
        conf,
        fuel,
    };
    Ok(Shared::new(alloc, core)?)
}

// The outcome of the two lines.
fn two_lines(rt: &HostRuntime) -> Result<Outcome, Fail> {
    let text = Bytes::new(INPUT.to_vec(rt.alloc())?).ok_or("too long")?;
    Ok(Outcome::Value(text))
}

// One input, with this outcome.
fn one(rt: &HostRuntime, input: Outcome) -> Result<Vec<Outcome>, Fail>
    ensures { IfOk result (λ inputs. length inputs.items ≡ 1) }
{
    let mut inputs = Vec::new(rt.alloc());
    inputs.push(input)?;
    Ok(inputs)
}

// What a job came to in slices: how many of them answered that there is more, how many expressions
// were entered, and the outcomes.
#[derive(Drop)]
struct End {
    more: u64,
    entered: u64,
    outcomes: Vec<Outcome>,
}

// Evaluates the job in slices of so many units.
fn run(
    rt: &HostRuntime,
    job: &Shared<JobSpecCore>,
    inputs: Vec<Outcome>,
    units: u32,
) -> Result<End, Fail>
    requires units { 1 ≤ units }
    requires inputs { length inputs.items ≡ job.now.program.inputs }
{
    let _kinds = job.get().program.program();
    let mut machine = Machine::new(rt.alloc(), job, inputs)?;
    for more in 0..1000u64 {
        match machine.slice(units)? {
            Slice::More => {}
            Slice::Done(outcomes) => {
                return Ok(End {
                    more,
                    entered: machine.entered(),
                    outcomes,
                });
            }
        }
    }
    Err(Fail::from("no end"))
}

// With this fuel the job of one output comes to the outcome by as many entered expressions, in slices of so many units.
fn ends(
    rt: &HostRuntime,
    text: &[u8],
    fuel: u32,
    units: u32,
    outcome: &Outcome,
) -> Result<bool, Fail>
    requires { 1 ≤ units }
{
    let job = job(rt, text, 1, fuel)?;
    let inputs = one(rt, two_lines(rt)?)?;
    let end = run(rt, &job, inputs, units)?;
    let entered = u64::from(fuel);
    Ok(
        end.more == entered.saturating_sub(1) / u64::from(units)
            && end.entered == entered
            && end.outcomes.first() == Some(outcome),
    )
}

// The row's job comes to its outcome with just the fuel for what it enters, and is out of fuel with a unit less.
fn row_holds(rt: &HostRuntime, row: &[u8]) -> Result<bool, Fail> {
    let mut parts = row.split(|byte| *byte == b'|');
    let (Some(count), Some(spelled), Some(text)) = (parts.next(), parts.next(), parts.next()) else {
        return Err(Fail::from("no row"));
    };
    let Ok((count, _)) = read_number(count, 0) else {
        return Err(Fail::from("no number"));
    };
    let fuel = u32::try_from(count).map_err(|_| Fail::from("too much fuel"))?;
    let outcome = outcome(rt, spelled)?;
    let out_of_fuel = Outcome::Fault(1);
    Ok(
        ends(rt, text, fuel, 1, &outcome)?
            && ends(rt, text, fuel, 1000, &outcome)?
            && ends(rt, text, fuel.saturating_sub(1), 1, &out_of_fuel)?,
    )
}

#[test]
fn forms_at_their_exact_fuel(rt: HostRuntime) -> Result<(), Fail> {
    for row in ROWS.split(|byte| *byte == b'\n') {
        if !row.is_empty() {
            assert_eq!(rt; (row, row_holds(&rt, row)?), (row, true));
        }
    }
    Ok(())
}

// Each output has the whole fuel.
#[test]
fn outputs_are_evaluated_alone(rt: HostRuntime) -> Result<(), Fail> {
    let job = job(&rt, b"(job (str (div -7 2)) (str (mod -7 2)))", 2, 4)?;
    let end = run(&rt, &job, one(&rt, two_lines(&rt)?)?, 3)?;
    assert_eq!(rt; (end.more, end.entered), (2, 8));
    let [first, second] = end.outcomes.as_slice() else {
        return Err(Fail::from("not two outputs"));
    };
    assert!(rt; *first == outcome(&rt, b"=-3")?);
    assert!(rt; *second == outcome(&rt, b"=-1")?);
    Ok(())
}

#[test]
fn nothing_is_evaluated_on_a_fault(rt: HostRuntime) -> Result<(), Fail> {
    let job = job(&rt, b"(job \"a\")", 1, 9)?;
    let end = run(&rt, &job, one(&rt, Outcome::Fault(4))?, 1)?;
    assert_eq!(rt; (end.more, end.entered), (0, 0));
    assert!(rt; end.outcomes.first() == Some(&Outcome::Fault(8)));
    Ok(())
}
