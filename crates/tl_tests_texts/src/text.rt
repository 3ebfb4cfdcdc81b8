use crate::row::numbered;
use std::test::Fail;
use tl_text::*;
use tl_types::{Digest, FileId, Path, RecordId};

const DIGEST: &[u8; 64] = b"e3b0c44298fc1c149afbf4c8996fb92427ae41e4649b934ca495991b7852b855";

// The place and the kind of a refusal.
fn refusal<V>(read: &Result<V, TextError>) -> Option<(usize, u8)> {
    match read {
        Err(TextError::Bad { at, kind }) => Some((*at, kind.number())),
        _ => None,
    }
}

// The place of a number's refusal, and the text that is refused there.
const NUMBERS: &[u8] = b"0|
0|x
0|-1
0|+1
0| 1
1|00
1|01
1|0000
19|18446744073709551616
20|184467440737095516150
19|99999999999999999999";

#[test]
fn numbers_are_refused(rt: HostRuntime) -> Result<(), Fail> {
    for row in NUMBERS.split(|byte| *byte == b'\n') {
        let (place, text) = numbered(row).ok_or("a row is a number and a text")?;
        assert_eq!(rt;
            refusal(&read_number(text, 0)),
            Some((usize::from(place), 1))
        );
    }
    assert_eq!(rt; refusal(&read_number(b"ab00", 2)), Some((3, 1)));
    assert_eq!(rt; refusal(&read_number(b"ab", 2)), Some((2, 1)));
    Ok(())
}

// The same of a signed number.
const SIGNED: &[u8] = b"0|
0|x
1|-
1|--1
1|-0
1|-01
1|00
18|9223372036854775808
19|-9223372036854775809";

#[test]
fn signed_numbers_are_refused(rt: HostRuntime) -> Result<(), Fail> {
    for row in SIGNED.split(|byte| *byte == b'\n') {
        let (place, text) = numbered(row).ok_or("a row is a number and a text")?;
        assert_eq!(rt;
            refusal(&read_signed(text, 0)),
            Some((usize::from(place), 1))
        );
    }
    Ok(())
}

// The same of a quoted text.
const QUOTED: &[u8] = br#"0|
0|a
0|'a'
1|"
3|"ab
2|"\
2|"\a"
2|"\r"
2|"\0"
2|"\X00"
3|"\x
3|"\x"
3|"\x41"
3|"\x20"
3|"\xA0"
4|"\x0a"
4|"\x09"
4|"\x7e"
4|"\x0F"
4|"\x0"#;

// How a quoted text is refused.
fn quoted_refused(rt: &HostRuntime, text: &[u8]) -> Option<(usize, u8)> {
    let read = read_quoted(rt.alloc(), text, 0);
    refusal(&read)
}

#[test]
fn quoted_texts_are_refused(rt: HostRuntime) -> Result<(), Fail> {
    for row in QUOTED.split(|byte| *byte == b'\n') {
        let (place, text) = numbered(row).ok_or("a row is a number and a text")?;
        assert_eq!(rt; quoted_refused(&rt, text), Some((usize::from(place), 2)));
    }
    Ok(())
}

#[test]
fn bytes_without_a_spelling_are_refused(rt: HostRuntime) {
    assert_eq!(rt; quoted_refused(&rt, b"\"a\nb\""), Some((2, 2)));
    assert_eq!(rt; quoted_refused(&rt, b"\"a\tb\""), Some((2, 2)));
    assert_eq!(rt; quoted_refused(&rt, b"\"\x7f\""), Some((1, 2)));
    assert_eq!(rt; quoted_refused(&rt, b"\"\x80\""), Some((1, 2)));
}

// The digest with another byte at a place.
fn changed_digest(rt: &HostRuntime, place: usize, byte: u8) -> Result<Vec<u8>, Fail> {
    let mut text = Vec::from_slice(rt.alloc(), DIGEST)?;
    if let Some(old) = text.get_mut(place) {
        *old = byte;
    }
    Ok(text)
}

#[test]
fn digests_are_refused(rt: HostRuntime) -> Result<(), Fail> {
    assert_eq!(rt; refusal(&read_digest(b"", 0)), Some((0, 4)));
    assert_eq!(rt; refusal(&read_digest(&DIGEST[..63], 0)), Some((63, 4)));
    for (place, byte) in [(0, b'G'), (5, b'A'), (31, b' '), (63, b'F')] {
        let text = changed_digest(&rt, place, byte)?;
        assert_eq!(rt; text.len(), 64);
        assert_eq!(rt; refusal(&read_digest(&text, 0)), Some((place, 4)));
    }
    Ok(())
}

// `/` and so many bytes, so often.
fn long_path(rt: &HostRuntime, lengths: &[usize]) -> Result<Vec<u8>, Fail> {
    let mut text = Vec::new(rt.alloc());
    for len in lengths {
        text.push(b'/')?;
        for _ in 0..*len {
            text.push(b'a')?;
        }
    }
    Ok(text)
}

// The place of a path's refusal, and the text that is refused there.
const PATHS: &[u8] = br#"0|
0|a
0| /
1|//
3|/a/
3|/a/ b
3|/a//b
2|/.
3|/..
2|/. b
2|/./a
3|/../a
5|/a/..
2|/a"
6|/a/b/. c"#;

// How a path is refused.
fn path_refused(rt: &HostRuntime, text: &[u8]) -> Option<(usize, u8)> {
    let read = read_path(rt.alloc(), text, 0);
    refusal(&read)
}

// How a path is refused that has components of so many bytes, and then this text.
fn long_refused(
    rt: &HostRuntime,
    lengths: &[usize],
    last: &[u8],
) -> Result<Option<(usize, u8)>, Fail> {
    let mut text = long_path(rt, lengths)?;
    text.extend_from_slice(last)?;
    Ok(path_refused(rt, &text))
}

#[test]
fn paths_are_refused(rt: HostRuntime) -> Result<(), Fail> {
    for row in PATHS.split(|byte| *byte == b'\n') {
        let (place, text) = numbered(row).ok_or("a row is a number and a text")?;
        assert_eq!(rt; path_refused(&rt, text), Some((usize::from(place), 3)));
    }
    Ok(())
}

#[test]
fn bytes_that_no_path_has_are_refused(rt: HostRuntime) {
    assert_eq!(rt; path_refused(&rt, b"/\t"), Some((1, 3)));
    assert_eq!(rt; path_refused(&rt, b"/a\n"), Some((2, 3)));
    assert_eq!(rt; path_refused(&rt, b"/\x7f"), Some((1, 3)));
    assert_eq!(rt; path_refused(&rt, b"/\x80"), Some((1, 3)));
}

#[test]
fn counts_of_components_are_limited(rt: HostRuntime) -> Result<(), Fail> {
    let seventeen = long_refused(&rt, &[1; 17], b"")?;
    assert_eq!(rt; seventeen, Some((32, 3)));
    let sixteen = long_refused(&rt, &[1; 16], b"/")?;
    assert_eq!(rt; sixteen, Some((32, 3)));
    Ok(())
}

#[test]
fn lengths_of_paths_are_limited(rt: HostRuntime) -> Result<(), Fail> {
    let component = long_refused(&rt, &[256], b"")?;
    assert_eq!(rt; component, Some((256, 3)));
    let longer = long_refused(&rt, &[255, 255, 255, 255, 1], b"")?;
    assert_eq!(rt; longer, Some((1_024, 3)));
    let longest = long_refused(&rt, &[255, 255, 255, 255, 0], b"")?;
    assert_eq!(rt; longest, Some((1_024, 3)));
    let shorter = long_refused(&rt, &[255, 255, 255, 254, 0], b"")?;
    assert_eq!(rt; shorter, Some((1_023, 3)));
    let dots = long_refused(&rt, &[255, 255, 255, 253], b"/.")?;
    assert_eq!(rt; dots, Some((1_023, 3)));
    Ok(())
}

#[test]
fn numbers_are_read(rt: HostRuntime) {
    assert_eq!(rt; read_number(b"x0 ", 1).ok(), Some((0, 2)));
    assert_eq!(rt; read_number(b"120x", 0).ok(), Some((120, 3)));
    assert_eq!(rt;
        read_number(b"18446744073709551615", 0).ok(),
        Some((u64::MAX, 20))
    );
}

#[test]
fn signed_numbers_are_read(rt: HostRuntime) {
    assert_eq!(rt; read_signed(b"0", 0).ok(), Some((0, 1)));
    assert_eq!(rt; read_signed(b"-17)", 0).ok(), Some((-17, 3)));
    assert_eq!(rt;
        read_signed(b"9223372036854775807", 0).ok(),
        Some((i64::MAX, 19))
    );
    assert_eq!(rt;
        read_signed(b"-9223372036854775808", 0).ok(),
        Some((i64::MIN, 20))
    );
}

#[test]
fn a_quoted_text_is_read(rt: HostRuntime) -> Result<(), Fail> {
    let (bytes, after) = read_quoted(rt.alloc(), b"(\"a\\\"\\\\\\n\\t\\x00\\xff~\" ", 1)?;
    assert_eq!(rt; bytes.as_slice(), b"a\"\\\n\t\x00\xff~".as_slice());
    assert_eq!(rt; after, 21);
    Ok(())
}

#[test]
fn a_digest_is_read(rt: HostRuntime) -> Result<(), Fail> {
    let (digest, after) = read_digest(DIGEST, 0)?;
    assert_eq!(rt; digest.0[0], 0xe3);
    assert_eq!(rt; digest.0[31], 0x55);
    assert_eq!(rt; after, 64);
    Ok(())
}

#[test]
fn the_root_is_read(rt: HostRuntime) -> Result<(), Fail> {
    let (root, after) = read_path(rt.alloc(), b"/ /a", 0)?;
    assert_eq!(rt; root.len(), 0);
    assert_eq!(rt; after, 1);
    Ok(())
}

#[test]
fn a_path_is_read(rt: HostRuntime) -> Result<(), Fail> {
    let (path, after) = read_path(rt.alloc(), b"cat /a.b/..c/~ x", 4)?;
    assert_eq!(rt; path.len(), 3);
    assert_eq!(rt; path.part(1), b"..c".as_slice());
    assert_eq!(rt; after, 14);
    Ok(())
}

#[test]
fn the_longest_path_is_read(rt: HostRuntime) -> Result<(), Fail> {
    let longest = long_path(&rt, &[255, 255, 255, 255])?;
    let (_path, after) = read_path(rt.alloc(), &longest, 0)?;
    assert_eq!(rt; after, 1_024);
    Ok(())
}

#[test]
fn every_byte_is_printed_and_read_again(rt: HostRuntime) -> Result<(), Fail> {
    let mut bytes = Vec::new(rt.alloc());
    for byte in 0..=255u8 {
        bytes.push(byte)?;
    }
    let mut out = Vec::new(rt.alloc());
    print_quoted(&mut out, &bytes)?;
    let (again, after) = read_quoted(rt.alloc(), &out, 0)?;
    assert_eq!(rt; again.as_slice(), bytes.as_slice());
    assert_eq!(rt; after, out.len());
    Ok(())
}

// Appends numbers, each with a space after it.
fn print_numbers(out: &mut Vec<u8>) -> Result<(), Fail> {
    print_number(out, 0)?;
    out.push(b' ')?;
    print_number(out, u64::MAX)?;
    out.push(b' ')?;
    print_signed(out, i64::MIN)?;
    out.push(b' ')?;
    Ok(())
}

// Appends a quoted text and a file, each with a space after it.
fn print_words(out: &mut Vec<u8>) -> Result<(), Fail> {
    print_quoted(out, b"a\"\\\n\t\r\x1f\x7f\xff~")?;
    out.push(b' ')?;
    let file = FileId {
        rec: RecordId(4_294_967_295),
        out: 7,
    };
    print_file(out, file)?;
    out.push(b' ')?;
    Ok(())
}

// Appends two paths, each with a space after it.
fn print_paths(rt: &HostRuntime, out: &mut Vec<u8>) -> Result<(), Fail> {
    let root = Path::new(Vec::new(rt.alloc())).ok_or("no components are a path")?;
    print_path(out, &root)?;
    out.push(b' ')?;
    let (path, _after) = read_path(rt.alloc(), b"/x/y.z", 0)?;
    print_path(out, &path)?;
    out.push(b' ')?;
    Ok(())
}

#[test]
fn every_form_is_printed(rt: HostRuntime) -> Result<(), Fail> {
    let mut out = Vec::new(rt.alloc());
    print_numbers(&mut out)?;
    print_words(&mut out)?;
    print_paths(&rt, &mut out)?;
    print_digest(&mut out, &Digest([0xa7; 32]))?;
    let wanted =
        b"0 18446744073709551615 -9223372036854775808 \"a\\\"\\\\\\n\\t\\x0d\\x1f\\x7f\\xff~\" 4294967295.7 / /x/y.z a7a7a7a7a7a7a7a7a7a7a7a7a7a7a7a7a7a7a7a7a7a7a7a7a7a7a7a7a7a7a7a7";
    assert_eq!(rt; out.as_slice(), wanted.as_slice());
    Ok(())
}
