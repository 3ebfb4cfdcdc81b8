//! Where a program is read.

ghost use Rattle.std.specs.Prelude.{◌≤◌, length};

/// What is left to be read of a program's text.
#[derive(Drop)]
pub(crate) struct Cursor<'a> {
    pub(crate) rest: &'a [u8],
    ghost short: { length rest.now ≤ 4096 },
}
