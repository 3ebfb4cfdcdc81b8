//! How a line is refused.

ghost use Rattle.std.specs.Prelude.{◌≡◌};

use std::fmt;

/// How a line is refused.
#[derive(Clone, Copy, Debug, PartialEq, Eq)]
pub enum BadKind {
    /// The first line is no header.
    Header,
    /// The line begins with no client.
    Client,
    /// The word of the command is unknown.
    Command,
    /// A token is missing, spare, out of range or no number, text or word of its place.
    Argument,
    /// A path must stand there, and the token is none.
    Path,
    /// A program of the version must stand there, and the rest of the line is none.
    Program,
    /// The program breaks the kind rules for the job's inputs and outputs.
    Kinds,
    /// The line has more than 65,536 bytes.
    LineTooLong,
}

impl BadKind {
    ghost use Rattle.tl_script.specs.BadKinds.{bad_number};

    /// 1 to 8, in the order of the kinds.
    pub fn number(self) -> u8
        ensures { result ≡ bad_number self }
    {
        match self {
            BadKind::Header => 1,
            BadKind::Client => 2,
            BadKind::Command => 3,
            BadKind::Argument => 4,
            BadKind::Path => 5,
            BadKind::Program => 6,
            BadKind::Kinds => 7,
            BadKind::LineTooLong => 8,
        }
    }
}

impl fmt::Display for BadKind {
    fn fmt<W: fmt::Write>(&self, f: &mut fmt::Formatter<W>) -> fmt::Result {
        match self {
            BadKind::Header => write!(f, "no header"),
            BadKind::Client => write!(f, "no client"),
            BadKind::Command => write!(f, "an unknown command"),
            BadKind::Argument => write!(f, "a wrong argument"),
            BadKind::Path => write!(f, "no path"),
            BadKind::Program => write!(f, "no program"),
            BadKind::Kinds => write!(f, "a broken kind rule"),
            BadKind::LineTooLong => write!(f, "too long"),
        }
    }
}
