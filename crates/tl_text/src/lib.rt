//! The text forms of numbers, quoted texts, paths, digests and files: each value has one spelling,
//! which is printed, and nothing else is read.
#![tactic(auto)]

mod cut;
mod digest;
mod error;
mod file;
mod hex_digit;
mod number;
mod path;
mod quoted;
mod signed;

pub use digest::{one_digest, print_digest, read_digest};
pub use error::{TextError, TextKind};
pub use file::print_file;
pub use number::{one_number, print_number, read_number};
pub use path::{one_path, print_path, read_path};
pub use quoted::{one_quoted, print_quoted, read_quoted};
pub use signed::{one_signed, print_signed, read_signed};
