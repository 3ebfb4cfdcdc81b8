//! The job language as text: programs are read and printed, each in its one spelling, and checked
//! against the kind rules.
#![tactic(auto)]

mod begin;
mod builder;
mod cursor;
mod expression;
mod kind_error;
mod kinds;
mod lang_error;
pub mod laws;
mod parsing;
mod printing;
mod scope;
mod stop;
mod token;
mod word;

pub use kind_error::{KindError, KindErrorKind};
pub use kinds::check;
pub use lang_error::{LangError, LangErrorKind};
pub use parsing::parse;
pub use printing::print;
