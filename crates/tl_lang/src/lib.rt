//! The job language: programs, their kind rules and their meaning.
#![tactic(auto)]

mod checked;
mod conf;
mod expr;
mod job;
mod kind;
pub mod laws;
mod name;
mod program;
#[cfg(test)]
mod tests;
pub mod worked;

pub use checked::Checked;
pub use conf::{Conf, PAIRS_LIMIT};
pub use expr::Expr;
pub use job::JobSpecCore;
pub use kind::Kind;
pub use name::Name;
pub use program::Program;
pub use sqlite_items::{Boxed, Items};
