//! The journal, with what is kept in step with it: the names of its history in tables, so that a
//! call costs as its path is long; its records; which of them are tasks; which is next; which file
//! is saved next; and which record may be let go.
#![tactic(auto)]

mod copying;
mod files;
mod ledger;
mod parts;
mod records;

pub use ledger::Ledger;
