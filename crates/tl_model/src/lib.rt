//! What is recorded of a run and what it means: commands, replies, events, the journal, and the
//! definitions that every promise is said with.
#![tactic(auto)]

mod answer;
mod command;
mod event;
mod facts;
mod header;
mod journal;
mod record;
mod reply;
mod saved;
#[cfg(test)]
mod tests;

pub use answer::{Answer, ClientError, Counted, Damage};
pub use command::{Command, Form};
pub use event::{Act, Event};
pub use facts::Facts;
pub use header::{Header, OrderRule, Version};
pub use journal::Journal;
pub use record::Record;
pub use reply::{Entry, Reply, Status};
pub use saved::Saved;
