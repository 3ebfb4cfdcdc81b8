//! The script as text: a header, and then a client's command a line, read exactly.
#![tactic(auto)]

mod bad_kind;
mod command;
mod header;
mod job;
pub mod laws;
mod line;
mod parsing;
mod script;
mod stop;
mod token;
mod word;

pub use bad_kind::BadKind;
pub use header::{
    CAPACITY_LIMIT, HOT_LIMIT, WORKER_LIMIT, after, number_after, order_said, order_text,
};
pub use line::around_feed;
pub use parsing::{parse, parse_op};
pub use script::{Line, Op, Script, ScriptError};
pub use token::{CLIENT_LIMIT, front_of, number_at, token_of};
