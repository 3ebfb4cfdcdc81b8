//! The evaluation of a job: a machine with a stack of its own, which goes on in slices and answers
//! what the job means.
#![tactic(auto)]

mod answer;
mod apply;
mod begin;
mod enter;
mod fault;
mod frame;
mod gathered;
mod listing;
mod lists;
mod loops;
mod machine;
mod material;
mod next;
mod node;
mod numbers;
mod op;
mod prepare;
mod resume;
mod running;
mod split;
mod stack;
mod stop;
mod text;
mod texts;
mod value;
mod wait;
mod walk;

pub use machine::{Machine, Slice};
