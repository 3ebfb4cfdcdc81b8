//! Desks of actors that take turns at one cluster, each on a thread of its own.
#![tactic(auto)]

mod desk;
mod named;
mod seated;
mod shared;
mod turning;

pub use named::Named;
pub use seated::Seated;
pub use shared::Shared;
