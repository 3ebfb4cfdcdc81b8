//! Where bytes come from, where they go and where they are kept: the traits `Source`, `Sink` and
//! `Depot`, the ones in memory, and adapters over a reader and a writer.
//!
//! Each object counts its faults. The count never falls, and a call answers `Failed` only where the
//! count rose in that call.
#![tactic(auto)]

mod calls;
mod depot;
mod false_depot;
mod mem_depot;
mod mem_sink;
mod mem_source;
mod mem_ticket;
mod sink;
mod source;
mod std_sink;
mod std_source;
mod sure_depot;
mod sure_sink;
mod sure_source;
#[cfg(test)]
mod tests;
mod ticket;

pub use depot::{Depot, DepotError};
pub use false_depot::{FalseDepot, FalseTicket};
pub use mem_depot::MemDepot;
pub use mem_sink::{MemSink, WRITE_LIMIT};
pub use mem_source::MemSource;
pub use mem_ticket::MemTicket;
pub use sink::{Sink, SinkError};
pub use source::{Failed, Source};
pub use std_sink::StdSink;
pub use std_source::StdSource;
pub use sure_depot::SureDepot;
pub use sure_sink::SureSink;
pub use sure_source::SureSource;
pub use ticket::Ticket;
