//! What each actor has under way after a journal, and how a file was saved, found by walking the events
//! from the first to the last.
#![tactic(auto)]

mod actors;
mod open;
mod residency;
mod same;
mod saved;

pub use actors::{is_being_saved, is_idle, is_read, is_running, open_claim, open_read, open_save};
pub use open::{OpenClaim, OpenRead};
pub use residency::{is_saved, saved_as};
pub use saved::SavedAs;
