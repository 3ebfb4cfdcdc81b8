//! What the holder of a desk does beside calls: it loads what was saved, runs a job, saves a file.
#![tactic(auto)]

mod error;
mod evaluate;
mod loading;
mod run;
mod save;

pub use error::WorkError;
pub use loading::load_saved;
pub use run::{Ran, run_next};
pub use save::save_next;
