//! What is kept of files in the checkpoint store, and the load that gives it back.
#![tactic(auto)]

mod loading;
mod vault;

pub use loading::{LoadError, load};
pub use vault::Vault;
