//! The namespace: what each path names, what a command on it is answered, and which files are pinned.
#![tactic(auto)]

mod child;
mod deletes;
mod directory;
mod dirs;
mod found;
mod looks;
mod makes;
mod moves;
mod names;
mod pinning;
mod pins;

pub use found::Found;
pub use names::Names;
