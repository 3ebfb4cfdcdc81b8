//! A checkpoint store in a folder of files. What a file system keeps is outside of what is proved,
//! so the depot tells nothing.
#![tactic(auto)]

mod folder_depot;
mod folder_ticket;

pub use folder_depot::FolderDepot;
pub use folder_ticket::FolderTicket;
