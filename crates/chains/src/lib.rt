// Descriptors and chains of them.
#![tactic(auto)]

pub mod breach;
pub mod chain;
pub mod descriptor;
pub mod flags;
pub mod follow;
pub mod laws;
pub mod listing;
pub mod region;
pub mod ring_parts;
pub mod table;
pub mod usable;
