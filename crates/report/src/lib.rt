// What happened, as text.
#![tactic(auto)]

pub mod lines;
pub mod store;
