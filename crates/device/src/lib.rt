// The device: its state, its contents, and what it answers.
#![tactic(auto)]

pub mod laws;
pub mod progress;
pub mod respond;
pub mod response;
