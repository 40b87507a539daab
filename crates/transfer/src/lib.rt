// Requests gathered from a chain, responses written into it.
#![tactic(auto)]

pub mod finish;
pub mod gather;
pub mod laws;
pub mod request;
