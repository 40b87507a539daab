// Chains served, the device reset, and a descriptor's part handed back.
#![tactic(auto)]

pub mod done;
pub mod entries;
pub mod job;
pub mod look;
pub mod part;
pub mod refusal;
pub mod turn;
pub mod view;
