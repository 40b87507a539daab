// A machine that a script sets up and runs: guest memory, a ring, and a device.
#![tactic(auto)]

pub mod faults;
pub mod halt;
pub mod machine;
pub mod print;
pub mod refusal;
pub mod run;
pub mod step;
