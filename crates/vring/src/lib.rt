// Guest memory, the numbers in it, and where a ring stands.
#![tactic(auto)]

pub mod laws;
pub mod layout;
pub mod memory;
pub mod plain;
pub mod plain_memory;
pub mod ring;
pub mod words;
