// The C functions: the entries of `serving` on numbers, pointers with lengths, and plain structs.
#![tactic(auto)]

pub mod exports;
pub mod numbers;
pub mod structs;
