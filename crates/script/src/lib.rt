// Scripts: a text format by which a memory is tried by hand.
#![tactic(auto)]

pub mod command;
pub mod fault;
pub mod laws;
mod line;
mod line_error;
mod number;
pub mod parse;
pub mod show;
pub mod within;
mod words;
