// Worked examples of the entries, and attacks on them, as tests.
#![tactic(auto)]

#[cfg(test)]
mod attacks;
#[cfg(test)]
mod compare;
#[cfg(test)]
mod examples;
#[cfg(test)]
mod pieces;
#[cfg(test)]
mod refusals;
#[cfg(test)]
mod resets;
#[cfg(test)]
mod setup;
