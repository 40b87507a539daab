// Holds the entries to a plain reading of the rules, on many random memories.
// The first argument says how many, and the second the number of the first one.
#![tactic(auto)]

mod bytes;
mod contest;
mod descriptor;
mod frame;
mod guest;
mod offers;
mod random;
mod reading;
mod refusals;
mod spoils;
mod tally;

use anyhow::anyhow;
use contest::hold;
use std::alloc::{AllocError, Global};
use std::env;
use tally::Tally;

// The number that an argument says, if there is one.
fn number_or(word: Option<String>, default: u64) -> anyhow::Result<u64> {
    match word {
        Some(text) => Ok(text.as_str().parse::<u64>()?),
        None => Ok(default),
    }
}

// Tries so many memories.
fn hold_all(heap: Global, count: u64, first: u64) -> Result<Tally, AllocError> {
    let mut tally = Tally::default();
    for i in 0..count {
        hold(heap, first.wrapping_add(i), &mut tally)?;
    }
    Ok(tally)
}

// Says what was seen.
fn say(rt: &HostRuntime, tally: &Tally) -> anyhow::Result<()> {
    if let Some(number) = tally.first {
        println!(rt; "memory {number} is the first at which they differ")?;
    }
    println!(rt; "{tally}")?;
    Ok(())
}

// Tries as many memories as the arguments say.
fn run(rt: &HostRuntime) -> anyhow::Result<()> {
    let mut words = env::args(rt)?;
    let _ = words.next();
    let count = number_or(words.next(), 100_000)?;
    let first = number_or(words.next(), 0)?;
    let tally = hold_all(rt.alloc(), count, first)?;
    say(rt, &tally)?;
    if tally.differ > 0 {
        return Err(anyhow!("the entries do not keep to the rules"));
    }
    Ok(())
}

// Ends with status 1 where the two differ.
fn main(rt: HostRuntime) -> anyhow::Result<()> {
    run(&rt)
}
