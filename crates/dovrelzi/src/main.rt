// dovrelzi: serves the virtqueue of a guest memory that a script describes, and prints what happened.
#![tactic(auto)]

use machine::halt::Halt;
use machine::machine::Machine;
use std::io::{IsTerminal, Read};
use std::process::ExitCode;
use std::{env, fs, io};
use thiserror::Error;

// Why the program ends with status 1.
#[derive(Debug, Drop, Error)]
enum Failure {
    // The input could not be read, or nothing could be printed.
    #[error("{0}")]
    Io(#[from] io::Error),
    // The script was refused, or there was not enough memory for it.
    #[error("{0}")]
    Halt(#[from] Halt),
}

// What the program takes and prints.
fn usage(rt: &HostRuntime) -> io::Result<()> {
    println!(rt; "usage: dovrelzi [FILE]")?;
    println!(rt; "Runs the script in FILE, or on standard input, one command a line:")?;
    println!(rt; "  memory 65      a memory of 65 bytes, all 0")?;
    println!(rt; "  ring 2 at 0    the ring has 2 places and begins at 0")?;
    println!(rt; "  bytes 40: 0 1  the guest writes these bytes from 40 on")?;
    println!(rt; "  kept 32        the device keeps 32 bytes: 0, 1, 2 and on, modulo 256")?;
    println!(rt;
        "  serve 5        up to five servings; prints what changed, and what still waits"
    )?;
    println!(rt; "  anew           the device is reset")?;
    println!(rt; "  piece 1        prints the part of memory that descriptor 1 names")?;
    println!(rt; "Empty lines and lines that begin with # are skipped.")
}

// The script: of the file that is named, else from standard input.
fn script(rt: &HostRuntime, file: Option<String>) -> io::Result<Vec<u8>> {
    if let Some(path) = file {
        return fs::read(rt, path.as_str());
    }
    let mut text = Vec::new(rt.alloc());
    rt.stdin().read_to_end(&mut text)?;
    Ok(text)
}

// Runs a script, and prints what happened.
fn play(rt: &HostRuntime, text: &[u8]) -> Result<(), Failure> {
    let heap = rt.alloc();
    let mut out = String::new(heap);
    let mut machine = Machine::new(heap);
    let played = machine.play(heap, text, &mut out);
    rt.print(out.as_str())?;
    played?;
    Ok(())
}

// Whether the word asks for help.
fn asks_for_help(word: &str) -> bool {
    word == "--help" || word == "-h"
}

// Reads the arguments, and does what they ask.
fn start(rt: &HostRuntime) -> Result<(), Failure> {
    let mut words = env::args(rt)?;
    let _program = words.next();
    let file = words.next();
    let helps = match &file {
        Some(word) => asks_for_help(word.as_str()),
        None => rt.stdin().is_terminal(),
    };
    if helps {
        usage(rt)?;
        return Ok(());
    }
    let text = script(rt, file)?;
    play(rt, &text)
}

// Says on standard error why the program fails. Where why a script ended cannot be said, what was wrong with saying it is tried.
fn say(rt: &HostRuntime, failure: &Failure) {
    let Err(e) = eprintln!(rt; "dovrelzi: {failure}") else {
        return;
    };
    if let Failure::Halt(_) = failure {
        let _ = eprintln!(rt; "dovrelzi: {e}");
    }
}

fn main(rt: HostRuntime) -> ExitCode {
    match start(&rt) {
        Ok(()) => ExitCode::SUCCESS,
        Err(failure) => {
            say(&rt, &failure);
            ExitCode::FAILURE
        }
    }
}
