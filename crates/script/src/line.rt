// What one line of a script says. What allocates is passed the allocator, as the library has it.
ghost use Rattle.std.specs.Prelude.{◌≡◌, ◌≢◌, ℕ, codes, Some, vec_items};
ghost use Rattle.std.specs.Option.{option_map};
ghost use Rattle.std.specs.Str.{bytes_eq};
ghost use Rattle.script.specs.Format.{row as row_of, laid as laid_of, bytes_in, only as only_of, alone, anew as anew_cmd, number_at as numbers_at, command as command_of, line as line_of};
ghost use Rattle.script.specs.Commands.{cmd_of};
ghost use Rattle.script.specs.Parses.{Reads, LineRead};

use crate::command::Command;
use crate::line_error::LineError;
use crate::number::{address, byte, number};
use crate::within::lies_in;
use crate::words::Words;
use std::alloc::Global;

// Whether a word is this one: its bytes are compared, since to read them as text first takes longer than what else a line needs.
fn is(word: &[u8], name: &[u8]) -> bool
    ensures { result ≡ bytes_eq word.now name.now }
{
    word == name
}

// The one number that words write.
fn only(mut words: Words) -> Option<u64>
    ensures { result ≡ only_of words.entry }
{
    let word = words.next()?;
    match words.next() {
        None => number(word),
        Some(_) => None,
    }
}

// The two numbers around the word `at`.
fn number_at(mut words: Words) -> Option<(u64, u64)>
    ensures { result ≡ numbers_at words.entry }
{
    let first = words.next()?;
    let b"at" = words.next()? else {
        return None;
    };
    Some((number(first)?, only(words)?))
}

// The bytes that words write.
fn row(heap: Global, words: Words) -> Result<Vec<u8>, LineError>
    ensures { Reads vec_items result (row_of words.entry) }
{
    let mut bytes = Vec::new(heap);
    for word in words {
        bytes.push(byte(word).ok_or(LineError::Unreadable)?)?;
    }
    Ok(bytes)
}

// The bytes from `at` on, if they lie in a memory of `size` bytes.
fn laid(size: u64, at: u64, bytes: Vec<u8>) -> Option<Command>
    ensures { option_map cmd_of result ≡ laid_of size (Some (at, bytes.items)) }
{
    if lies_in(size, at, bytes.len() as u64) {
        Some(Command::Bytes { at, bytes })
    } else {
        None
    }
}

// The command that follows the word `bytes`.
fn bytes(heap: Global, size: u64, mut words: Words) -> Result<Command, LineError>
    ensures { Reads cmd_of result (bytes_in size words.entry) }
{
    let word = words.next().ok_or(LineError::Unreadable)?;
    let bytes = row(heap, words)?;
    let at = address(word).ok_or(LineError::Unreadable)?;
    laid(size, at, bytes).ok_or(LineError::Unreadable)
}

// A reset, if no words follow.
fn anew(mut words: Words) -> Option<Command>
    ensures { option_map cmd_of result ≡ alone anew_cmd words.entry }
{
    match words.next() {
        None => Some(Command::Anew),
        Some(_) => None,
    }
}

// The command that a word other than `bytes` and the words behind it say, in a memory of any size.
fn plain(word: &[u8], words: Words) -> Option<Command>
    ensures { (size : ℕ) → word.now ≢ codes "bytes" → option_map cmd_of result ≡ command_of size word.now words.entry }
{
    match word {
        _ if is(word, b"memory") => only(words).map(Command::Memory),
        _ if is(word, b"ring") => number_at(words).map(|(size, base)| Command::Ring { size, base }),
        _ if is(word, b"kept") => only(words).map(Command::Kept),
        _ if is(word, b"serve") => only(words).map(Command::Serve),
        _ if is(word, b"anew") => anew(words),
        _ if is(word, b"piece") => only(words).map(Command::Piece),
        _ => None,
    }
}

// The command that a word and the words behind it say, in a memory of `size` bytes.
fn command(heap: Global, size: u64, word: &[u8], words: Words) -> Result<Command, LineError>
    ensures { Reads cmd_of result (command_of size word.now words.entry) }
{
    if is(word, b"bytes") {
        bytes(heap, size, words)
    } else {
        plain(word, words).ok_or(LineError::Unreadable)
    }
}

// What a line says, if anything, in a memory of `size` bytes.
pub fn read_line(heap: Global, size: u64, line: &[u8]) -> Result<Option<Command>, LineError>
    ensures { LineRead result (line_of size line.now) }
{
    let mut words = Words::of(line);
    match words.next() {
        None | Some([b'#', ..]) => Ok(None),
        Some(word) => Ok(Some(command(heap, size, word, words)?)),
    }
}
