// What happened, as text: one line each.
ghost use Rattle.std.specs.Prelude.{◌≡◌, ◌++◌, Some, string_bytes, OnOk};
ghost use Rattle.report.specs.Lines.{line_of, piece_of};

use crate::store::Store;
use script::show::{Spaced, write_bytes};
use std::fmt;

// What a line says.
#[derive(Clone, Copy, Debug)]
pub enum Line<'a> {
    // A byte at a place was one value, and is another: `memory 22: 0 -> 1`, `kept 16: 16 -> 7`.
    Changed {
        store: Store,
        at: u64,
        before: u8,
        after: u8,
    },
    // So many chains wait: `waiting 3`.
    Waiting(u64),
    // The device has stopped: `stopped`.
    Stopped,
    // The device was reset: `anew`.
    Anew,
    // The part of memory that descriptor `n` names: `piece 1: 9 8`, or `piece 1: none` where there is none.
    Piece {
        n: u64,
        bytes: Option<&'a [u8]>,
    },
    // Something was refused at a place: `refused 1 at 2`. The text format has numbers for both.
    Refused {
        what: u64,
        at: u64,
    },
}

// A line, with its end.
impl<'a> fmt::Display for Line<'a> {
    ghost output = { λ l. Some (line_of l) };

    fn fmt<W: fmt::Write>(&self, f: &mut fmt::Formatter<W>) -> fmt::Result {
        match self {
            Line::Changed {
                store,
                at,
                before,
                after,
            } => writeln!(f, "{store} {at}: {before} -> {after}"),
            Line::Waiting(n) => writeln!(f, "waiting {n}"),
            Line::Stopped => writeln!(f, "stopped"),
            Line::Anew => writeln!(f, "anew"),
            Line::Piece { n, bytes: None } => writeln!(f, "piece {n}: none"),
            Line::Piece {
                n,
                bytes: Some(bytes),
            } => {
                let bytes = Spaced(bytes);
                writeln!(f, "piece {n}:{bytes}")
            }
            Line::Refused { what, at } => writeln!(f, "refused {what} at {at}"),
        }
    }
}

// Writes the line of a part, byte by byte: where memory runs out the bytes that there was room for are written, as such a line may be long.
pub fn piece(out: &mut String, n: u64, bytes: &[u8]) -> fmt::Result
    ensures { OnOk result (string_bytes out.new ≡ string_bytes out.old ++ piece_of n (Some bytes.now)) }
{
    write!(out, "piece {n}:")?;
    write_bytes(out, bytes)?;
    writeln!(out, "")?;
    Ok(())
}
