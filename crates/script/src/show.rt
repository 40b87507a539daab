// Commands as text.
ghost use Rattle.std.specs.Prelude.{◌≡◌, ◌++◌, Some, string_bytes, OnOk};
ghost use Rattle.script.specs.Commands.{cmd_of};
ghost use Rattle.script.specs.Shown.{spaced, shown};

use crate::command::Command;
use std::fmt;

// Bytes as text: each as its number, with a space before it.
#[derive(Clone, Copy)]
pub struct Spaced<'a>(pub &'a [u8]);

impl<'a> fmt::Display for Spaced<'a> {
    ghost output = { λ s. Some (spaced s.0.now) };

    fn fmt<W: fmt::Write>(&self, f: &mut fmt::Formatter<W>) -> fmt::Result {
        for b in self.0 {
            write!(f, " {b}")?;
        }
        Ok(())
    }
}

// Writes bytes, each with a space before it, one after the other: where memory runs out those that there was room for are written.
pub fn write_bytes(out: &mut String, bytes: &[u8]) -> fmt::Result
    ensures { OnOk result (string_bytes out.new ≡ string_bytes out.old ++ spaced bytes.now) }
{
    for b in bytes {
        write!(out, " {b}")?;
    }
    Ok(())
}

// A command as its line, without the line's end.
impl fmt::Display for Command {
    ghost output = { λ c. Some (shown (cmd_of c)) };

    fn fmt<W: fmt::Write>(&self, f: &mut fmt::Formatter<W>) -> fmt::Result {
        match self {
            Command::Memory(n) => write!(f, "memory {n}"),
            Command::Ring { size, base } => write!(f, "ring {size} at {base}"),
            Command::Bytes { at, bytes } => {
                let bytes = Spaced(bytes);
                write!(f, "bytes {at}:{bytes}")
            }
            Command::Kept(n) => write!(f, "kept {n}"),
            Command::Serve(n) => write!(f, "serve {n}"),
            Command::Anew => write!(f, "anew"),
            Command::Piece(n) => write!(f, "piece {n}"),
        }
    }
}
