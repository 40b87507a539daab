// What a step prints.
ghost use Rattle.std.specs.Prelude.{◌≡◌, ◌++◌, string_bytes, OnOk};
ghost use Rattle.report.specs.Stores.{name_of};
ghost use Rattle.machine.specs.Steps.{changes, answered, part_line};

use report::lines::{Line, piece};
use report::store::Store;
use serving::done::Done;
use std::fmt;

// Writes a line for each byte that differs.
pub fn write_changes(out: &mut String, store: Store, before: &[u8], after: &[u8]) -> fmt::Result
    ensures { OnOk result (string_bytes out.new ≡ string_bytes out.old ++ changes (name_of store) 0 before.now after.now) }
{
    for (at, (was, is)) in before.iter().zip(after).enumerate() {
        if was != is {
            let line = Line::Changed {
                store,
                at: at as u64,
                before: *was,
                after: *is,
            };
            write!(out, "{line}")?;
        }
    }
    Ok(())
}

// Writes a line for what serving answers. It is no `From`: both types are of other crates.
pub fn write_answer(out: &mut String, done: Done) -> fmt::Result
    ensures { OnOk result (string_bytes out.new ≡ string_bytes out.old ++ answered done) }
{
    let line = match done {
        Done::Served(n) => Line::Waiting(n),
        Done::Stopped => Line::Stopped,
        Done::Anew => Line::Anew,
        Done::Refused(_) => return Ok(()),
    };
    write!(out, "{line}")?;
    Ok(())
}

// Writes a line for a descriptor's part.
pub fn write_part(out: &mut String, n: u64, part: &[u8]) -> fmt::Result
    ensures { OnOk result (string_bytes out.new ≡ string_bytes out.old ++ part_line n part.now) }
{
    if !part.is_empty() {
        return piece(out, n, part);
    }
    let line = Line::Piece { n, bytes: None };
    write!(out, "{line}")?;
    Ok(())
}
