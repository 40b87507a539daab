// A whole script.
ghost use Rattle.std.specs.Prelude.{◌≡◌, map, IfOk};
ghost use Rattle.script.specs.Format.{size_after, line as line_of};
ghost use Rattle.script.specs.Commands.{cmd_of};
ghost use Rattle.script.specs.Laws.{Sounds};
ghost use Rattle.script.specs.Parses.{ReadAt, Parsed};

use crate::command::Command;
use crate::fault::Fault;
use crate::line::read_line;
use std::alloc::Global;

impl Command {
    // How many bytes memory has after the command, if it had `size` before.
    fn size_after(&self, size: u64) -> u64
        ensures { result ≡ size_after size (cmd_of self.now) }
    {
        match self {
            Command::Memory(n) => *n,
            _ => size,
        }
    }
}

// What line `number` says, if anything, in a memory of `size` bytes.
fn read_at(heap: Global, size: u64, number: usize, line: &[u8]) -> Result<Option<Command>, Fault>
    ensures { ReadAt number result (line_of size line.now) }
{
    read_line(heap, size, line).map_err(|e| e.at(number as u64))
}

// The commands of a script, or its first line that cannot be read.
pub fn parse(heap: Global, text: &[u8]) -> Result<Vec<Command>, Fault>
    ensures read { Parsed text.now result }
    ensures sound { IfOk result (λ cs. Sounds 0 (map cmd_of cs.items)) }
{
    let mut commands = Vec::new(heap);
    let mut size = 0;
    for (number, line) in text.split(|b| *b == b'\n').enumerate() {
        let Some(command) = read_at(heap, size, number, line)? else {
            continue;
        };
        size = command.size_after(size);
        commands.push(command)?;
    }
    Ok(commands)
}
