// A whole script.
ghost use Rattle.std.specs.Prelude.{◌≡◌, map, string_bytes};
ghost use Rattle.script.specs.Commands.{cmd_of};
ghost use Rattle.machine.specs.Bench.{bench_of, start};
ghost use Rattle.machine.specs.Runs.{run, play, Ended, Runs};

use crate::halt::Halt;
use crate::machine::{Machine, Ring};
use report::lines::Line;
use script::command::Command;
use script::parse::parse;
use std::alloc::Global;

// Ends a run: a refusal's line is written.
fn end(halt: Halt, out: &mut String) -> Halt
    ensures { Ended halt result (string_bytes out.old) (string_bytes out.new) }
{
    let Halt::Refused(refusal) = halt else {
        return halt;
    };
    let line = Line::Refused {
        what: refusal.number(),
        at: refusal.place(),
    };
    match write!(out, "{line}") {
        Ok(()) => halt,
        Err(_) => Halt::NoMemory,
    }
}

impl Machine {
    // No memory, no ring, and a new device that keeps nothing.
    pub fn new(heap: Global) -> Machine
        ensures { bench_of result ≡ start }
    {
        Machine {
            memory: Vec::new(heap),
            ring: Ring { size: 0, base: 0 },
            served: 0,
            stopped: 0,
            kept: Vec::new(heap),
        }
    }

    // Does what the commands ask, one after the other, up to one that is refused.
    pub fn run(&mut self, heap: Global, commands: &[Command], out: &mut String) -> Result<(), Halt>
        ensures { Runs result (run (map cmd_of commands.now) (bench_of self.old)) (bench_of self.new) (string_bytes out.old) (string_bytes out.new) }
    {
        for command in commands {
            if let Err(halt) = self.step(heap, command, out) {
                return Err(end(halt, out));
            }
        }
        Ok(())
    }

    // Reads a script whole, and then does what it says.
    pub fn play(&mut self, heap: Global, text: &[u8], out: &mut String) -> Result<(), Halt>
        ensures { Runs result (play text.now (bench_of self.old)) (bench_of self.new) (string_bytes out.old) (string_bytes out.new) }
    {
        match parse(heap, text) {
            Ok(commands) => self.run(heap, &commands, out),
            Err(fault) => Err(end(Halt::from(fault), out)),
        }
    }
}
