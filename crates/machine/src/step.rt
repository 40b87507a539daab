// What each command does.
ghost use Rattle.std.specs.Prelude.{◌≡◌, [], IfOk, OnOk, string_bytes};
ghost use Rattle.serving.specs.Entries.{refusal, ServeSays};
ghost use Rattle.serving.specs.Refusals.{said};
ghost use Rattle.script.specs.Commands.{cmd_of};
ghost use Rattle.script.specs.Format.{memory as a_memory, bytes_at, kept as some_kept, serve as some_servings, anew, piece as a_piece};
ghost use Rattle.machine.specs.Bench.{bench_of};
ghost use Rattle.machine.specs.Steps.{counted, step};
ghost use Rattle.machine.specs.Runs.{Steps};

use crate::halt::Halt;
use crate::machine::{Machine, Ring};
use crate::print::{write_answer, write_changes, write_part};
use crate::refusal::Refusal;
use report::store::Store;
use script::command::Command;
use script::within::lies_in;
use serving::done::Done;
use serving::entries::{begin_anew, piece, try_serve};
use serving::refusal::Refusal as Refused;
use std::alloc::{AllocError, Global};

// The bytes 0, 1, 2 and on, modulo 256, `n` of them.
fn count_up(heap: Global, n: u64) -> Result<Vec<u8>, AllocError>
    ensures { IfOk result (λ v. v.items ≡ counted 0 n) }
{
    (0..n).map(|i| (i % 256) as u8).collect(heap)
}

// Each clause names the command that its function does; and what allocates is passed the allocator, as the library has it.
impl Machine {
    // A memory of `n` bytes, all 0. Its limit and that of contents are the entries', told here by the command that breaks them.
    fn set_memory(&mut self, heap: Global, n: u64) -> Result<(), Halt>
        ensures { Steps result (step (a_memory n) (bench_of self.old)) (bench_of self.old) (bench_of self.new) [] [] }
    {
        if n > 65536 {
            return Err(Halt::from(Refusal::MemoryTooLong));
        }
        self.memory = vec![in heap; 0; n as usize]?;
        Ok(())
    }

    // The guest writes bytes.
    fn write_bytes(&mut self, at: u64, bytes: &[u8]) -> Result<(), Halt>
        ensures { Steps result (step (bytes_at at bytes.now) (bench_of self.old)) (bench_of self.old) (bench_of self.new) [] [] }
    {
        if !lies_in(self.memory.len() as u64, at, bytes.len() as u64) {
            return Err(Halt::from(Refusal::Outside(at)));
        }
        let from = at as usize;
        self.memory[from..from + bytes.len()].copy_from_slice(bytes);
        Ok(())
    }

    // The device keeps `n` bytes.
    fn set_kept(&mut self, heap: Global, n: u64) -> Result<(), Halt>
        ensures { Steps result (step (some_kept n) (bench_of self.old)) (bench_of self.old) (bench_of self.new) [] [] }
    {
        if n > 4096 {
            return Err(Halt::from(Refusal::Kept(n)));
        }
        self.kept = count_up(heap, n)?;
        Ok(())
    }

    // At most `times` servings.
    fn serve_all(&mut self, times: u64) -> Result<Done, Refused>
        ensures does { ServeSays (refusal (bench_of self.old).ring self.old.memory.items (bench_of self.old).state self.old.kept.items times) (bench_of self.old).ring self.old.memory.items (bench_of self.old).state self.old.kept.items times (said result) self.new.memory.items (bench_of self.new).state self.new.kept.items }
        ensures ok { OnOk result (refusal (bench_of self.old).ring self.old.memory.items (bench_of self.old).state self.old.kept.items times ≡ 0) }
        ensures ring { (bench_of self.new).ring ≡ (bench_of self.old).ring }
    {
        let mut state = [self.served, self.stopped];
        let served = try_serve(
            self.ring.size,
            self.ring.base,
            &mut self.memory,
            &mut state,
            &mut self.kept,
            times,
        );
        self.served = state[0];
        self.stopped = state[1];
        served
    }

    // At most `times` servings; what changed and what is answered is printed.
    fn serve_chains(&mut self, heap: Global, times: u64, out: &mut String) -> Result<(), Halt>
        ensures { Steps result (step (some_servings times) (bench_of self.old)) (bench_of self.old) (bench_of self.new) (string_bytes out.old) (string_bytes out.new) }
    {
        let memory = self.memory.to_vec(heap)?;
        let kept = self.kept.to_vec(heap)?;
        let done = match self.serve_all(times) {
            Ok(done) => done,
            Err(refused) => return Err(Halt::from(self.fault(refused.number(), times))),
        };
        write_changes(out, Store::Memory, &memory, &self.memory)?;
        write_changes(out, Store::Kept, &kept, &self.kept)?;
        write_answer(out, done)?;
        Ok(())
    }

    // The device is reset.
    fn reset(&mut self, out: &mut String) -> Result<(), Halt>
        ensures { Steps result (step (anew) (bench_of self.old)) (bench_of self.old) (bench_of self.new) (string_bytes out.old) (string_bytes out.new) }
    {
        let mut state = [self.served, self.stopped];
        let done = begin_anew(&mut state);
        self.served = state[0];
        self.stopped = state[1];
        write_answer(out, done)?;
        Ok(())
    }

    // The part of memory that a descriptor names is printed.
    fn show_piece(&self, i: u64, out: &mut String) -> Result<(), Halt>
        ensures { Steps result (step (a_piece i) (bench_of self.now)) (bench_of self.now) (bench_of self.now) (string_bytes out.old) (string_bytes out.new) }
    {
        let part = piece(self.ring.size, self.ring.base, &self.memory, i);
        write_part(out, i, part)?;
        Ok(())
    }

    // Does what a command asks.
    pub fn step(&mut self, heap: Global, command: &Command, out: &mut String) -> Result<(), Halt>
        ensures { Steps result (step (cmd_of command.now) (bench_of self.old)) (bench_of self.old) (bench_of self.new) (string_bytes out.old) (string_bytes out.new) }
    {
        match command {
            Command::Memory(n) => self.set_memory(heap, *n),
            Command::Ring { size, base } => {
                self.ring = Ring {
                    size: *size,
                    base: *base,
                };
                Ok(())
            }
            Command::Bytes { at, bytes } => self.write_bytes(*at, bytes),
            Command::Kept(n) => self.set_kept(heap, *n),
            Command::Serve(n) => self.serve_chains(heap, *n, out),
            Command::Anew => self.reset(out),
            Command::Piece(n) => self.show_piece(*n, out),
        }
    }
}
