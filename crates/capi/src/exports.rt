// The functions that C calls, with the parameters that were given for them. None asks anything of its arguments: what is wrong with them is refused.
ghost use Rattle.std.specs.Prelude.{◌≡◌, take, drop};
ghost use Rattle.serving.specs.Entries.{part};
ghost use Rattle.capi.specs.Numbers.{part_numbers, ServeNumbers, AnewNumbers};

use crate::structs::{DovrelziDone, DovrelziPart};
use serving::entries::{begin_anew, serve};
use serving::part::part_of;

// Serves the chains of a ring of `places` descriptors that begins at `begins`, at most `times` of them.
#[unsafe(no_mangle)]
pub extern "C" fn dovrelzi_serve(
    places: u64,
    begins: u64,
    memory: &mut [u8],
    state: &mut [u32],
    kept: &mut [u8],
    times: u64,
) -> DovrelziDone
    ensures { ServeNumbers (record { size = places; base = begins }) memory.old state.old kept.old times result memory.new state.new kept.new }
{
    DovrelziDone::from(serve(places, begins, memory, state, kept, times))
}

// Resets the device, whose contents stay.
#[unsafe(no_mangle)]
pub extern "C" fn dovrelzi_begin_anew(state: &mut [u32]) -> DovrelziDone
    ensures { AnewNumbers state.old result state.new }
{
    DovrelziDone::from(begin_anew(state))
}

// Where the part of memory lies that descriptor `at` names, if it does lie in memory.
#[unsafe(no_mangle)]
#[tactic(auto, unfolding(serving::specs::Entries::part, serving::specs::Entries::part_ok, crate::specs::Numbers::part_numbers))]
pub extern "C" fn dovrelzi_piece(places: u64, begins: u64, memory: &[u8], at: u64) -> DovrelziPart
    ensures numbers { result ≡ part_numbers (record { size = places; base = begins }) memory.now at }
    ensures bytes { take result.len (drop result.at memory.now) ≡ part (record { size = places; base = begins }) memory.now at }
{
    DovrelziPart::from(part_of(places, begins, memory, at))
}
