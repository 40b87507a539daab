// Guests that break the rules: the device stops, and changes nothing else.
use crate::compare::same;
use crate::setup::*;
use serving::done::Done;
use std::alloc::{AllocError, Global};
use std::test::*;

// Checks that the device stops before it has served any, and that a second call changes nothing.
fn stops(mut s: Setup) -> Result<(), Fail> {
    let mut want = s.clone()?;
    let served = s.state.first().copied().unwrap_or(0);
    want.put_state(served, 1);
    same(&s.serve(9), &Done::Stopped)?;
    same(&s, &want)?;
    same(&s.serve(9), &Done::Stopped)?;
    same(&s, &want)
}

// Checks that the device stops at a chain of these two descriptors.
fn stops_at(heap: Global, d: Descriptor, e: Descriptor) -> Result<(), Fail> {
    stops(Setup::chain_of(heap, d, e)?)
}

// A part in the ring, where the response would be written.
#[test]
fn part_in_the_ring(rt: HostRuntime) -> Result<(), Fail> {
    stops_at(rt.alloc(), readable(40, 2, 1), writable(24, 17))?;
    stops_at(rt.alloc(), readable(0, 2, 1), writable(48, 17))
}

// The example with its ring at 20 to 52, and a response that is to go elsewhere.
fn farther(heap: Global, addr: u16, len: u16) -> Result<Setup, AllocError> {
    let mut s = Setup::empty(heap, 2, 20, 80)?;
    s.describe(0, readable(60, 2, 1));
    s.describe(1, writable(addr, len));
    s.offer(0, 0);
    s.put(60, &[0, 1]);
    Ok(s)
}

// Parts over the ring's first byte, over its last, over all of it, and of no bytes inside.
#[test]
fn part_over_the_edge(rt: HostRuntime) -> Result<(), Fail> {
    stops(farther(rt.alloc(), 10, 11)?)?;
    stops(farther(rt.alloc(), 51, 17)?)?;
    stops(farther(rt.alloc(), 10, 60)?)?;
    stops(farther(rt.alloc(), 30, 0)?)
}

// Parts that do not lie in memory.
#[test]
fn part_outside(rt: HostRuntime) -> Result<(), Fail> {
    stops_at(rt.alloc(), readable(40, 2, 1), writable(48, 18))?;
    stops_at(rt.alloc(), readable(40, 2, 1), writable(66, 0))?;
    stops_at(rt.alloc(), readable(40, 2, 1), writable(65535, 65535))?;
    stops_at(rt.alloc(), readable(65535, 1, 1), writable(48, 17))
}

// Chains that do not end.
#[test]
fn chain_goes_round(rt: HostRuntime) -> Result<(), Fail> {
    stops_at(rt.alloc(), readable(40, 2, 0), writable(48, 17))?;
    let back = Descriptor {
        addr: 48,
        len: 17,
        flags: 3,
        next: 0,
    };
    stops_at(rt.alloc(), readable(40, 2, 1), back)
}

// Indexes that are none of the ring's descriptors.
#[test]
fn index_outside(rt: HostRuntime) -> Result<(), Fail> {
    stops_at(rt.alloc(), readable(40, 2, 2), writable(48, 17))?;
    stops_at(rt.alloc(), readable(40, 2, 65535), writable(48, 17))?;
    let mut s = Setup::example(rt.alloc())?;
    s.offer(0, 2);
    stops(s)
}

// A readable descriptor behind a writable one.
#[test]
fn readable_behind_writable(rt: HostRuntime) -> Result<(), Fail> {
    let first = Descriptor {
        addr: 48,
        len: 17,
        flags: 3,
        next: 1,
    };
    let last = Descriptor {
        addr: 40,
        len: 2,
        flags: 0,
        next: 0,
    };
    stops_at(rt.alloc(), first, last)
}

// More chains than the ring has places.
#[test]
fn too_many_wait(rt: HostRuntime) -> Result<(), Fail> {
    let mut s = Setup::example(rt.alloc())?;
    s.count_available(3);
    stops(s)
}

// A count that was run backwards: 65,500 would wait.
#[test]
fn count_runs_backwards(rt: HostRuntime) -> Result<(), Fail> {
    let mut s = Setup::example(rt.alloc())?;
    s.put_state(100, 0);
    s.count_available(64);
    stops(s)
}

// A bad chain behind a good one: the good one is served first.
#[test]
fn bad_behind_good(rt: HostRuntime) -> Result<(), Fail> {
    let mut s = Setup::chain_of(rt.alloc(), readable(40, 2, 1), writable(48, 1))?;
    s.offer(1, 7);
    let mut want = s.clone()?;
    want.put(48, &[0]);
    want.mark_used(0, 0, 1);
    want.put_state(1, 1);
    assert_eq!(rt; s.serve(9), Done::Stopped);
    assert_eq!(rt; s, want);
    Ok(())
}
