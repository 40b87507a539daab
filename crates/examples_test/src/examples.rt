// Chains that are served.
use crate::compare::same;
use crate::setup::*;
use serving::done::Done;
use std::alloc::{AllocError, Global};
use std::test::*;

// A read of a block: the response is in the writable part, and the chain is used.
#[test]
fn reads_a_block(rt: HostRuntime) -> Result<(), Fail> {
    let mut s = Setup::example(rt.alloc())?;
    let mut want = s.clone()?;
    want.put(48, BLOCK);
    want.mark_used(0, 0, 17);
    want.put_state(1, 0);
    assert_eq!(rt; s.serve(1), Done::Served(0));
    assert_eq!(rt; s, want);
    Ok(())
}

// The same, byte by byte.
#[test]
fn reads_a_block_there(rt: HostRuntime) -> Result<(), Fail> {
    let mut s = Setup::example(rt.alloc())?;
    assert_eq!(rt; s.serve(1), Done::Served(0));
    assert!(rt; s.memory.len() == 65);
    assert_eq!(rt;
        &s.memory[22..32],
        [1, 0, 0, 0, 17, 0, 0, 0, 0, 0].as_slice()
    );
    assert_eq!(rt; &s.memory[48..65], BLOCK.as_slice());
    assert_eq!(rt; s.state.as_slice(), [1, 0].as_slice());
    Ok(())
}

// A write of a block changes the contents, and the response is the status alone.
#[test]
fn writes_a_block(rt: HostRuntime) -> Result<(), Fail> {
    let mut s = Setup::chain_of(rt.alloc(), readable(40, 18, 1), writable(60, 5))?;
    s.put(40, &[1, 1]);
    s.put(42, b"ABCDEFGHIJKLMNOP");
    s.put(60, &[9, 9, 9, 9, 9]);
    let mut want = s.clone()?;
    want.put(60, &[0]);
    want.keep(16, b"ABCDEFGHIJKLMNOP");
    want.mark_used(0, 0, 1);
    want.put_state(1, 0);
    assert_eq!(rt; s.serve(1), Done::Served(0));
    assert_eq!(rt; s, want);
    Ok(())
}

// A response that is longer than the capacity is cut off, and its length is said as it is then.
#[test]
fn cuts_the_response(rt: HostRuntime) -> Result<(), Fail> {
    let mut s = Setup::chain_of(rt.alloc(), readable(40, 2, 1), writable(48, 4))?;
    let mut want = s.clone()?;
    want.put(48, &[0, 16, 17, 18]);
    want.mark_used(0, 0, 4);
    want.put_state(1, 0);
    assert_eq!(rt; s.serve(1), Done::Served(0));
    assert_eq!(rt; s, want);
    Ok(())
}

// What is no request, or asks for a block that is not kept, is answered by 255.
fn answers_255(heap: Global, request: &[u8]) -> Result<(), Fail> {
    let mut s = Setup::example(heap)?;
    s.put(40, request);
    let mut want = s.clone()?;
    want.put(48, &[255]);
    want.mark_used(0, 0, 1);
    want.put_state(1, 0);
    same(&s.serve(1), &Done::Served(0))?;
    same(&s, &want)
}

// No code, a write that is too short, and reads past what is kept.
#[test]
fn answers_no_request(rt: HostRuntime) -> Result<(), Fail> {
    answers_255(rt.alloc(), &[7, 7])?;
    answers_255(rt.alloc(), &[1, 0])?;
    answers_255(rt.alloc(), &[0, 2])?;
    answers_255(rt.alloc(), &[0, 255])
}

// A part of no bytes may stand at the memory's end.
#[test]
fn takes_an_empty_part_at_the_end(rt: HostRuntime) -> Result<(), Fail> {
    let mut s = Setup::chain_of(rt.alloc(), readable(40, 2, 1), writable(65, 0))?;
    let mut want = s.clone()?;
    want.mark_used(0, 0, 0);
    want.put_state(1, 0);
    assert_eq!(rt; s.serve(1), Done::Served(0));
    assert_eq!(rt; s, want);
    Ok(())
}

// Only the lowest two flags count, and `next` only where another descriptor follows.
#[test]
fn passes_over_other_flags(rt: HostRuntime) -> Result<(), Fail> {
    let first = Descriptor {
        addr: 40,
        len: 2,
        flags: 0xfffd,
        next: 1,
    };
    let last = Descriptor {
        addr: 48,
        len: 17,
        flags: 0xfffe,
        next: 0xffff,
    };
    let mut s = Setup::chain_of(rt.alloc(), first, last)?;
    let mut want = s.clone()?;
    want.put(48, BLOCK);
    want.mark_used(0, 0, 17);
    want.put_state(1, 0);
    assert_eq!(rt; s.serve(1), Done::Served(0));
    assert_eq!(rt; s, want);
    Ok(())
}

// Parts may end where the ring begins, and begin where it ends.
#[test]
fn takes_parts_beside_the_ring(rt: HostRuntime) -> Result<(), Fail> {
    let mut s = Setup::empty(rt.alloc(), 2, 20, 69)?;
    s.describe(0, readable(18, 2, 1));
    s.describe(1, writable(52, 17));
    s.offer(0, 0);
    s.put(18, &[0, 1]);
    let mut want = s.clone()?;
    want.put(52, BLOCK);
    want.mark_used(0, 0, 17);
    want.put_state(1, 0);
    assert_eq!(rt; s.serve(1), Done::Served(0));
    assert_eq!(rt; s, want);
    Ok(())
}

// A ring of 64 whose one chain has all its descriptors: two readable ones and 62 writable ones of a byte each.
fn long_chain(heap: Global) -> Result<Setup, AllocError> {
    let mut s = Setup::empty(heap, 64, 0, 1000)?;
    s.put(900, &[0, 1]);
    s.describe(0, readable(900, 1, 1));
    s.describe(1, readable(901, 1, 2));
    for i in 2..64u16 {
        s.describe(
            i,
            Descriptor {
                addr: 908 + i,
                len: 1,
                flags: 3,
                next: i + 1,
            },
        );
    }
    s.describe(63, writable(999, 1));
    s.offer(0, 0);
    Ok(s)
}

// A chain may have as many descriptors as the ring.
#[test]
fn takes_a_full_chain(rt: HostRuntime) -> Result<(), Fail> {
    let mut s = long_chain(rt.alloc())?;
    let mut want = s.clone()?;
    want.put(910, BLOCK);
    want.mark_used(0, 0, 17);
    want.put_state(1, 0);
    assert_eq!(rt; s.serve(1), Done::Served(0));
    assert_eq!(rt; s, want);
    Ok(())
}

// The counts go on at 0 behind 65,535.
#[test]
fn counts_across_the_end(rt: HostRuntime) -> Result<(), Fail> {
    let mut s = Setup::example(rt.alloc())?;
    s.put_state(65535, 0);
    s.offer(65535, 0);
    s.offer(0, 0);
    let mut want = s.clone()?;
    want.put(48, BLOCK);
    want.mark_used(65535, 0, 17);
    want.put_state(0, 0);
    assert_eq!(rt; s.serve(1), Done::Served(1));
    assert_eq!(rt; s, want);
    want.mark_used(0, 0, 17);
    want.put_state(1, 0);
    assert_eq!(rt; s.serve(1), Done::Served(0));
    assert_eq!(rt; s, want);
    Ok(())
}

// No more chains are served than a call may, and no more than wait.
#[test]
fn keeps_the_budget(rt: HostRuntime) -> Result<(), Fail> {
    let mut s = Setup::example(rt.alloc())?;
    s.offer(1, 0);
    let mut want = s.clone()?;
    assert_eq!(rt; s.serve(0), Done::Served(2));
    assert_eq!(rt; s, want);
    want.put(48, BLOCK);
    want.mark_used(0, 0, 17);
    want.mark_used(1, 0, 17);
    want.put_state(2, 0);
    assert_eq!(rt; s.serve(1000), Done::Served(0));
    assert_eq!(rt; s, want);
    assert_eq!(rt; s.serve(1000), Done::Served(0));
    assert_eq!(rt; s, want);
    Ok(())
}
