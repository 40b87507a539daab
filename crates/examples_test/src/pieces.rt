// A descriptor's part handed back.
use crate::setup::*;
use serving::entries::piece;
use std::test::*;

// The parts that the example's descriptors name.
#[test]
fn there(rt: HostRuntime) -> Result<(), Fail> {
    let s = Setup::example(rt.alloc())?;
    assert_eq!(rt; piece(2, 0, &s.memory, 0), [0, 1].as_slice());
    assert_eq!(rt; piece(2, 0, &s.memory, 1), [0; 17].as_slice());
    Ok(())
}

// A part may lie in the ring: here it is the first descriptor.
#[test]
fn in_the_ring(rt: HostRuntime) -> Result<(), Fail> {
    let s = Setup::chain_of(rt.alloc(), readable(0, 8, 1), writable(65, 0))?;
    assert_eq!(rt;
        piece(2, 0, &s.memory, 0),
        [0, 0, 8, 0, 1, 0, 1, 0].as_slice()
    );
    assert!(rt; piece(2, 0, &s.memory, 1).is_empty());
    Ok(())
}

// An index that is none of the descriptors gives nothing.
#[test]
fn no_descriptor(rt: HostRuntime) -> Result<(), Fail> {
    let s = Setup::example(rt.alloc())?;
    assert!(rt; piece(2, 0, &s.memory, 2).is_empty());
    assert!(rt; piece(1, 0, &s.memory, 1).is_empty());
    assert!(rt; piece(2, 0, &s.memory, u64::MAX).is_empty());
    Ok(())
}

// A part that is not wholly in memory gives nothing.
#[test]
fn not_in_memory(rt: HostRuntime) -> Result<(), Fail> {
    let s = Setup::chain_of(rt.alloc(), readable(64, 2, 1), writable(65535, 65535))?;
    assert!(rt; piece(2, 0, &s.memory, 0).is_empty());
    assert!(rt; piece(2, 0, &s.memory, 1).is_empty());
    Ok(())
}

// Where there is no ring, there is no part.
#[test]
fn no_ring(rt: HostRuntime) -> Result<(), Fail> {
    let s = Setup::example(rt.alloc())?;
    assert!(rt; piece(3, 0, &s.memory, 0).is_empty());
    assert!(rt; piece(0, 0, &s.memory, 0).is_empty());
    assert!(rt; piece(2, 34, &s.memory, 0).is_empty());
    assert!(rt; piece(2, u64::MAX, &s.memory, 0).is_empty());
    assert!(rt; piece(u64::MAX, u64::MAX, &s.memory, u64::MAX).is_empty());
    Ok(())
}
