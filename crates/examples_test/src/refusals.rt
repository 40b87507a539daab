// Calls that are refused, and change nothing. The numbers are those that the entries are to answer.
use crate::compare::same;
use crate::setup::*;
use serving::done::Done;
use std::alloc::Global;
use std::test::*;

// Checks that the example as a ring of other places, or that begins elsewhere, is refused.
fn refuses_ring(heap: Global, places: u64, begins: u64) -> Result<(), Fail> {
    let mut s = Setup::example(heap)?;
    let want = s.clone()?;
    same(&s.serve_as(places, begins, 1), &Done::Refused(1))?;
    same(&s, &want)
}

// Numbers of places that are none, and rings that do not lie in memory.
#[test]
fn no_ring(rt: HostRuntime) -> Result<(), Fail> {
    refuses_ring(rt.alloc(), 0, 0)?;
    refuses_ring(rt.alloc(), 3, 0)?;
    refuses_ring(rt.alloc(), 65, 0)?;
    refuses_ring(rt.alloc(), 128, 0)?;
    refuses_ring(rt.alloc(), u64::MAX, 0)?;
    refuses_ring(rt.alloc(), 2, 34)?;
    refuses_ring(rt.alloc(), 2, u64::MAX)?;
    refuses_ring(rt.alloc(), 2, u64::MAX - 30)
}

// A ring may end with the memory.
#[test]
fn ring_at_the_end(rt: HostRuntime) -> Result<(), Fail> {
    let mut s = Setup::empty(rt.alloc(), 2, 33, 65)?;
    let want = s.clone()?;
    assert_eq!(rt; s.serve(1), Done::Served(0));
    assert_eq!(rt; s, want);
    Ok(())
}

// A memory of 65,536 bytes is taken, and no longer one.
#[test]
fn memory_too_long(rt: HostRuntime) -> Result<(), Fail> {
    let mut s = Setup::empty(rt.alloc(), 2, 0, 65536)?;
    assert_eq!(rt; s.serve(1), Done::Served(0));
    let mut s = Setup::empty(rt.alloc(), 2, 0, 65537)?;
    s.put_state(0, 2);
    assert_eq!(rt; s.serve(1), Done::Refused(1));
    assert_eq!(rt; s.state.as_slice(), [0, 2].as_slice());
    Ok(())
}

// Checks that the example is refused with these numbers for its state.
fn refuses_state(heap: Global, state: &[u32]) -> Result<(), Fail> {
    let mut s = Setup::example(heap)?;
    s.state = state.to_vec(heap)?;
    let want = s.clone()?;
    same(&s.serve(2000), &Done::Refused(2))?;
    same(&s, &want)
}

// States that are none.
#[test]
fn no_state(rt: HostRuntime) -> Result<(), Fail> {
    refuses_state(rt.alloc(), &[])?;
    refuses_state(rt.alloc(), &[0])?;
    refuses_state(rt.alloc(), &[0, 0, 0])?;
    refuses_state(rt.alloc(), &[65536, 0])?;
    refuses_state(rt.alloc(), &[0, 2])
}

// Contents of 4,096 bytes are taken, and no longer ones.
#[test]
fn contents_too_long(rt: HostRuntime) -> Result<(), Fail> {
    let mut s = Setup::example(rt.alloc())?;
    s.kept = vec![in rt.alloc(); 5; 4097]?;
    let want = s.clone()?;
    assert_eq!(rt; s.serve(2000), Done::Refused(3));
    assert_eq!(rt; s, want);
    s.kept = vec![in rt.alloc(); 5; 4096]?;
    assert_eq!(rt; s.serve(1), Done::Served(0));
    Ok(())
}

// A thousand servings may be asked for, and no more.
#[test]
fn too_many_times(rt: HostRuntime) -> Result<(), Fail> {
    let mut s = Setup::example(rt.alloc())?;
    let want = s.clone()?;
    assert_eq!(rt; s.serve(1001), Done::Refused(4));
    assert_eq!(rt; s, want);
    assert_eq!(rt; s.serve(u64::MAX), Done::Refused(4));
    assert_eq!(rt; s, want);
    assert_eq!(rt; s.serve(1000), Done::Served(0));
    Ok(())
}
