// The device reset. The number of a refusal is that which the entry is to answer.
use crate::setup::*;
use serving::done::Done;
use serving::entries::begin_anew;
use std::test::*;

// After a stop the device serves again, with the contents that it had.
#[test]
fn serves_again(rt: HostRuntime) -> Result<(), Fail> {
    let mut s = Setup::example(rt.alloc())?;
    s.keep(16, &[90, 91]);
    s.count_available(3);
    assert_eq!(rt; s.serve(1), Done::Stopped);
    assert_eq!(rt; s.reset(), Done::Anew);
    s.offer(0, 0);
    let mut want = s.clone()?;
    want.put(48, BLOCK);
    want.put(49, &[90, 91]);
    want.mark_used(0, 0, 17);
    want.put_state(1, 0);
    assert_eq!(rt; s.serve(1), Done::Served(0));
    assert_eq!(rt; s, want);
    Ok(())
}

// Any two numbers become the state of a device that was just started.
#[test]
fn takes_any_two_numbers(rt: HostRuntime) -> Result<(), Fail> {
    let mut state = [4_000_000_000, 77];
    assert_eq!(rt; begin_anew(&mut state), Done::Anew);
    assert_eq!(rt; state, [0, 0]);
    Ok(())
}

// A state of another length is left as it is.
#[test]
fn refuses_another_length(rt: HostRuntime) -> Result<(), Fail> {
    let mut three = [1, 2, 3];
    assert_eq!(rt; begin_anew(&mut three), Done::Refused(2));
    assert_eq!(rt; three, [1, 2, 3]);
    let mut one = [1];
    assert_eq!(rt; begin_anew(&mut one), Done::Refused(2));
    assert_eq!(rt; one, [1]);
    Ok(())
}
