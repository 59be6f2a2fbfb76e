use crate::relays::{filled, one_after_another, two_threads};
use std::test::Fail;

#[test]
fn the_65th_message_of_64_comes_back(rt: HostRuntime) -> Result<(), Fail> {
    let (refused, first, left) = filled(&rt, rt.alloc(), 64).ok().ok_or("memory")?;
    assert_eq!(rt; (refused, first), (Some(64), Some(0)));
    assert_eq!(rt; left.len(), 63);
    let mut wanted = 1;
    for number in left.as_slice() {
        assert_eq!(rt; *number, wanted);
        wanted = wanted.wrapping_add(1);
    }
    Ok(())
}

#[test]
fn passes_that_tell_one_another_find_room_and_messages(rt: HostRuntime) -> Result<(), Fail> {
    let taken = one_after_another(&rt, rt.alloc(), 7, 8)
        .ok()
        .ok_or("memory")?;
    assert_eq!(rt; taken, 7);
    Ok(())
}

#[test]
fn what_one_thread_puts_another_takes_in_order(rt: HostRuntime) -> Result<(), Fail> {
    let (taken, left) = two_threads(&rt, rt.alloc(), 10000, 5000)
        .ok()
        .ok_or("memory")?;
    let mut wanted = 0;
    for number in taken.as_slice() {
        assert_eq!(rt; *number, wanted);
        wanted = wanted.wrapping_add(1);
    }
    for number in left.as_slice() {
        assert_eq!(rt; *number, wanted);
        wanted = wanted.wrapping_add(1);
    }
    assert_eq!(rt; wanted, 10000);
    Ok(())
}
