use crate::relays::{filled, two_threads};
use std::test::Fail;

#[test]
fn the_65th_message_finds_no_room(rt: HostRuntime) -> Result<(), Fail> {
    let (last, left) = filled(&rt, rt.alloc(), 64, 65).ok().ok_or("memory")?;
    assert_eq!(rt; last, 63);
    let lists = left.get(1).ok_or("replica")?;
    let messages = lists.get(0).ok_or("sender")?;
    assert_eq!(rt; messages.len(), 64);
    for (at, message) in messages.as_slice().iter().enumerate() {
        assert_eq!(rt;
            (message.from, message.to, message.number as usize),
            (0, 1, at)
        );
    }
    Ok(())
}

#[test]
fn what_each_thread_puts_is_left_for_the_other(rt: HostRuntime) -> Result<(), Fail> {
    let left = two_threads(&rt, rt.alloc(), 1000).ok().ok_or("memory")?;
    for (me, lists) in left.as_slice().iter().enumerate() {
        for (from, messages) in lists.as_slice().iter().enumerate() {
            let wanted = if from == me { 0 } else { 1000 };
            assert_eq!(rt; messages.len(), wanted);
        }
    }
    Ok(())
}
