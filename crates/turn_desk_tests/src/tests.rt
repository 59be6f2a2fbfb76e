use crate::jobs::{one_thread, two_threads};
use std::test::Fail;

#[test]
fn a_refused_turn_leaves_the_number(rt: HostRuntime) -> Result<(), Fail> {
    let told = one_thread(&rt, rt.alloc()).ok().ok_or("memory")?;
    assert_eq!(rt; told, ([Some(0), Some(1), Some(3), None, Some(8)], 9));
    Ok(())
}

#[test]
fn two_threads_take_a_thousand_turns_each(rt: HostRuntime) -> Result<(), Fail> {
    let number = two_threads(&rt, rt.alloc(), 1000).ok().ok_or("memory")?;
    assert_eq!(rt; number, 2000);
    Ok(())
}
