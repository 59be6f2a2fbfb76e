use crate::runs::{apart, bought_in, carried_in, meeting};
use std::test::Fail;

#[test]
fn two_threads_are_at_work(rt: HostRuntime) -> Result<(), Fail> {
    assert!(rt; meeting(&rt, rt.alloc()).ok().ok_or("memory")?);
    Ok(())
}

#[test]
fn no_lock_joins_replicas(rt: HostRuntime) -> Result<(), Fail> {
    assert!(rt; apart(&rt, rt.alloc()).ok().ok_or("memory")?);
    Ok(())
}

#[test]
fn clients_come_to_the_same_in_each_of_200_runs(rt: HostRuntime) -> Result<(), Fail> {
    assert_eq!(rt; bought_in(&rt, rt.alloc(), 200).ok().ok_or("memory")?, 200);
    Ok(())
}

#[test]
fn what_couriers_carry_is_taken_in_each_of_200_runs(rt: HostRuntime) -> Result<(), Fail> {
    assert_eq!(rt; carried_in(&rt, rt.alloc(), 200).ok().ok_or("memory")?, 200);
    Ok(())
}
