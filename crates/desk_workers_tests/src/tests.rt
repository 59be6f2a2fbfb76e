use crate::work::{at_two_desks, meeting, with_a_refusal};
use std::test::Fail;

#[test]
fn all_asks_of_three_workers_are_served(rt: HostRuntime) -> Result<(), Fail> {
    let told = at_two_desks(&rt, rt.alloc()).ok().ok_or("memory")?;
    assert_eq!(rt; told, ((103, 24), 3));
    Ok(())
}

#[test]
fn two_threads_are_at_work(rt: HostRuntime) -> Result<(), Fail> {
    assert!(rt; meeting(&rt, rt.alloc(), 1).ok().ok_or("memory")?);
    Ok(())
}

#[test]
fn two_threads_are_at_work_for_one_desk(rt: HostRuntime) -> Result<(), Fail> {
    assert!(rt; meeting(&rt, rt.alloc(), 0).ok().ok_or("memory")?);
    Ok(())
}

#[test]
fn the_asks_after_a_refused_one_are_put(rt: HostRuntime) -> Result<(), Fail> {
    let told = with_a_refusal(&rt, rt.alloc()).ok().ok_or("memory")?;
    assert_eq!(rt; told, (true, 4));
    Ok(())
}
