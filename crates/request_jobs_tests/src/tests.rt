use crate::putting::put_on_two;
use std::test::Fail;

#[test]
fn each_job_gives_its_pass_back(rt: HostRuntime) -> Result<(), Fail> {
    let (back, numbers, others) = put_on_two(&rt, rt.alloc(), 1000).ok().ok_or("memory")?;
    assert_eq!(rt; (back, numbers.len(), others.len()), (2, 1000, 1000));
    for (at, number) in numbers.as_slice().iter().enumerate() {
        assert_eq!(rt; *number as usize, at);
    }
    Ok(())
}
