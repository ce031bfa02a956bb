//! Allocation failures of a follower. Here the test has ample memory: `bench/refuse.py` runs it
//! repeatedly, fails one allocation after the other, and reads the line printed for it.
use ncp_follow::Follower;
use std::test::Fail;

#[test]
fn follower_new(rt: HostRuntime) -> Result<(), Fail> {
    if Follower::new(rt.alloc(), false).is_ok() {
        return Ok(());
    }
    Follower::new(rt.alloc(), false)?;
    println!(rt; "refused: AllocError, no follower")?;
    Ok(())
}
