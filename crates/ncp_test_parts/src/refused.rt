//! Allocation failures of a subnet. Here the test has ample memory: `bench/refuse.py` runs it
//! repeatedly, fails one allocation after the other, and reads the line printed for it.
use ncp_subnet::Subnet;
use std::test::Fail;

#[test]
fn subnet_new(rt: HostRuntime) -> Result<(), Fail> {
    if Subnet::new(rt.alloc(), 1, 2).is_err() {
        Subnet::new(rt.alloc(), 1, 2)?;
        println!(rt; "refused: AllocError, no subnet")?;
    }
    Ok(())
}

#[test]
fn subnet_among(rt: HostRuntime) -> Result<(), Fail> {
    const HOSTS: &[u8] = &[1, 2, 3];
    if Subnet::among(rt.alloc(), HOSTS).is_err() {
        Subnet::among(rt.alloc(), HOSTS)?;
        println!(rt; "refused: AllocError, no subnet")?;
    }
    Ok(())
}
