//! Allocation failures of an auditor. Here the test has ample memory: `bench/refuse.py` runs it
//! repeatedly, fails one allocation after the other, and reads the line printed for it.
use ncp_play_audit::Auditor;
use std::test::Fail;

#[test]
fn auditor_new(rt: HostRuntime) -> Result<(), Fail> {
    if Auditor::new(rt.alloc(), false).is_ok() {
        return Ok(());
    }
    Auditor::new(rt.alloc(), false)?;
    println!(rt; "refused: AllocError, no auditor")?;
    Ok(())
}

#[test]
fn auditor_with_coverage(rt: HostRuntime) -> Result<(), Fail> {
    if Auditor::with_coverage(rt.alloc(), false, false).is_ok() {
        return Ok(());
    }
    Auditor::with_coverage(rt.alloc(), false, false)?;
    println!(rt; "refused: AllocError, no auditor with coverage")?;
    Ok(())
}
