//! The numbers, names and texts of the faults of creating two to eight hosts.
use ncp_world::ManyFault;
use std::test::Fail;

fn number_of(fault: ManyFault) -> u8 {
    fault as u8
}

#[test]
fn faults_of_many_are_told(rt: HostRuntime) -> Result<(), Fail> {
    const ROWS: &[(ManyFault, u8, &str, &str)] = &[
        (
            ManyFault::BadHosts,
            1,
            "BadHosts",
            "the hosts are not two to eight distinct ones",
        ),
        (ManyFault::OutOfMemory, 2, "OutOfMemory", "out of memory"),
    ];
    for &(fault, number, name, text) in ROWS {
        let shown = format!(in rt.alloc(); "{fault:?}")?;
        let told = format!(in rt.alloc(); "{fault}")?;
        assert!(rt; number_of(fault) == number && shown.as_str() == name && told.as_str() == text);
    }
    Ok(())
}
