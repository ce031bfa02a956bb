//! The numbers, names and texts of the faults of creating a host.
use ncp_host::HostFault;
use ncp_test_parts::known::{is_shown, is_told};
use std::test::Fail;

fn number_of(fault: HostFault) -> u8 {
    fault as u8
}

#[test]
fn faults_are_told(rt: HostRuntime) -> Result<(), Fail> {
    const ROWS: &[(HostFault, u8, &str, &str)] = &[
        (
            HostFault::BadPeers,
            1,
            "BadPeers",
            "the peers are not one to eight distinct other hosts",
        ),
        (HostFault::OutOfMemory, 2, "OutOfMemory", "out of memory"),
    ];
    for &(fault, number, name, text) in ROWS {
        assert!(rt;
            number_of(fault) == number
                && is_shown(rt.alloc(), &fault, name)?
                && is_told(rt.alloc(), &fault, text)?
        );
    }
    Ok(())
}
