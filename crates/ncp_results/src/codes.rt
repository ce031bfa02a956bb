//! The result codes.
ghost use Rattle.std.specs.Prelude.{◌≡◌, ◌<◌, ◌≤◌};
ghost use Rattle.ncp_results.specs.Codes.{code_of, fault_code, host_code, load_code, subnet_code, bits_code};

use ncp_bits::{BitsFault, MAX_BITS};
use ncp_host::{HostFault, LoadFault};
use ncp_model::CallFault;
use ncp_subnet::SubnetFault;

/// The call succeeded.
pub const DONE: u32 = 0;
/// There is no host.
pub const NO_HOST: u32 = 32;
/// A pointer is null. Only the functions for C return it.
pub const NO_POINTER: u32 = 33;
/// An output buffer is shorter than the longest result.
pub const SHORT_BUFFER: u32 = 34;
/// There is nothing to return.
pub const NOTHING: u32 = 35;
/// There is no subnet.
pub const NO_SUBNET: u32 = 36;
/// The base to which the number of a bits fault is added.
pub const BITS: u32 = 40;
/// The base to which the number of a failure to create a host is added.
pub const NEW: u32 = 64;
/// The base to which the number of the subnet's reason to refuse a message is added.
pub const SUBNET: u32 = 72;
/// The base to which the number of a failure to load a host is added.
pub const LOAD: u32 = 80;

/// The size of the longest message in bytes.
pub const LONGEST_MESSAGE: usize = MAX_BITS / 8;

/// Of a refusal of a call.
pub fn fault_code(fault: CallFault) -> u32
    ensures { result ≡ fault_code fault }
{
    u32::from(fault.number())
}

/// Of a call.
pub fn code_of(answer: Result<(), CallFault>) -> u32
    ensures { result ≡ code_of answer }
{
    match answer {
        Ok(()) => DONE,
        Err(fault) => fault_code(fault),
    }
}

/// Of a failure to create a host, or a subnet.
pub fn host_code(fault: HostFault) -> u32
    ensures { result ≡ host_code fault }
{
    match fault {
        HostFault::BadPeers => NEW + 1,
        HostFault::OutOfMemory => NEW + 2,
    }
}

/// Of a failure to load a host.
pub fn load_code(fault: LoadFault) -> u32
    ensures { result ≡ load_code fault }
{
    match fault {
        LoadFault::NotAHost => LOAD + 1,
        LoadFault::OtherVersion => LOAD + 2,
        LoadFault::OutOfMemory => LOAD + 3,
    }
}

/// Of the subnet's reason to refuse a message.
pub fn subnet_code(fault: SubnetFault) -> u32
    ensures { result ≡ subnet_code fault }
{
    match fault {
        SubnetFault::NotRegular => SUBNET + 1,
        SubnetFault::NoHost => SUBNET + 2,
        SubnetFault::Occupied => SUBNET + 3,
    }
}

/// Of bits that are invalid.
pub fn bits_code(fault: BitsFault) -> u32
    ensures { result ≡ bits_code fault }
{
    match fault {
        BitsFault::TooLong => BITS + 1,
        BitsFault::ShortBytes => BITS + 2,
        BitsFault::SpareNotZero => BITS + 3,
    }
}
