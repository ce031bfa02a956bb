//! The names of the result codes.
ghost use Rattle.std.specs.Prelude.{◌≡◌};
ghost use Rattle.ncp_results.specs.Names.{number_of_answer, name_of_answer, name_of_new, name_of_load, name_of_subnet, name_of_bits, answer_among, all_answers};

use crate::codes::{
    DONE, NO_HOST, NO_POINTER, NO_SUBNET, NOTHING, SHORT_BUFFER, bits_code, host_code, load_code,
    subnet_code,
};
use ncp_bits::BitsFault;
use ncp_host::{HostFault, LoadFault};
use ncp_model::CallFault;
use ncp_subnet::SubnetFault;

/// A result code of a function for C.
#[derive(Clone, Copy, Drop)]
pub enum ResultCode {
    Done,
    Call(CallFault),
    New(HostFault),
    NoHost,
    NoPointer,
    ShortBuffer,
    Nothing,
    NoSubnet,
    Bits(BitsFault),
    Subnet(SubnetFault),
    Load(LoadFault),
}

// All result codes.
const RESULT_CODES: [ResultCode; 34] = [
    ResultCode::Done,
    ResultCode::Call(CallFault::UnknownPeer),
    ResultCode::Call(CallFault::NotUp),
    ResultCode::Call(CallFault::BadSex),
    ResultCode::Call(CallFault::BadSize),
    ResultCode::Call(CallFault::BadRoom),
    ResultCode::Call(CallFault::NoEntry),
    ResultCode::Call(CallFault::AlreadyAsked),
    ResultCode::Call(CallFault::Closing),
    ResultCode::Call(CallFault::NotOpen),
    ResultCode::Call(CallFault::WrongEnd),
    ResultCode::Call(CallFault::NotWhole),
    ResultCode::Call(CallFault::Busy),
    ResultCode::Call(CallFault::NoRoom),
    ResultCode::Call(CallFault::TooMuch),
    ResultCode::Call(CallFault::TableFull),
    ResultCode::Call(CallFault::QueueFull),
    ResultCode::Call(CallFault::OutOfMemory),
    ResultCode::NoHost,
    ResultCode::NoPointer,
    ResultCode::ShortBuffer,
    ResultCode::Nothing,
    ResultCode::NoSubnet,
    ResultCode::Bits(BitsFault::TooLong),
    ResultCode::Bits(BitsFault::ShortBytes),
    ResultCode::Bits(BitsFault::SpareNotZero),
    ResultCode::New(HostFault::BadPeers),
    ResultCode::New(HostFault::OutOfMemory),
    ResultCode::Subnet(SubnetFault::NotRegular),
    ResultCode::Subnet(SubnetFault::NoHost),
    ResultCode::Subnet(SubnetFault::Occupied),
    ResultCode::Load(LoadFault::NotAHost),
    ResultCode::Load(LoadFault::OtherVersion),
    ResultCode::Load(LoadFault::OutOfMemory),
];

fn name_of_new(fault: HostFault) -> &'static str
    ensures { result.now ≡ name_of_new fault }
{
    match fault {
        HostFault::BadPeers => "BadPeers",
        HostFault::OutOfMemory => "OutOfMemory",
    }
}

fn name_of_subnet(fault: SubnetFault) -> &'static str
    ensures { result.now ≡ name_of_subnet fault }
{
    match fault {
        SubnetFault::NotRegular => "NotRegular",
        SubnetFault::NoHost => "NoHost",
        SubnetFault::Occupied => "Occupied",
    }
}

fn name_of_load(fault: LoadFault) -> &'static str
    ensures { result.now ≡ name_of_load fault }
{
    match fault {
        LoadFault::NotAHost => "NotAHost",
        LoadFault::OtherVersion => "OtherVersion",
        LoadFault::OutOfMemory => "OutOfMemory",
    }
}

fn name_of_bits(fault: BitsFault) -> &'static str
    ensures { result.now ≡ name_of_bits fault }
{
    match fault {
        BitsFault::TooLong => "TooLong",
        BitsFault::ShortBytes => "ShortBytes",
        BitsFault::SpareNotZero => "SpareNotZero",
    }
}

impl ResultCode {
    /// The result code with a number. `None` if no function returns that number.
    pub fn of(code: u32) -> Option<ResultCode>
        ensures { result ≡ answer_among all_answers code }
    {
        answer_among(&RESULT_CODES, code)
    }

    pub fn number(self) -> u32
        ensures { result ≡ number_of_answer self }
    {
        match self {
            ResultCode::Done => DONE,
            ResultCode::Call(fault) => u32::from(fault.number()),
            ResultCode::New(fault) => host_code(fault),
            ResultCode::NoHost => NO_HOST,
            ResultCode::NoPointer => NO_POINTER,
            ResultCode::ShortBuffer => SHORT_BUFFER,
            ResultCode::Nothing => NOTHING,
            ResultCode::NoSubnet => NO_SUBNET,
            ResultCode::Bits(fault) => bits_code(fault),
            ResultCode::Subnet(fault) => subnet_code(fault),
            ResultCode::Load(fault) => load_code(fault),
        }
    }

    /// The name, as programs print it.
    pub fn name(self) -> &'static str
        ensures { result.now ≡ name_of_answer self }
    {
        match self {
            ResultCode::Done => "Done",
            ResultCode::Call(fault) => fault.name(),
            ResultCode::New(fault) => name_of_new(fault),
            ResultCode::NoHost => "NoHost",
            ResultCode::NoPointer => "NoPointer",
            ResultCode::ShortBuffer => "ShortBuffer",
            ResultCode::Nothing => "Nothing",
            ResultCode::NoSubnet => "NoSubnet",
            ResultCode::Bits(fault) => name_of_bits(fault),
            ResultCode::Subnet(fault) => name_of_subnet(fault),
            ResultCode::Load(fault) => name_of_load(fault),
        }
    }
}

// The result code with a number, among these.
fn answer_among(answers: &[ResultCode], code: u32) -> Option<ResultCode>
    ensures { result ≡ answer_among answers.now code }
{
    match answers {
        [] => None,
        [answer, behind @ ..] => {
            if answer.number() == code {
                return Some(*answer);
            }
            answer_among(behind, code)
        }
    }
}
