//! Recordings are clean.
ghost use Rattle.ncp_proof_audit.specs.CleanRecords.{WritesNoLine, AnswersNoFinding, EachFileOfMany, EachFileOfTwo};

/// The recording of the notes of two to eight hosts is a file without fault. For it `audit` writes
/// no line, and returns that there is no finding, with and without `--standard`.
pub fn what_is_recorded_of_many_is_clean()
    // theorem: For the file that records two to eight of these hosts with the subnet between them,
    // `audit` prints no line, with or without `--standard`, and the file has no fault.
    ensures lines { EachFileOfMany WritesNoLine }
    ensures verdict { EachFileOfMany AnswersNoFinding }
{}

/// The same for two hosts.
pub fn what_is_recorded_of_two_is_clean()
    ensures lines { EachFileOfTwo WritesNoLine }
    ensures verdict { EachFileOfTwo AnswersNoFinding }
{}
