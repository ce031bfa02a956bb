//! The command lines and inputs of the runs.

/// An RFNM for host 2 on link 0, which only an IMP sends: in a file from a host it has no name.
const FIRST: &[u8] = &[0x4E, 0x43, 0x50, 0x48, 0x00, 0x20, 0x05, 0x02, 0x00, 0x00];

/// A host comes up, and a second echo is requested before the first is answered.
const ECHOES: &[u8] = b"host 1 2
phase 2
in 32 05020000
in 80 0002000000080001000c
phase 2
echo 2 65
echo 2 66
out
";

/// An RST is sent, received and answered.
const RESET: &[u8] = b"hosts 1 2
a reset
a out
a deliver 0
a answer 0
";

/// An answer to a message that was sent, and one to none.
const STRAY: &[u8] =
    b"NCPJH\x07\x00\x50\x00\x02\x00\x00\x00\x08\x00\x01\x00\x0cI\x07\x00\x20\x05\x02\x00\x00I\x07\x00\x20\x05\x02\x00\x00";

/// One connection, at the interfaces of both hosts.
const CONNECTED: &[u8] =
    b"NCPJ\x48\x01\x00\x50\x00\x02\x00\x00\x00\x08\x00\x01\x00\x0c\x49\x02\x00\x50\x00\x01\x00\x00\x00\x08\x00\x01\x00\x0c\x49\x01\x00\x20\x05\x02\x00\x00\x48\x02\x00\x50\x00\x01\x00\x00\x00\x08\x00\x01\x00\x0d\x49\x01\x00\x50\x00\x02\x00\x00\x00\x08\x00\x01\x00\x0d\x49\x02\x00\x20\x05\x01\x00\x00\x48\x02\x00\x98\x00\x01\x00\x00\x00\x08\x00\x0a\x00\x01\x00\x00\x00\x02\x00\x00\x00\x03\x02\x49\x01\x00\x98\x00\x02\x00\x00\x00\x08\x00\x0a\x00\x01\x00\x00\x00\x02\x00\x00\x00\x03\x02\x49\x02\x00\x20\x05\x01\x00\x00\x48\x01\x00\x98\x00\x02\x00\x00\x00\x08\x00\x0a\x00\x02\x00\x00\x00\x03\x00\x00\x00\x02\x08\x49\x02\x00\x98\x00\x01\x00\x00\x00\x08\x00\x0a\x00\x02\x00\x00\x00\x03\x00\x00\x00\x02\x08\x49\x01\x00\x20\x05\x02\x00\x00\x48\x02\x00\x88\x00\x01\x00\x00\x00\x08\x00\x08\x00\x04\x02\x00\x02\x00\x00\x00\x10\x49\x01\x00\x88\x00\x02\x00\x00\x00\x08\x00\x08\x00\x04\x02\x00\x02\x00\x00\x00\x10\x49\x02\x00\x20\x05\x01\x00\x00\x48\x01\x00\x58\x00\x02\x02\x00\x00\x08\x00\x02\x00\x61\x62\x49\x02\x00\x58\x00\x01\x02\x00\x00\x08\x00\x02\x00\x61\x62\x49\x01\x00\x20\x05\x02\x02\x00";

/// The words of a command line, the program's name first, and the input.
type Row = (&'static [&'static str], &'static [u8]);

/// Runs that are no cases of `ncp_test_cases`: no words, words that are no order, words that name a
/// file, names to explain, and a connection number that does not exist, for which the program
/// prints more than its library.
pub(crate) const RUNS: &[Row] = &[
    (&["ncp"], FIRST),
    (&["ncp", "convert"], FIRST),
    (&["ncp", "follow", "--bytes", "0"], CONNECTED),
    (&["ncp", "follow", "--bytes", "3"], CONNECTED),
    (&["ncp", "--version"], b""),
    (&["ncp", "--help"], b""),
    (&["ncp", "help", "world"], b""),
    (&["ncp", "convert", "--help"], b""),
    (&["ncp", "play"], b""),
    (&["ncp", "show", "first.ncp", "more.ncp"], b""),
    (&["ncp", "check", "first.ncp"], FIRST),
    (&["ncp", "explain", "BadLine"], b""),
    (&["ncp", "explain", "stray"], b""),
    (&["ncp", "explain", "late=3"], b""),
    (&["ncp", "explain", "type-15"], b""),
    (&["ncp", "explain", "BadLin"], b""),
    (&["ncp", "explain"], b""),
];

/// Each subcommand once.
pub(crate) const EACH: &[Row] = &[
    (&["ncp", "show"], FIRST),
    (&["ncp", "check"], FIRST),
    (&["ncp", "count"], FIRST),
    (&["ncp", "convert", "--at", "7"], FIRST),
    (&["ncp", "audit"], STRAY),
    (&["ncp", "follow"], CONNECTED),
    (&["ncp", "follow", "--bytes", "1"], CONNECTED),
    (&["ncp", "host"], ECHOES),
    (&["ncp", "world"], RESET),
    (&["ncp", "record"], RESET),
];
