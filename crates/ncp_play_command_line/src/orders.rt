//! `Order`.

use crate::report::Report;

/// The program's order, one variant for each subcommand.
#[derive(Clone, Copy, Debug, Drop, PartialEq, Eq)]
pub enum Order {
    /// Show the messages of a file.
    Show,
    /// Check whether a file is sound.
    Check,
    /// Count the messages of each kind, and the commands of each name.
    Count,
    /// Convert a file of one version into the other. The number is that of the host with the
    /// interface.
    Convert(u8),
    /// Report the rules that the messages of a file break, and the hosts that break them. The
    /// capture may be a part, and the rules may be those of the standard alone.
    Audit {
        part: bool,
        standard: bool,
        report: Report,
    },
    /// Report the text of each connection of a file; the capture may be a part, and each text may
    /// be shown as letters too. Or write the text of the connection with the number `bytes`, as
    /// bytes; with `raw` to a terminal too.
    Follow {
        part: bool,
        letters: bool,
        bytes: Option<u16>,
        raw: bool,
    },
    /// Play a script of one host.
    Host,
    /// Play a script of two to eight hosts and the subnet between them.
    World,
    /// Play a script of two to eight hosts, and write its messages as a message file.
    Record,
    /// Explain a name: of a fault, a refusal, a rule, or a word of a line.
    Explain,
}

/// A parsed command line.
#[derive(Clone, Copy, Debug, Drop)]
pub struct Invocation<'a> {
    /// The order.
    pub order: Order,
    /// The word after the subcommand, if there is one: for [`Order::Explain`] the name, otherwise
    /// the file to read, with `-` for standard input.
    pub word: Option<&'a str>,
}
