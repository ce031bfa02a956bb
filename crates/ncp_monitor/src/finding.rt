//! `Finding`: a broken rule, and who broke it.
use ncp_leader::MessageFault;
use ncp_wire::{Command, CommandFault, ERROR_DATA};

/// Who broke a rule.
#[derive(Clone, Copy, Debug, Drop, PartialEq, Eq)]
pub enum Who {
    /// The host with this number.
    Host(u8),
    /// The IMP, that is, the subnet.
    Imp,
}

/// Why a message cannot be one that the host in its leader sent.
#[derive(Clone, Copy, Debug, Drop, PartialEq, Eq)]
pub enum Unsent {
    /// None is outstanding on this link.
    NotOut,
    /// The outstanding one was already delivered.
    Twice,
    /// The outstanding one has other bits.
    Altered,
}

/// What can be early: a text on a data link, a fault of a control text, or a command.
#[derive(Clone, Copy, Debug, Drop, PartialEq, Eq)]
pub enum ItemKind {
    Text,
    Bad,
    Nop,
    Rts,
    Str,
    Cls,
    All,
    Gvb,
    Ret,
    Inr,
    Ins,
    Eco,
    Erp,
    Err,
}

/// Why a text, or a command that names a link, has no open connection.
#[derive(Clone, Copy, Debug, Drop, PartialEq, Eq)]
pub enum Unopened {
    /// No connection has the link.
    NoPair,
    /// Its source closed the connection; for a text of the host, also if the peer closed it.
    Closed,
    /// Not both sides have asked for it.
    NotAsked,
}

/// A broken rule, with the numbers that show it.
#[derive(Clone, Copy, Debug, Drop, PartialEq, Eq)]
pub enum Rule {
    /// A message has fewer bits than a leader (BBN 1822, section 3).
    Short {
        bits: u32,
    },
    /// The leader names the host itself (this profile).
    OwnHost {
        kind: u8,
        link: u8,
    },
    /// A host sends a message of another type than 0 and 4, NOP (this profile).
    Kind {
        kind: u8,
    },
    /// A message of type 0 is no regular message (NIC 8246, message form).
    Fault {
        fault: MessageFault,
        link: u8,
    },
    /// A link that carries neither control nor a connection: 1, or over 71 (NIC 8246).
    WrongLink {
        link: u8,
    },
    /// Link 0 with another byte size than 8 (NIC 8246).
    WrongSize {
        size: u8,
    },
    /// Flags, a low field, bits after the text, no text, or a longer text than this profile makes.
    Extras {
        flags: u8,
        low: u8,
        text: u32,
        rest: u32,
    },
    /// A message on a link whose last message has no answer (BBN 1822, section 3).
    Occupied {
        link: u8,
    },
    /// A message other than the undelivered one that is to be sent again (this profile).
    Changed {
        link: u8,
    },
    /// An answer on a link on which no message is outstanding (BBN 1822, section 3).
    Stray {
        kind: u8,
        link: u8,
    },
    /// A message that its leader's host did not send in this form.
    Unsent {
        host: u8,
        link: u8,
        why: Unsent,
    },
    /// An answer that contradicts what was observed: that an undelivered message was delivered, or
    /// the reverse.
    FalseAnswer {
        kind: u8,
        host: u8,
        link: u8,
        came: bool,
    },
    /// A control text has a fault (NIC 8246).
    Bad {
        fault: CommandFault,
    },
    /// A command or a text before the reset is over. The flags: whether the side began, awaits an
    /// RRP, and owes one.
    Early {
        thing: ItemKind,
        began: bool,
        waits: bool,
        owes: bool,
    },
    /// A second RST before the RRP (this profile).
    RstAgain,
    /// An RRP for which no RST asked (NIC 8246).
    RrpUnasked,
    /// An RST, or an RRP, while a data link is busy (this profile).
    Unquiet {
        reply: bool,
        link: u8,
    },
    /// An RST before an owed RRP that a busy data link delayed (this profile).
    RrpFirst,
    /// An owed RRP was left out (this profile).
    MissingRrp,
    /// An owed reply or an owed CLS was left out (this profile).
    Missing {
        command: Command,
    },
    /// A reply skips one that is owed before it (this profile).
    Skipped {
        command: Command,
    },
    /// A second ECO before the ERP (this profile).
    EcoAgain {
        byte: u8,
    },
    /// An ERP for which no ECO asked (NIC 8246).
    ErpUnasked {
        byte: u8,
    },
    /// An ERR about something that broke no rule (NIC 8246; its codes and data are this profile's).
    ErrUnjust {
        code: u8,
        bytes: [u8; ERROR_DATA],
    },
    /// A request whose sockets have the wrong sexes, or a CLS with two sockets of one sex (NIC
    /// 8246).
    Sex {
        command: Command,
    },
    /// An RTS with a link below 2 or over 71 (NIC 8246).
    LinkRange {
        command: Command,
    },
    /// An STR with byte size 0 (NIC 8246).
    SizeZero {
        command: Command,
    },
    /// A side requests the same connection twice (NIC 8246).
    AskedAgain {
        command: Command,
        since: u32,
    },
    /// A request of a side that sent its CLS, before the other side's CLS (NIC 8246).
    Unended {
        command: Command,
        since: u32,
    },
    /// An RTS with a link of another connection of the same receiver (this profile).
    LinkUsed {
        command: Command,
        local: u32,
        remote: u32,
    },
    /// A CLS of a connection for which neither side asked (NIC 8246).
    ClsUnknown {
        command: Command,
    },
    /// A second CLS of a side (NIC 8246).
    ClsAgain {
        command: Command,
        since: u32,
    },
    /// A sender's CLS while a text of it is outstanding (this profile).
    TextOut {
        command: Command,
        link: u8,
    },
    /// ALL, GVB, RET, INR or INS on a link without an open connection (NIC 8246).
    NotOpen {
        command: Command,
        why: Unopened,
    },
    /// An ALL after which the sender's allocation exceeds 65,535 messages or 65,536 bits (this
    /// profile).
    OverLimit {
        command: Command,
        messages: u32,
        bits: u32,
    },
    /// A second GVB before the RET (this profile).
    GvbAgain {
        command: Command,
    },
    /// A RET for which no GVB asked (this profile).
    RetUnasked {
        command: Command,
    },
    /// A RET with other numbers than asked for; from the peer, only greater ones (this profile).
    RetOther {
        command: Command,
        messages: u32,
        bits: u32,
    },
    /// A RET of more than is allocated (NIC 8246).
    RetOver {
        command: Command,
        messages: u32,
        bits: u32,
    },
    /// A text on a link without an open connection (NIC 8246).
    TextNotOpen {
        link: u8,
        why: Unopened,
    },
    /// A text with another byte size than the STR's (NIC 8246).
    TextSize {
        link: u8,
        size: u8,
        asked: u8,
    },
    /// A text that exceeds the allocation: its bits, and the messages and bits allocated (NIC
    /// 8246).
    TextOver {
        link: u8,
        messages: u32,
        bits: u32,
        of_bits: u32,
    },
}

/// A broken rule, and who broke it.
#[derive(Clone, Copy, Debug, Drop, PartialEq, Eq)]
pub struct Finding {
    /// Who broke it.
    pub who: Who,
    /// The rule.
    pub rule: Rule,
}
