//! Results as structs of numbers.
ghost use Rattle.std.specs.Prelude.{◌≡◌};
ghost use Rattle.ncp_results.specs.Returned.{arrived_of, arrival, led_to, with_tally, kind_of_leader, number_of_took, number_of_message_fault, phase_of, counted_returned, discarded_of, noted_of};

use crate::commands::{Tally, tally_in};
use ncp_bits::Part;
use ncp_host::{Counts, Error, Flags, Ignored, Received};
use ncp_leader::{Leader, MessageFault, Short};
use ncp_model::{Pair, Took};
use ncp_wire::ERROR_DATA;

/// The result of receiving bits.
#[repr(C)]
#[derive(Clone, Copy, Drop)]
pub struct Arrived {
    /// 1 to 11, in the order of `Received`.
    pub what: u32,
    /// For `Other` and `Answered` the type, for `Fault` the number of the fault, for `Control` the
    /// number of commands read, for `Text` 1 to 5 in the order of `Took`; else 0.
    pub detail: u32,
    /// For `Text` the sockets here and there of the connection that its link identifies; 0 if it
    /// identifies none.
    pub local: u32,
    pub remote: u32,
    /// For `Control` the numbers of ERRs and of RSTs among the commands read; else 0. Each stays at
    /// its maximum.
    pub errors: u32,
    pub resets: u32,
    /// The host in the leader; 0 if there is no leader.
    pub peer: u8,
    /// The link in the leader; 0 if there is no leader.
    pub link: u8,
    /// The type in the leader; 0 if there is no leader.
    pub kind: u8,
}

/// The flags for a peer.
#[repr(C)]
#[derive(Clone, Copy, Drop)]
pub struct PeerFlags {
    pub down: bool,
    pub want: bool,
    pub owe: bool,
    pub wait: bool,
}

/// Counts of what was received from a peer.
#[repr(C)]
#[derive(Clone, Copy, Drop)]
pub struct PeerCounts {
    pub stray: u32,
    pub faults: u32,
    pub wrong_link: u32,
    pub wrong_size: u32,
    pub not_up: u32,
    pub late: u32,
    pub over: u32,
}

/// Counts of messages that belong to no peer.
#[repr(C)]
#[derive(Clone, Copy, Drop)]
pub struct IgnoredCounts {
    pub short_bits: u32,
    pub other: u32,
    pub unknown: u32,
}

/// A received ERR.
#[repr(C)]
#[derive(Clone, Copy, Drop)]
pub struct ErrCommand {
    pub code: u8,
    pub bytes: [u8; ERROR_DATA],
}

fn number_of_message_fault(fault: MessageFault) -> u32
    ensures { result ≡ number_of_message_fault fault }
{
    match fault {
        MessageFault::ShortPrefix => 1,
        MessageFault::M1NotZero => 2,
        MessageFault::SizeZero => 3,
        MessageFault::M2NotZero => 4,
        MessageFault::TextMissing => 5,
        MessageFault::TextTooLong => 6,
        MessageFault::NotWhole => 7,
    }
}

fn number_of_took(took: Took) -> u32
    ensures { result ≡ number_of_took took }
{
    match took {
        Took::Admitted => 1,
        Took::Late => 2,
        Took::WrongSize => 3,
        Took::Over => 4,
        Took::NotOpen => 5,
    }
}

// A result of receiving bits, with the host, link and type of their leader.
fn arrival(leader: Result<Leader, Short>, what: u32, detail: u32) -> Arrived
    ensures { result ≡ arrival leader what detail }
{
    match leader {
        Ok(leader) => Arrived {
            what,
            detail,
            local: 0,
            remote: 0,
            errors: 0,
            resets: 0,
            peer: leader.host,
            link: leader.link,
            kind: leader.kind,
        },
        Err(Short) => Arrived {
            what,
            detail,
            local: 0,
            remote: 0,
            errors: 0,
            resets: 0,
            peer: 0,
            link: 0,
            kind: 0,
        },
    }
}

// The same with the sockets of a connection, if there is one.
fn led_to(pair: Option<Pair>, arrived: Arrived) -> Arrived
    ensures { result ≡ led_to pair arrived }
{
    match pair {
        Some(Pair { local, remote }) => Arrived {
            local,
            remote,
            ..arrived
        },
        None => arrived,
    }
}

// The same with the numbers of ERRs and RSTs.
fn with_tally(tally: Tally, arrived: Arrived) -> Arrived
    ensures { result ≡ with_tally tally arrived }
{
    let Tally { errors, resets } = tally;
    Arrived {
        errors,
        resets,
        ..arrived
    }
}

// The type in a leader.
fn kind_of(leader: Result<Leader, Short>) -> u32
    ensures { result ≡ kind_of_leader leader }
{
    match leader {
        Ok(leader) => u32::from(leader.kind),
        Err(Short) => 0,
    }
}

pub(crate) fn arrived_of(
    pair: Option<Pair>,
    leader: Result<Leader, Short>,
    came: &Part<'_>,
    received: Received,
) -> Arrived
    ensures { result ≡ arrived_of pair leader came.now received }
{
    match received {
        Received::Short => arrival(leader, 1, 0),
        Received::Other(kind) => arrival(leader, 2, u32::from(kind)),
        Received::Unknown => arrival(leader, 3, 0),
        Received::Stray => arrival(leader, 4, 0),
        Received::Answered => arrival(leader, 5, kind_of(leader)),
        Received::Fault(fault) => arrival(leader, 6, number_of_message_fault(fault)),
        Received::WrongLink => arrival(leader, 7, 0),
        Received::WrongSize => arrival(leader, 8, 0),
        Received::Control(commands) => with_tally(tally_in(came), arrival(leader, 9, commands)),
        Received::Text(took) => led_to(pair, arrival(leader, 10, number_of_took(took))),
        Received::NotUp => arrival(leader, 11, 0),
    }
}

/// The flags for a peer.
pub fn phase_of(flags: Flags) -> PeerFlags
    ensures { result ≡ phase_of flags }
{
    PeerFlags {
        down: flags.down,
        want: flags.want,
        owe: flags.owe,
        wait: flags.wait,
    }
}

/// The counts of a peer.
pub fn counted_of(counts: Counts) -> PeerCounts
    ensures { result ≡ counted_returned counts }
{
    PeerCounts {
        stray: counts.stray,
        faults: counts.faults,
        wrong_link: counts.wrong_link,
        wrong_size: counts.wrong_size,
        not_up: counts.not_up,
        late: counts.late,
        over: counts.over,
    }
}

/// The counts of messages that belong to no peer.
pub fn discarded_of(ignored: Ignored) -> IgnoredCounts
    ensures { result ≡ discarded_of ignored }
{
    IgnoredCounts {
        short_bits: ignored.short,
        other: ignored.other,
        unknown: ignored.unknown,
    }
}

/// A received ERR.
pub fn noted_of(error: Error) -> ErrCommand
    ensures { result ≡ noted_of error }
{
    let Error { code, bytes } = error;
    ErrCommand { code, bytes }
}
