//! The state of messages in transit, as the notes report it.
ghost use Rattle.std.specs.Prelude.{◌≡◌};
ghost use Rattle.ncp_transcript_many.specs.ManyHappening.{are_two};
ghost use Rattle.ncp_web.specs.TransitStates.{number_of_transit_state, leader_out, is_leader_on, is_to, is_same_side, transit_state_printed, transit_state_printed_of_many, last_printed, transit_state_between, transit_state_among};
ghost use Rattle.ncp_web.specs.Readings.{transit_state_in};
ghost use Rattle.ncp_web.specs.Sessions.{side_at};

use crate::lent::LinkBetween;
use crate::stage::{ManyStage, SessionHosts, TwoStage, side_of};
use ncp_bits::PackedStore;
use ncp_leader::{Leader, REGULAR, read_leader_in};
use ncp_proof_promises::taking::each_output_is_accepted_after_its_note;
use ncp_transcript::HostNote;
use ncp_transcript_many::taking::what_goes_out_of_each_of_many_is_taken;
use ncp_world::{Many, ManyNote, Note, Side};

/// The state of the last message from a host to another on a link.
#[derive(Clone, Copy, Debug, Drop)]
pub enum TransitState {
    /// None was sent, or the last one was answered.
    Free,
    /// It was sent, and has not arrived.
    Underway,
    /// It arrived.
    Delivered,
    /// It was lost.
    Lost,
    /// Its destination was dead.
    Dead,
}

impl TransitState {
    /// Its number, 0 to 4 in this order.
    pub(crate) fn number(self) -> u32
        ensures { result ≡ number_of_transit_state self }
    {
        match self {
            TransitState::Free => 0,
            TransitState::Underway => 1,
            TransitState::Delivered => 2,
            TransitState::Lost => 3,
            TransitState::Dead => 4,
        }
    }
}

// The leader of a sent message, if it is regular: the subnet takes no other.
fn leader_out(note: &HostNote) -> Option<Leader>
    ensures { result ≡ leader_out note.now }
{
    let HostNote::Out { message } = note else {
        return None;
    };
    match read_leader_in(&message.whole()) {
        Ok(leader) => {
            if leader.kind == REGULAR {
                Some(leader)
            } else {
                None
            }
        }
        Err(_) => None,
    }
}

// Whether there is a leader, with this link.
fn is_on(link: u8, leader: Option<Leader>) -> bool
    ensures { result ≡ is_leader_on link leader }
{
    match leader {
        Some(leader) => leader.link == link,
        None => false,
    }
}

// Whether there is a leader, with this host and this link.
fn is_to(host: u8, link: u8, leader: Option<Leader>) -> bool
    ensures { result ≡ is_to host link leader }
{
    match leader {
        Some(leader) => leader.host == host && leader.link == link,
        None => false,
    }
}

// Whether two sides are the same.
fn is_same(one: Side, other: Side) -> bool
    ensures { result ≡ is_same_side one other }
{
    matches!((one, other), (Side::A, Side::A) | (Side::B, Side::B))
}

// The state that a note of two hosts reports for the last message of a side on a link.
fn transit_state_printed(sender: Side, link: u8, note: &Note) -> Option<TransitState>
    ensures { result ≡ transit_state_printed sender link note.now }
{
    let (so, transit_state) = match note {
        Note::Out { side, note } => (
            is_same(*side, sender) && is_on(link, leader_out(note)),
            TransitState::Underway,
        ),
        Note::Came { side, link: on, .. } => {
            (
                is_same(*side, sender) && *on == link,
                TransitState::Delivered,
            )
        }
        Note::Lost { side, link: on } => (
            is_same(*side, sender) && *on == link,
            TransitState::Lost,
        ),
        Note::FoundDead { side, link: on } => (
            is_same(*side, sender) && *on == link,
            TransitState::Dead,
        ),
        Note::Answered { side, link: on, .. } => {
            (is_same(*side, sender) && *on == link, TransitState::Free)
        }
        Note::Called { .. } | Note::Nothing { .. } => return None,
    };
    if so { Some(transit_state) } else { None }
}

// The state that a note of two to eight hosts reports for the last message from a host to another
// on a link.
fn transit_state_printed_of_many(
    sender: u8,
    peer: u8,
    link: u8,
    note: &ManyNote,
) -> Option<TransitState>
    ensures { result ≡ transit_state_printed_of_many sender peer link note.now }
{
    let (so, transit_state) = match note {
        ManyNote::Out { host, note } => (
            *host == sender && is_to(peer, link, leader_out(note)),
            TransitState::Underway,
        ),
        ManyNote::Came {
            from,
            to,
            link: on,
            ..
        } => (
            *from == sender && *to == peer && *on == link,
            TransitState::Delivered,
        ),
        ManyNote::Lost { from, to, link: on } => {
            (
                *from == sender && *to == peer && *on == link,
                TransitState::Lost,
            )
        }
        ManyNote::FoundDead { from, to, link: on } => {
            (
                *from == sender && *to == peer && *on == link,
                TransitState::Dead,
            )
        }
        ManyNote::Answered {
            from,
            to,
            link: on,
            ..
        } => (
            *from == sender && *to == peer && *on == link,
            TransitState::Free,
        ),
        ManyNote::Called { .. } | ManyNote::Nothing { .. } => return None,
    };
    if so { Some(transit_state) } else { None }
}

// The state according to the notes of two hosts: that of the last note that reports one.
fn transit_state_of_two(notes: &[Note], sender: Side, link: u8) -> TransitState
    ensures { result ≡ last_printed (transit_state_printed sender link) notes.now TransitState.Free }
{
    let mut left = notes.len();
    while left > 0 {
        left -= 1;
        if let Some(transit_state) = transit_state_printed(sender, link, &notes[left]) {
            return transit_state;
        }
    }
    TransitState::Free
}

// The state according to the notes of two to eight hosts.
fn transit_state_of_many(notes: &[ManyNote], sender: u8, peer: u8, link: u8) -> TransitState
    ensures { result ≡ last_printed (transit_state_printed_of_many sender peer link) notes.now TransitState.Free }
{
    let mut left = notes.len();
    while left > 0 {
        left -= 1;
        if let Some(transit_state) = transit_state_printed_of_many(
            sender,
            peer,
            link,
            &notes[left],
        ) {
            return transit_state;
        }
    }
    TransitState::Free
}

// The state of a message between two hosts.
fn transit_state_between(two: &TwoStage, sender: u8, peer: u8, link: u8) -> TransitState
    ensures { result ≡ transit_state_between (side_at two.now.first.hosts sender) (side_at two.now.first.hosts peer) link two.now.hosts.hosts.hosts }
{
    each_output_is_accepted_after_its_note();
    let Some(side) = side_of(two.first.hosts, sender) else {
        return TransitState::Free;
    };
    let Some(other) = side_of(two.first.hosts, peer) else {
        return TransitState::Free;
    };
    if is_same(side, other) {
        return TransitState::Free;
    }
    transit_state_of_two(two.hosts.world().transcript(), side, link)
}

// Whether they are two of the hosts.
fn are_two(many: &Many<PackedStore>, sender: u8, peer: u8) -> bool
    ensures { result ≡ are_two sender peer many.now.hosts }
{
    many.host(sender).is_some() && many.host(peer).is_some() && sender != peer
}

// The state of a message among two to eight hosts.
fn transit_state_among(of_many: &ManyStage, sender: u8, peer: u8, link: u8) -> TransitState
    ensures { result ≡ transit_state_among sender peer link of_many.now.hosts.hosts.hosts }
{
    what_goes_out_of_each_of_many_is_taken();
    let many = of_many.hosts.many();
    if !are_two(many, sender, peer) {
        return TransitState::Free;
    }
    transit_state_of_many(many.transcript(), sender, peer, link)
}

impl SessionHosts {
    /// The state of the last message from a host to a peer on a link.
    pub(crate) fn transit_state(&self, between: &LinkBetween) -> TransitState
        ensures { result ≡ transit_state_in self.now between.now }
    {
        let LinkBetween { host, peer, link } = *between;
        match self {
            SessionHosts::Two(two) => transit_state_between(two, host, peer, link),
            SessionHosts::Many(of_many) => transit_state_among(of_many, host, peer, link),
        }
    }
}
