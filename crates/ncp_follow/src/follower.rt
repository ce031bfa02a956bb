//! `Follower`: follows the connections of a capture.
ghost use Rattle.std.specs.Prelude.{◌≡◌, ◌≤◌, [], length, option_map, IfOk};
ghost use Rattle.ncp_follow.specs.Connections.{index_numbered, numbered};
ghost use Rattle.ncp_leader.specs.Message.{message_in};
ghost use Rattle.ncp_follow.specs.Followed.{follower_after_regular, follower_after_said, follower_after_out, follower_after_in, follower_after_answer, follower_after_event, follower_after_notice, follower_after_record, silent, new_follower};

use crate::connection::Connection;
use crate::observation::Observation;
use crate::saying::hear_regular;
use crate::session::Session;
use crate::sessions::Sessions;
use crate::tables::Tables;
use ncp_bits::Bits;
use ncp_interface::{
    ImpDirection, ImpNotice, InterfaceEvent, ObservedLink, SentMessages, event_of, notice_of,
};
use ncp_leader::{INCOMPLETE, Regular, read_regular};
use std::alloc::{AllocError, Global};

/// What the records of a capture have shown of connections so far.
#[derive(Drop)]
pub struct Follower {
    /// Whether the capture may begin in the middle.
    part: bool,
    /// The observed state of each pair of hosts.
    sessions: Sessions,
    /// The unacknowledged messages. If there is no room for one, and it is sent again, it is taken
    /// for a new message.
    outs: SentMessages,
    /// The connections.
    tables: Tables,
}

impl Follower {
    /// Nothing observed yet. A partial capture (`part`) may begin in the middle, so any two hosts
    /// are taken to be up without a reset. Only this function allocates.
    pub fn new(alloc: Global, part: bool) -> Result<Follower, AllocError>
        ensures { IfOk result (λ follower. follower ≡ new_follower part) }
    {
        let sessions = Sessions::new(alloc)?;
        let outs = SentMessages::new(alloc)?;
        let tables = Tables::new(alloc)?;
        Ok(Follower {
            part,
            sessions,
            outs,
            tables,
        })
    }

    /// The opened connections, in order.
    pub fn told(&self) -> &[Connection]
        ensures { result.now ≡ self.now.tables.told }
    {
        self.tables.told.as_slice()
    }

    /// The opened connection with this number, if there is one.
    pub fn connection(&self, number: u32) -> Option<&Connection>
        ensures { option_map (λ one. one.now) result ≡ numbered self.now.tables.told (index_numbered number) }
    {
        self.tables.told.numbered(number)
    }

    /// Empties the text of the opened connection with this number, if there is one. Its text then
    /// holds only what later records add.
    pub fn forget_text(&mut self, number: u32)
        ensures { self.new ≡ silent number self.old }
    {
        self.tables.told.forget_text(number);
    }

    /// The observed state of each pair of hosts, in the order of their first messages.
    pub fn sessions(&self) -> &[Session]
        ensures { result.now ≡ self.now.sessions }
    {
        self.sessions.as_slice()
    }

    // Follows a regular message.
    fn hear_regular(&mut self, observation: &Observation, regular: &Regular<'_>)
        ensures { self.new ≡ follower_after_regular observation.now regular.now self.old }
    {
        let session = self
            .sessions
            .of(self.part, observation.at, observation.peer);
        let after = hear_regular(observation, regular, session, &mut self.tables);
        self.sessions.set(after);
    }

    // Follows the contents of a message.
    fn hear_message(&mut self, observation: &Observation, message: &Bits)
        ensures { self.new ≡ follower_after_said observation.now (message_in message.now) self.old }
    {
        if let Ok(regular) = read_regular(message) {
            self.hear_regular(observation, &regular);
        }
    }

    // Follows a message that a host sends on a link.
    fn hear_out(&mut self, number: u32, line: ObservedLink, message: &Bits)
        ensures { self.new ≡ follower_after_out number line.at line.peer line.link message.now self.old }
    {
        let ObservedLink { at, peer, link } = line;
        let place = self.outs.position_of(at, peer, link);
        let again = self.outs.is_repeat(place, message);
        let _stored = self.outs.put(place, line, message);
        if again {
            return;
        }
        let observation = Observation {
            number,
            at,
            peer,
            sent: true,
        };
        self.hear_message(&observation, message);
    }

    // Follows a message that arrives.
    fn hear_in(&mut self, number: u32, at: u8, peer: u8, message: &Bits)
        ensures { self.new ≡ follower_after_in number at peer message.now self.old }
    {
        let observation = Observation {
            number,
            at,
            peer,
            sent: false,
        };
        self.hear_message(&observation, message);
    }

    // Follows an answer of this type to the message on a link.
    fn hear_answer(&mut self, line: ObservedLink, kind: u8)
        ensures { self.new ≡ follower_after_answer line.at line.peer line.link kind self.old }
    {
        let place = self.outs.position_of(line.at, line.peer, line.link);
        self.outs.answer(true, kind, place);
    }

    // Follows the event of a record.
    fn hear_event(&mut self, number: u32, at: u8, event: InterfaceEvent, message: &Bits)
        ensures { self.new ≡ follower_after_event number at message.now event self.old }
    {
        match event {
            InterfaceEvent::Out { peer, link } => {
                self.hear_out(number, ObservedLink { at, peer, link }, message);
            }
            InterfaceEvent::Answer { kind, peer, link } => {
                self.hear_answer(ObservedLink { at, peer, link }, kind);
            }
            InterfaceEvent::In { peer, .. } => self.hear_in(number, at, peer, message),
            InterfaceEvent::Short
            | InterfaceEvent::Nothing
            | InterfaceEvent::Own { .. }
            | InterfaceEvent::Other { .. } => {}
        }
    }

    // Follows what an IMP reports about the messages of its host.
    fn hear_notice(&mut self, at: u8, notice: Option<ImpNotice>)
        ensures { self.new ≡ follower_after_notice at notice self.old }
    {
        match notice {
            Some(ImpNotice::InterfaceReset) => self.outs.repeat_at(at),
            Some(ImpNotice::MessageRefused { peer, link }) => {
                self.hear_answer(ObservedLink { at, peer, link }, INCOMPLETE);
            }
            None => {}
        }
    }

    /// Follows record `number`: a message that host `at` sent or received.
    pub fn hear(&mut self, number: u32, sent: bool, at: u8, message: &Bits)
        ensures { self.new ≡ follower_after_record number sent at message.now self.old }
    {
        let way = ImpDirection::of(sent);
        self.hear_event(number, at, event_of(way, at, message), message);
        self.hear_notice(at, notice_of(way, message));
    }
}
