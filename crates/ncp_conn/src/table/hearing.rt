//! The incoming commands of connections.
ghost use Rattle.std.specs.Prelude.{◌≡◌, nat_le};
ghost use Rattle.std.specs.FinMap.{get};
ghost use Rattle.ncp_model.specs.Endpoint.{or_new};
ghost use Rattle.ncp_model.specs.Effect.{answer, is_data_link};
ghost use Rattle.ncp_model.specs.Commands.{all_at, gvb_at, ret_at, interrupted, hear_cls};
ghost use Rattle.ncp_model.specs.Ends.{any, count, is_by_peer, hears_link, hear, demux_command, map_after, map_after_at, hear_rts_in, hear_str_in, wrong_rts_in, wrong_str_in};
ghost use Rattle.ncp_conn.specs.Hearing.{command_at_sender, after_command_at_sender, command_at_receiver, after_command_at_receiver};

use crate::entry::{Entry, refused};
use crate::table::Table;
use ncp_bits::BitStore;
use ncp_model::{Heard, MAX_BY_PEER, Pair};
use ncp_wire::{
    Command, ERRONEOUS_PARAMETERS, FIRST_LINK, LAST_LINK, NONEXISTENT_SOCKET, SOCKET_NOT_CONNECTED,
};

// Whether a link carries connections.
fn is_data_link(link: u8) -> bool
    ensures { result ≡ is_data_link link }
{
    link >= FIRST_LINK && link <= LAST_LINK
}

impl<S: BitStore> Table<S> {
    // Whether the peer's request for a pair was received before.
    fn is_heard(&self, pair: Pair) -> bool
        ensures { result ≡ (or_new (get self.now pair)).heard }
    {
        let Some(key) = self.entries.find(pair) else {
            return false;
        };
        self.entries.slab[key].is_heard()
    }

    /// Whether a sending endpoint heard this link.
    pub(super) fn is_taken(&self, link: u8) -> bool
        ensures { result ≡ any (hears_link link) self.now }
    {
        self.entries.senders.key(link).is_some()
    }

    /// Whether there is no room for another endpoint with the peer's request alone.
    pub(super) fn is_full(&self) -> bool
        ensures { result ≡ nat_le MAX_BY_PEER (count is_by_peer self.now) }
    {
        self.entries.slab.len() - self.entries.own_requests() >= MAX_BY_PEER
    }

    // Whether the parameters of an RTS are erroneous.
    fn is_wrong_rts(&self, pair: Pair, link: u8) -> bool
        ensures { result ≡ wrong_rts_in pair link self.now }
    {
        !pair.sends() || !is_data_link(link) || self.is_heard(pair) || self.is_taken(link)
    }

    // The peer's request to receive arrives.
    fn hear_rts(&mut self, command: &Command, pair: Pair, link: u8) -> Heard
        requires { command.now ≡ Command.Rts pair.remote pair.local link }
        ensures answer { result ≡ answer (hear_rts_in pair link self.old) }
        ensures table { self.new ≡ map_after self.old pair (hear_rts_in pair link self.old) }
    {
        if self.is_wrong_rts(pair, link) {
            return refused(ERRONEOUS_PARAMETERS, command);
        }
        let Some(key) = self.entries.find(pair) else {
            if self.is_full() {
                return Heard::Full;
            }
            let mut entry = Entry::new(pair);
            entry.hear_link(link);
            self.enter(entry);
            return Heard::Nothing;
        };
        self.entries.slab[key].hear_link(link);
        self.entries.lead(key);
        Heard::Nothing
    }

    // Whether the parameters of an STR are erroneous.
    fn is_wrong_str(&self, pair: Pair, size: u8) -> bool
        ensures { result ≡ wrong_str_in pair size self.now }
    {
        !pair.receives() || size == 0 || self.is_heard(pair)
    }

    // The peer's request to send arrives.
    fn hear_str(&mut self, command: &Command, pair: Pair, size: u8) -> Heard
        requires { command.now ≡ Command.Str pair.remote pair.local size }
        ensures answer { result ≡ answer (hear_str_in pair size self.old) }
        ensures table { self.new ≡ map_after self.old pair (hear_str_in pair size self.old) }
    {
        if self.is_wrong_str(pair, size) {
            return refused(ERRONEOUS_PARAMETERS, command);
        }
        let Some(key) = self.entries.find(pair) else {
            if self.is_full() {
                return Heard::Full;
            }
            let mut entry = Entry::new(pair);
            entry.hear_size(size);
            self.enter(entry);
            return Heard::Nothing;
        };
        self.entries.slab[key].hear_size(size);
        self.entries.lead(key);
        Heard::Nothing
    }

    // The peer's CLS arrives.
    fn hear_cls(&mut self, command: &Command, pair: Pair) -> Heard
        requires { command.now ≡ Command.Cls pair.remote pair.local }
        ensures answer { result ≡ answer (hear_cls pair (get self.old pair)) }
        ensures table { self.new ≡ map_after self.old pair (hear_cls pair (get self.old pair)) }
    {
        if !pair.is_proper() {
            return refused(ERRONEOUS_PARAMETERS, command);
        }
        let Some(key) = self.entries.find(pair) else {
            return refused(NONEXISTENT_SOCKET, command);
        };
        let answer = self.entries.slab[key].hear_cls(command);
        self.entries.settle(key);
        answer
    }

    // An ALL arrives.
    fn hear_all(&mut self, command: &Command, link: u8, messages: u16, bits: u32) -> Heard
        requires { command.now ≡ Command.All link messages bits }
        ensures answer { result ≡ answer (command_at_sender link command.now (all_at link messages bits) self.old) }
        ensures table { self.new ≡ after_command_at_sender link command.now (all_at link messages bits) self.old }
    {
        let Some(key) = self.entries.senders.key(link) else {
            return refused(SOCKET_NOT_CONNECTED, command);
        };
        let answer = self.entries.slab[key].hear_all(command, link, messages, bits);
        self.entries.settle(key);
        answer
    }

    // A GVB arrives.
    fn hear_gvb(&mut self, command: &Command, link: u8, fm: u8, fb: u8) -> Heard
        ensures answer { result ≡ answer (command_at_sender link command.now (gvb_at link fm fb) self.old) }
        ensures table { self.new ≡ after_command_at_sender link command.now (gvb_at link fm fb) self.old }
    {
        let Some(key) = self.entries.senders.key(link) else {
            return refused(SOCKET_NOT_CONNECTED, command);
        };
        let answer = self.entries.slab[key].hear_gvb(command, link, fm, fb);
        self.entries.settle(key);
        answer
    }

    // A RET arrives.
    fn hear_ret(&mut self, command: &Command, link: u8, messages: u16, bits: u32) -> Heard
        requires { command.now ≡ Command.Ret link messages bits }
        ensures answer { result ≡ answer (command_at_receiver link command.now (ret_at link messages bits) self.old) }
        ensures table { self.new ≡ after_command_at_receiver link command.now (ret_at link messages bits) self.old }
    {
        let Some(key) = self.entries.receivers.key(link) else {
            return refused(SOCKET_NOT_CONNECTED, command);
        };
        let answer = self.entries.slab[key].hear_ret(command, link, messages, bits);
        self.entries.settle(key);
        answer
    }

    // An INR arrives.
    fn hear_inr(&mut self, command: &Command, link: u8) -> Heard
        ensures answer { result ≡ answer (command_at_sender link command.now interrupted self.old) }
        ensures table { self.new ≡ after_command_at_sender link command.now interrupted self.old }
    {
        let Some(key) = self.entries.senders.key(link) else {
            return refused(SOCKET_NOT_CONNECTED, command);
        };
        let answer = self.entries.slab[key].hear_interrupt(command);
        self.entries.settle(key);
        answer
    }

    // An INS arrives.
    fn hear_ins(&mut self, command: &Command, link: u8) -> Heard
        ensures answer { result ≡ answer (command_at_receiver link command.now interrupted self.old) }
        ensures table { self.new ≡ after_command_at_receiver link command.now interrupted self.old }
    {
        let Some(key) = self.entries.receivers.key(link) else {
            return refused(SOCKET_NOT_CONNECTED, command);
        };
        let answer = self.entries.slab[key].hear_interrupt(command);
        self.entries.settle(key);
        answer
    }

    /// Handles a received command while the host is up with the peer. Commands that are not of
    /// connections (NOP, ECO, ERP, ERR, RST, RRP) have no effect here.
    ///
    /// - `Nothing`: the command had its effect, and there is no reply.
    /// - `Reply`: the caller queues this command. With an ERR, nothing changed: ERR 3 for a wrong
    ///   request and for a CLS, ALL or RET with wrong numbers, ERR 4 for a CLS of no connection,
    ///   ERR 5 for a command on a link that is not connected. A GVB is answered by a RET. A CLS is
    ///   answered by a CLS if the endpoint was not closing and need not defer it; the endpoint is
    ///   then over, and removed.
    /// - `Late`: an ALL, GVB, RET, INR or INS at an endpoint that is leaving or has left; nothing
    ///   changed.
    /// - `Full`: a request that would need a new endpoint, while [`MAX_BY_PEER`] exist with the
    ///   peer's request alone; nothing changed.
    pub fn hear(&mut self, command: &Command) -> Heard
        ensures answer { result ≡ answer (hear command.now self.old) }
        ensures table { self.new ≡ map_after_at self.old (demux_command command.now self.old) (hear command.now self.old) }
    {
        match *command {
            Command::Rts {
                receive,
                send,
                link,
            } => self.hear_rts(
                command,
                Pair {
                    local: send,
                    remote: receive,
                },
                link,
            ),
            Command::Str {
                send,
                receive,
                size,
            } => self.hear_str(
                command,
                Pair {
                    local: receive,
                    remote: send,
                },
                size,
            ),
            Command::Cls { my, your } => self.hear_cls(
                command,
                Pair {
                    local: your,
                    remote: my,
                },
            ),
            Command::All {
                link,
                messages,
                bits,
            } => self.hear_all(command, link, messages, bits),
            Command::Gvb { link, fm, fb } => self.hear_gvb(command, link, fm, fb),
            Command::Ret {
                link,
                messages,
                bits,
            } => self.hear_ret(command, link, messages, bits),
            Command::Inr { link } => self.hear_inr(command, link),
            Command::Ins { link } => self.hear_ins(command, link),
            _ => Heard::Nothing,
        }
    }
}
