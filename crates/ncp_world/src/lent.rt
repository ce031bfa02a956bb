//! The ledger of an open connection, computed from the state of its two hosts and the subnet.
ghost use Rattle.std.specs.Prelude.{◌≡◌, length};
ghost use Rattle.std.specs.Option.{option_copied};
ghost use Rattle.ncp_transcript_two.specs.Between.{side_number, host_of};
ghost use Rattle.ncp_transcript_two.specs.Underway.{text_of, amount_out};
ghost use Rattle.ncp_model.specs.Amounts.{amount};
ghost use Rattle.ncp_world.specs.Reckoning.{carried_on, kept_from, commands_from, if_open, open_at, ledger_with, ledger_read};

use crate::carrying::{Carried, NO_AMOUNT, carried_by_message, carried_by_waiting};
use crate::sides::other;
use ncp_bits::{BitStore, Bits};
use ncp_host::{CallFault, Host, Pair, Record};
use ncp_leader::read_regular;
use ncp_model::Amount;
use ncp_subnet::Subnet;
use ncp_transcript_two::{Ledger, Side};
use ncp_wire::CONTROL_LINK;
use std::marker::Model;

/// Two hosts and the subnet between them, borrowed.
#[derive(Drop)]
pub(crate) struct Lent<'a, S: BitStore> {
    pub(crate) number_a: u8,
    pub(crate) number_b: u8,
    pub(crate) a: &'a Host<S>,
    pub(crate) b: &'a Host<S>,
    pub(crate) subnet: &'a Subnet,
}

impl<'a, S: BitStore> Model for Lent<'a, S> {
    ghost use Rattle.std.specs.Coded.{codes};
    ghost use Rattle.ncp_slot.specs.Slots.{coded_slots};
    ghost use Rattle.ncp_peer.specs.Codes.{coded_ends};
    ghost use Rattle.ncp_subnet.specs.Codes.{coded_in_transit};
    ghost use Rattle.ncp_transcript_two.specs.Between.{Hosts as Seen};

    ghost Value = { Seen };

    ghost coded = { Prim.hlevel (codes, coded_ends, coded_slots, coded_in_transit) };

    ghost view = { λ l. record { number_a = l.number_a; number_b = l.number_b; a = l.a.now; b = l.b.now; subnet = l.subnet.now } };
}

// The record of an open endpoint.
fn if_open(told: Result<Record, CallFault>) -> Option<Record>
    ensures { result ≡ if_open told }
{
    let record = told.ok()?;
    if record.asked && record.heard && !(record.leaving || record.left) {
        Some(record)
    } else {
        None
    }
}

// The length of the text in a message, in bits.
fn text_len(message: &Bits) -> u64
    ensures { result ≡ length (text_of message.now) }
{
    match read_regular(message) {
        Ok(message) => message.text().len() as u64,
        Err(_) => 0,
    }
}

// The amount of the text in a message, if there is one.
fn text_amount(message: Option<&Bits>) -> Amount
    ensures { result ≡ amount_out (option_copied message.entry) }
{
    match message {
        Some(message) => Amount {
            messages: 1,
            bits: text_len(message),
        },
        None => NO_AMOUNT,
    }
}

// The counters of a sender, or the outstanding amount at a receiver.
fn amount_of(end: &Record) -> Amount
    ensures { result ≡ amount end.now.messages end.now.bits }
{
    Amount {
        messages: u64::from(end.messages),
        bits: u64::from(end.bits),
    }
}

impl<'a, S: BitStore> Lent<'a, S> {
    // The host of a side.
    fn host(&self, side: Side) -> &'a Host<S>
        ensures { result.now ≡ host_of side self.now }
    {
        match side {
            Side::A => self.a,
            Side::B => self.b,
        }
    }

    // The number of the host of a side.
    fn number(&self, side: Side) -> u8
        ensures { result ≡ side_number side self.now }
    {
        match side {
            Side::A => self.number_a,
            Side::B => self.number_b,
        }
    }

    // The record of a pair at the host of a side, if it is open.
    fn open_at(&self, side: Side, pair: Pair) -> Option<Record>
        ensures { result ≡ open_at side pair self.now }
    {
        if_open(self.host(side).state(self.number(other(side)), pair))
    }

    // The message that a side keeps on a link, unless it has arrived.
    fn kept_from(&self, side: Side, link: u8) -> Option<&'a Bits>
        ensures { option_copied result ≡ kept_from side link self.now }
    {
        let from = self.number(side);
        let to = self.number(other(side));
        if self.subnet.delivered(from, to, link) {
            None
        } else {
            self.host(side).kept(to, link)
        }
    }

    // The amounts in the commands underway from a side, on a link, summed.
    #[tactic(auto, using(crate::proofs::Sums::carried_joined))]
    fn link_state_from(&self, side: Side, link: u8) -> Carried
        ensures { result ≡ carried_on link (commands_from side self.now) }
    {
        let message = match self.kept_from(side, CONTROL_LINK) {
            Some(message) => carried_by_message(message, link),
            None => Carried::NONE,
        };
        message.plus(carried_by_waiting(self.host(side), self.number(other(side)), link))
    }

    // The ledger of two open endpoints.
    fn ledger_with(&self, side: Side, sender: &Record, receiver: &Record) -> Ledger
        ensures { result ≡ ledger_with side self.now sender.now receiver.now }
    {
        let link = sender.link;
        let back = other(side);
        Ledger {
            outstanding: amount_of(receiver),
            counters: amount_of(sender),
            all: self.link_state_from(back, link).granted,
            text: text_amount(self.kept_from(side, link)),
            ret: self.link_state_from(side, link).returned,
        }
    }

    /// The ledger of a pair that sends from a side, if both of its endpoints are open.
    pub(crate) fn ledger(&self, side: Side, pair: Pair) -> Option<Ledger>
        ensures { result ≡ ledger_read side pair self.now }
    {
        if pair.local % 2 == 0 {
            return None;
        }
        let sender = self.open_at(side, pair)?;
        let receiver = self.open_at(other(side), pair.counterpart())?;
        Some(self.ledger_with(side, &sender, &receiver))
    }
}
