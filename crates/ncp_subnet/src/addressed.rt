//! `Addressed`: messages with a leader, and the leaders of answers.
ghost use Rattle.std.specs.Prelude.{◌≡◌, ◌≤◌, ◌<◌, length, IfOk, IfErr, Err};
ghost use Rattle.ncp_leader.specs.declared.leader.TheConstants.{LEADER_BITS, MAX_KIND};
ghost use Rattle.ncp_leader.specs.Leader.{leader_at};
ghost use Rattle.ncp_subnet.specs.Messages.{IsRegular, from_host, answer_bits};

use crate::fault::SubnetFault;
use ncp_bits::{Bits, Part};
use ncp_leader::{Leader, REGULAR, put_leader, read_leader_in};
use std::marker::Model;

// The offset of the host in a leader: bits 9 to 16 of BBN Report 1822, counted here from 0.
const HOST_AT: usize = 8;

const HOST_END: usize = 16;

/// A message with a leader.
#[derive(Drop)]
pub(crate) struct Addressed {
    bits: Bits,
}

impl Model for Addressed {
    ghost use Rattle.std.specs.Prelude.{List, Bool, ◌≤◌, length};
    ghost use Rattle.ncp_leader.specs.declared.leader.TheConstants.{LEADER_BITS};

    ghost Value = { List Bool };

    ghost view = { λ message. message.bits };

    ghost invariant = { λ message. LEADER_BITS ≤ length message.bits };
}

impl Addressed {
    /// A copy of a message that has a leader.
    pub(crate) fn of(message: Part<'_>) -> Addressed
        requires { LEADER_BITS ≤ length message }
        ensures { result ≡ message.entry }
    {
        Addressed {
            bits: message.to_bits(),
        }
    }

    /// The message as received from a host: bits 9 to 16 are that host's number.
    #[tactic(auto, unfolding(crate::specs::Messages::from_host))]
    pub(crate) fn from_host(&self, from: u8) -> Bits
        ensures { result ≡ from_host from self.now }
    {
        let message = &self.bits;
        let rest = message.len() - HOST_END;
        let mut bits = message.slice(0, HOST_AT).to_bits();
        bits.push_number(u64::from(from), HOST_END - HOST_AT)
            .unwrap();
        bits.append(message.slice(HOST_END, rest)).unwrap();
        bits
    }
}

/// The leader of a regular message.
pub(crate) fn regular_leader(message: &Part<'_>) -> Result<Leader, SubnetFault>
    ensures leader { IfOk result (λ leader. leader ≡ leader_at message.now) }
    ensures regular { IfOk result (λ _. IsRegular message.now) }
    ensures err { IfErr result (λ fault. (fault ≡ SubnetFault.NotRegular) × ¬ IsRegular message.now) }
{
    match read_leader_in(message) {
        Ok(leader) if leader.kind == REGULAR => Ok(leader),
        _ => Err(SubnetFault::NotRegular),
    }
}

/// The answer about a message to a host on a link: a leader with zero flags and low field.
#[tactic(auto, unfolding(crate::specs::Messages::answer_bits))]
pub(crate) fn answer_of(kind: u8, host: u8, link: u8) -> Bits
    requires { kind ≤ MAX_KIND }
    ensures { result ≡ answer_bits kind host link }
{
    put_leader(&Leader {
        flags: 0,
        kind,
        host,
        link,
        low: 0,
    })
}
