//! `ConnTables`: the observed connections, facts and pending replies.
ghost use Rattle.std.specs.Prelude.{◌≡◌, ◌<◌, ◌≤◌, not, true, length, map, IfOk, IfSome};
ghost use Rattle.std.specs.List.{filter, list_any, position, remove};
ghost use Rattle.std.specs.Vec.{vec_capacity};
ghost use Rattle.ncp_monitor.specs.ConnStates.{no_conn_tables, conn_at_index, conn_found, user_of, index_with_sockets, index_with_link, is_marked, with_conn, put_conn, with_fact, facts_now, facts_no_more, with_due, is_topic, is_conn_between, is_fact_between, is_due_between, tables_cleared, suspended_link, suspended_pair, is_return, returns_dropped, link_suspended_now};
ghost use Rattle.ncp_monitor.specs.Replies.{is_due_of, is_own, is_wanted, skipped, optional, pending_struck, pending_left};
ghost use Rattle.ncp_monitor.specs.Speaking.{is_admission, after_all_said};
ghost use Rattle.ncp_monitor.specs.Judged.{next_number};
ghost use Rattle.ncp_monitor.specs.Coverage.{is_suspended_conn, is_suspension, has_suspended};

use crate::conn_state::{ConnState, Fact, FactKind};
use crate::link_target::ReceiveLink;
use crate::observed_flow::ObservedFlow;
use crate::pending_reply::PendingReply;
use crate::reply::{fits_sure, is_wanted, make_unsure, skipped};
use ncp_interface::is_senders;
use ncp_wire::Command;
use std::alloc::{AllocError, Global};
use std::marker::Model;

/// The most rows of each table: connections, facts, pending replies.
pub const MAX_TABLE_ROWS: usize = 4096;

/// The connections of all hosts, the facts about two hosts, and the replies owed or admitted.
/// Creation allocates all their room.
#[derive(Drop)]
pub struct ConnTables {
    conns: Vec<ConnState>,
    known_facts: Vec<Fact>,
    pending_replies: Vec<PendingReply>,
    full: bool,
    number: u32,
}

impl Model for ConnTables {
    ghost use Rattle.std.specs.Prelude.{◌≤◌};
    ghost use Rattle.std.specs.Vec.{vec_capacity};
    ghost use Rattle.ncp_monitor.specs.ConnStates.{SeenTables as Seen};
    ghost use Rattle.ncp_monitor.specs.declared.conn_tables.TheConstants.{MAX_TABLE_ROWS};

    ghost Value = { Seen };

    ghost view = { λ conn_tables. record { conns = conn_tables.conns.items; known_facts = conn_tables.known_facts.items; pending_replies = conn_tables.pending_replies.items; full = conn_tables.full; number = conn_tables.number } };

    ghost invariant = { λ conn_tables. (MAX_TABLE_ROWS ≤ vec_capacity conn_tables.conns) × (MAX_TABLE_ROWS ≤ vec_capacity conn_tables.known_facts) × (MAX_TABLE_ROWS ≤ vec_capacity conn_tables.pending_replies) };
}

// The index of the first pending reply of the source of `flow`.
fn own_in(flow: ObservedFlow, pending_replies: &[PendingReply]) -> Option<usize>
    ensures index { result ≡ position (is_own flow) pending_replies.now }
    ensures inside { IfSome result (λ place. place < length pending_replies.now) }
{
    pending_replies.iter().position(|due| due.is_own(flow))
}

// Removes the source's pending replies up to and including the first that `reply` fits.
fn strike_in(flow: ObservedFlow, reply: &Command, pending_replies: &mut Vec<PendingReply>)
    ensures items { pending_replies.new.items ≡ pending_struck (is_own flow) reply.now pending_replies.old.items }
    ensures room { vec_capacity pending_replies.new ≡ vec_capacity pending_replies.old }
{
    while let Some(place) = own_in(flow, pending_replies.as_slice()) {
        let due = pending_replies.remove(place);
        if due.wanted.fits(reply) {
            return;
        }
    }
}

// Removes the connections between two hosts.
fn forget_conns(at: u8, peer: u8, conns: &mut Vec<ConnState>)
    ensures items { conns.new.items ≡ filter (λ conn. not (is_conn_between at peer conn)) conns.old.items }
    ensures room { vec_capacity conns.new ≡ vec_capacity conns.old }
{
    conns.retain(|conn| !(conn.at == at && conn.peer == peer));
}

// Removes the facts about two hosts.
fn forget_facts(at: u8, peer: u8, known_facts: &mut Vec<Fact>)
    ensures items { known_facts.new.items ≡ filter (λ known_fact. not (is_fact_between at peer known_fact)) known_facts.old.items }
    ensures room { vec_capacity known_facts.new ≡ vec_capacity known_facts.old }
{
    known_facts.retain(|known_fact| !(known_fact.at == at && known_fact.peer == peer));
}

// Removes the pending replies between two hosts.
fn forget_pending(at: u8, peer: u8, pending_replies: &mut Vec<PendingReply>)
    ensures items { pending_replies.new.items ≡ filter (λ due. not (is_due_between at peer due)) pending_replies.old.items }
    ensures room { vec_capacity pending_replies.new ≡ vec_capacity pending_replies.old }
{
    pending_replies.retain(|due| !(due.at == at && due.peer == peer));
}

// Removes the pending replies of the host to the peer.
fn forget_said(at: u8, peer: u8, pending_replies: &mut Vec<PendingReply>)
    ensures items { pending_replies.new.items ≡ filter (λ due. not (is_due_of at peer true due)) pending_replies.old.items }
    ensures room { vec_capacity pending_replies.new ≡ vec_capacity pending_replies.old }
{
    pending_replies.retain(|due| !due.is_of(at, peer, true));
}

// Removes the pending RETs of the host (or the peer) for a link.
fn forget_returns(at: u8, peer: u8, host: bool, link: u8, pending_replies: &mut Vec<PendingReply>)
    ensures items { pending_replies.new.items ≡ filter (λ due. not (is_return at peer host link due)) pending_replies.old.items }
    ensures room { vec_capacity pending_replies.new ≡ vec_capacity pending_replies.old }
{
    pending_replies.retain(|due| !due.is_return(at, peer, host, link));
}

// Removes the facts that admit an ERR of the host about a text.
fn forget_admissions(at: u8, peer: u8, known_facts: &mut Vec<Fact>)
    ensures items { known_facts.new.items ≡ filter (λ one. not (is_admission at peer one)) known_facts.old.items }
    ensures room { vec_capacity known_facts.new ≡ vec_capacity known_facts.old }
{
    known_facts.retain(|one| !one.is_admission(at, peer));
}

// Removes one fact.
fn forget_topic(at: u8, peer: u8, what: FactKind, known_facts: &mut Vec<Fact>)
    ensures items { known_facts.new.items ≡ filter (λ one. not (is_topic at peer what one)) known_facts.old.items }
    ensures room { vec_capacity known_facts.new ≡ vec_capacity known_facts.old }
{
    known_facts.retain(|one| !one.is_topic(at, peer, what));
}

impl ConnTables {
    /// Empty tables. Only this function allocates, three times.
    pub(crate) fn new(alloc: Global) -> Result<ConnTables, AllocError>
        ensures { IfOk result (λ conn_tables. conn_tables ≡ no_conn_tables) }
    {
        Ok(ConnTables {
            conns: Vec::with_capacity(alloc, MAX_TABLE_ROWS)?,
            known_facts: Vec::with_capacity(alloc, MAX_TABLE_ROWS)?,
            pending_replies: Vec::with_capacity(alloc, MAX_TABLE_ROWS)?,
            full: false,
            number: 0,
        })
    }

    /// The index of the connection of two sockets.
    pub(crate) fn index_of_pair(&self, at: u8, peer: u8, local: u32, remote: u32) -> Option<usize>
        ensures index { result ≡ index_with_sockets at peer local remote self.now.conns }
        ensures inside { IfSome result (λ place. place < length self.now.conns) }
    {
        self.conns
            .as_slice()
            .iter()
            .position(|conn| conn.is_pair(at, peer, local, remote))
    }

    /// The index of the connection with a link.
    pub(crate) fn index_of_link(&self, at: u8, peer: u8, host: bool, link: u8) -> Option<usize>
        ensures index { result ≡ index_with_link at peer host link self.now.conns }
        ensures inside { IfSome result (λ place. place < length self.now.conns) }
    {
        self.conns
            .as_slice()
            .iter()
            .position(|conn| conn.is_used(at, peer, host, link))
    }

    /// The connection at an index, if an index is given.
    pub(crate) fn conn_found(&self, place: Option<usize>) -> Option<ConnState>
        requires { IfSome place (λ p. p < length self.now.conns) }
        ensures { result ≡ conn_found self.now.conns place }
    {
        match place {
            Some(place) => Some(self.conns[place]),
            None => None,
        }
    }

    /// The connection with a link.
    pub(crate) fn user_of(&self, at: u8, peer: u8, host: bool, link: u8) -> Option<ConnState>
        ensures { result ≡ user_of at peer host link self.now.conns }
    {
        match self.index_of_link(at, peer, host, link) {
            Some(place) => Some(self.conns[place]),
            None => None,
        }
    }

    /// Whether this fact is known.
    pub(crate) fn is_marked(&self, at: u8, peer: u8, what: FactKind) -> bool
        ensures { result ≡ is_marked at peer what self.now }
    {
        self.known_facts
            .as_slice()
            .iter()
            .any(|one| one.is_topic(at, peer, what))
    }

    /// The connection at an index.
    pub(crate) fn conn_at(&self, place: usize) -> ConnState
        requires { place < length self.now.conns }
        ensures { result ≡ conn_at_index self.now.conns place }
    {
        self.conns[place]
    }

    /// All connections.
    pub(crate) fn conns(&self) -> &[ConnState]
        ensures { result.now ≡ self.now.conns }
    {
        self.conns.as_slice()
    }

    /// All replies owed or admitted.
    pub(crate) fn pending_replies(&self) -> &[PendingReply]
        ensures { result.now ≡ self.now.pending_replies }
    {
        self.pending_replies.as_slice()
    }

    /// Whether a row was dropped because a table was full.
    pub(crate) fn is_full(&self) -> bool
        ensures { result ≡ self.now.full }
    {
        self.full
    }

    // Whether a connection between two hosts is suspended.
    fn has_suspended_conn(&self, at: u8, peer: u8) -> bool
        ensures { result ≡ list_any (is_suspended_conn at peer) self.now.conns }
    {
        self.conns
            .as_slice()
            .iter()
            .any(|conn| conn.is_suspended_between(at, peer))
    }

    // Whether a link between two hosts, or the echoes of one of them, are.
    fn has_suspension(&self, at: u8, peer: u8) -> bool
        ensures { result ≡ list_any (is_suspension at peer) self.now.known_facts }
    {
        self.known_facts
            .as_slice()
            .iter()
            .any(|one| one.is_suspension(at, peer))
    }

    /// Whether a connection between two hosts, a link or the echoes are suspended.
    pub(crate) fn has_suspended(&self, at: u8, peer: u8) -> bool
        ensures { result ≡ has_suspended at peer self.now }
    {
        self.has_suspended_conn(at, peer) || self.has_suspension(at, peer)
    }

    /// Whether a reply fits one that is owed or admitted.
    pub(crate) fn is_wanted(&self, flow: ObservedFlow, reply: &Command) -> bool
        ensures { result ≡ is_wanted (is_own flow) reply.now self.now.pending_replies }
    {
        is_wanted(flow, reply, self.pending_replies.as_slice())
    }

    /// The first mandatory reply that this one skips.
    pub(crate) fn skipped(&self, flow: ObservedFlow, reply: &Command) -> Option<Command>
        ensures { result ≡ skipped (is_own flow) reply.now self.now.pending_replies }
    {
        skipped(flow, reply, self.pending_replies.as_slice())
    }

    // Appends a connection, or marks the tables as full.
    fn push_conn(&mut self, conn: ConnState)
        ensures { self.new ≡ with_conn self.old conn }
    {
        if self.conns.len() < MAX_TABLE_ROWS {
            self.conns.push_reserved(conn);
        } else {
            self.full = true;
        }
    }

    /// Replaces the connection at an index. Without an index, appends it, or marks the tables as
    /// full.
    pub(crate) fn put_conn(&mut self, place: Option<usize>, conn: ConnState)
        requires { IfSome place (λ p. p < length self.old.conns) }
        ensures { self.new ≡ put_conn self.old place conn }
    {
        match place {
            Some(place) => self.conns[place] = conn,
            None => self.push_conn(conn),
        }
    }

    /// Removes a connection that is over.
    pub(crate) fn end_life(&mut self, place: usize)
        requires { place < length self.old.conns }
        ensures { self.new ≡ record self.old { conns = remove self.old.conns place } }
    {
        let _over = self.conns.remove(place);
    }

    /// Suspends a link, and drops the pending RETs of its sender.
    pub(crate) fn rest_receive_link(&mut self, at: u8, peer: u8, receive_link: ReceiveLink)
        ensures { self.new ≡ link_suspended_now at peer receive_link.host receive_link.link self.old }
    {
        let ReceiveLink { host, link } = receive_link;
        self.known_fact(at, peer, FactKind::LinkSuspended { host, link });
        self.drop_returns(at, peer, !host, link);
    }

    /// Drops the pending RETs of the host (or the peer) for a link.
    pub(crate) fn drop_returns(&mut self, at: u8, peer: u8, host: bool, link: u8)
        ensures { self.new ≡ returns_dropped at peer host link self.old }
    {
        forget_returns(at, peer, host, link, &mut self.pending_replies);
    }

    /// The number of the current record.
    pub(crate) fn number(&self) -> u32
        ensures { result ≡ self.now.number }
    {
        self.number
    }

    /// Counts the next record.
    pub(crate) fn count_record(&mut self)
        ensures { self.new ≡ next_number self.old }
    {
        self.number = self.number.saturating_add(1);
    }

    // Suspends the link of a connection, if it has one.
    fn rest_link(&mut self, at: u8, peer: u8, conn: ConnState)
        ensures { self.new ≡ suspended_link at peer conn self.old }
    {
        if let Some(link) = conn.link {
            let host = !is_senders(conn.local);
            self.rest_receive_link(at, peer, ReceiveLink { host, link });
        }
    }

    /// Suspends the connection of two sockets. Adds it if it was not observed.
    pub(crate) fn rest_pair(&mut self, at: u8, peer: u8, local: u32, remote: u32)
        ensures { self.new ≡ suspended_pair at peer local remote self.old }
    {
        let place = self.index_of_pair(at, peer, local, remote);
        let Some(found) = place else {
            self.push_conn(ConnState {
                suspended: true,
                ..ConnState::new(at, peer, local, remote)
            });
            return;
        };
        let conn = self.conn_at(found);
        self.put_conn(
            place,
            ConnState {
                suspended: true,
                ..conn
            },
        );
        self.rest_link(at, peer, conn);
    }

    // Appends a fact, or marks the tables as full.
    fn push_fact(&mut self, one: Fact)
        ensures { self.new ≡ with_fact self.old one }
    {
        if self.known_facts.len() < MAX_TABLE_ROWS {
            self.known_facts.push_reserved(one);
        } else {
            self.full = true;
        }
    }

    /// Adds a fact, unless it is known.
    pub(crate) fn known_fact(&mut self, at: u8, peer: u8, what: FactKind)
        ensures { self.new ≡ facts_now at peer what self.old }
    {
        if !self.is_marked(at, peer, what) {
            self.push_fact(Fact {
                at,
                peer,
                fact_kind: what,
            });
        }
    }

    /// Removes a fact.
    pub(crate) fn unmark(&mut self, at: u8, peer: u8, what: FactKind)
        ensures { self.new ≡ facts_no_more at peer what self.old }
    {
        forget_topic(at, peer, what, &mut self.known_facts);
    }

    /// Appends a reply that is owed or admitted, or marks the tables as full.
    pub(crate) fn push_due(&mut self, due: PendingReply)
        ensures { self.new ≡ with_due self.old due }
    {
        if self.pending_replies.len() < MAX_TABLE_ROWS {
            self.pending_replies.push_reserved(due);
        } else {
            self.full = true;
        }
    }

    // Makes each pending reply that this one fits optional.
    fn make_unsure(&mut self, flow: ObservedFlow, reply: &Command)
        ensures { self.new ≡ record self.old { pending_replies = map (optional (is_own flow) reply.now) self.old.pending_replies } }
    {
        make_unsure(flow, reply, self.pending_replies.as_mut_slice());
    }

    /// Applies a reply: strikes the first pending one that it fits, and the source's before it. If
    /// that one is optional, first makes each that it fits optional.
    pub(crate) fn strike(&mut self, flow: ObservedFlow, reply: &Command)
        ensures { self.new ≡ record self.old { pending_replies = pending_left (is_own flow) reply.now self.old.pending_replies } }
    {
        if !fits_sure(flow, reply, self.pending_replies.as_slice()) {
            self.make_unsure(flow, reply);
        }
        strike_in(flow, reply, &mut self.pending_replies);
    }

    /// No reply of the host is still queued: drops its pending replies and its admitted ERRs about
    /// texts.
    pub(crate) fn all_said(&mut self, at: u8, peer: u8)
        ensures { self.new ≡ after_all_said at peer self.old }
    {
        forget_said(at, peer, &mut self.pending_replies);
        forget_admissions(at, peer, &mut self.known_facts);
    }

    /// Forgets everything observed between two hosts.
    pub(crate) fn clear(&mut self, at: u8, peer: u8)
        ensures { self.new ≡ tables_cleared at peer self.old }
    {
        forget_conns(at, peer, &mut self.conns);
        forget_facts(at, peer, &mut self.known_facts);
        forget_pending(at, peer, &mut self.pending_replies);
    }
}
