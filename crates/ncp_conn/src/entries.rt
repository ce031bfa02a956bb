//! The entries of a table, and the index from links to entries.
ghost use Rattle.std.specs.Prelude.{◌≡◌, ◌<◌, ◌≤◌, ◌+◌, ◌-◌, ℕ, true, false, All, IfOk, IfSome, Some, None, [], if◌then◌else◌, is_none};
ghost use Rattle.std.specs.List.{count_by};
ghost use Rattle.slab.specs.Slab.{get, values, entries, ContainsKey, HasRoomFor, Updates};
ghost use Rattle.ncp_model.specs.Pairs.{same};
ghost use Rattle.ncp_model.specs.Endpoint.{Endpoint, is_ended};
ghost use Rattle.ncp_model.specs.Ends.{has_asked, hears_link, uses_link, lowest};
ghost use Rattle.ncp_conn.specs.Entries.{Found, Led, Puts, Settled, key_of};
ghost use Rattle.ncp_conn.specs.Indexes.{key_at, LeadsTo};
ghost use Rattle.ncp_conn.specs.Links.{is_in};
ghost use Rattle.ncp_conn.specs.Listing.{is_before, stands_at};
ghost use Rattle.ncp_conn.specs.Restoring.{IsPossible};
ghost use Rattle.ncp_conn.specs.Sending.{Notes};

use crate::entry::Entry;
use crate::fixed_slab::FixedSlab;
use crate::link_index::LinkIndex;
use crate::link_set::LinkSet;
use ncp_bits::BitStore;
use ncp_model::{MAX_BY_PEER, MAX_OWN, Pair};
use ncp_wire::LAST_LINK;
use std::alloc::{AllocError, Global};

/// The entries under their keys; the keys of the senders that heard a link and of the receivers
/// that asked with one, by link; and the links on which a text may be sent.
#[derive(Drop)]
pub(crate) struct Entries<S: BitStore> {
    pub(crate) slab: FixedSlab<Entry<S>>,
    pub(crate) senders: LinkIndex,
    pub(crate) receivers: LinkIndex,
    pub(crate) sending: LinkSet,
}

impl<S: BitStore> Entries<S> {
    /// No entries, with room for the most that there may be.
    pub(crate) fn new(alloc: Global) -> Result<Self, AllocError>
        ensures slots { IfOk result (λ new. new.slab.slots ≡ []) }
        ensures room { IfOk result (λ new. MAX_OWN + MAX_BY_PEER ≤ new.slab.capacity) }
        ensures senders { IfOk result (λ new. (on : ℕ) → key_at new.senders on ≡ None) }
        ensures receivers { IfOk result (λ new. (on : ℕ) → key_at new.receivers on ≡ None) }
        ensures sending { IfOk result (λ new. (on : ℕ) → is_in new.sending on ≡ false) }
    {
        Ok(Entries {
            slab: FixedSlab::with_capacity(alloc, MAX_OWN + MAX_BY_PEER)?,
            senders: LinkIndex::new(),
            receivers: LinkIndex::new(),
            sending: LinkSet::none(),
        })
    }

    /// Removes all entries.
    pub(crate) fn clear(&mut self)
        ensures slots { self.new.slab.slots ≡ [] }
        ensures room { self.new.slab.capacity ≡ self.old.slab.capacity }
        ensures senders { (on : ℕ) → key_at self.new.senders on ≡ None }
        ensures receivers { (on : ℕ) → key_at self.new.receivers on ≡ None }
        ensures sending { (on : ℕ) → is_in self.new.sending on ≡ false }
    {
        self.slab.clear();
        self.senders = LinkIndex::new();
        self.receivers = LinkIndex::new();
        self.sending = LinkSet::none();
    }

    // The key of the first entry of a pair.
    fn key_of(&self, pair: Pair) -> Option<usize>
        ensures { result ≡ key_of (λ e. same e.0 pair) (entries self.now.slab) }
    {
        for (key, entry) in self.slab.iter() {
            if entry.is_for(pair) {
                return Some(key);
            }
        }
        None
    }

    /// The key of a pair's entry, if it has one.
    pub(crate) fn find(&self, pair: Pair) -> Option<usize>
        ensures found { Found self.now.slab pair result }
        ensures inside { IfSome result (λ key. ContainsKey self.now.slab key) }
    {
        self.key_of(pair)
    }

    /// A lemma: each entry whose endpoint is not over is possible.
    pub(crate) fn are_possible(&self)
        ensures { All (λ p. is_ended p.1 ≡ false → IsPossible p) (values self.now.slab) }
    {
        for (_, entry) in self.slab.iter() {
            entry.is_possible();
        }
    }

    /// The number of entries with a local request.
    pub(crate) fn own_requests(&self) -> usize
        ensures { result ≡ count_by has_asked (values self.now.slab) }
    {
        let mut count = 0;
        for (_, entry) in self.slab.iter() {
            if entry.is_asked() {
                count += 1;
            }
        }
        count
    }

    // The number of entries ordered before a pair.
    fn count_before(&self, pair: Pair) -> usize
        ensures { result ≡ count_by (is_before pair) (values self.now.slab) }
    {
        let mut count = 0;
        for (_, entry) in self.slab.iter() {
            if entry.is_before(pair) {
                count += 1;
            }
        }
        count
    }

    /// The key of the entry at index `place`, in the order of the pairs, if there is one.
    pub(crate) fn key_at(&self, place: usize) -> Option<usize>
        ensures placed { result ≡ key_of (stands_at place (values self.now.slab)) (entries self.now.slab) }
        ensures inside { IfSome result (λ key. ContainsKey self.now.slab key) }
    {
        for (key, entry) in self.slab.iter() {
            if self.count_before(entry.pair()) == place {
                return Some(key);
            }
        }
        None
    }

    /// Makes the links of the entry under `key` identify it, and records whether a text may be sent
    /// on them.
    pub(crate) fn lead(&mut self, key: usize)
        requires { ContainsKey self.old.slab key }
        ensures { (p : Pair × Endpoint) → get self.old.slab key ≡ Some p → Led self.old self.new key p }
    {
        lead_to(
            &self.slab[key],
            &mut self.senders,
            &mut self.receivers,
            Some(key),
        );
        note(&self.slab[key], &mut self.sending);
    }

    /// Stores a new entry, makes its links identify it, and records whether a text may be sent on
    /// them.
    pub(crate) fn insert(&mut self, entry: Entry<S>)
        requires { HasRoomFor self.old.slab 1 }
        ensures vacant { get self.old.slab self.old.slab.vacant_key ≡ None }
        ensures enters { let at = self.old.slab.vacant_key in Puts self.old self.new at (Some entry) entry (Some at) }
        ensures sending { Notes entry self.old.sending self.new.sending }
    {
        let key = self.slab.insert(entry);
        self.lead(key);
    }

    // Removes an entry. Its links then identify none.
    fn remove(&mut self, key: usize)
        requires { ContainsKey self.old.slab key }
        ensures out { (p : Pair × Endpoint) → get self.old.slab key ≡ Some p → Puts self.old self.new key None p None }
        ensures sending { self.new.sending ≡ self.old.sending }
    {
        let entry = self.slab.remove(key);
        lead_to(&entry, &mut self.senders, &mut self.receivers, None);
    }

    /// After a change of an entry: records whether a text may be sent on its links, and removes it
    /// if its endpoint is over.
    pub(crate) fn settle(&mut self, key: usize)
        requires { ContainsKey self.old.slab key }
        ensures { (p : Pair × Endpoint) → get self.old.slab key ≡ Some p → Settled self.old self.new key p }
    {
        note(&self.slab[key], &mut self.sending);
        if self.slab[key].is_ended() {
            self.remove(key);
        }
    }
}

// Makes the links of an entry identify a key, or none.
fn lead_to<S: BitStore>(
    entry: &Entry<S>,
    senders: &mut LinkIndex,
    receivers: &mut LinkIndex,
    key: Option<usize>,
)
    ensures senders { LeadsTo hears_link entry.now key senders.old senders.new }
    ensures receivers { LeadsTo uses_link entry.now key receivers.old receivers.new }
{
    let link = entry.link();
    if entry.hears(link) {
        senders.set(link, key);
    }
    if entry.uses(link) {
        receivers.set(link, key);
    }
}

// Records whether a text may be sent on the link that an entry heard.
fn note<S: BitStore>(entry: &Entry<S>, sending: &mut LinkSet)
    ensures { Notes entry.now sending.old sending.new }
{
    let link = entry.link();
    if !entry.hears(link) {
        return;
    }
    if entry.can_send() {
        sending.insert(link);
    } else {
        sending.remove(link);
    }
}

/// The lowest link from `link` on that identifies no entry, or the first after the last link.
pub(crate) fn free_from(index: &LinkIndex, link: u8) -> u8
    requires { link ≤ LAST_LINK + 1 }
    ensures { result ≡ lowest (λ on. is_none (key_at index.now on)) (LAST_LINK + 1 - link) link }
{
    if link > LAST_LINK {
        return link;
    }
    if index.key(link).is_none() {
        return link;
    }
    free_from(index, link + 1)
}
