//! Loading the state of a peer from bytes, in the order of `state_saved` in `specs/SavedPeer.antt`.
//! Of saved bytes the result is the saved state. Of others it need not be: the caller compares.
//!
//! A list has a 1 before each item and a 0 after the last, so one mark more is read than there may
//! be items.
ghost use Rattle.std.specs.Prelude.{◌≡◌, ◌≢◌, ◌≤◌, ◌==◌, nat_lt, if◌then◌else◌, ◌∷◌, ◌++◌, [], false, true, ℕ, Bool, List, Option, Ok, All, length, IfOk, IsOkAnd};
ghost use Rattle.std.specs.FinMap.{insert};
ghost use Rattle.ncp_wire.specs.declared.command.Command.{Command};
ghost use Rattle.ncp_saved.specs.Values.{mark, listed, command_saved, error_saved, echoed_saved, pair_saved, bits_saved};
ghost use Rattle.ncp_saved.specs.Reading.{ReadsBack, OrNoMemory, HasItsData};
ghost use Rattle.ncp_slot.specs.Slot.{handed_out, answered};
ghost use Rattle.ncp_slot.specs.Slots.{LinkSlot, LinkSlots, HasSlot, OtherSlotsStay, slot_at};
ghost use Rattle.ncp_slot.specs.declared.slot.Slot.{Slot};
ghost use Rattle.ncp_model.specs.declared.pair.Pair.{Pair as Sockets};
ghost use Rattle.ncp_model.specs.declared.outcomes.Error.{Error};
ghost use Rattle.ncp_model.specs.Endpoint.{Endpoint};
ghost use Rattle.ncp_model.specs.Phase.{up, Phase as Kept};
ghost use Rattle.ncp_model.specs.Echo.{Echoes as Heard, no_echoes};
ghost use Rattle.ncp_model.specs.Ends.{Ends, no_ends};
ghost use Rattle.ncp_model.specs.Peers.{Peer as PeerValue};
ghost use Rattle.ncp_conn.specs.Stores.{stored_in, room_in};
ghost use Rattle.ncp_conn.specs.Restoring.{IsPossible, may_stand};
ghost use Rattle.ncp_phase.specs.SavedPhase.{phase_saved, echoes_saved};
ghost use Rattle.ncp_phase.specs.Waiting.{QueueFits};
ghost use Rattle.ncp_phase.specs.Restoring.{phase_with, HasAllData};
ghost use Rattle.ncp_peer.specs.PeerState.{PeerState};
ghost use Rattle.ncp_peer.specs.SavedPeer.{connection_saved, ends_saved, end_saved, slot_saved, slots_saved, counts_saved, state_saved};
ghost use Rattle.ncp_peer.specs.SavedParts.{association_saved};
ghost use Rattle.ncp_peer.specs.Soundness.{IsWell};
ghost use Rattle.ncp_peer.specs.Loading.{marks_saved, three_saved, way_saved, flags_saved, record_unstored, FitsIn, CanStand, FitEchoes, FitSlots, IsSmall, FitPeer};

use crate::association::Association;
use crate::counts::Counts;
use crate::peer::Peer;
use ncp_bits::BitStore;
use ncp_conn::{Record, Role, Table};
use ncp_model::{MAX_BY_PEER, MAX_ERRORS, MAX_OWN, MAX_ROOM, MAX_WAITING, Pair};
use ncp_phase::{Echoes, Flags, Phase};
use ncp_saved::{Reader, Unread};
use ncp_slot::{Slots, has_slot};
use ncp_wire::{Answer, FIRST_LINK, LAST_LINK};
use std::alloc::Global;

// Reads four flags.
fn read_marks(reader: &mut Reader<'_>) -> Result<(bool, bool, bool, bool), Unread>
    ensures reads { ReadsBack marks_saved reader.old result reader.new }
{
    Ok((
        reader.mark()?,
        reader.mark()?,
        reader.mark()?,
        reader.mark()?,
    ))
}

// Reads three numbers in four bytes each.
#[tactic(auto, using(std::proofs::lemmas::List::append_assoc))]
fn read_three(reader: &mut Reader<'_>) -> Result<(u32, u32, u32), Unread>
    ensures reads { ReadsBack three_saved reader.old result reader.new }
{
    let first = reader.four_bytes()?;
    let second = reader.four_bytes()?;
    let third = reader.four_bytes()?;
    Ok((first, second, third))
}

fn read_flags(reader: &mut Reader<'_>) -> Result<Flags, Unread>
    ensures reads { ReadsBack flags_saved reader.old result reader.new }
{
    let (down, want, owe, wait) = read_marks(reader)?;
    Ok(Flags {
        down,
        want,
        owe,
        wait,
    })
}

fn read_commands(reader: &mut Reader<'_>, phase: &mut Phase) -> Result<(), Unread>
    ensures reads { (flags : Flags) (waiting : List Command) (rest : List ℕ) → QueueFits (phase_with flags waiting)
        → All HasItsData waiting → phase.old ≡ phase_with flags []
        → reader.old ≡ listed command_saved waiting ++ rest
        → (result ≡ Ok tt) × (phase.new ≡ phase_with flags waiting) × (reader.new ≡ rest) }
{
    for _place in 0..MAX_WAITING + 1 {
        if !reader.mark()? {
            return Ok(());
        }
        phase.restore(reader.command()?);
    }
    Err(Unread::NotAHost)
}

#[tactic(auto, unfolding(ncp_phase::specs::SavedPhase::phase_saved))]
fn read_phase(alloc: Global, reader: &mut Reader<'_>) -> Result<Phase, Unread>
    ensures reads { (phase : Kept) (rest : List ℕ) → QueueFits phase → All HasItsData phase.waiting
        → reader.old ≡ phase_saved phase ++ rest → OrNoMemory result (λ read. (read ≡ phase) × (reader.new ≡ rest)) }
{
    let flags = read_flags(reader)?;
    let mut phase = Phase::with_flags(alloc, flags)?;
    read_commands(reader, &mut phase)?;
    Ok(phase)
}

// Reads the byte of the last ERP that answered an echo, if there was one.
fn read_echoed(reader: &mut Reader<'_>, echoes: &mut Echoes) -> Result<(), Unread>
    ensures reads { (echoed : Option ℕ) (rest : List ℕ) → echoes.old ≡ no_echoes
        → reader.old ≡ echoed_saved echoed ++ rest
        → (result ≡ Ok tt) × (echoes.new ≡ record no_echoes { echoed = echoed }) × (reader.new ≡ rest) }
{
    if !reader.mark()? {
        return Ok(());
    }
    let byte = reader.byte()?;
    echoes.ask();
    let _stray = echoes.hear_erp(byte);
    Ok(())
}

fn read_echo(reader: &mut Reader<'_>, echoes: &mut Echoes) -> Result<(), Unread>
    ensures reads { (awaited : Bool) (echoed : Option ℕ) (rest : List ℕ) → echoes.old ≡ no_echoes
        → reader.old ≡ mark awaited ∷ (echoed_saved echoed ++ rest)
        → (result ≡ Ok tt) × (echoes.new ≡ record no_echoes { awaited = awaited; echoed = echoed }) × (reader.new ≡ rest) }
{
    let awaited = reader.mark()?;
    read_echoed(reader, echoes)?;
    if awaited {
        echoes.ask();
    }
    Ok(())
}

fn read_errors(reader: &mut Reader<'_>, echoes: &mut Echoes) -> Result<(), Unread>
    ensures reads { (errors : List Error) (rest : List ℕ) → length errors ≤ MAX_ERRORS → All HasAllData errors
        → echoes.old.errors ≡ [] → reader.old ≡ listed error_saved errors ++ rest
        → (result ≡ Ok tt) × (echoes.new ≡ record echoes.old { errors = errors }) × (reader.new ≡ rest) }
{
    for _place in 0..MAX_ERRORS + 1 {
        if !reader.mark()? {
            return Ok(());
        }
        echoes.hear_err(reader.error()?);
    }
    Err(Unread::NotAHost)
}

fn read_echoes(alloc: Global, reader: &mut Reader<'_>) -> Result<Echoes, Unread>
    ensures reads { (echoes : Heard) (rest : List ℕ) → FitEchoes echoes → reader.old ≡ echoes_saved echoes ++ rest
        → OrNoMemory result (λ read. (read ≡ echoes) × (reader.new ≡ rest)) }
{
    let mut echoes = Echoes::new(alloc)?;
    read_echo(reader, &mut echoes)?;
    read_errors(reader, &mut echoes)?;
    Ok(echoes)
}

#[tactic(auto, using(std::proofs::lemmas::List::append_assoc), unfolding(ncp_saved::specs::Values::pair_saved))]
fn read_pair(reader: &mut Reader<'_>) -> Result<Pair, Unread>
    ensures reads { ReadsBack pair_saved reader.old result reader.new }
{
    Ok(Pair {
        local: reader.four_bytes()?,
        remote: reader.four_bytes()?,
    })
}

// Reads a link, a byte size, and a number of messages.
fn read_way(reader: &mut Reader<'_>) -> Result<(u8, u8, u16), Unread>
    ensures reads { ReadsBack way_saved reader.old result reader.new }
{
    let link = reader.byte()?;
    let size = reader.byte()?;
    let messages = reader.two_bytes()?;
    Ok((link, size, messages))
}

// Reads a connection's record without its stored bits, and the room for those.
fn read_record(reader: &mut Reader<'_>, end: Role) -> Result<(Record, u32), Unread>
    ensures reads { (e : Endpoint) (rest : List ℕ) → reader.old ≡ end_saved e ++ rest
        → (result ≡ Ok (record_unstored end e, e.room)) × (reader.new ≡ bits_saved e.stored ++ rest) }
{
    let (asked, heard, opened, leaving) = read_marks(reader)?;
    let (left, cls, busy, recall) = read_marks(reader)?;
    let (link, size, messages) = read_way(reader)?;
    let (bits, room, interrupts) = read_three(reader)?;
    let record = Record {
        end,
        asked,
        heard,
        opened,
        leaving,
        left,
        cls,
        link,
        size,
        messages,
        bits,
        stored: 0,
        busy,
        recall,
        interrupts,
    };
    Ok((record, room))
}

// Reads a store with room for `room` bits and its contents.
fn read_store<S: BitStore>(alloc: Global, reader: &mut Reader<'_>, room: u32) -> Result<S, Unread>
    ensures reads { (bits : List Bool) (rest : List ℕ) → length bits ≤ room → room ≤ MAX_ROOM
        → reader.old ≡ bits_saved bits ++ rest
        → OrNoMemory result (λ store. (S.held store ≡ bits) × (S.capacity store ≡ room) × (reader.new ≡ rest)) }
{
    if room > MAX_ROOM {
        return Err(Unread::NotAHost);
    }
    let mut store = S::with_room(alloc, room as usize)?;
    reader.stored(&mut store)?;
    Ok(store)
}

// Reads the store of a connection that was asked for; another connection stores nothing.
fn read_stored<S: BitStore>(
    alloc: Global,
    reader: &mut Reader<'_>,
    asked: bool,
    room: u32,
) -> Result<Option<S>, Unread>
    ensures reads { (bits : List Bool) (rest : List ℕ) → length bits ≤ room → room ≤ MAX_ROOM
        → (asked ≡ false → room ≡ 0) → reader.old ≡ bits_saved bits ++ rest
        → OrNoMemory result (λ store. (stored_in S.held store ≡ bits) × (room_in S.capacity store ≡ room) × (reader.new ≡ rest)) }
{
    if asked {
        return Ok(Some(read_store(alloc, reader, room)?));
    }
    let _none = reader.four_bytes()?;
    Ok(None)
}

// The role in which this host has a pair.
fn role_of(pair: Pair) -> Role {
    if pair.sends() {
        Role::Send
    } else {
        Role::Receive
    }
}

fn read_connection<S: BitStore>(
    alloc: Global,
    reader: &mut Reader<'_>,
    table: &mut Table<S>,
) -> Result<(), Unread>
    ensures reads { (p : Sockets × Endpoint) (rest : List ℕ) → IsPossible p → may_stand p.0 p.1 table.old ≡ true
        → reader.old ≡ connection_saved p ++ rest
        → OrNoMemory result (λ _. (table.new ≡ insert table.old p.0 p.1) × (reader.new ≡ rest)) }
{
    let pair = read_pair(reader)?;
    let (record, room) = read_record(reader, role_of(pair))?;
    let store = read_stored(alloc, reader, record.asked, room)?;
    match table.restore(pair, &record, store) {
        Ok(()) => Ok(()),
        Err(_unfit) => Err(Unread::NotAHost),
    }
}

fn read_connections<S: BitStore>(
    alloc: Global,
    reader: &mut Reader<'_>,
    table: &mut Table<S>,
) -> Result<(), Unread>
    ensures reads { (m : Ends) (rest : List ℕ) → CanStand m → table.old ≡ no_ends
        → reader.old ≡ ends_saved m ++ rest → OrNoMemory result (λ _. (table.new ≡ m) × (reader.new ≡ rest)) }
{
    for _place in 0..MAX_OWN + MAX_BY_PEER + 1 {
        if !reader.mark()? {
            return Ok(());
        }
        read_connection(alloc, reader, table)?;
    }
    Err(Unread::NotAHost)
}

fn read_table<S: BitStore>(alloc: Global, reader: &mut Reader<'_>) -> Result<Table<S>, Unread>
    ensures reads { (m : Ends) (rest : List ℕ) → CanStand m → reader.old ≡ ends_saved m ++ rest
        → OrNoMemory result (λ read. (read ≡ m) × (reader.new ≡ rest)) }
{
    let mut table = Table::new(alloc)?;
    read_connections(alloc, reader, &mut table)?;
    Ok(table)
}

fn read_association<S: BitStore>(
    alloc: Global,
    reader: &mut Reader<'_>,
) -> Result<Association<S>, Unread>
    ensures down { IfOk result (λ a. up a.phase ≡ false → a.ends ≡ no_ends) }
    ensures reads { (p : PeerValue) (rest : List ℕ) → FitPeer p → reader.old ≡ association_saved p ++ rest
        → OrNoMemory result (λ read. (read ≡ p) × (reader.new ≡ rest)) }
{
    let phase = read_phase(alloc, reader)?;
    let table = read_table(alloc, reader)?;
    let echoes = read_echoes(alloc, reader)?;
    Ok(Association::with(phase, table, echoes))
}

// Marks the message on a link as sent, if its kind is not the first.
fn send_if_sent(slots: &mut Slots, link: u8, kind: u8)
    requires { HasSlot link }
    ensures slot { slot_at slots.new link ≡ (if nat_lt 1 kind then handed_out (slot_at slots.old link) else slot_at slots.old link) }
    ensures others { OtherSlotsStay slots.old slots.new link }
{
    if kind > 1 {
        let _out = slots.hand(link);
    }
}

// Holds the message that was sent on a link, if its kind is the third.
fn hold_if_held(slots: &mut Slots, link: u8, kind: u8)
    requires { HasSlot link }
    ensures slot { slot_at slots.new link ≡ (if kind == 3 then answered Answer.Dead (slot_at slots.old link) else slot_at slots.old link) }
    ensures others { OtherSlotsStay slots.old slots.new link }
{
    if kind == 3 {
        let _held = slots.answer(link, Answer::Dead);
    }
}

fn read_slot(reader: &mut Reader<'_>, slots: &mut Slots, link: u8) -> Result<(), Unread>
    ensures reads { (slot : LinkSlot) (rest : List ℕ) → HasSlot link → slot_at slots.old link ≡ Slot.Empty
        → IsSmall slot → reader.old ≡ slot_saved slot ++ rest
        → (result ≡ Ok tt) × (slot_at slots.new link ≡ slot) × (reader.new ≡ rest) }
    ensures others { OtherSlotsStay slots.old slots.new link }
{
    let kind = reader.byte()?;
    if kind == 0 {
        return Ok(());
    }
    if !has_slot(link) {
        return Ok(());
    }
    let message = reader.message()?;
    let _put = slots.put(link, &message);
    send_if_sent(slots, link, kind);
    hold_if_held(slots, link, kind);
    Ok(())
}

fn read_each_slot(reader: &mut Reader<'_>, slots: &mut Slots) -> Result<(), Unread>
    ensures reads { (all : LinkSlots) (rest : List ℕ) → FitSlots all
        → ((on : ℕ) → slot_at slots.old on ≡ Slot.Empty) → reader.old ≡ slots_saved all ++ rest
        → (result ≡ Ok tt) × ((on : ℕ) → HasSlot on → slot_at slots.new on ≡ slot_at all on) × (reader.new ≡ rest) }
{
    read_slot(reader, slots, 0)?;
    for link in FIRST_LINK..LAST_LINK + 1 {
        read_slot(reader, slots, link)?;
    }
    Ok(())
}

fn read_slots(alloc: Global, reader: &mut Reader<'_>) -> Result<Slots, Unread>
    ensures reads { (all : LinkSlots) (rest : List ℕ) → FitSlots all → reader.old ≡ slots_saved all ++ rest
        → OrNoMemory result (λ read. (read ≡ all) × (reader.new ≡ rest)) }
{
    let mut slots = Slots::new(alloc)?;
    read_each_slot(reader, &mut slots)?;
    slots.has_its_links();
    Ok(slots)
}

fn read_counts(reader: &mut Reader<'_>) -> Result<Counts, Unread>
    ensures reads { ReadsBack counts_saved reader.old result reader.new }
{
    let (stray, faults, wrong_link) = read_three(reader)?;
    let (wrong_size, not_up, late) = read_three(reader)?;
    let over = reader.four_bytes()?;
    Ok(Counts {
        stray,
        faults,
        wrong_link,
        wrong_size,
        not_up,
        late,
        over,
    })
}

/// Reads the state of a peer, without the number before it.
pub fn read_peer<S: BitStore>(alloc: Global, reader: &mut Reader<'_>) -> Result<Peer<S>, Unread>
    ensures well { IfOk result IsWell }
    ensures reads { (s : PeerState) (rest : List ℕ) → FitsIn s → reader.old ≡ state_saved s ++ rest
        → OrNoMemory result (λ read. (read ≡ s) × (reader.new ≡ rest)) }
{
    let association = read_association(alloc, reader)?;
    let slots = read_slots(alloc, reader)?;
    let counts = read_counts(reader)?;
    slots.has_its_links();
    let Some(mut peer) = Peer::with(association, slots, counts) else {
        return Err(Unread::NotAHost);
    };
    peer.pass_over_empty();
    Ok(peer)
}
