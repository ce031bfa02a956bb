//! Events at one host.
ghost use Rattle.std.specs.Prelude.{◌≡◌, true, None, IfOk, OnErr, IsOk};
ghost use Rattle.ncp_subnet.specs.declared.transit.Transit.{Transit};
ghost use Rattle.ncp_subnet.specs.Messages.{arriving, answer_about};
ghost use Rattle.ncp_subnet.specs.Subnet.{transit_at};
ghost use Rattle.ncp_host.specs.Host.{are_peers, new_host};
ghost use Rattle.ncp_transcript.specs.Noting.{CallNoted, note_of_output};
ghost use Rattle.ncp_transcript.specs.After.{after_note};
ghost use Rattle.ncp_transcript_two.specs.Seen.{CallFits};
ghost use Rattle.ncp_transcript_two.specs.Between.{subnet_after_out};
ghost use Rattle.ncp_step.specs.Noted.{note_if_any, after_noted, put_noted};

use crate::fitting::numbers_fit;
use ncp_bits::BitStore;
use ncp_host::{Host, HostFault};
use ncp_subnet::Subnet;
use ncp_transcript::{Call, HostNote, Room, hear_in_room, perform, send};
use std::alloc::{AllocError, Global};

/// Creates a host with a number and these peers, which it can have. Fails only on allocation
/// failure.
pub fn new_host<S: BitStore>(alloc: Global, number: u8, peers: &[u8]) -> Result<Host<S>, AllocError>
    requires { are_peers number peers.now ≡ true }
    ensures { IfOk result (λ host. host ≡ new_host number peers.now) }
{
    match Host::new(alloc, number, peers) {
        Ok(host) => Ok(host),
        Err(HostFault::OutOfMemory) => Err(AllocError),
        Err(HostFault::BadPeers) => unreachable!(),
    }
}

/// Performs a user's call on a host. On `AllocError` nothing has happened. An allocation failure in
/// the call itself is a refusal in the note. The numbers of a call fit the fields of its commands.
pub fn calls<S: BitStore>(
    alloc: Global,
    host: &mut Host<S>,
    call: &Call,
) -> Result<HostNote, AllocError>
    ensures note { IfOk result (λ note. CallNoted call.now note host.old) }
    ensures fits { CallFits call.now }
    ensures host { IfOk result (λ note. host.new ≡ after_note note host.old) }
    ensures err { OnErr result (host.new ≡ host.old) }
{
    numbers_fit(call);
    perform(alloc, host, call)
}

// Passes the sent message of a host's note, if there is one, to the subnet.
fn pass_on(subnet: &mut Subnet, from: u8, note: &HostNote)
    ensures { subnet.new ≡ subnet_after_out from note.now subnet.old }
{
    if let HostNote::Out { message } = note {
        let _taken = subnet.accept_part(from, message.whole());
    }
}

/// Asks a host for its next message, which the subnet takes. On `AllocError` nothing has happened.
pub fn sends<S: BitStore>(
    alloc: Global,
    subnet: &mut Subnet,
    from: u8,
    host: &mut Host<S>,
) -> Result<HostNote, AllocError>
    ensures note { IfOk result (λ note. note ≡ note_of_output host.old) }
    ensures host { IfOk result (λ note. host.new ≡ after_note note host.old) }
    ensures subnet { IfOk result (λ note. subnet.new ≡ subnet_after_out from note subnet.old) }
    ensures err { OnErr result (host.new ≡ host.old) }
    ensures kept { OnErr result (subnet.new ≡ subnet.old) }
{
    let note = send(alloc, host)?;
    pass_on(subnet, from, &note);
    Ok(note)
}

/// The subnet delivers a message to this host, its destination (BBN Report 1822, section 3).
/// Returns `None`, and nothing has happened, if there is no message to deliver; this case never
/// fails. On `AllocError` nothing has happened.
pub fn comes<S: BitStore>(
    alloc: Global,
    subnet: &mut Subnet,
    from: u8,
    to: u8,
    link: u8,
    host: &mut Host<S>,
) -> Result<Option<HostNote>, AllocError>
    ensures note { IfOk result (λ note. note ≡ note_if_any (arriving from (transit_at subnet.old from to link)) host.old) }
    ensures host { IfOk result (λ note. host.new ≡ after_noted note host.old) }
    ensures subnet { IfOk result (λ note. subnet.new ≡ put_noted note from to link Transit.Delivered subnet.old) }
    ensures err { OnErr result (host.new ≡ host.old) }
    ensures kept { OnErr result (subnet.new ≡ subnet.old) }
    ensures nothing { arriving from (transit_at subnet.old from to link) ≡ None → IsOk result }
{
    if !subnet.accepted(from, to, link) {
        return Ok(None);
    }
    let room = Room::new(alloc)?;
    let Some(bits) = subnet.deliver(from, to, link) else {
        return Ok(None);
    };
    Ok(Some(hear_in_room(room, host, &bits)))
}

/// The subnet answers this host, the sender of a message (BBN Report 1822, section 3). Returns
/// `None`, and nothing has happened, if no answer is pending; this case never fails. On
/// `AllocError` nothing has happened.
pub fn answers<S: BitStore>(
    alloc: Global,
    subnet: &mut Subnet,
    from: u8,
    to: u8,
    link: u8,
    host: &mut Host<S>,
) -> Result<Option<HostNote>, AllocError>
    ensures note { IfOk result (λ note. note ≡ note_if_any (answer_about to link (transit_at subnet.old from to link)) host.old) }
    ensures host { IfOk result (λ note. host.new ≡ after_noted note host.old) }
    ensures subnet { IfOk result (λ note. subnet.new ≡ put_noted note from to link Transit.Free subnet.old) }
    ensures err { OnErr result (host.new ≡ host.old) }
    ensures kept { OnErr result (subnet.new ≡ subnet.old) }
    ensures nothing { answer_about to link (transit_at subnet.old from to link) ≡ None → IsOk result }
{
    if !subnet.has_answer(from, to, link) {
        return Ok(None);
    }
    let room = Room::new(alloc)?;
    let Some(bits) = subnet.answer(from, to, link) else {
        return Ok(None);
    };
    Ok(Some(hear_in_room(room, host, &bits)))
}
