//! Messages to a peer.
ghost use Rattle.std.specs.Prelude.{◌≡◌, ◌≤◌, ◌*◌, length, Some};
ghost use Rattle.ncp_numbers.specs.Bytes.{bits_of_bytes};
ghost use Rattle.ncp_leader.specs.Front.{front_bits};
ghost use Rattle.ncp_model.specs.Effect.{answer};
ghost use Rattle.ncp_model.specs.Ends.{cut_in};
ghost use Rattle.ncp_model.specs.Peers.{cuts};
ghost use Rattle.ncp_conn.specs.Cutting.{cut_sizes, cut_text};
ghost use Rattle.ncp_peer.specs.PeerState.{control_link};
ghost use Rattle.ncp_peer.specs.Hearing.{control_size};
ghost use Rattle.ncp_peer.specs.Output.{leader_to, message_to};

use crate::association::Association;
use ncp_bits::{BitStore, Bits, Part};
use ncp_leader::{FRONT_BITS, Leader, REGULAR, put_front};
use ncp_model::MAX_CONTROL;
use ncp_wire::{CONTROL_LINK, CONTROL_SIZE};

// Sets `message` to the leader and prefix of a message to a peer, for `count` bytes of `size` bits.
fn write_front(number: u8, link: u8, size: u8, count: u16, message: &mut Bits)
    ensures front { message.new ≡ front_bits (leader_to number link) size count }
    ensures len { length message.new ≡ FRONT_BITS }
{
    let leader = Leader {
        flags: 0,
        kind: REGULAR,
        host: number,
        link,
        low: 0,
    };
    put_front(&leader, size, count, message);
}

/// Sets `message` to a control message to a peer.
pub(crate) fn write_control(number: u8, bytes: &[u8], message: &mut Bits)
    requires { length bytes.now ≤ MAX_CONTROL }
    ensures { message.new ≡ message_to number control_link control_size (bits_of_bytes bytes.now) }
{
    write_front(
        number,
        CONTROL_LINK,
        CONTROL_SIZE,
        bytes.len() as u16,
        message,
    );
    message.append(bits_of_text(bytes)).unwrap();
}

/// Sets `message` to the message with the next text on a link, and removes the text from its store.
/// `counted` is its byte size and its number of bytes.
pub(crate) fn write_text<S: BitStore>(
    number: u8,
    link: u8,
    counted: (u8, u16),
    association: &mut Association<S>,
    message: &mut Bits,
)
    requires { cut_sizes (answer (cut_in link association.old.ends)) ≡ Some counted }
    ensures message { message.new ≡ message_to number link counted.0 (cut_text (answer (cut_in link association.old.ends))) }
    ensures association { association.new ≡ cuts link association.old }
{
    write_front(number, link, counted.0, counted.1, message);
    association.cut_onto(link, message);
}

// The bits of a control text, borrowed.
fn bits_of_text(bytes: &[u8]) -> Part<'_>
    requires { length bytes.now ≤ MAX_CONTROL }
    ensures bits { result ≡ bits_of_bytes bytes.now }
    ensures len { length result ≡ 8 * length bytes.now }
{
    Part::from_bytes(bytes, 8 * bytes.len()).unwrap()
}
