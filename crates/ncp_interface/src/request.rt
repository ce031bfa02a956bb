//! `Request`: what one side of a connection asks for.
ghost use Rattle.std.specs.Prelude.{◌≡◌};
ghost use Rattle.ncp_interface.specs.Sockets.{is_senders, is_number_given, is_of_sexes};

/// What one side of a connection requests. The receiver's RTS chooses the link, the sender's STR
/// the byte size.
#[derive(Clone, Copy, Debug, Drop, PartialEq, Eq)]
pub enum Request {
    /// A link.
    Link(u8),
    /// A byte size.
    Size(u8),
}

/// Whether a socket is a sender's.
pub fn is_senders(socket: u32) -> bool
    ensures { result ≡ is_senders socket }
{
    socket % 2 == 1
}

/// Whether the receiver's socket is even, and the sender's odd.
pub fn is_of_sexes(receive: u32, send: u32) -> bool
    ensures { result ≡ is_of_sexes receive send }
{
    !is_senders(receive) && is_senders(send)
}

/// Whether `given` is `number`.
pub fn is_given(given: Option<u8>, number: u8) -> bool
    ensures { result ≡ is_number_given given number }
{
    match given {
        Some(given) => given == number,
        None => false,
    }
}
