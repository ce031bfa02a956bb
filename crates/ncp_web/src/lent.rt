//! Structs that a page passes to a function by reference, besides bytes: the item that it means,
//! the options for reading a file, and the numbers of bytes written.

/// The numbers of bytes written: of output, and of a fault.
#[repr(C)]
#[derive(Clone, Copy, Drop)]
pub struct WrittenLengths {
    pub written: usize,
    pub told: usize,
}

/// How a capture is audited: as a part of the traffic, by the rules of the standard alone, and with
/// what was not judged.
#[repr(C)]
#[derive(Clone, Copy, Drop)]
pub struct AuditOptions {
    pub part: bool,
    pub standard: bool,
    pub coverage: bool,
}

/// A queued command, by host, peer and index; the first index is 0.
#[repr(C)]
#[derive(Clone, Copy, Drop)]
pub struct Queued {
    pub host: u8,
    pub peer: u8,
    pub place: u32,
}

/// A link between a host and a peer.
#[repr(C)]
#[derive(Clone, Copy, Drop)]
pub struct LinkBetween {
    pub host: u8,
    pub peer: u8,
    pub link: u8,
}

/// A sender, by its host, its peer and the sockets of its connection.
#[repr(C)]
#[derive(Clone, Copy, Drop)]
pub struct Sender {
    pub host: u8,
    pub peer: u8,
    pub local: u32,
    pub remote: u32,
}
