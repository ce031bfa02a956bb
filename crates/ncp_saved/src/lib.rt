//! The encoding of the parts of a saved host: numbers, flags, bits, sockets, commands and errors,
//! written one after another and read from the front. `specs/Values.antt` has the layout.
//!
//! - *Proved:* the bytes written are those of the layout, and of these the reader takes the value.
//!   Its input may be any bytes.
//! - *Tests:* `saved` of `ncp_test_host`.
#![tactic(auto)]

mod reader;
mod writing;

pub use reader::{Reader, Unread};
pub use writing::{
    put_bits, put_byte, put_bytes, put_command, put_echoed, put_error, put_four, put_mark,
    put_marks, put_pair, put_store, put_three, put_two,
};
