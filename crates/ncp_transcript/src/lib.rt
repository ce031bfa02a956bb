//! One host with its transcript: the host takes calls and received bits, and each input is recorded
//! in a note with its result.
//!
//! ```text
//! let mut alone: Alone<PackedStore> = Alone::new(alloc, 1, &[2])?;
//! alone.step(&Input::Call(Call::Reset { peer: 2 }))?;
//! alone.step(&Input::Out)?;                                    // the host is asked for its next message
//! alone.transcript();                                          // two notes: the reset, and the RST that was sent
//! ```
//!
//! The lines that a script prints for a note are written in `ncp_play_notes`.
//!
//! - *Proved:* each input adds one note, which is correct by the rules at the state after the notes
//!   before it (`Alone::step`, clause `step`; `run`). On allocation failure nothing has happened
//!   (`err`).
//! - *Tests:* `alone` of `ncp_test_host`.
#![tactic(auto)]

mod acts;
mod alone;
mod arrivals;
mod call;
mod calls;
mod error_list;
mod input;
pub mod laws;
mod message;
mod note;
mod output;
mod readings;
mod room;
mod transcript;

pub use alone::Alone;
pub use arrivals::{hear, hear_in_room};
pub use call::Call;
pub use calls::perform;
pub use error_list::ErrorList;
pub use input::Input;
pub use message::Message;
pub use note::{HostNote, NOTE_BYTES};
pub use output::send;
pub use room::Room;
