//! Scripts of hosts: their lines, read in pieces; the words of a line; and the numbers, bits, calls
//! and hosts that words spell. Also the directives of a script of one host and, as a definition,
//! the plan of a whole script.
//!
//! - *Use:* `call(alloc, &mut words, None)` reads a call, as `give 2 3 2 16 6162`, from the words
//!   of a line.
//! - *Proved:* a line has exactly the directive of the definition (`call_named`, `host_line`,
//!   clause `call` or `line`), and only a give allocates (`memory`); each word names one call
//!   (`laws::words_name_calls`).
//! - *Tests:* `script` of `ncp_test_play`; worked lines in `examples`.
#![tactic(auto)]

mod arguments;
mod bit_string;
mod calls;
mod cut;
mod equality;
pub mod examples;
mod first_lines;
mod host_lines;
pub mod laws;
mod line_buffer;
mod line_words;
mod numbers;
mod verbs;

pub use calls::{call, call_named};
pub use equality::{equal_kinds, equal_verbs};
pub use first_lines::{HostAndPeers, TwoHosts, host_named, hosts_first, is_many, many_first};
pub use host_lines::{HostEvent, HostLine, host_line};
pub use line_buffer::{LineBuffer, LineKind, MAX_KEPT, MAX_LINE, is_skipped, text_of};
pub use line_words::Words;
pub use numbers::MAX_DIGITS;
pub use verbs::{Verb, verb_named};
