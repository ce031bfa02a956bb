//! The subnet between hosts: it takes regular messages from a host, delivers each whole and once or
//! not at all, and returns the result to the sender (BBN Report 1822, section 3).
//!
//! [`Subnet::accept`] takes a message. [`Subnet::deliver`] delivers it at its destination; after
//! [`Subnet::lose`] or [`Subnet::dead`] it will not be delivered. After any of the three
//! [`Subnet::answer`] returns the answer, and the next message may be accepted. The caller decides
//! which of these happens, and when.
//!
//! A contract sees the subnet as a finite map from a sender, a destination and a link to the
//! transit there, and a message as a list of bits.
//!
//! ```text
//! let mut subnet = Subnet::new(alloc, 1, 2)?;                  // between hosts 1 and 2
//! subnet.accept(1, &message)?;                                 // host 1 sends it to host 2 on link 0
//! subnet.deliver(1, 2, 0);                                     // Some: the message, as one from host 1
//! subnet.answer(1, 2, 0);                                      // Some: 05 02 00 00, RFNM for host 2 on link 0
//! ```
//!
//! - *Proved:* a message is delivered at most once and answered once: with RFNM exactly if it was
//!   delivered (`laws::each_message_is_answered_once`). It arrives with its bits unchanged, except
//!   that the sender's number replaces the destination's (`deliver`, clause `message`).
//! - *Tests:* `subnet` of `ncp_test_host`, and of `ncp_test_world` among hosts.
#![tactic(auto)]

mod addressed;
pub mod equality;
mod fault;
pub mod laws;
mod subnet;
mod transit;
mod way;

pub use fault::SubnetFault;
pub use subnet::Subnet;
pub use transit::Transit;
pub use way::LINKS;
