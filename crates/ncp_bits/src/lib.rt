//! Bit strings, borrowed parts of them, and stores of bits.
//!
//! In the contracts each of them is a list of bits, most significant bit first, regardless of its
//! representation. All but [`PlainStore`] pack eight bits to a byte.
//!
//! ```text
//! let bits = Bits::from_bytes(&[0x61, 0x62], 16)?;             // the first 16 bits of bytes
//! bits.number(8, 8);                                           // 0x62: the 8 bits from offset 8 on
//! let mut store = PackedStore::with_room(alloc, 1024)?;
//! store.put(bits.whole())?;                                    // all of them, or none if they do not fit
//! store.take(8);                                               // the first 8, oldest first
//! ```
//!
//! - *Proved:* reading returns the bits of the bytes, or the first fault that holds (`from_bytes`,
//!   clause `read`; `laws::bits_faults_are_in_order`); a store holds the bits that were put and not
//!   taken, in order (`put`, `ok` and `err`; `take`, `bits` and `held`). Only `with_room` and
//!   `copy` allocate. The types of the stores ensure this: a boxed slice cannot grow, and does not
//!   give access to an allocator.
//! - *Tests:* `bits` of `ncp_test_host`; allocation failure in `refused` of `ncp_test_files`.
#![tactic(auto)]

mod append;
mod bits;
pub mod equality;
pub mod laws;
mod packed_store;
mod part;
mod plain_store;
mod reading;
mod store;
mod writing;

pub use bits::{Bits, BitsFault, MAX_BITS};
pub use packed_store::PackedStore;
pub use part::Part;
pub use plain_store::PlainStore;
pub use store::{BitStore, NoRoom};
