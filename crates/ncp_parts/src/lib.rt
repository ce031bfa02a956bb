//! Handles for other languages: a pointer that is null or that of a `Box`, which C or the page
//! stores and passes back.
//!
//! ```text
//! let Parts { ptr, alloc } = Parts::of(boxed);
//! let boxed = Parts { ptr, alloc }.into_box();
//! ```
//!
//! An exported function cannot take a generic struct, so each handle is a struct of its own in its
//! crate; what it owns is `owned_if_any` of `specs/Owning.antt`.
//!
//! - *Proved:* taken apart and made again, the box has its value (`Parts::of`, `Parts::into_box`).
//! - *Tests:* those of the handles, in C and in the page.
#![tactic(auto)]

mod parts;

pub use parts::Parts;
