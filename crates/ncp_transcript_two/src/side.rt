//! `Side`.

/// A side of a world: a name for the number of a host.
#[derive(Clone, Copy, Debug, Drop)]
pub enum Side {
    A,
    B,
}
