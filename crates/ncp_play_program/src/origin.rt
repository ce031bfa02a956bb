//! `Origin`: the input of the program.
ghost use Rattle.std.specs.Prelude.{◌≡◌};

use std::io::{self, Read};

/// The input of the program.
#[derive(Drop)]
pub(crate) enum Origin<I, F> {
    /// Standard input.
    Standard(I),
    /// The file that the command line names.
    Named(F),
}

impl<I: Read, F: Read> Read for Origin<I, F> {
    fn read(&mut self, buf: &mut [u8]) -> io::Result<usize> {
        match self {
            Origin::Standard(input) => input.read(buf),
            Origin::Named(file) => file.read(buf),
        }
    }
}
