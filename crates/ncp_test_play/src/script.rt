//! Lines in pieces, and lines read from a source.

mod lines;
mod reading;
