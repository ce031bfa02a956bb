//! Saved bytes, and hosts that are loaded from them.
use crate::table::{Seat, Table};
use ncp_host::Host;
use ncp_results::{DONE, load_code};
use std::alloc::{AllocError, Global};

impl Table {
    // The bytes that a host is saved as.
    fn save(
        &mut self,
        host: &Host<ncp_bits::PackedStore>,
        alloc: Global,
    ) -> Result<Vec<u8>, AllocError> {
        let bytes = host.save(alloc)?;
        if self.dice.one_in(16) && 0 < bytes.len() {
            let _short = self.dice.size(bytes.len() as u64);
        }
        Ok(bytes)
    }

    /// Mixes in whether there is a host, and the bytes that it is saved as.
    pub fn mix_saved(&mut self, host: &Seat, alloc: Global) -> Result<(), AllocError> {
        let Some(host) = host else {
            self.digest.mix_flag(false);
            return Ok(());
        };
        self.digest.mix_flag(true);
        let bytes = self.save(host, alloc)?;
        self.digest.mix(bytes.len() as u64);
        self.digest.mix_bytes(bytes.as_slice());
        Ok(())
    }

    // Spoils bytes at one place, or their number.
    fn spoil_once(&mut self, bytes: &mut Vec<u8>) -> Result<(), AllocError> {
        let len = bytes.len();
        if len == 0 {
            return Ok(());
        }
        let how = self.dice.pick(8);
        let at = self.dice.size(len as u64);
        match how {
            0..=2 => bytes[at] ^= 1 << self.dice.small(8),
            3 => bytes[at] = (self.dice.edge() & 255) as u8,
            4 if len - at >= 4 => {
                let number = self.dice.edge();
                bytes[at] = (number >> 24) as u8;
                bytes[at + 1] = (number >> 16 & 255) as u8;
                bytes[at + 2] = (number >> 8 & 255) as u8;
                bytes[at + 3] = (number & 255) as u8;
            }
            5 if len - at >= 2 => {
                let number = self.dice.edge();
                bytes[at] = (number >> 8 & 255) as u8;
                bytes[at + 1] = (number & 255) as u8;
            }
            6 => bytes.push(self.dice.byte())?,
            7 if at > 0 => {
                if self.dice.one_in(4) {
                    bytes.truncate(at);
                }
            }
            _ => {}
        }
        Ok(())
    }

    /// A host is loaded from the spoiled bytes of another, if they are a host.
    pub fn load(
        &mut self,
        from: &Seat,
        loaded: &mut Seat,
        alloc: Global,
    ) -> Result<(), AllocError> {
        let Some(from) = from else {
            return Ok(());
        };
        let mut bytes = self.save(from, alloc)?;
        let times = if self.dice.one_in(2) {
            1
        } else {
            1 + self.dice.pick(3)
        };
        for _ in 0..times {
            self.spoil_once(&mut bytes)?;
        }
        match Host::load(alloc, bytes.as_slice()) {
            Ok(host) => {
                self.digest.mix_code(DONE);
                *loaded = Some(host);
                self.mix_saved(loaded, alloc)
            }
            Err(fault) => {
                self.digest.mix_code(load_code(fault));
                Ok(())
            }
        }
    }
}
