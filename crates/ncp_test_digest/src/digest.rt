//! `Digest`.
use ncp_bits::Bits;
use ncp_model::CallFault;
use ncp_results::{DONE, NO_HOST, fault_code};

/// A digest of numbers.
#[derive(Drop)]
pub struct Digest {
    value: u64,
}

impl Digest {
    pub fn new() -> Self {
        Digest {
            value: 14_695_981_039_346_656_037,
        }
    }

    pub fn value(&self) -> u64 {
        self.value
    }

    pub fn mix(&mut self, number: u64) {
        self.value = (self.value ^ number).wrapping_mul(1_099_511_628_211);
    }

    pub fn mix_code(&mut self, code: u32) {
        self.mix(u64::from(code));
    }

    pub fn mix_flag(&mut self, flag: bool) {
        self.mix(u64::from(flag));
    }

    pub fn mix_flags(&mut self, flags: &[bool]) {
        for flag in flags {
            self.mix_flag(*flag);
        }
    }

    pub fn mix_numbers(&mut self, numbers: &[u32]) {
        for number in numbers {
            self.mix_code(*number);
        }
    }

    /// Mixes in bytes, each as a number.
    pub fn mix_bytes(&mut self, bytes: &[u8]) {
        for byte in bytes {
            self.mix(u64::from(*byte));
        }
    }

    /// Mixes in the code of success, and bytes with their number of bits.
    pub fn mix_text(&mut self, bytes: &[u8]) {
        self.mix_code(DONE);
        self.mix((bytes.len() as u64).wrapping_mul(8));
        self.mix_bytes(bytes);
    }

    /// Mixes in the code of success, and bits as their number and their bytes.
    pub fn mix_bits(&mut self, bits: &Bits) {
        let mut bytes = [0; 1024];
        self.mix_code(DONE);
        self.mix(bits.len() as u64);
        let used = bits.to_bytes(&mut bytes);
        self.mix_bytes(&bytes[..used]);
    }

    /// Mixes in the code of an answer, and returns what it has. There is no answer without a host.
    pub fn mix_answer<T>(&mut self, answer: Option<Result<T, CallFault>>) -> Option<T> {
        match answer {
            Some(Ok(it)) => {
                self.mix_code(DONE);
                Some(it)
            }
            Some(Err(fault)) => {
                self.mix_code(fault_code(fault));
                None
            }
            None => {
                self.mix_code(NO_HOST);
                None
            }
        }
    }
}
