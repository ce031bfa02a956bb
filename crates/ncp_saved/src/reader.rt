//! `Reader`: reads bytes from the front.
ghost use Rattle.std.specs.Prelude.{◌≡◌, ◌==◌, ◌+◌, ◌≤◌, ◌<◌, ◌^◌, ◌++◌, ◌∷◌, [], List, Bool, ℕ, length, get_or, IfOk, Ok};
ghost use Rattle.std.specs.Result.{IsOkAnd};
ghost use Rattle.ncp_numbers.specs.Bytes.{bytes_of};
ghost use Rattle.ncp_saved.specs.Values.{two_bytes, four_bytes, mark, bits_saved, command_saved, error_saved};
ghost use Rattle.ncp_bits.specs.declared.bits.TheConstants.{MAX_BITS};
ghost use Rattle.ncp_model.specs.declared.outcomes.Error.{Error};
ghost use Rattle.ncp_wire.specs.declared.command.Command.{Command};
ghost use Rattle.ncp_wire.specs.declared.command.TheConstants.{ERROR_DATA};
ghost use Rattle.ncp_wire.specs.Spelling.{IsCommand, spelling};
ghost use Rattle.ncp_saved.specs.Reading.{ReadsBack, HasItsData};

use ncp_bits::{BitStore, Bits, MAX_BITS, Part};
use ncp_control::Commands;
use ncp_model::Error;
use ncp_wire::opcodes::ERR;
use ncp_wire::{Command, ERROR_DATA, LONGEST_COMMAND, put_command};
use std::alloc::AllocError;
use std::marker::Model;

/// The reasons why reading fails.
#[derive(Clone, Copy, Debug, Drop, PartialEq, Eq)]
pub enum Unread {
    /// The bytes do not encode a host.
    NotAHost,
    /// An allocation failed.
    OutOfMemory,
}

impl From<AllocError> for Unread {
    ghost use Rattle.std.specs.Prelude.{◌≡◌};
    ghost use Rattle.ncp_saved.specs.declared.reader.Unread.{Unread};

    ghost from_gives = { λ _ e. e ≡ Unread.OutOfMemory };

    fn from(_error: AllocError) -> Self {
        Unread::OutOfMemory
    }
}

/// The number of bytes that are put into a store at once.
const CHUNK: usize = MAX_BITS / 8;

/// The bytes that are left to read.
#[derive(Drop)]
pub struct Reader<'a> {
    bytes: &'a [u8],
}

impl<'a> Model for Reader<'a> {
    ghost use Rattle.std.specs.Prelude.{ℕ, List};

    ghost Value = { List ℕ };

    ghost view = { λ reader. reader.bytes.now };
}

impl<'a> Reader<'a> {
    /// Starts at the first of these bytes.
    pub fn new(bytes: &'a [u8]) -> Self
        ensures { result ≡ bytes.now }
    {
        Reader { bytes }
    }

    /// Reads the next `count` bytes.
    pub fn take(&mut self, count: usize) -> Result<&'a [u8], Unread>
        ensures bytes { (front rest : List ℕ) → length front ≡ count → self.old ≡ front ++ rest
            → IsOkAnd result (λ bytes. bytes.now ≡ front) × (self.new ≡ rest) }
        ensures count { IfOk result (λ bytes. length bytes.now ≡ count) }
    {
        let bytes = self.bytes;
        if count > bytes.len() {
            return Err(Unread::NotAHost);
        }
        self.bytes = &bytes[count..];
        Ok(&bytes[..count])
    }

    /// Reads a one-byte number.
    pub fn byte(&mut self) -> Result<u8, Unread>
        ensures reads { ReadsBack (λ byte. byte ∷ []) self.old result self.new }
    {
        let bytes = self.bytes;
        if bytes.is_empty() {
            return Err(Unread::NotAHost);
        }
        self.bytes = &bytes[1..];
        Ok(bytes[0])
    }

    /// Reads a flag: 1 if it is set.
    pub fn mark(&mut self) -> Result<bool, Unread>
        ensures reads { ReadsBack (λ set. mark set ∷ []) self.old result self.new }
    {
        Ok(self.byte()? == 1)
    }

    /// Reads a two-byte number.
    pub fn two_bytes(&mut self) -> Result<u16, Unread>
        ensures reads { ReadsBack two_bytes self.old result self.new }
    {
        Ok(u16::from_be_bytes([self.byte()?, self.byte()?]))
    }

    /// Reads a four-byte number.
    pub fn four_bytes(&mut self) -> Result<u32, Unread>
        ensures reads { ReadsBack four_bytes self.old result self.new }
    {
        let high = self.two_bytes()?;
        let low = self.two_bytes()?;
        Ok(65536 * u32::from(high) + u32::from(low))
    }

    /// Reads an error: its code, the number of bytes of its data, and the data.
    #[tactic(auto, unfolding(crate::specs::Values::error_saved))]
    pub fn error(&mut self) -> Result<Error, Unread>
        ensures reads { (error : Error) (rest : List ℕ) → length error.bytes ≡ ERROR_DATA
            → self.old ≡ error_saved error ++ rest → (result ≡ Ok error) × (self.new ≡ rest) }
    {
        let code = self.byte()?;
        let _count = self.byte()?;
        let mut bytes = [0; ERROR_DATA];
        bytes.copy_from_slice(self.take(ERROR_DATA)?);
        Ok(Error { code, bytes })
    }

    /// Reads the bits of a message.
    #[tactic(auto, unfolding(crate::specs::Values::bits_saved))]
    pub fn message(&mut self) -> Result<Bits, Unread>
        ensures reads { (bits : List Bool) (rest : List ℕ) → length bits ≤ MAX_BITS
            → self.old ≡ bits_saved bits ++ rest → (result ≡ Ok bits) × (self.new ≡ rest) }
    {
        let len = self.four_bytes()? as usize;
        let bytes = self.take(len.div_ceil(8))?;
        let Ok(bits) = Bits::from_bytes(bytes, len) else {
            return Err(Unread::NotAHost);
        };
        Ok(bits)
    }

    /// Reads stored bits into an empty store.
    #[tactic(auto, unfolding(crate::specs::Values::bits_saved))]
    pub fn stored<S: BitStore>(&mut self, store: &mut S) -> Result<(), Unread>
        ensures reads { (bits : List Bool) (rest : List ℕ) → S.held store.old ≡ []
            → length bits ≤ S.capacity store.old → self.old ≡ bits_saved bits ++ rest
            → (result ≡ Ok tt) × (S.held store.new ≡ bits) × (self.new ≡ rest) }
        ensures capacity { S.capacity store.new ≡ S.capacity store.old }
    {
        let mut left = self.four_bytes()? as usize;
        while left > MAX_BITS {
            put_bits(store, self.take(CHUNK)?, MAX_BITS)?;
            left -= MAX_BITS;
        }
        put_bits(store, self.take(left.div_ceil(8))?, left)
    }

    /// Reads a command: its spelling; of an ERR, its opcode and then an error.
    pub fn command(&mut self) -> Result<Command, Unread>
        ensures reads { (command : Command) (rest : List ℕ) → HasItsData command
            → self.old ≡ command_saved command ++ rest → (result ≡ Ok command) × (self.new ≡ rest) }
    {
        if is_error(self.bytes) {
            self.byte()?;
            let Error { code, bytes } = self.error()?;
            return Ok(Command::Err { code, bytes });
        }
        self.other_command()
    }

    // Reads a command that is no ERR.
    fn other_command(&mut self) -> Result<Command, Unread>
        ensures reads { (command : Command) (rest : List ℕ) → IsCommand command
            → self.old ≡ spelling command ++ rest → (result ≡ Ok command) × (self.new ≡ rest) }
    {
        let bytes = self.bytes;
        let count = bytes.len().min(LONGEST_COMMAND);
        let command = first_command(&bytes[..count])?;
        self.take(put_command(&command).len())?;
        Ok(command)
    }
}

// Whether the first of some bytes is the opcode of an ERR.
fn is_error(bytes: &[u8]) -> bool
    ensures first { (first : ℕ) (rest : List ℕ) → bytes.now ≡ first ∷ rest → result ≡ (first == 11) }
    ensures bytes { (k : ℕ) → get_or bytes.now k 0 < 256 }
{
    !bytes.is_empty() && bytes[0] == ERR
}

// Puts the first `count` bits of bytes into a store.
fn put_bits<S: BitStore>(store: &mut S, bytes: &[u8], count: usize) -> Result<(), Unread>
    ensures puts { (bits : List Bool) → count ≡ length bits → count ≤ MAX_BITS
        → length (S.held store.old) + length bits ≤ S.capacity store.old → bytes.now ≡ bytes_of bits
        → (result ≡ Ok tt) × (S.held store.new ≡ S.held store.old ++ bits) }
    ensures capacity { S.capacity store.new ≡ S.capacity store.old }
{
    let Ok(part) = Part::from_bytes(bytes, count) else {
        return Err(Unread::NotAHost);
    };
    match store.put(part) {
        Ok(()) => Ok(()),
        Err(_full) => Err(Unread::NotAHost),
    }
}

// The command with which bytes start.
fn first_command(bytes: &[u8]) -> Result<Command, Unread>
    requires { length bytes.now ≤ LONGEST_COMMAND }
    ensures reads { (command : Command) (rest : List ℕ) → IsCommand command → bytes.now ≡ spelling command ++ rest
        → result ≡ Ok command }
{
    let Ok(text) = Part::from_bytes(bytes, 8 * bytes.len()) else {
        return Err(Unread::NotAHost);
    };
    match Commands::new(text).next() {
        Some(Ok(command)) => Ok(command),
        Some(Err(_fault)) => Err(Unread::NotAHost),
        None => Err(Unread::NotAHost),
    }
}
