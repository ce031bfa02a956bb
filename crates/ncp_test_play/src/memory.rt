//! With ample memory lines are read, and mistakes explained: with the shortest message or text, with
//! one between, and with the longest of a line.
use crate::texts::{joined, repeated};
use ncp_play_explain::{Player, wrong_first_line, wrong_header, wrong_line};
use ncp_play_script::{MAX_LINE, TwoHosts, Words, call, host_line};
use ncp_play_world_lines::{many_line, world_line};
use std::alloc::{AllocError, Global};
use std::process::Abort;
use std::test::Fail;

/// The number of bits of a message, and of bytes.
const MESSAGES: &[(&[u8], u32)] = &[(b"0", 0), (b"4096 ", 512), (b"8192 ", 1024)];

/// The lengths of texts.
const LENGTHS: [u32; 4] = [0, 1, 100, MAX_LINE as u32];

/// A message as a line has it: the word for its number of bits, and its bytes.
fn message_of(alloc: Global, bits: &[u8], bytes: u32) -> Result<Vec<u8>, AllocError> {
    let mut message = Vec::new(alloc);
    message.extend_from_slice(bits)?;
    message.extend_from_slice(&repeated(alloc, b"5a", bytes)?)?;
    Ok(message)
}

/// Whether the readers of calls and of lines accept this message.
fn are_read(alloc: Global, message: &[u8]) -> Result<bool, AllocError> {
    let give = joined(alloc, &[b"give 2 3 2 ", message])?;
    let received = joined(alloc, &[b"in ", message])?;
    let of_two = joined(alloc, &[b"a give 3 2 ", message])?;
    let of_three = joined(alloc, &[b"1 give 2 3 2 ", message])?;
    let hosts = TwoHosts { a: 1, b: 2 };
    Ok(
        call(alloc, &mut Words::new(&give), None)?.is_some()
            && host_line(alloc, &mut Words::new(&received), &[2])?.is_some()
            && world_line(alloc, hosts, &mut Words::new(&of_two))?.is_some()
            && many_line(alloc, &[1, 2, 3], &mut Words::new(&of_three))?.is_some(),
    )
}

#[test]
fn has_memory_for_messages(rt: HostRuntime) -> Result<(), Fail> {
    for (bits, bytes) in MESSAGES {
        let message = message_of(rt.alloc(), bits, *bytes)?;
        assert!(rt; are_read(rt.alloc(), &message)?, "{bytes} bytes");
    }
    Ok(())
}

/// Whether a text is explained as a first line, as a header, and as a line.
fn are_explained(alloc: Global, text: &[u8]) -> Result<bool, AllocError> {
    for player in [Player::Host, Player::World] {
        if wrong_first_line(alloc, player, text)?.is_empty()
            || wrong_line(alloc, player, b"host 1 2", text)?.is_empty()
        {
            return Ok(false);
        }
    }
    Ok(!wrong_header(alloc, text)?.is_empty())
}

#[test]
fn has_memory_for_explanations(rt: HostRuntime) -> Result<(), Fail> {
    for len in LENGTHS {
        let text = repeated(rt.alloc(), b"x", len)?;
        assert!(rt; are_explained(rt.alloc(), &text)?, "{len} bytes");
    }
    Ok(())
}
