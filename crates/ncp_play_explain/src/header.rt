//! What is wrong with the header of a message file.
ghost use Rattle.std.specs.Prelude.{◌≡◌, IfOk};
ghost use Rattle.std.specs.String.{string_bytes};
ghost use Rattle.ncp_play_explain.specs.Bytes.{hex_glyphs};
ghost use Rattle.ncp_play_explain.specs.Headers.{beginning, is_hexadecimal, is_pcap, is_pcapng, header_printed, message_header_printed};

use std::alloc::{AllocError, Global};

// The letters that a message file begins with.
const WANTED: &str = "a message file begins with the letters NCPH, NCPI or NCPJ";

/// A byte in two hexadecimal digits.
pub(crate) fn in_hexadecimal(alloc: Global, byte: u8) -> Result<String, AllocError>
    ensures { IfOk result (λ text. string_bytes text ≡ hex_glyphs byte) }
{
    format!(in alloc; "{byte:02x}")
}

// Whether bytes are a prefix of hexadecimal text, as in a dump of a file.
fn is_hexadecimal(head: &[u8]) -> bool
    ensures { result ≡ is_hexadecimal head.now }
{
    head.iter().all(|byte| byte.is_ascii_hexdigit() || byte.is_ascii_whitespace() || *byte == b'#')
}

// The explanation of an unknown file by its first four bytes.
fn beginning(alloc: Global, one: u8, two: u8, three: u8, four: u8) -> Result<String, AllocError>
    ensures { IfOk result (λ text. string_bytes text ≡ beginning one two three four) }
{
    let one = in_hexadecimal(alloc, one)?;
    let two = in_hexadecimal(alloc, two)?;
    let three = in_hexadecimal(alloc, three)?;
    let four = in_hexadecimal(alloc, four)?;
    format!(in alloc; "it begins with the bytes {one} {two} {three} {four}: {WANTED}")
}

// Whether bytes begin a packet capture in the format pcapng.
fn is_pcapng(head: &[u8]) -> bool
    ensures { result ≡ is_pcapng head.now }
{
    head.starts_with(&[0x0a, 0x0d, 0x0d, 0x0a])
}

// Whether bytes begin a packet capture in the format pcap: times in microseconds or in nanoseconds,
// in either byte order.
fn is_pcap(head: &[u8]) -> bool
    ensures { result ≡ is_pcap head.now }
{
    head.starts_with(&[0xa1, 0xb2, 0xc3, 0xd4])
        || head.starts_with(&[0xd4, 0xc3, 0xb2, 0xa1])
        || head.starts_with(&[0xa1, 0xb2, 0x3c, 0x4d])
        || head.starts_with(&[0x4d, 0x3c, 0xb2, 0xa1])
}

// What is wrong with a header that begins no packet capture.
fn wrong_message_header(alloc: Global, head: &[u8]) -> Result<String, AllocError>
    ensures output { IfOk result (λ text. string_bytes text ≡ message_header_printed head.now) }
{
    if head.is_empty() {
        return format!(in alloc; "the file is empty: {WANTED}");
    }
    if head.starts_with(b"host ") {
        return format!(in alloc; "this is a script of one host: ncp host plays it");
    }
    if head.starts_with(b"hosts ") || head.starts_with(b"many ") {
        return format!(in alloc; "this is a script of several hosts: ncp world plays it");
    }
    if is_hexadecimal(head) {
        return format!(in alloc;
            "this is hexadecimal text; 'xxd -r -p' makes bytes of it: {WANTED}"
        );
    }
    match head {
        [one, two, three, four, ..] => beginning(alloc, *one, *two, *three, *four),
        _ => {
            let count = head.len();
            format!(in alloc; "there are {count} bytes: {WANTED}")
        }
    }
}

/// What is wrong with the header of a message file that is `BadHeader`, given its first bytes.
pub fn wrong_header(alloc: Global, head: &[u8]) -> Result<String, AllocError>
    ensures output { IfOk result (λ text. string_bytes text ≡ header_printed head.now) }
{
    if is_pcapng(head) {
        return format!(in alloc;
            "this is a pcapng, a capture of network packets: wireshark/messages makes a message file of it"
        );
    }
    if is_pcap(head) {
        return format!(in alloc;
            "this is a pcap, a capture of network packets: wireshark/messages makes a message file of it"
        );
    }
    wrong_message_header(alloc, head)
}
