//! The explanations of a file's header.

use ncp_play_explain::wrong_header;
use std::process::Abort;
use std::test::Fail;

#[test]
fn each_wrong_header_has_its_answer(rt: HostRuntime) -> Result<(), Fail> {
    const ROWS: &[(&[u8], &str)] = &[
        (
            b"",
            "the file is empty: a message file begins with the letters NCPH, NCPI or NCPJ",
        ),
        (
            b"NC",
            "there are 2 bytes: a message file begins with the letters NCPH, NCPI or NCPJ",
        ),
        (
            b"host 1 2\n",
            "this is a script of one host: ncp host plays it",
        ),
        (
            b"hosts 1 2\n",
            "this is a script of several hosts: ncp world plays it",
        ),
        (
            b"many 1 2 3\n",
            "this is a script of several hosts: ncp world plays it",
        ),
        (
            b"# a\n4E435048\n0020",
            "this is hexadecimal text; 'xxd -r -p' makes bytes of it: a message file begins with the letters NCPH, NCPI or NCPJ",
        ),
        (
            b"\x0a\x0d\x0d\x0a\x1c\x00\x00\x00",
            "this is a pcapng, a capture of network packets: wireshark/messages makes a message file of it",
        ),
        (
            b"\x0a\x0d\x0d\x0a",
            "this is a pcapng, a capture of network packets: wireshark/messages makes a message file of it",
        ),
        (
            b"\xa1\xb2\xc3\xd4\x00\x02",
            "this is a pcap, a capture of network packets: wireshark/messages makes a message file of it",
        ),
        (
            b"\xd4\xc3\xb2\xa1\x02\x00",
            "this is a pcap, a capture of network packets: wireshark/messages makes a message file of it",
        ),
        (
            b"\xa1\xb2\x3c\x4d",
            "this is a pcap, a capture of network packets: wireshark/messages makes a message file of it",
        ),
        (
            b"\x4d\x3c\xb2\xa1",
            "this is a pcap, a capture of network packets: wireshark/messages makes a message file of it",
        ),
        (
            b"\x0a\x0d\x0d",
            "this is hexadecimal text; 'xxd -r -p' makes bytes of it: a message file begins with the letters NCPH, NCPI or NCPJ",
        ),
        (
            b"NCPK\x00",
            "it begins with the bytes 4e 43 50 4b: a message file begins with the letters NCPH, NCPI or NCPJ",
        ),
    ];
    for (head, text) in ROWS {
        let told = wrong_header(rt.alloc(), head)?;
        assert!(rt; told.as_str() == *text, "{told}");
    }
    Ok(())
}
