//! Properties that no clause states: the definitions mean the same as the worked examples, calls
//! succeed, and the texts and numbers of the faults.
//!
//! The helpers have no contracts: each checks by itself that its call may be made, so the prover
//! need not follow messages through a test.
use crate::known::{is_shown, is_told};
use crate::made::{bits_of_one, first_bits, is_written, part_of, run};
use ncp_bits::{Bits, BitsFault, Part};
use ncp_leader::{
    Leader, MAX_FLAGS, MAX_KIND, MAX_TEXT_BITS, MessageFault, Regular, Short, equality, laws,
    put_leader, put_regular, read_leader, read_leader_in, read_regular, read_regular_in,
};
use std::process::Abort;
use std::test::Fail;

// RTS(receive 2, send 3, link 2) to host 2: 152 bits.
const RTS: [u8; 19] = [
    0x00, 0x02, 0x00, 0x00, 0x00, 0x08, 0x00, 0x0a, 0x00, 0x01, 0x00, 0x00, 0x00, 0x02, 0x00, 0x00,
    0x00, 0x03, 0x02,
];

const RTS_LEADER: Leader = Leader {
    flags: 0,
    kind: 0,
    host: 2,
    link: 0,
    low: 0,
};

// One 36-bit byte, 123456789, to host 2 on link 2: 108 bits.
const LONG_BYTE: [u8; 14] = [
    0x00, 0x02, 0x02, 0x00, 0x00, 0x24, 0x00, 0x01, 0x00, 0x12, 0x34, 0x56, 0x78, 0x90,
];

const DATA_LEADER: Leader = Leader {
    flags: 0,
    kind: 0,
    host: 2,
    link: 2,
    low: 0,
};

// The message in these bits.
fn message_in<'a>(rt: &impl Abort, bits: &'a Bits) -> Regular<'a> {
    read_regular(bits).expect(rt, "a message")
}

// The fault of bits that are no message.
fn fault_of(bits: &Bits) -> Option<MessageFault> {
    read_regular(bits).err()
}

// Whether a leader is written as these bytes.
fn is_leader_written(leader: &Leader, bytes: &[u8]) -> bool {
    leader.flags <= MAX_FLAGS
        && leader.kind <= MAX_KIND
        && is_written(&put_leader(leader).whole(), 32, bytes)
}

// Whether a message has this byte at index `place`.
fn has_byte(message: &Regular<'_>, place: u16, byte: u8) -> bool {
    place < message.count() && is_written(&message.byte(place), 8, &[byte])
}

// Whether a message has this text.
fn has_text(message: &Regular<'_>, text: &Bits) -> bool {
    message.text() == text.whole()
}

// Whether a message is the RTS.
fn is_rts(message: &Regular<'_>) -> bool {
    message.leader() == RTS_LEADER
        && message.size() == 8
        && message.count() == 10
        && is_written(&message.text(), 80, &RTS[9..])
}

// Whether a part is the RTS, and begins with its leader.
fn is_rts_in(part: &Part<'_>) -> bool {
    if read_leader_in(part) != Ok(RTS_LEADER) {
        return false;
    }
    match read_regular_in(part) {
        Ok(message) => is_rts(&message),
        Err(_) => false,
    }
}

// The encoding of a text, after the leader of the long byte.
fn put(size: u8, text: Part<'_>) -> Result<Bits, MessageFault> {
    put_regular(&DATA_LEADER, size, text)
}

// The fault of the RTS with two bytes of its prefix changed.
fn fault_of_both(one: usize, byte: u8, other: usize, another: u8) -> Option<MessageFault> {
    let mut bytes = RTS;
    if one < 19 && other < 19 {
        bytes[one] = byte;
        bytes[other] = another;
    }
    let bits = Bits::from_bytes(&bytes, 152).ok()?;
    read_regular(&bits).err()
}

// The encoding of the RTS's text.
fn rts_written(rt: &impl Abort) -> Bits {
    let text = first_bits(rt, &RTS[9..], 80);
    put_regular(&RTS_LEADER, 8, text.whole()).expect(rt, "a message")
}

#[test]
fn reads_and_writes_the_rts(rt: HostRuntime) {
    let bits = first_bits(&rt, &RTS, 152);
    let message = message_in(&rt, &bits);
    assert!(rt;
        is_rts_in(&bits.whole()) && read_leader(&bits) == Ok(RTS_LEADER) && is_rts(&message)
    );
    assert!(rt;
        has_byte(&message, 0, 0x01)
            && has_byte(&message, 4, 0x02)
            && has_byte(&message, 8, 0x03)
            && has_byte(&message, 9, 0x02)
    );
    let written = rts_written(&rt);
    assert!(rt;
        is_written(&written.whole(), 152, &RTS)
            && is_leader_written(&RTS_LEADER, &[0x00, 0x02, 0x00, 0x00])
    );
}

// Three bits, a part and one bit.
fn amid(rt: &impl Abort, part: Part<'_>) -> Bits {
    let mut bits = Bits::new();
    bits.push_number(5, 3).expect(rt, "room");
    bits.append(part).expect(rt, "room");
    bits.push_number(1, 1).expect(rt, "room");
    bits
}

#[test]
fn reads_the_rts_where_it_stands(rt: HostRuntime) {
    let part = part_of(&rt, &RTS, 152);
    assert!(rt; is_rts_in(&part));
    // In the middle of other bits.
    let bits = amid(&rt, part);
    let fault = read_regular_in(&run(&rt, &bits, 3, 151)).err();
    assert!(rt;
        is_rts_in(&run(&rt, &bits, 3, 152))
            && read_leader_in(&run(&rt, &bits, 3, 31)) == Err(Short)
            && fault == Some(MessageFault::TextMissing)
    );
}

#[test]
fn reads_and_writes_a_long_byte(rt: HostRuntime) {
    let bits = first_bits(&rt, &LONG_BYTE, 108);
    let text = first_bits(&rt, &LONG_BYTE[9..], 36);
    let message = message_in(&rt, &bits);
    assert!(rt;
        message.leader() == DATA_LEADER
            && message.size() == 36
            && message.count() == 1
            && has_text(&message, &text)
    );
}

#[test]
fn writes_a_long_byte(rt: HostRuntime) {
    let text = first_bits(&rt, &[0x12, 0x34, 0x56, 0x78, 0x90], 36);
    let written = put(36, text.whole()).expect(&rt, "a message");
    assert!(rt; is_written(&written.whole(), 108, &LONG_BYTE));
}

#[test]
fn refuses_a_spare_bit(rt: HostRuntime) {
    let mut spare = LONG_BYTE;
    spare[13] = 0x91;
    assert!(rt; matches!(Bits::from_bytes(&spare, 108), Err(BitsFault::SpareNotZero)));
}

#[test]
fn reads_every_field_of_a_leader(rt: HostRuntime) {
    const LEADER: Leader = Leader {
        flags: 1,
        kind: 3,
        host: 2,
        link: 10,
        low: 5,
    };
    const FULL: Leader = Leader {
        flags: 15,
        kind: 15,
        host: 255,
        link: 255,
        low: 255,
    };
    let bytes = [0x13, 0x02, 0x0a, 0x05];
    assert!(rt; read_leader(&first_bits(&rt, &bytes, 32)) == Ok(LEADER));
    assert!(rt; is_leader_written(&LEADER, &bytes) && is_leader_written(&FULL, &[0xff; 4]));
}

// The RTS with one or two bytes of its prefix changed, and the first of its faults.
#[test]
fn names_the_first_fault(rt: HostRuntime) {
    const ROWS: &[(usize, u8, usize, u8, Option<MessageFault>)] = &[
        (0, 0xff, 0, 0xff, None),
        (4, 0x01, 4, 0x01, Some(MessageFault::M1NotZero)),
        (4, 0x80, 4, 0x80, Some(MessageFault::M1NotZero)),
        (5, 0x00, 5, 0x00, Some(MessageFault::SizeZero)),
        (8, 0x01, 8, 0x01, Some(MessageFault::M2NotZero)),
        (8, 0x80, 8, 0x80, Some(MessageFault::M2NotZero)),
        (7, 0x0b, 7, 0x0b, Some(MessageFault::TextMissing)),
        (6, 0xff, 6, 0xff, Some(MessageFault::TextMissing)),
        (4, 1, 5, 0, Some(MessageFault::M1NotZero)),
        (8, 1, 4, 1, Some(MessageFault::M1NotZero)),
        (7, 11, 4, 1, Some(MessageFault::M1NotZero)),
        (8, 1, 5, 0, Some(MessageFault::SizeZero)),
        (5, 0, 7, 11, Some(MessageFault::SizeZero)),
        (7, 11, 8, 1, Some(MessageFault::M2NotZero)),
    ];
    for &(one, byte, other, another, fault) in ROWS {
        assert!(rt; fault_of_both(one, byte, other, another) == fault);
    }
}

// The RTS, and four bits of padding.
fn padded(rt: &impl Abort) -> Bits {
    let mut bits = first_bits(rt, &RTS, 152);
    bits.push_number(0b1000, 4).expect(rt, "room");
    bits
}

#[test]
fn looks_at_no_padding(rt: HostRuntime) {
    let bits = padded(&rt);
    assert!(rt; bits.len() == 156 && is_rts_in(&bits.whole()) && is_rts(&message_in(&rt, &bits)));
}

// Whether the first `len` bits of the RTS give the leader and the fault for that length.
fn is_judged_cut(rt: &impl Abort, bits: &Bits, len: usize) -> bool {
    let cut = run(rt, bits, 0, len).to_bits();
    let leader = if len < 32 { Err(Short) } else { Ok(RTS_LEADER) };
    let fault = if len < 72 {
        MessageFault::ShortPrefix
    } else {
        MessageFault::TextMissing
    };
    read_leader(&cut) == leader && fault_of(&cut) == Some(fault)
}

#[test]
fn judges_a_message_cut_anywhere(rt: HostRuntime) {
    let bits = first_bits(&rt, &RTS, 152);
    for len in 0..152 {
        assert!(rt; is_judged_cut(&rt, &bits, len), "at {len}");
    }
    let short = first_bits(
        &rt,
        &[0x00, 0x02, 0x00, 0x00, 0x01, 0x08, 0x00, 0x0a, 0x00],
        71,
    );
    assert!(rt; fault_of(&short) == Some(MessageFault::ShortPrefix));
}

// A leader and a prefix with this low byte of the count, followed by 1,015 bytes of 8 bits.
fn longest(rt: &impl Abort, low: u8) -> Bits {
    let front = [0x00, 0x02, 0x02, 0x00, 0x00, 0x08, 0x03, low, 0x00];
    let mut bits = first_bits(rt, &front, 72);
    for _ in 0..1015 {
        bits.push_number(0xa5, 8).expect(rt, "room");
    }
    bits
}

#[test]
fn reads_a_message_of_8192_bits(rt: HostRuntime) {
    let bits = longest(&rt, 0xf7);
    let text = bits_of_one(&rt, 0xa5, 8120);
    let message = message_in(&rt, &bits);
    assert!(rt;
        bits.len() == 8192
            && message.count() == 1015
            && has_text(&message, &text)
            && has_byte(&message, 1014, 0xa5)
    );
    assert!(rt; fault_of(&longest(&rt, 0xf8)) == Some(MessageFault::TextMissing));
}

// The encoded length of a text of zeros, and the number of bytes decoded from it.
fn put_zeros(rt: &impl Abort, size: u8, len: usize) -> Result<(usize, u16), MessageFault> {
    let written = put(size, bits_of_one(rt, 0, len).whole())?;
    Ok((written.len(), read_regular(&written)?.count()))
}

#[test]
fn writes_up_to_7928_bits_of_text_or_refuses_in_order(rt: HostRuntime) {
    // The byte size in bits, the length in bits, and the encoded length in bits with the number of
    // bytes decoded, or the fault.
    const ROWS: &[(u8, usize, Result<(usize, u16), MessageFault>)] = &[
        (8, MAX_TEXT_BITS, Ok((8000, 991))),
        (1, MAX_TEXT_BITS, Ok((8000, 7928))),
        (1, 7929, Err(MessageFault::TextTooLong)),
        (0, 12, Err(MessageFault::SizeZero)),
        (0, 7929, Err(MessageFault::SizeZero)),
        (8, 7929, Err(MessageFault::TextTooLong)),
        (3, 7929, Err(MessageFault::TextTooLong)),
        (8, 12, Err(MessageFault::NotWhole)),
        (255, 12, Err(MessageFault::NotWhole)),
    ];
    assert!(rt; MAX_TEXT_BITS == 7928);
    for &(size, len, outcome) in ROWS {
        assert!(rt; put_zeros(&rt, size, len) == outcome);
    }
}

// Whether a message has 31 bytes of 255 bits, the last one equal to the first 255 of these bits.
fn has_largest_bytes(rt: &impl Abort, message: &Regular<'_>, bits: &Bits) -> bool {
    message.size() == 255
        && message.count() == 31
        && message.text().len() == 7905
        && 30 < message.count()
        && message.byte(30) == run(rt, bits, 0, 255)
}

#[test]
fn writes_the_largest_bytes(rt: HostRuntime) {
    let ones = bits_of_one(&rt, 0xff, 8000);
    let written = put(255, run(&rt, &ones, 0, 7905)).expect(&rt, "a message");
    assert!(rt; written.len() == 7977 && has_largest_bytes(&rt, &message_in(&rt, &written), &ones));
}

#[test]
fn writes_and_reads_an_empty_text(rt: HostRuntime) {
    const EMPTY: [u8; 9] = [0x00, 0x02, 0x02, 0x00, 0x00, 0x08, 0x00, 0x00, 0x00];
    let written = put(8, Bits::new().whole()).expect(&rt, "a message");
    let message = message_in(&rt, &written);
    assert!(rt;
        is_written(&written.whole(), 72, &EMPTY)
            && message.size() == 8
            && message.count() == 0
            && message.text().is_empty()
    );
}

fn number_of(fault: MessageFault) -> u8 {
    fault as u8
}

#[test]
fn tells_faults(rt: HostRuntime) -> Result<(), Fail> {
    const TOLD: &[(u8, MessageFault, &str, &str)] = &[
        (
            1,
            MessageFault::ShortPrefix,
            "ShortPrefix",
            "shorter than leader and prefix",
        ),
        (
            2,
            MessageFault::M1NotZero,
            "M1NotZero",
            "the eight bits before the byte size are not zero",
        ),
        (
            3,
            MessageFault::SizeZero,
            "SizeZero",
            "the byte size is zero",
        ),
        (
            4,
            MessageFault::M2NotZero,
            "M2NotZero",
            "the eight bits after the byte count are not zero",
        ),
        (
            5,
            MessageFault::TextMissing,
            "TextMissing",
            "the text is shorter than byte size and byte count say",
        ),
        (
            6,
            MessageFault::TextTooLong,
            "TextTooLong",
            "more than 7928 bits of text",
        ),
        (
            7,
            MessageFault::NotWhole,
            "NotWhole",
            "the text is no whole number of bytes",
        ),
    ];
    for &(number, fault, name, text) in TOLD {
        assert!(rt;
            number_of(fault) == number && fault.name() == name && is_told(rt.alloc(), &fault, text)?
        );
    }
    assert!(rt; is_told(rt.alloc(), &Short, "shorter than a leader")?);
    Ok(())
}

// The RTS with another link.
fn changed(rt: &impl Abort) -> Bits {
    let mut bytes = RTS;
    bytes[18] = 3;
    first_bits(rt, &bytes, 152)
}

#[test]
fn compares_messages(rt: HostRuntime) {
    let bits = first_bits(&rt, &RTS, 152);
    let padded = padded(&rt);
    let changed = changed(&rt);
    let message = message_in(&rt, &bits);
    let same = message_in(&rt, &padded);
    assert!(rt;
        message == same
            && message != message_in(&rt, &changed)
            && equality::equal_messages(&message, &same)
    );
}

#[test]
fn compares_leaders_and_faults(rt: HostRuntime) {
    assert!(rt;
        equality::equal_leaders(&RTS_LEADER, &RTS_LEADER)
            && !equality::equal_leaders(&RTS_LEADER, &DATA_LEADER)
            && !equality::equal_message_faults(MessageFault::SizeZero, MessageFault::NotWhole)
            && equality::equal_short(Short, Short)
    );
}

#[test]
fn shows_messages(rt: HostRuntime) -> Result<(), Fail> {
    const SHOWN: &str =
        "Regular { leader: Leader { flags: 0, kind: 0, host: 2, link: 2, low: 0 }, size: 36, count: 1, text: bits=36 1234567890 }";
    let bits = first_bits(&rt, &LONG_BYTE, 108);
    assert!(rt; is_shown(rt.alloc(), &message_in(&rt, &bits), SHOWN)?);
    Ok(())
}

#[test]
fn states_laws(_rt: HostRuntime) {
    laws::bits_stand_for_one();
    laws::written_is_read();
    laws::read_stands();
    laws::whole_bytes_make_a_message();
    laws::types_are_numbered();
    laws::message_faults_are_in_order();
    laws::fields_have_places();
    laws::message_limits_are_these();
}
