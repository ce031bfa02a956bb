//! Properties that no clause states: calls succeed, memory is allocated only when needed, and the
//! definitions mean the same as the worked examples.
//!
//! The helpers have no contracts: each checks by itself that its call may be made, so the prover
//! need not follow bits through a test. Only `pushes` has one, which the tests meet with constants.
ghost use Rattle.std.specs.Prelude.{◌<◌, ◌^◌};

use crate::known::{is_shown, is_told};
use crate::made::{bits_of_one, first_bits, is_written, part_of, run};
use ncp_bits::{
    BitStore, Bits, BitsFault, MAX_BITS, NoRoom, PackedStore, Part, PlainStore, equality, laws,
};
use std::alloc::{AllocError, Global};
use std::process::Abort;
use std::test::Fail;

// One 36-bit byte, 123456789, to host 2 on link 2: 108 bits.
const LONG_BYTE: [u8; 14] = [
    0x00, 0x02, 0x02, 0x00, 0x00, 0x24, 0x00, 0x01, 0x00, 0x12, 0x34, 0x56, 0x78, 0x90,
];

// The same with a spare bit set.
const SPARE: [u8; 14] = [
    0x00, 0x02, 0x02, 0x00, 0x00, 0x24, 0x00, 0x01, 0x00, 0x12, 0x34, 0x56, 0x78, 0x91,
];

// Numbers in the long byte: offset, width and value.
const NUMBERS: &[(usize, usize, u64)] = &[(40, 8, 36), (72, 36, 0x123456789)];

// The bits of the long byte.
fn long_byte(rt: &impl Abort) -> Bits {
    first_bits(rt, &LONG_BYTE, 108)
}

// The bits of a text of zeros and ones.
fn bits_in(rt: &impl Abort, text: &str) -> Bits {
    let mut bits = Bits::new();
    for digit in text.as_bytes() {
        assert!(rt; bits.push_number(u64::from(*digit == b'1'), 1).is_ok());
    }
    bits
}

// Whether a text of zeros and ones spells these bits.
fn is_spelled(bits: &Bits, text: &str) -> bool {
    let digits = text.as_bytes();
    if bits.len() != digits.len() {
        return false;
    }
    for place in 0..bits.len() {
        if bits.bit(place) != (digits[place] == b'1') {
            return false;
        }
    }
    true
}

// A run of a part's bits.
fn run_of<'a>(rt: &impl Abort, part: &Part<'a>, at: usize, len: usize) -> Part<'a> {
    assert!(rt; at <= part.len() && len <= part.len() - at);
    part.slice(at, len)
}

// Whether bits hold these numbers.
fn has_numbers(bits: &Bits, numbers: &[(usize, usize, u64)]) -> bool {
    for &(at, width, number) in numbers {
        if width > 64 || at > bits.len() || width > bits.len() - at {
            return false;
        }
        if bits.number(at, width) != number {
            return false;
        }
    }
    true
}

// Whether a part holds these numbers.
fn part_has_numbers(part: &Part<'_>, numbers: &[(usize, usize, u64)]) -> bool {
    for &(at, width, number) in numbers {
        if width > 64 || at > part.len() || width > part.len() - at {
            return false;
        }
        if part.number(at, width) != number {
            return false;
        }
    }
    true
}

// Whether a part has this bit at index `place`.
fn has_bit(part: &Part<'_>, place: usize, bit: bool) -> bool {
    place < part.len() && part.bit(place) == bit
}

// Whether there are `len` bits, written as these bytes, with the byte after them unchanged.
fn are_written(bits: &Bits, len: usize, bytes: &[u8]) -> bool {
    if bits.len() != len {
        return false;
    }
    let mut out = [0xffu8; 1025];
    let used = bits.to_bytes(&mut out);
    out[..used] == bytes[..] && out[used] == 0xff
}

// Whether the first bits of bytes are refused with this fault, as bits and as a part.
fn are_refused(bytes: &[u8], len: usize, fault: BitsFault) -> bool {
    Bits::from_bytes(bytes, len).err() == Some(fault)
        && Part::from_bytes(bytes, len).err() == Some(fault)
}

fn number_of(fault: BitsFault) -> u8 {
    fault as u8
}

// Whether a part equals the bits of the long byte.
fn is_long_byte(rt: &impl Abort, part: &Part<'_>) -> bool {
    *part == long_byte(rt).whole()
}

#[test]
fn reads_and_writes_bytes(rt: HostRuntime) {
    let bits = long_byte(&rt);
    assert!(rt;
        bits.len() == 108 && has_numbers(&bits, NUMBERS) && are_written(&bits, 108, &LONG_BYTE)
    );
}

// Sets `bits` to the first bits of bytes, or returns the fault.
fn becomes(bits: &mut Bits, bytes: &[u8], len: usize) -> Option<BitsFault> {
    bits.copy_from_bytes(bytes, len).err()
}

#[test]
fn takes_one_message_after_the_other(rt: HostRuntime) {
    const REFUSED: &[(usize, BitsFault)] = &[
        (12, BitsFault::SpareNotZero),
        (17, BitsFault::ShortBytes),
        (8193, BitsFault::TooLong),
    ];
    let mut bits = Bits::new();
    assert!(rt;
        becomes(&mut bits, &LONG_BYTE, 108).is_none()
            && becomes(&mut bits, b"\xa0\x7f", 4).is_none()
            && is_spelled(&bits, "1010")
    );
    for &(len, fault) in REFUSED {
        assert!(rt; becomes(&mut bits, b"\xa0\x7f", len) == Some(fault));
    }
    assert!(rt;
        is_spelled(&bits, "1010")
            && becomes(&mut bits, &LONG_BYTE, 108).is_none()
            && has_numbers(&bits, NUMBERS)
    );
}

#[test]
fn reads_bytes_where_they_stand(rt: HostRuntime) {
    const REFUSED: &[(usize, BitsFault)] = &[
        (105, BitsFault::SpareNotZero),
        (113, BitsFault::ShortBytes),
        (8193, BitsFault::TooLong),
    ];
    let part = part_of(&rt, &LONG_BYTE, 108);
    assert!(rt; part.len() == 108 && part_has_numbers(&part, NUMBERS) && is_long_byte(&rt, &part));
    for &(len, fault) in REFUSED {
        assert!(rt; are_refused(&LONG_BYTE, len, fault));
    }
}

#[test]
fn names_and_tells_faults_in_order(rt: HostRuntime) -> Result<(), Fail> {
    const REFUSED: &[(usize, BitsFault, u8, &str)] = &[
        (8193, BitsFault::TooLong, 1, "more than 8192 bits"),
        (
            113,
            BitsFault::ShortBytes,
            2,
            "fewer bytes than the bits take",
        ),
        (
            108,
            BitsFault::SpareNotZero,
            3,
            "a spare bit of the last byte is set",
        ),
    ];
    for &(len, fault, number, text) in REFUSED {
        assert!(rt;
            are_refused(&SPARE, len, fault)
                && number_of(fault) == number
                && is_told(rt.alloc(), &fault, text)?
        );
    }
    assert!(rt; is_told(rt.alloc(), &NoRoom, "no room for these bits")?);
    assert!(rt; bits_of_one(&rt, 0, 8192).len() == 8192);
    Ok(())
}

fn appends(bits: &mut Bits, part: Part<'_>) -> Option<BitsFault> {
    bits.append(part).err()
}

fn pushes(bits: &mut Bits, number: u64, width: usize) -> Option<BitsFault>
    requires { number < 2 ^ width }
{
    bits.push_number(number, width).err()
}

#[test]
fn appends_parts(rt: HostRuntime) {
    let row = long_byte(&rt);
    let mut bits = Bits::default();
    assert!(rt; bits.is_empty() && bits.whole().is_empty() && row.len() == 108);
    assert!(rt;
        appends(&mut bits, run(&rt, &row, 72, 36)).is_none()
            && pushes(&mut bits, 0b101, 3).is_none()
            && bits.len() == 39
            && has_numbers(&bits, &[(0, 39, 0x123456789 * 8 + 5)])
    );
}

#[test]
fn takes_one_part_after_the_other(rt: HostRuntime) {
    let row = long_byte(&rt);
    let mut bits = bits_in(&rt, "1010");
    bits.copy_from_part(row.whole());
    assert!(rt; bits == row);
    bits.copy_from_part(run(&rt, &row, 72, 8));
    assert!(rt; is_spelled(&bits, "00010010"));
}

#[test]
fn reads_parts(rt: HostRuntime) {
    const SECOND: &[(usize, usize, u64)] = &[(0, 8, 0x23)];
    let row = long_byte(&rt);
    let text = run(&rt, &row, 72, 36);
    assert!(rt;
        text.len() == 36
            && has_bit(&text, 3, true)
            && has_bit(&text, 4, false)
            && is_written(&text, 36, &LONG_BYTE[9..])
    );
    let second = run_of(&rt, &text, 4, 8);
    let copy = second.to_bits();
    assert!(rt; part_has_numbers(&second, SECOND) && has_numbers(&copy, SECOND));
}

// Whether a part can be borrowed as these bytes, or, for `None`, cannot be borrowed.
fn lends(part: &Part<'_>, bytes: Option<&[u8]>) -> bool {
    part.whole_bytes() == bytes
}

#[test]
fn lends_whole_bytes(rt: HostRuntime) {
    const ROWS: &[(usize, usize, Option<&[u8]>)] = &[
        (40, 32, Some(&[0x24, 0x00, 0x01, 0x00])),
        (40, 0, Some(&[])),
        (41, 32, None),
        (40, 31, None),
    ];
    let row = long_byte(&rt);
    assert!(rt; row.len() == 108);
    for &(at, len, bytes) in ROWS {
        assert!(rt; lends(&run(&rt, &row, at, len), bytes));
    }
}

#[test]
fn pads_wide_numbers(rt: HostRuntime) {
    const PADDED: &[(usize, usize, u64)] = &[
        (0, 9, 0b101_000_000),
        (9, 64, u64::MAX),
        (73, 60, 0),
        (133, 40, 6),
    ];
    const LAST: &[(usize, usize, u64)] = &[(8128, 64, 1)];
    let mut bits = bits_in(&rt, "101");
    assert!(rt;
        pushes(&mut bits, u64::MAX, 70).is_none()
            && pushes(&mut bits, 6, 100).is_none()
            && bits.len() == 173
            && has_numbers(&bits, PADDED)
    );
    assert!(rt;
        pushes(&mut bits, 0, 8192 - 172) == Some(BitsFault::TooLong)
            && bits.len() == 173
            && pushes(&mut bits, 1, 8192 - 173).is_none()
            && has_numbers(&bits, LAST)
    );
}

#[test]
fn refuses_what_does_not_fit(rt: HostRuntime) {
    let more = bits_in(&rt, "1");
    let mut bits = bits_of_one(&rt, 0, 8190);
    assert!(rt;
        pushes(&mut bits, 7, 3) == Some(BitsFault::TooLong)
            && pushes(&mut bits, 3, 2).is_none()
            && appends(&mut bits, more.whole()) == Some(BitsFault::TooLong)
            && bits.len() == 8192
    );
}

// Whether a store takes the bits of a text, or has no room for them.
fn puts<S: BitStore>(rt: &impl Abort, store: &mut S, text: &str) -> bool {
    store.put(bits_in(rt, text).whole()).is_ok()
}

// Takes the first bits from a store.
fn takes<S: BitStore>(rt: &impl Abort, store: &mut S, count: usize) -> Bits {
    assert!(rt; count <= store.len() && count <= MAX_BITS);
    store.take(count)
}

// A step of a store, with its expected result.
#[derive(Clone, Copy, Drop)]
enum Step<'a> {
    // The bits of a text are appended.
    Puts(&'a str),
    // There is no room for them.
    Refuses(&'a str),
    // The next bits taken are those of a text.
    Gives(&'a str),
    Clears,
    HasRoom(usize),
    HasLength(usize),
}

// Room for thirteen bits: filled, emptied in part and filled again, across every byte boundary.
const THIRTEEN: &[Step<'static>] = &[
    Step::Puts("1010101"),
    Step::Puts("110011"),
    Step::HasRoom(0),
    Step::Refuses("1"),
    Step::HasLength(13),
    Step::Gives("101"),
    Step::Puts("111"),
    Step::Gives("0101110011111"),
    Step::Puts("01"),
    Step::Clears,
    Step::HasRoom(13),
];

fn does<S: BitStore>(rt: &impl Abort, store: &mut S, step: &Step<'_>) -> bool {
    match step {
        Step::Puts(text) => puts(rt, store, text),
        Step::Refuses(text) => !puts(rt, store, text),
        Step::Gives(text) => is_spelled(&takes(rt, store, text.len()), text),
        Step::Clears => {
            store.clear();
            true
        }
        Step::HasRoom(room) => store.room() == *room,
        Step::HasLength(len) => store.len() == *len,
    }
}

// Runs steps on a store with this room.
fn keeps_bits<S: BitStore>(
    rt: &impl Abort,
    alloc: Global,
    room: usize,
    steps: &[Step<'_>],
) -> Result<(), AllocError> {
    let mut store = S::with_room(alloc, room)?;
    for (place, step) in steps.iter().enumerate() {
        assert!(rt; does(rt, &mut store, step), "at step {place}");
    }
    Ok(())
}

#[test]
fn stores_keep_bits(rt: HostRuntime) -> Result<(), Fail> {
    keeps_bits::<PlainStore>(&rt, rt.alloc(), 13, THIRTEEN)?;
    keeps_bits::<PackedStore>(&rt, rt.alloc(), 13, THIRTEEN)?;
    Ok(())
}

// The content of a store that was given the first `kept` bits of a row, and then `len` bits from
// `from` on.
fn put_together<S: BitStore>(
    rt: &impl Abort,
    alloc: Global,
    row: &Bits,
    kept: usize,
    from: usize,
    len: usize,
) -> Result<Bits, AllocError> {
    let mut store = S::with_room(alloc, 32)?;
    assert!(rt;
        store.put(run(rt, row, 0, kept)).is_ok()
            && store.put(run(rt, row, from, len)).is_ok()
            && store.len() <= 32
    );
    let all = store.len();
    Ok(takes(rt, &mut store, all))
}

// A part followed by another.
fn appended(rt: &impl Abort, one: Part<'_>, other: Part<'_>) -> Bits {
    let mut bits = one.to_bits();
    assert!(rt; appends(&mut bits, other).is_none());
    bits
}

// Whether both stores, and appended bits, hold the same after being given these.
fn appends_at(
    rt: &impl Abort,
    alloc: Global,
    row: &Bits,
    kept: usize,
    from: usize,
    len: usize,
) -> Result<bool, AllocError> {
    let plain = put_together::<PlainStore>(rt, alloc, row, kept, from, len)?;
    let packed = put_together::<PackedStore>(rt, alloc, row, kept, from, len)?;
    let bits = appended(rt, run(rt, row, 0, kept), run(rt, row, from, len));
    Ok(plain == packed && plain == bits)
}

// Every offset in a byte to append at, every offset to read from, and lengths on both sides of a
// byte boundary.
#[test]
fn appends_at_every_bit(rt: HostRuntime) -> Result<(), Fail> {
    const LENGTHS: &[usize] = &[0, 1, 7, 8, 9, 17];
    let row = long_byte(&rt);
    for kept in 0..9 {
        for from in 60..69 {
            for &len in LENGTHS {
                assert!(rt; appends_at(&rt, rt.alloc(), &row, kept, from, len)?);
            }
        }
    }
    Ok(())
}

// The bits of a part, read one by one.
fn one_by_one(rt: &impl Abort, part: &Part<'_>) -> Bits {
    let mut bits = Bits::new();
    for place in 0..part.len() {
        assert!(rt; bits.push_number(u64::from(part.bit(place)), 1).is_ok());
    }
    bits
}

// Whether a part is written as the same bytes as these bits.
fn has_bytes_of(rt: &impl Abort, part: &Part<'_>, bits: &Bits) -> bool {
    if part.len() != bits.len() {
        return false;
    }
    let mut out = [0xffu8; 1024];
    let used = part.to_bytes(&mut out);
    used == bits.len().div_ceil(8) && first_bits(rt, &out, bits.len()) == *bits
}

// Whether a part and bits of at most 64 are read as the same number.
fn has_number_of(part: &Part<'_>, bits: &Bits) -> bool {
    let len = part.len();
    len <= 64 && bits.len() == len && part.number(0, len) == bits.number(0, len)
}

// Whether a part has `len` bits and equals the bits read from it one by one.
fn is_read(rt: &impl Abort, part: &Part<'_>, len: usize) -> bool {
    let bits = one_by_one(rt, part);
    *part == bits.whole()
        && part.to_bits() == bits
        && bits.len() == len
        && has_number_of(part, &bits)
        && has_bytes_of(rt, part, &bits)
}

#[test]
fn reads_at_every_bit(rt: HostRuntime) {
    let row = long_byte(&rt);
    for from in 60..69 {
        for len in 0..40 {
            assert!(rt; is_read(&rt, &run(&rt, &row, from, len), len));
        }
    }
}

// Whether a part is appended to a store, and the same number of bits taken from it and appended to
// `out`.
fn passes<S: BitStore>(rt: &impl Abort, store: &mut S, part: Part<'_>, out: &mut Bits) -> bool {
    let len = part.len();
    if store.put(part).is_err() {
        return false;
    }
    appends(out, takes(rt, store, len).whole()).is_none()
}

// The bits taken from a store with room for 23 that holds seven while more pass through it.
fn pass_through<S: BitStore>(
    rt: &impl Abort,
    alloc: Global,
    row: &Bits,
) -> Result<Bits, AllocError> {
    let mut store = S::with_room(alloc, 23)?;
    let mut out = Bits::new();
    assert!(rt; store.put(run(rt, row, 0, 7)).is_ok());
    for from in 0..90 {
        assert!(rt; passes(rt, &mut store, run(rt, row, from, from % 17), &mut out));
    }
    assert!(rt; store.room() == 16);
    Ok(out)
}

#[test]
fn stores_pass_the_same_bits(rt: HostRuntime) -> Result<(), Fail> {
    let row = long_byte(&rt);
    let plain = pass_through::<PlainStore>(&rt, rt.alloc(), &row)?;
    let packed = pass_through::<PackedStore>(&rt, rt.alloc(), &row)?;
    assert!(rt; row.len() == 108 && plain == packed);
    Ok(())
}

// Sizes on both sides of the boundaries of a byte, of a word and of the largest store, and a large
// one.
const ROOMS: &[usize] = &[
    0, 1, 7, 8, 9, 63, 64, 65, 8192, 65535, 65536, 65537, 1_000_000,
];

// Appends a row to a store `times` times, or the part of it that there is room for.
fn fills<S: BitStore>(rt: &impl Abort, store: &mut S, times: usize, row: &Bits) {
    for _ in 0..times {
        let count = row.len().min(store.room());
        assert!(rt; store.put(run(rt, row, 0, count)).is_ok());
    }
}

// Whether an empty store has room for exactly `room` bits. Fills it.
fn is_filled<S: BitStore>(rt: &impl Abort, store: &mut S, room: usize, row: &Bits) -> bool {
    if store.room() != room || store.len() != 0 {
        return false;
    }
    fills(rt, store, room.div_ceil(row.len().max(1)), row);
    store.len() == room && !puts(rt, store, "1")
}

// Whether the appended bits are taken out again.
fn is_emptied<S: BitStore>(rt: &impl Abort, store: &mut S, room: usize, row: &Bits) -> bool {
    let count = room.min(row.len());
    let same = takes(rt, store, count).whole() == run(rt, row, 0, count);
    store.clear();
    same
}

// A store has room for exactly `room` bits, and for as many after they are taken out.
fn fills_and_empties<S: BitStore>(
    rt: &impl Abort,
    alloc: Global,
    room: usize,
    row: &Bits,
) -> Result<(), AllocError> {
    let mut store = S::with_room(alloc, room)?;
    for _ in 0..2 {
        assert!(rt; is_filled(rt, &mut store, room, row) && is_emptied(rt, &mut store, room, row));
    }
    Ok(())
}

#[test]
fn stores_have_each_room(rt: HostRuntime) -> Result<(), Fail> {
    let row = bits_of_one(&rt, 0x5a, 8191);
    for &room in ROOMS {
        fills_and_empties::<PlainStore>(&rt, rt.alloc(), room, &row)?;
        fills_and_empties::<PackedStore>(&rt, rt.alloc(), room, &row)?;
    }
    Ok(())
}

// A copy of an empty store, and one of a full store, have its room and its bits.
fn copies<S: BitStore>(
    rt: &impl Abort,
    alloc: Global,
    room: usize,
    row: &Bits,
) -> Result<(), AllocError> {
    let mut store = S::with_room(alloc, room)?;
    assert!(rt; is_filled(rt, &mut store.copy(alloc)?, room, row));
    assert!(rt; is_filled(rt, &mut store, room, row));
    let mut copy = store.copy(alloc)?;
    assert!(rt; copy.len() == room && copy.room() == 0 && is_emptied(rt, &mut copy, room, row));
    Ok(())
}

#[test]
fn stores_of_each_room_are_copied(rt: HostRuntime) -> Result<(), Fail> {
    let row = bits_of_one(&rt, 0x5a, 8191);
    for &room in ROOMS {
        copies::<PlainStore>(&rt, rt.alloc(), room, &row)?;
        copies::<PackedStore>(&rt, rt.alloc(), room, &row)?;
    }
    Ok(())
}

// Whether the text of a row compares equal, as a part, to the same text at offset 3 of a copy.
fn are_parts_compared(rt: &impl Abort, row: &Bits, copy: &Bits) -> bool {
    let text = run(rt, row, 72, 36);
    let same = run(rt, copy, 3, 36);
    same == text
        && equality::equal_parts(&text, &same)
        && run(rt, copy, 3, 35) != text
        && run(rt, copy, 2, 36) != text
}

// The same as bits.
fn are_bits_compared(rt: &impl Abort, row: &Bits, copy: &Bits) -> bool {
    let text = run(rt, row, 72, 36).to_bits();
    let same = run(rt, copy, 3, 36).to_bits();
    same == text
        && *copy != text
        && equality::equal_bits(row, row)
        && !equality::equal_bits(row, copy)
}

#[test]
fn compares_bits_wherever_they_lie(rt: HostRuntime) {
    let row = long_byte(&rt);
    let text = run(&rt, &row, 72, 36);
    let mut copy = bits_in(&rt, "101");
    assert!(rt;
        row.len() == 108
            && appends(&mut copy, run_of(&rt, &text, 0, 36)).is_none()
            && copy.len() == 39
            && are_parts_compared(&rt, &row, &copy)
            && are_bits_compared(&rt, &row, &copy)
    );
}

#[test]
fn compares_short_bits_and_refusals(rt: HostRuntime) {
    assert!(rt; bits_in(&rt, "0") != bits_in(&rt, "00"));
    assert!(rt; Bits::new() == Bits::default());
    assert!(rt;
        equality::equal_bits_faults(BitsFault::TooLong, BitsFault::TooLong)
            && equality::equal_no_room(NoRoom, NoRoom)
    );
}

// Whether the bits of a text are shown as these digits.
fn are_shown(
    rt: &impl Abort,
    alloc: Global,
    digits: &str,
    shown: &str,
) -> Result<bool, AllocError> {
    is_shown(alloc, &bits_in(rt, digits), shown)
}

#[test]
fn shows_bits(rt: HostRuntime) -> Result<(), Fail> {
    const SHOWN: &[(&str, &str)] = &[
        ("101", "bits=3 a0"),
        ("0000010100001", "bits=13 0508"),
        ("", "bits=0 "),
    ];
    for &(digits, shown) in SHOWN {
        assert!(rt; are_shown(&rt, rt.alloc(), digits, shown)?);
    }
    let row = long_byte(&rt);
    let text = run(&rt, &row, 72, 36);
    assert!(rt; row.len() == 108 && is_shown(rt.alloc(), &text, "bits=36 1234567890")?);
    Ok(())
}

#[test]
fn states_laws(_rt: HostRuntime) {
    ncp_numbers::laws::numbers_are_bits();
    ncp_numbers::laws::bytes_are_bits();
    laws::bytes_are_read();
    laws::bits_faults_are_in_order();
    laws::bits_limits_are_these();
}
