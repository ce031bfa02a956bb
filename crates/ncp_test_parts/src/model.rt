//! Properties that no clause states: the definitions mean the same as the worked rows.
use crate::known::is_told;
use ncp_model::{
    CallFault, GIVE_BACK_PARTS, Heard, MAX_AMOUNT, MAX_BY_PEER, MAX_CALLED, MAX_CONTROL, MAX_COUNT,
    MAX_ERRORS, MAX_MESSAGES, MAX_OWN, MAX_ROOM, MAX_TEXT, MAX_WAITING, Pair, Took, give_back,
};
use ncp_wire::{Command, FIRST_LINK, LAST_LINK};
use std::test::Fail;

#[test]
fn gives_back_in_128ths_rounded_up(rt: HostRuntime) {
    const ROWS: &[(u32, u8, u32)] = &[
        (1_000, 0, 0),
        (1_000, 1, 8),
        (5, 128, 5),
        (5, 255, 5),
        (65_535, 64, 32_768),
        (4_294_967_295, 1, 33_554_432),
        (5, 64, 3),
        (2, 200, 2),
    ];
    for &(counter, fraction, back) in ROWS {
        assert!(rt;
            give_back(counter, fraction) == back,
            "{counter} at {fraction}"
        );
    }
}

#[test]
fn numbers_and_names_refusals(rt: HostRuntime) -> Result<(), Fail> {
    const ROWS: &[(CallFault, u8, &str, &str)] = &[
        (CallFault::UnknownPeer, 1, "UnknownPeer", "no such peer"),
        (CallFault::NotUp, 2, "NotUp", "not up with this peer"),
        (
            CallFault::BadSex,
            3,
            "BadSex",
            "a socket of the wrong sex for this call",
        ),
        (CallFault::BadSize, 4, "BadSize", "a byte of no bits"),
        (
            CallFault::BadRoom,
            5,
            "BadRoom",
            "a store of fewer than 1 or more than 65536 bits",
        ),
        (CallFault::NoEntry, 6, "NoEntry", "no such connection"),
        (
            CallFault::AlreadyAsked,
            7,
            "AlreadyAsked",
            "already asked for",
        ),
        (CallFault::Closing, 8, "Closing", "being closed"),
        (CallFault::NotOpen, 9, "NotOpen", "not open"),
        (
            CallFault::WrongEnd,
            10,
            "WrongEnd",
            "the wrong end for this call",
        ),
        (
            CallFault::NotWhole,
            11,
            "NotWhole",
            "not a whole number of bytes",
        ),
        (CallFault::Busy, 12, "Busy", "an answer is still due"),
        (CallFault::NoRoom, 13, "NoRoom", "no room in the store"),
        (
            CallFault::TooMuch,
            14,
            "TooMuch",
            "more than the store or a counter can take",
        ),
        (
            CallFault::TableFull,
            15,
            "TableFull",
            "no place for another request",
        ),
        (
            CallFault::QueueFull,
            16,
            "QueueFull",
            "no place for another command",
        ),
        (CallFault::OutOfMemory, 17, "OutOfMemory", "out of memory"),
    ];
    for &(fault, number, name, text) in ROWS {
        assert!(rt;
            fault.number() == number && fault.name() == name && is_told(rt.alloc(), &fault, text)?
        );
    }
    Ok(())
}

// Whether a pair of these sockets sends here, receives here, or neither.
fn is_judged(local: u32, remote: u32, sends: bool, receives: bool) -> bool {
    let pair = Pair::new(local, remote);
    pair.local == local
        && pair.remote == remote
        && pair.sends() == sends
        && pair.receives() == receives
        && pair.is_proper() == (sends || receives)
        && pair.counterpart() == Pair::new(remote, local)
}

#[test]
fn tells_which_end_a_pair_is(rt: HostRuntime) {
    const ROWS: &[(u32, u32, bool, bool)] = &[
        (3, 2, true, false),
        (2, 3, false, true),
        (3, 5, false, false),
        (2, 4, false, false),
    ];
    for &(local, remote, sends, receives) in ROWS {
        assert!(rt;
            is_judged(local, remote, sends, receives),
            "{local} {remote}"
        );
    }
}

#[test]
fn has_the_limits_of_the_profile(rt: HostRuntime) {
    const ROWS: &[(u64, u64)] = &[
        (FIRST_LINK as u64, 2),
        (LAST_LINK as u64, 71),
        (MAX_TEXT as u64, 7928),
        (MAX_CONTROL as u64, 120),
        (MAX_WAITING as u64, 512),
        (MAX_CALLED as u64, 256),
        (MAX_OWN as u64, 64),
        (MAX_BY_PEER as u64, 64),
        (MAX_ROOM as u64, 65_536),
        (MAX_ERRORS as u64, 16),
        (MAX_MESSAGES as u64, 65_535),
        (MAX_AMOUNT as u64, 4_294_967_295),
        (MAX_COUNT as u64, 4_294_967_295),
        (GIVE_BACK_PARTS as u64, 128),
    ];
    for &(limit, number) in ROWS {
        assert!(rt; limit == number);
    }
}

#[test]
fn names_what_a_command_gave(rt: HostRuntime) {
    const ROWS: &[(Heard, &str)] = &[
        (Heard::Nothing, "nothing"),
        (Heard::Reply(Command::Erp { byte: 65 }), "reply"),
        (Heard::Late, "late"),
        (Heard::Full, "full"),
    ];
    for &(heard, name) in ROWS {
        assert!(rt; heard.name() == name);
    }
}

#[test]
fn names_what_became_of_a_text(rt: HostRuntime) {
    const ROWS: &[(Took, &str)] = &[
        (Took::Admitted, "admitted"),
        (Took::Late, "late"),
        (Took::WrongSize, "wrong-size"),
        (Took::Over, "over"),
        (Took::NotOpen, "not-open"),
    ];
    for &(took, name) in ROWS {
        assert!(rt; took.name() == name);
    }
}
