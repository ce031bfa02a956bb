//! Properties that no clause states: the definitions mean the same as the worked examples, and
//! callers can use the contracts.
ghost use Rattle.std.specs.Prelude.{◌≡◌, ◌*◌, ◌≤◌, ◌%◌, ◌++◌, length, OnOk, IfOk};
ghost use Rattle.ncp_numbers.specs.Bytes.{bytes_of};
ghost use Rattle.ncp_control.specs.Reading.{commands_in, fault_in};

use crate::known::is_told;
use ncp_bits::{Bits, Part};
use ncp_control::{Commands, find_fault, laws};
use ncp_wire::{
    Command, CommandFault, ERRONEOUS_PARAMETERS, ILLEGAL_OPCODE, NONEXISTENT_SOCKET,
    SHORT_PARAMETER_SPACE, SOCKET_NOT_CONNECTED, equality, error_for, put_command,
};
use std::alloc::AllocError;
use std::process::Abort;
use std::test::Fail;

// RTS(receive 2, send 3, link 2) and the matching STR of size 8.
const RTS_ROW: [u8; 10] = [0x01, 0x00, 0x00, 0x00, 0x02, 0x00, 0x00, 0x00, 0x03, 0x02];

const STR_ROW: [u8; 10] = [0x02, 0x00, 0x00, 0x00, 0x03, 0x00, 0x00, 0x00, 0x02, 0x08];

// The bits of these bytes.
fn text_of(rt: &impl Abort, bytes: &[u8]) -> Bits
    ensures { length result ≡ 8 * length bytes.now }
{
    assert!(rt; bytes.len() <= 1024);
    Bits::from_bytes(bytes, 8 * bytes.len()).expect(rt, "whole bytes")
}

// Whether the next command of a text, or its fault, is this.
fn gives(items: &mut Commands<'_>, item: Option<Result<Command, CommandFault>>) -> bool {
    items.next() == item
}

// Whether the next commands of a text are these.
fn gives_each(items: &mut Commands<'_>, commands: &[Command]) -> bool {
    for command in commands {
        if !gives(items, Some(Ok(*command))) {
            return false;
        }
    }
    true
}

// Whether the fault of a text is next, if `fault` is one.
fn gives_fault(items: &mut Commands<'_>, fault: Option<CommandFault>) -> bool {
    match fault {
        Some(fault) => gives(items, Some(Err(fault))),
        None => true,
    }
}

// Checks that bytes decode as these commands, then the fault, then nothing, and that the fault is
// also found directly. Without a contract, like `is_spelled`, so that the prover need not follow
// texts through a test.
fn is_read(rt: &impl Abort, bytes: &[u8], commands: &[Command], fault: Option<CommandFault>) {
    let text = text_of(rt, bytes);
    let mut items = Commands::new(text.whole());
    assert!(rt; gives_each(&mut items, commands) && gives_fault(&mut items, fault));
    assert!(rt;
        gives(&mut items, None) && gives(&mut items, None) && find_fault(&text.whole()) == fault
    );
}

// Checks that a command is encoded as these bytes, and they decode as it.
fn is_spelled(rt: &impl Abort, command: Command, bytes: &[u8]) {
    assert!(rt; put_command(&command).as_slice() == bytes);
    is_read(rt, bytes, &[command], None);
}

// The bytes of each command.
const SPELLED: &[(Command, &[u8])] = &[
    (Command::Nop, &[0]),
    (
        Command::Rts {
            receive: 2,
            send: 3,
            link: 2,
        },
        &RTS_ROW,
    ),
    (
        Command::Str {
            send: 3,
            receive: 2,
            size: 8,
        },
        &STR_ROW,
    ),
    (
        Command::Cls { my: 3, your: 2 },
        &[3, 0, 0, 0, 3, 0, 0, 0, 2],
    ),
    (
        Command::Cls {
            my: 0x01020304,
            your: 0xfffefdfc,
        },
        &[3, 1, 2, 3, 4, 0xff, 0xfe, 0xfd, 0xfc],
    ),
    (
        Command::All {
            link: 2,
            messages: 1,
            bits: 0,
        },
        &[4, 2, 0, 1, 0, 0, 0, 0],
    ),
    (
        Command::All {
            link: 71,
            messages: 0x1234,
            bits: 0x56789abc,
        },
        &[4, 71, 0x12, 0x34, 0x56, 0x78, 0x9a, 0xbc],
    ),
    (
        Command::Gvb {
            link: 2,
            fm: 64,
            fb: 1,
        },
        &[5, 2, 64, 1],
    ),
    (
        Command::Ret {
            link: 2,
            messages: 3,
            bits: 8,
        },
        &[6, 2, 0, 3, 0, 0, 0, 8],
    ),
    (Command::Inr { link: 2 }, &[7, 2]),
    (Command::Ins { link: 71 }, &[8, 71]),
    (Command::Eco { byte: 65 }, &[9, 0x41]),
    (Command::Erp { byte: 65 }, &[10, 0x41]),
    (
        Command::Err {
            code: 5,
            bytes: [6, 9, 0, 0, 0, 0, 0, 0, 0, 0],
        },
        &[11, 5, 6, 9, 0, 0, 0, 0, 0, 0, 0, 0],
    ),
    (Command::Rst, &[12]),
    (Command::Rrp, &[13]),
];

#[test]
fn spells_each_command(rt: HostRuntime) {
    for &(command, bytes) in SPELLED {
        is_spelled(&rt, command, bytes);
    }
}

#[test]
fn reads_texts_up_to_their_faults(rt: HostRuntime) {
    const ILLEGAL: CommandFault = CommandFault {
        code: 1,
        bytes: [0x0e, 0, 0, 0, 0, 0, 0, 0, 0, 0],
    };
    const EARLY: CommandFault = CommandFault {
        code: 2,
        bytes: [0x04, 0x02, 0, 0, 0, 0, 0, 0, 0, 0],
    };
    const BEFORE: &[Command] = &[Command::Nop, Command::Eco { byte: 0x41 }];
    // The bytes after an illegal opcode are data, although they could be decoded: ten bytes of it.
    const ILLEGAL_WITH_DATA: CommandFault = CommandFault {
        code: 1,
        bytes: [0xff, 12, 13, 0, 9, 65, 0, 0, 0, 1],
    };
    // A command that lacks its last byte, at the end of a text.
    const LAST_BYTE_MISSING: CommandFault = CommandFault {
        code: 2,
        bytes: [11, 1, 2, 3, 4, 5, 6, 7, 8, 9],
    };
    const OPCODE_ALONE: CommandFault = CommandFault {
        code: 2,
        bytes: [5, 0, 0, 0, 0, 0, 0, 0, 0, 0],
    };
    const ROWS: &[(&[u8], &[Command], Option<CommandFault>)] = &[
        (&[], &[], None),
        (&[0x0e, 0x00], &[], Some(ILLEGAL)),
        (&[0x04, 0x02, 0x00], &[], Some(EARLY)),
        (&[0x00, 0x09, 0x41, 0x0e], BEFORE, Some(ILLEGAL)),
        (
            &[12, 0xff, 12, 13, 0, 9, 65, 0, 0, 0, 1, 2, 3],
            &[Command::Rst],
            Some(ILLEGAL_WITH_DATA),
        ),
        (
            &[13, 11, 1, 2, 3, 4, 5, 6, 7, 8, 9, 10],
            &[Command::Rrp],
            Some(LAST_BYTE_MISSING),
        ),
        (&[7, 2, 5], &[Command::Inr { link: 2 }], Some(OPCODE_ALONE)),
    ];
    for &(bytes, commands, fault) in ROWS {
        is_read(&rt, bytes, commands, fault);
    }
    is_read(&rt, &[0; 991], &[Command::Nop; 991], None);
}

// The number of commands and faults in a text.
fn count_items(rt: &impl Abort, text: &Bits) -> usize {
    assert!(rt; text.len() % 8 == 0);
    let mut items = Commands::new(text.whole());
    items.by_ref().count()
}

#[test]
fn reads_the_longest_text(rt: HostRuntime) {
    let longest = text_of(&rt, &[0; 1024]);
    assert!(rt;
        count_commands(longest.whole()) == 1024
            && fault_of_text(longest.whole()) == None
            && count_items(&rt, &longest) == 1024
    );
}

// The number of commands in a control text.
fn count_commands(text: Part<'_>) -> usize
    requires whole { length text % 8 ≡ 0 }
    requires short { length text ≤ 8192 }
    ensures { result ≡ length (commands_in (bytes_of text.entry)) }
{
    let mut count = 0;
    for item in Commands::new(text) {
        if item.is_ok() {
            count += 1;
        }
    }
    count
}

// Appends the commands of a control text up to its fault, and returns the fault.
fn push_commands(
    commands: &mut Vec<Command>,
    text: Part<'_>,
) -> Result<Option<CommandFault>, AllocError>
    requires { length text % 8 ≡ 0 }
    ensures commands { OnOk result (commands.new.items ≡ commands.old.items ++ commands_in (bytes_of text.entry)) }
    ensures fault { IfOk result (λ fault. fault ≡ fault_in (bytes_of text.entry)) }
{
    for item in Commands::new(text) {
        match item {
            Ok(command) => commands.push(command)?,
            Err(fault) => return Ok(Some(fault)),
        }
    }
    Ok(None)
}

#[test]
fn appends_commands(rt: HostRuntime) -> Result<(), Fail> {
    let text = text_of(&rt, &[0x00, 0x09, 0x41, 0x0e]);
    let mut commands = Vec::new(rt.alloc());
    let fault = push_commands(&mut commands, text.whole())?;
    assert!(rt;
        fault.is_some()
            && commands.as_slice() == [Command::Nop, Command::Eco { byte: 0x41 }].as_slice()
    );
    Ok(())
}

// The fault of a control text.
fn fault_of_text(text: Part<'_>) -> Option<CommandFault>
    requires { length text % 8 ≡ 0 }
    ensures { result ≡ fault_in (bytes_of text.entry) }
{
    for item in Commands::new(text) {
        if let Err(fault) = item {
            return Some(fault);
        }
    }
    None
}

#[test]
fn counts_commands_and_finds_faults(rt: HostRuntime) {
    const ILLEGAL: CommandFault = CommandFault {
        code: 1,
        bytes: [0x0e, 0, 0, 0, 0, 0, 0, 0, 0, 0],
    };
    let text = text_of(&rt, &[0x00, 0x09, 0x41, 0x0e]);
    assert!(rt; count_commands(text.whole()) == 2 && fault_of_text(text.whole()) == Some(ILLEGAL));
}

// Whether a command is answered with this ERR, which has this code.
fn is_answered(code: u8, command: &Command, answer: &Command) -> bool {
    error_for(code, command) == *answer
}

#[test]
fn makes_errors(rt: HostRuntime) {
    const ALL: Command = Command::All {
        link: 2,
        messages: 1,
        bits: 0,
    };
    const ANSWER: Command = Command::Err {
        code: 3,
        bytes: [4, 2, 0, 1, 0, 0, 0, 0, 0, 0],
    };
    const RET: Command = Command::Ret {
        link: 9,
        messages: 0,
        bits: 0,
    };
    const NOT_CONNECTED: Command = Command::Err {
        code: 5,
        bytes: [6, 9, 0, 0, 0, 0, 0, 0, 0, 0],
    };
    const NESTED: Command = Command::Err {
        code: SOCKET_NOT_CONNECTED,
        bytes: [11, 3, 4, 2, 0, 1, 0, 0, 0, 0],
    };
    assert!(rt;
        is_answered(ERRONEOUS_PARAMETERS, &ALL, &ANSWER)
            && is_answered(SOCKET_NOT_CONNECTED, &RET, &NOT_CONNECTED)
            && is_answered(5, &ANSWER, &NESTED)
    );
    assert!(rt; ILLEGAL_OPCODE == 1 && SHORT_PARAMETER_SPACE == 2 && NONEXISTENT_SOCKET == 4);
}

#[test]
fn tells_faults(rt: HostRuntime) -> Result<(), Fail> {
    const FAULT: CommandFault = CommandFault {
        code: 2,
        bytes: [0; 10],
    };
    let text = "a control text has a fault of code 2";
    assert!(rt; is_told(rt.alloc(), &FAULT, text)?);
    Ok(())
}

#[test]
fn states_laws(_rt: HostRuntime) {
    laws::spellings_are_distinct();
    laws::texts_have_one_reading();
    laws::spelled_commands_are_read();
    laws::errors_are_commands();
    laws::faults_are_distinguished();
    ncp_wire::laws::command_limits_are_these();
}

#[test]
fn compares_commands_and_faults(rt: HostRuntime) {
    const INS: Command = Command::Ins { link: 2 };
    const EARLY: CommandFault = CommandFault {
        code: SHORT_PARAMETER_SPACE,
        bytes: [0; 10],
    };
    const ILLEGAL: CommandFault = CommandFault {
        code: ILLEGAL_OPCODE,
        bytes: [0; 10],
    };
    assert!(rt;
        equality::equal_commands(&INS, &INS)
            && !equality::equal_commands(&INS, &Command::Inr { link: 2 })
            && !equality::equal_commands(&INS, &Command::Ins { link: 3 })
            && equality::equal_command_faults(&EARLY, &EARLY)
            && !equality::equal_command_faults(&EARLY, &ILLEGAL)
    );
}
