//! Following a regular message: its commands, or its text.
ghost use Rattle.std.specs.Prelude.{◌≡◌, ◌≤◌, ◌%◌, Ok, length};
ghost use Rattle.ncp_follow.specs.Followed.{after_command, end_of_reset, ends_reset, heard_after, tables_after, session_after, session_after_all, tables_after_all, is_text_opened, text_tables, text_session, read_session, read_tables};
ghost use Rattle.ncp_interface.specs.Contents.{message_class, items_said};

use crate::connection::EndReason;
use crate::observation::Observation;
use crate::session::Session;
use crate::tables::Tables;
use ncp_bits::Part;
use ncp_control::Commands;
use ncp_interface::{MessageClass, Request, class_of};
use ncp_leader::Regular;
use ncp_wire::{Command, CommandFault};

// Follows a command other than RST and RRP that counts.
fn apply_command(observation: &Observation, command: &Command, tables: &mut Tables)
    ensures { tables.new ≡ after_command observation.now command.now tables.old }
{
    match *command {
        Command::Rts {
            receive,
            send,
            link,
        } => tables.ask(observation, receive, send, Request::Link(link)),
        Command::Str {
            send,
            receive,
            size,
        } => tables.ask(observation, receive, send, Request::Size(size)),
        Command::Cls { my, your } => tables.close(observation, my, your),
        Command::All {
            link,
            messages,
            bits,
        } => tables.grant(observation, link, u32::from(messages), bits),
        Command::Ret {
            link,
            messages,
            bits,
        } => tables.give_back(observation, link, u32::from(messages), bits),
        Command::Nop
        | Command::Gvb { .. }
        | Command::Inr { .. }
        | Command::Ins { .. }
        | Command::Eco { .. }
        | Command::Erp { .. }
        | Command::Err { .. }
        | Command::Rst
        | Command::Rrp => {}
    }
}

// How an RST ends connections.
fn end_of_reset(sent: bool) -> EndReason
    ensures { result ≡ end_of_reset sent }
{
    if sent {
        EndReason::ResetSent
    } else {
        EndReason::ResetCame
    }
}

// Follows a command other than RST and RRP.
fn hear_other(observation: &Observation, command: &Command, session: Session, tables: &mut Tables)
    ensures { tables.new ≡ heard_after observation.now command.now session tables.old }
{
    if session.is_heard(observation.sent) {
        apply_command(observation, command, tables);
    }
}

// Follows a command.
fn hear_command(
    observation: &Observation,
    command: &Command,
    session: Session,
    tables: &mut Tables,
) -> Session
    ensures session { result ≡ session_after observation.now (Ok command.now) session }
    ensures tables { tables.new ≡ tables_after observation.now (Ok command.now) session tables.old }
{
    match *command {
        Command::Rst => {
            tables.clear(observation, end_of_reset(observation.sent));
            session.after_reset(observation.sent)
        }
        Command::Rrp => {
            if !observation.sent && session.host_waits {
                tables.clear(observation, EndReason::ReplyCame);
            }
            session.after_reply(observation.sent)
        }
        _ => {
            hear_other(observation, command, session, tables);
            session
        }
    }
}

// Follows an item of a control text.
fn hear_item(
    observation: &Observation,
    item: &Result<Command, CommandFault>,
    session: Session,
    tables: &mut Tables,
) -> Session
    ensures session { result ≡ session_after observation.now item.now session }
    ensures tables { tables.new ≡ tables_after observation.now item.now session tables.old }
{
    match item {
        Ok(command) => hear_command(observation, command, session, tables),
        Err(_) => session,
    }
}

// Follows the items of a control text.
fn hear_items(
    observation: &Observation,
    text: Part<'_>,
    session: Session,
    tables: &mut Tables,
) -> Session
    requires { length text % 8 ≡ 0 }
    ensures session { result ≡ session_after_all observation.now (items_said text.entry) session }
    ensures tables { tables.new ≡ tables_after_all observation.now (items_said text.entry) session tables.old }
{
    let mut session = session;
    for item in Commands::new(text) {
        session = hear_item(observation, &item, session, tables);
    }
    session
}

// Follows a text, of a connection or of none.
fn hear_text(
    observation: &Observation,
    regular: &Regular<'_>,
    session: Session,
    tables: &mut Tables,
) -> Session
    ensures session { result ≡ text_session observation.now regular.now.leader.link regular.now.text session tables.old }
    ensures tables { tables.new ≡ text_tables observation.now regular.now.leader.link regular.now.size regular.now.text session tables.old }
{
    let text = regular.text();
    let bits = text.len() as u32;
    if session.is_heard(observation.sent)
        && tables.say(observation, regular.leader().link, regular.size(), text)
    {
        session
    } else {
        session.with_stray(observation.sent, bits)
    }
}

/// Follows a regular message.
pub(crate) fn hear_regular(
    observation: &Observation,
    regular: &Regular<'_>,
    session: Session,
    tables: &mut Tables,
) -> Session
    ensures session { result ≡ read_session (message_class regular.now) observation.now regular.now session tables.old }
    ensures tables { tables.new ≡ read_tables (message_class regular.now) observation.now regular.now session tables.old }
{
    match class_of(regular) {
        MessageClass::Stop => session,
        MessageClass::Text => hear_text(observation, regular, session, tables),
        MessageClass::Control => hear_items(observation, regular.text(), session, tables),
    }
}
