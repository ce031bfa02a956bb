//! The rules of texts on data links.
ghost use Rattle.std.specs.Prelude.{◌≡◌, ◌<◌, ◌≤◌, ◌+◌, ◌++◌, [], map, length, Ok, Some, IfSome, if◌then◌else◌};
ghost use Rattle.std.specs.Option.{option_to_list};
ghost use Rattle.ncp_monitor.specs.declared.findings.TheConstants.{MAX_FINDINGS};
ghost use Rattle.ncp_monitor.specs.declared.link_target.LinkTarget.TheVariants.{Open};
ghost use Rattle.ncp_monitor.specs.Phases.{broken_by};
ghost use Rattle.ncp_monitor.specs.Reporting.{index_of_target, both_rules, judged_rules, found_text_said};
ghost use Rattle.ncp_monitor.specs.Texts.{text_shown, speaker_of, admits_error, shows_command, is_error_admitted, is_closed_for, text_target, size_rule, uses_too_much, over_text_rule, open_text_rules, demuxed_text_rules, text_rules, conn_came_at, after_text_came, used, text_suspended, demuxed_after_text, conn_tables_after_text, admits_out, message_out_at, text_left_out};
ghost use Rattle.ncp_interface.specs.Slots.{position_of};

use crate::allocation::{Numbers, from_sender, index_on, is_at_rest, target_by};
use crate::conn_state::{ConnState, FactKind};
use crate::conn_tables::ConnTables;
use crate::finding::{Rule, Unopened};
use crate::findings::Findings;
use crate::link_target::LinkTarget;
use crate::observed_flow::ObservedFlow;
use crate::reporting::report_numbers;
use crate::talked::JudgeContext;
use ncp_bits::Bits;
use ncp_interface::{LinkState, SentMessages, is_senders};
use ncp_leader::{Leader, Regular, put_front, read_regular};
use ncp_wire::opcodes::{INS, RTS};
use ncp_wire::{ERROR_DATA, SOCKET_NOT_CONNECTED};

// ---- the bytes of an ERR about a text

// How many bits of a text an ERR about it contains.
const SHOWN_BITS: usize = 8;

// The first ten bytes of a message as received: its leader names its source.
fn text_shown(speaker: u8, regular: &Regular<'_>) -> [u8; ERROR_DATA]
    ensures { result ≡ text_shown speaker regular.now }
{
    let leader = Leader {
        host: speaker,
        ..regular.leader()
    };
    let text = regular.text();
    let shown = text.len().min(SHOWN_BITS);
    let mut bits = Bits::new();
    put_front(&leader, regular.size(), regular.count(), &mut bits);
    bits.append(text.slice(0, shown)).unwrap();
    bits.push_number(0, SHOWN_BITS - shown).unwrap();
    let mut bytes = [0; ERROR_DATA];
    bits.to_bytes(&mut bytes);
    bytes
}

// Admits an ERR of the destination about a text.
fn admit_error(flow: ObservedFlow, regular: &Regular<'_>, conn_tables: &mut ConnTables)
    ensures { conn_tables.new ≡ admits_error flow regular.now conn_tables.old }
{
    let speaker = if flow.sent { flow.at } else { flow.peer };
    conn_tables.known_fact(
        flow.at,
        flow.peer,
        FactKind::Admits {
            host: !flow.sent,
            bytes: text_shown(speaker, regular),
        },
    );
}

// Whether an ERR's bytes begin with a command, judged by the command's number.
fn shows_command(bytes: [u8; ERROR_DATA]) -> bool
    ensures { result ≡ shows_command bytes }
{
    (RTS..=INS).contains(&bytes[0])
}

/// Whether an ERR is an admitted one about a text.
pub(crate) fn is_admitted(
    flow: ObservedFlow,
    code: u8,
    bytes: [u8; ERROR_DATA],
    conn_tables: &ConnTables,
) -> bool
    ensures { result ≡ is_error_admitted flow code bytes conn_tables.now }
{
    code == SOCKET_NOT_CONNECTED
        && !shows_command(bytes)
        && conn_tables.is_marked(
            flow.at,
            flow.peer,
            FactKind::Admits {
                host: flow.sent,
                bytes,
            },
        )
}

// ---- rules

// The target of a text. For a text of the host, a connection that the peer has closed counts as
// closed too.
fn text_target(flow: ObservedFlow, link: u8, conn_tables: &ConnTables) -> LinkTarget
    ensures target { result ≡ text_target flow link conn_tables.now }
    ensures inside { IfSome (index_of_target result) (λ p. p < length conn_tables.now.conns) }
{
    let receive_link = from_sender(flow, link);
    if is_at_rest(flow, receive_link, conn_tables) {
        return LinkTarget::Rests;
    }
    match index_on(flow, receive_link, conn_tables) {
        Some(place) => {
            let conn = conn_tables.conn_at(place);
            let closed = conn.has_left(flow.sent) || (flow.sent && conn.peer_left);
            target_by(closed, &conn, place)
        }
        None => LinkTarget::Nobody,
    }
}

// `TextSize`: a text with another byte size than its sender asked for.
fn size_rule(link: u8, size: u8, asked: Option<u8>) -> Option<Rule>
    ensures { result ≡ size_rule link size asked }
{
    match asked {
        Some(asked) if size != asked => Some(Rule::TextSize { link, size, asked }),
        _ => None,
    }
}

// Whether a text of `bits` bits exceeds the allocation.
fn is_ended(bits: u32, conn: &ConnState) -> bool
    ensures { result ≡ uses_too_much bits conn.now }
{
    conn.messages == 0 || bits > conn.bits
}

// The number of bits of a text.
fn bits_of(regular: &Regular<'_>) -> u32
    ensures { result ≡ length regular.now.text }
{
    regular.text().len() as u32
}

// The rules that a text breaks on an open connection.
fn open_rules(link: u8, regular: &Regular<'_>, conn: &ConnState) -> Numbers
    ensures { both_rules result ≡ open_text_rules link regular.now conn.now }
{
    let bits = bits_of(regular);
    let over = Rule::TextOver {
        link,
        messages: conn.messages,
        bits,
        of_bits: conn.bits,
    };
    Numbers {
        first: size_rule(link, regular.size(), conn.size),
        second: if is_ended(bits, conn) {
            Some(over)
        } else {
            None
        },
    }
}

// ---- after a text

// Records that a text of the peer arrived on the link of its connection, unless the peer has closed
// that.
fn come(flow: ObservedFlow, link: u8, conn_tables: &mut ConnTables)
    ensures { conn_tables.new ≡ after_text_came flow link conn_tables.old }
{
    if flow.sent {
        return;
    }
    let place = index_on(flow, from_sender(flow, link), conn_tables);
    let Some(found) = place else {
        return;
    };
    let conn = conn_tables.conn_at(found);
    if !conn.peer_left {
        conn_tables.put_conn(place, ConnState { came: true, ..conn });
    }
}

// Suspends the link: a queued request may have given it to another connection.
fn rest(flow: ObservedFlow, link: u8, conn_tables: &mut ConnTables)
    ensures { conn_tables.new ≡ text_suspended flow link conn_tables.old }
{
    conn_tables.rest_receive_link(flow.at, flow.peer, from_sender(flow, link));
}

// The rules that a text breaks, by its target. No rule if the tables are marked as full.
fn led_rules(
    link: u8,
    regular: &Regular<'_>,
    target: LinkTarget,
    conn_tables: &ConnTables,
) -> Numbers
    requires { IfSome (index_of_target target) (λ p. p < length conn_tables.now.conns) }
    ensures { both_rules result ≡ judged_rules conn_tables.now (demuxed_text_rules link regular.now conn_tables.now target) }
{
    if conn_tables.is_full() {
        return Numbers::none();
    }
    let why = match target {
        LinkTarget::Rests => return Numbers::none(),
        LinkTarget::Open(place) => return open_rules(link, regular, &conn_tables.conn_at(place)),
        LinkTarget::Nobody => Unopened::NoPair,
        LinkTarget::Closed => Unopened::Closed,
        LinkTarget::Unasked(_) => Unopened::NotAsked,
    };
    Numbers::one(Rule::TextNotOpen { link, why })
}

// Applies a text to an open connection: deducts it from the allocation.
fn after_open(flow: ObservedFlow, place: usize, regular: &Regular<'_>, conn_tables: &mut ConnTables)
    requires { place < length conn_tables.old.conns }
    ensures { conn_tables.new ≡ demuxed_after_text flow regular.now.leader.link regular.now conn_tables.old (Open place) }
{
    let link = regular.leader().link;
    let bits = bits_of(regular);
    let conn = conn_tables.conn_at(place);
    let wrong = open_rules(link, regular, &conn).is_any();
    conn_tables.put_conn(
        Some(place),
        ConnState {
            messages: conn.messages.saturating_sub(1),
            bits: conn.bits.saturating_sub(bits),
            ..conn
        },
    );
    come(flow, link, conn_tables);
    if wrong && !flow.sent {
        rest(flow, link, conn_tables);
    }
    if wrong {
        admit_error(flow, regular, conn_tables);
    }
}

// Applies a text, by its target.
fn after_led(
    flow: ObservedFlow,
    regular: &Regular<'_>,
    target: LinkTarget,
    conn_tables: &mut ConnTables,
)
    requires { IfSome (index_of_target target) (λ p. p < length conn_tables.old.conns) }
    ensures { conn_tables.new ≡ demuxed_after_text flow regular.now.leader.link regular.now conn_tables.old target }
{
    let link = regular.leader().link;
    match target {
        LinkTarget::Open(place) => {
            after_open(flow, place, regular, conn_tables);
            return;
        }
        LinkTarget::Rests | LinkTarget::Unasked(_) => come(flow, link, conn_tables),
        LinkTarget::Nobody | LinkTarget::Closed => rest(flow, link, conn_tables),
    }
    admit_error(flow, regular, conn_tables);
}

/// Judges a text: reports the rules that it breaks, then applies it.
pub(crate) fn judge_text(
    judge_context: JudgeContext<'_>,
    regular: &Regular<'_>,
    conn_tables: &mut ConnTables,
    found: &mut Findings,
)
    requires { length found.old + 2 ≤ MAX_FINDINGS }
    ensures conn_tables { conn_tables.new ≡ conn_tables_after_text judge_context.entry.flow regular.now.leader.link regular.now conn_tables.old }
    ensures found { found.new ≡ found.old ++ found_text_said judge_context.entry regular.now conn_tables.old }
    ensures len { length found.new ≤ length found.old + 2 }
{
    let link = regular.leader().link;
    let target = text_target(judge_context.flow, link, conn_tables);
    report_numbers(
        &judge_context.context,
        led_rules(link, regular, target, conn_tables),
        found,
    );
    after_led(judge_context.flow, regular, target, conn_tables);
}

// ---- a host closes as a sender while a text of it is outstanding

// Admits an ERR about the text that is outstanding on a link: it may find no connection.
fn admit_out(flow: ObservedFlow, kept: &SentMessages, link: u8, conn_tables: &mut ConnTables)
    ensures { conn_tables.new ≡ message_out_at flow kept.now (position_of flow.at flow.peer link kept.now) conn_tables.old }
{
    let Some(place) = kept.position_of(flow.at, flow.peer, link) else {
        return;
    };
    if kept.slot(place) == LinkState::Empty {
        return;
    }
    if let Ok(regular) = read_regular(kept.message(place)) {
        admit_error(flow, &regular, conn_tables);
    }
}

/// For the host's CLS of a connection on which it sends: admits an ERR about an outstanding text.
pub(crate) fn text_left_out(
    flow: ObservedFlow,
    kept: &SentMessages,
    conn: ConnState,
    conn_tables: &mut ConnTables,
)
    ensures { conn_tables.new ≡ text_left_out flow kept.now (Some conn) conn_tables.old }
{
    if flow.sent && is_senders(conn.local) {
        if let Some(link) = conn.link {
            admit_out(flow, kept, link, conn_tables);
        }
    }
}
