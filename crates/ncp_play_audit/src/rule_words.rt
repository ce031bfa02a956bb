//! The words of a broken rule.
ghost use Rattle.std.specs.Prelude.{◌≡◌, ◌+◌, ◌≤◌, ◌++◌, length, codes};
ghost use Rattle.ncp_play_buffer.specs.Lines.{field};
ghost use Rattle.ncp_play_files.specs.Lines.{command_words};
ghost use Rattle.ncp_play_audit.specs.FindingLines.{thing_word, why_word, unopened_word, two_amounts, two_amounts_of, one_where, coming_word, unquiet_word, rule_words, is_standard};

use ncp_leader::MessageFault;
use ncp_monitor::{ItemKind, Rule, Unopened, Unsent};
use ncp_play_buffer::{OutBuffer, PAGE_SIZE, push_field};
use ncp_play_files::{MAX_COMMAND_LEN, push_command, push_error};
use ncp_wire::{Command, CommandFault};

/// The most bytes of a rule's words.
pub(crate) const MAX_RULE_LEN: usize = 140;

// The name of an early item.
fn thing_word(thing: ItemKind) -> &'static [u8]
    ensures word { result.now ≡ thing_word thing }
    ensures len { length result.now ≤ 4 }
{
    match thing {
        ItemKind::Text => b"text",
        ItemKind::Bad => b"bad",
        ItemKind::Nop => b"NOP",
        ItemKind::Rts => b"RTS",
        ItemKind::Str => b"STR",
        ItemKind::Cls => b"CLS",
        ItemKind::All => b"ALL",
        ItemKind::Gvb => b"GVB",
        ItemKind::Ret => b"RET",
        ItemKind::Inr => b"INR",
        ItemKind::Ins => b"INS",
        ItemKind::Eco => b"ECO",
        ItemKind::Erp => b"ERP",
        ItemKind::Err => b"ERR",
    }
}

// Why a message was not sent in this form.
fn why_word(why: Unsent) -> &'static [u8]
    ensures word { result.now ≡ why_word why }
    ensures len { length result.now ≤ 7 }
{
    match why {
        Unsent::NotOut => b"not-out",
        Unsent::Twice => b"twice",
        Unsent::Altered => b"altered",
    }
}

// Why there is no open connection.
fn unopened_word(why: Unopened) -> &'static [u8]
    ensures word { result.now ≡ unopened_word why }
    ensures len { length result.now ≤ 9 }
{
    match why {
        Unopened::NoPair => b"no-pair",
        Unopened::Closed => b"closed",
        Unopened::NotAsked => b"not-asked",
    }
}

// Whether a message was delivered.
fn coming_word(came: bool) -> &'static [u8]
    ensures word { result.now ≡ coming_word came }
    ensures len { length result.now ≤ 8 }
{
    if came { b"came" } else { b"not-come" }
}

// What was sent while a data link was busy.
fn unquiet_word(reply: bool) -> &'static [u8]
    ensures word { result.now ≡ unquiet_word reply }
    ensures len { length result.now ≡ 3 }
{
    if reply { b"RRP" } else { b"RST" }
}

// 1 if true, else 0.
fn flag(so: bool) -> u32
    ensures { result ≡ one_where so }
{
    if so { 1 } else { 0 }
}

// Appends two names, each with its number.
fn push_numbers(page: &mut OutBuffer, name: &[u8], number: u8, other: &[u8], another: u8)
    requires name { length name.now ≤ 13 }
    requires other { length other.now ≤ 5 }
    requires room { length page.old + MAX_RULE_LEN ≤ PAGE_SIZE }
    ensures bytes { page.new ≡ page.old ++ (field name.now number ++ field other.now another) }
    ensures len { length page.new ≤ length page.old + 40 }
{
    push_field(page, name, u32::from(number));
    push_field(page, other, u32::from(another));
}

// Appends the number of bits of a text, and of those after it.
fn push_lengths(page: &mut OutBuffer, text: u32, rest: u32)
    requires { length page.old + 40 ≤ PAGE_SIZE }
    ensures bytes { page.new ≡ page.old ++ (field (codes " text=") text ++ field (codes " rest=") rest) }
    ensures len { length page.new ≤ length page.old + 40 }
{
    push_field(page, b" text=", text);
    push_field(page, b" rest=", rest);
}

// Appends the words of extras.
fn push_extras(page: &mut OutBuffer, flags: u8, low: u8, text: u32, rest: u32)
    requires { length page.old + MAX_RULE_LEN ≤ PAGE_SIZE }
    ensures bytes { page.new ≡ page.old ++ rule_words (Rule.Extras flags low text rest) }
    ensures len { length page.new ≤ length page.old + MAX_RULE_LEN }
{
    push_numbers(page, b"extras flags=", flags, b" low=", low);
    push_lengths(page, text, rest);
}

// Appends the words of a message that was not sent in this form.
fn push_unsent(page: &mut OutBuffer, host: u8, link: u8, why: Unsent)
    requires { length page.old + MAX_RULE_LEN ≤ PAGE_SIZE }
    ensures bytes { page.new ≡ page.old ++ rule_words (Rule.Unsent host link why) }
    ensures len { length page.new ≤ length page.old + MAX_RULE_LEN }
{
    push_field(page, b"unsent host=", u32::from(host));
    push_field(page, b" link=", u32::from(link));
    page.push(b' ');
    page.push_text(why_word(why));
}

// Appends the words of a false answer.
fn push_false_answer(page: &mut OutBuffer, kind: u8, host: u8, link: u8, came: bool)
    requires { length page.old + MAX_RULE_LEN ≤ PAGE_SIZE }
    ensures bytes { page.new ≡ page.old ++ rule_words (Rule.FalseAnswer kind host link came) }
    ensures len { length page.new ≤ length page.old + MAX_RULE_LEN }
{
    push_field(page, b"false-answer type=", u32::from(kind));
    push_field(page, b" host=", u32::from(host));
    push_field(page, b" link=", u32::from(link));
    page.push(b' ');
    page.push_text(coming_word(came));
}

// Appends the words of an early item.
fn push_early(page: &mut OutBuffer, thing: ItemKind, began: bool, waits: bool, owes: bool)
    requires { length page.old + MAX_RULE_LEN ≤ PAGE_SIZE }
    ensures bytes { page.new ≡ page.old ++ rule_words (Rule.Early thing began waits owes) }
    ensures len { length page.new ≤ length page.old + MAX_RULE_LEN }
{
    page.push_text(b"early ");
    page.push_text(thing_word(thing));
    push_field(page, b" began=", flag(began));
    push_field(page, b" wait=", flag(waits));
    push_field(page, b" owe=", flag(owes));
}

// Appends the words of a fault of a message.
fn push_fault(page: &mut OutBuffer, fault: MessageFault, link: u8)
    requires { length page.old + MAX_RULE_LEN ≤ PAGE_SIZE }
    ensures bytes { page.new ≡ page.old ++ rule_words (Rule.Fault fault link) }
    ensures len { length page.new ≤ length page.old + MAX_RULE_LEN }
{
    page.push_text(b"fault name=");
    page.push_text(fault.name().as_bytes());
    push_field(page, b" link=", u32::from(link));
}

// Appends the words of a fault of a control text.
fn push_bad(page: &mut OutBuffer, fault: &CommandFault)
    requires { length page.old + MAX_RULE_LEN ≤ PAGE_SIZE }
    ensures bytes { page.new ≡ page.old ++ rule_words (Rule.Bad fault.now) }
    ensures len { length page.new ≤ length page.old + MAX_RULE_LEN }
{
    push_field(page, b"bad code=", u32::from(fault.code));
    page.push_text(b" data=");
    page.push_hex(&fault.bytes);
}

// Appends the words of an RST or RRP while a data link is busy.
fn push_unquiet(page: &mut OutBuffer, reply: bool, link: u8)
    requires { length page.old + MAX_RULE_LEN ≤ PAGE_SIZE }
    ensures bytes { page.new ≡ page.old ++ rule_words (Rule.Unquiet reply link) }
    ensures len { length page.new ≤ length page.old + MAX_RULE_LEN }
{
    page.push_text(b"unquiet ");
    page.push_text(unquiet_word(reply));
    push_field(page, b" link=", u32::from(link));
}

// Appends a name and its only number.
fn push_one(page: &mut OutBuffer, name: &[u8], number: u8)
    requires name { length name.now ≤ 21 }
    requires room { length page.old + MAX_RULE_LEN ≤ PAGE_SIZE }
    ensures bytes { page.new ≡ page.old ++ field name.now number }
    ensures len { length page.new ≤ length page.old + MAX_RULE_LEN }
{
    push_field(page, name, u32::from(number));
}

// Appends a name, a type and a link.
fn push_kind_and_link(page: &mut OutBuffer, name: &[u8], kind: u8, link: u8)
    requires name { length name.now ≤ 20 }
    requires room { length page.old + MAX_RULE_LEN ≤ PAGE_SIZE }
    ensures bytes { page.new ≡ page.old ++ (field name.now kind ++ field (codes " link=") link) }
    ensures len { length page.new ≤ length page.old + MAX_RULE_LEN }
{
    push_field(page, name, u32::from(kind));
    push_field(page, b" link=", u32::from(link));
}

// Appends the name of a rule, and the command that breaks it.
fn push_named(page: &mut OutBuffer, name: &[u8], command: &Command)
    requires name { length name.now ≤ 12 }
    requires room { length page.old + MAX_RULE_LEN ≤ PAGE_SIZE }
    ensures bytes { page.new ≡ page.old ++ (name.now ++ command_words command.now) }
    ensures len { length page.new ≤ length page.old + 12 + MAX_COMMAND_LEN }
{
    page.push_text(name);
    push_command(page, command);
}

// Appends the words of an RTS with a link that another connection has.
fn push_link_used(page: &mut OutBuffer, command: &Command, local: u32, remote: u32)
    requires { length page.old + MAX_RULE_LEN ≤ PAGE_SIZE }
    ensures bytes { page.new ≡ page.old ++ rule_words (Rule.LinkUsed command.now local remote) }
    ensures len { length page.new ≤ length page.old + MAX_RULE_LEN }
{
    push_named(page, b"link-used ", command);
    push_field(page, b" by=", local);
    push_field(page, b",", remote);
}

// Appends the words of a CLS while a text is outstanding on a link.
fn push_text_out(page: &mut OutBuffer, command: &Command, link: u8)
    requires { length page.old + MAX_RULE_LEN ≤ PAGE_SIZE }
    ensures bytes { page.new ≡ page.old ++ rule_words (Rule.TextOut command.now link) }
    ensures len { length page.new ≤ length page.old + MAX_RULE_LEN }
{
    push_named(page, b"text-out ", command);
    push_field(page, b" link=", u32::from(link));
}

// Appends the name of a rule, the command that breaks it, and the record since which the state that
// it repeats has lasted.
fn push_since(page: &mut OutBuffer, name: &[u8], command: &Command, since: u32)
    requires name { length name.now ≤ 12 }
    requires room { length page.old + MAX_RULE_LEN ≤ PAGE_SIZE }
    ensures bytes { page.new ≡ page.old ++ (name.now ++ command_words command.now ++ field (codes " since=") since) }
    ensures len { length page.new ≤ length page.old + MAX_RULE_LEN }
{
    push_named(page, name, command);
    push_field(page, b" since=", since);
}

// Appends why there is no open connection.
fn push_unopened(page: &mut OutBuffer, why: Unopened)
    requires { length page.old + 10 ≤ PAGE_SIZE }
    ensures bytes { page.new ≡ page.old ++ (codes " " ++ unopened_word why) }
    ensures len { length page.new ≤ length page.old + 10 }
{
    page.push(b' ');
    page.push_text(unopened_word(why));
}

// Appends the words of a command on a link without an open connection.
fn push_not_open(page: &mut OutBuffer, command: &Command, why: Unopened)
    requires { length page.old + MAX_RULE_LEN ≤ PAGE_SIZE }
    ensures bytes { page.new ≡ page.old ++ rule_words (Rule.NotOpen command.now why) }
    ensures len { length page.new ≤ length page.old + MAX_RULE_LEN }
{
    push_named(page, b"not-open ", command);
    push_unopened(page, why);
}

// Appends the words of a text on a link without an open connection.
fn push_text_not_open(page: &mut OutBuffer, link: u8, why: Unopened)
    requires { length page.old + MAX_RULE_LEN ≤ PAGE_SIZE }
    ensures bytes { page.new ≡ page.old ++ rule_words (Rule.TextNotOpen link why) }
    ensures len { length page.new ≤ length page.old + MAX_RULE_LEN }
{
    push_field(page, b"text-not-open link=", u32::from(link));
    push_unopened(page, why);
}

// Appends two amounts.
fn push_amounts(page: &mut OutBuffer, messages: u32, bits: u32)
    requires { length page.old + 40 ≤ PAGE_SIZE }
    ensures bytes { page.new ≡ page.old ++ two_amounts messages bits }
    ensures len { length page.new ≤ length page.old + 40 }
{
    push_field(page, b" messages=", messages);
    push_field(page, b" bits=", bits);
}

// Appends two amounts, each with its limit.
fn push_amounts_of(page: &mut OutBuffer, messages: (u32, u32), bits: (u32, u32))
    requires { length page.old + 64 ≤ PAGE_SIZE }
    ensures bytes { page.new ≡ page.old ++ two_amounts_of messages.0 messages.1 bits.0 bits.1 }
    ensures len { length page.new ≤ length page.old + 64 }
{
    push_field(page, b" messages=", messages.0);
    push_field(page, b" of=", messages.1);
    push_field(page, b" bits=", bits.0);
    push_field(page, b" of=", bits.1);
}

// Appends the name of a rule, the command that breaks it, and two amounts.
fn push_named_amounts(
    page: &mut OutBuffer,
    name: &[u8],
    command: &Command,
    messages: u32,
    bits: u32,
)
    requires name { length name.now ≤ 12 }
    requires room { length page.old + MAX_RULE_LEN ≤ PAGE_SIZE }
    ensures bytes { page.new ≡ page.old ++ (name.now ++ command_words command.now ++ two_amounts messages bits) }
    ensures len { length page.new ≤ length page.old + MAX_RULE_LEN }
{
    push_named(page, name, command);
    push_amounts(page, messages, bits);
}

// Appends the words of an ALL that raises an allocation above its limit.
fn push_over_limit(page: &mut OutBuffer, command: &Command, messages: u32, bits: u32)
    requires { length page.old + MAX_RULE_LEN ≤ PAGE_SIZE }
    ensures bytes { page.new ≡ page.old ++ rule_words (Rule.OverLimit command.now messages bits) }
    ensures len { length page.new ≤ length page.old + MAX_RULE_LEN }
{
    push_named(page, b"over-limit ", command);
    push_amounts_of(page, (messages, 65_535), (bits, 65_536));
}

// Appends the words of a text with another byte size.
fn push_text_size(page: &mut OutBuffer, link: u8, size: u8, asked: u8)
    requires { length page.old + MAX_RULE_LEN ≤ PAGE_SIZE }
    ensures bytes { page.new ≡ page.old ++ rule_words (Rule.TextSize link size asked) }
    ensures len { length page.new ≤ length page.old + MAX_RULE_LEN }
{
    push_field(page, b"text-size link=", u32::from(link));
    push_field(page, b" size=", u32::from(size));
    push_field(page, b" of=", u32::from(asked));
}

// Appends the words of a text that exceeds the allocation.
fn push_text_over(page: &mut OutBuffer, link: u8, messages: u32, bits: u32, of_bits: u32)
    requires { length page.old + MAX_RULE_LEN ≤ PAGE_SIZE }
    ensures bytes { page.new ≡ page.old ++ rule_words (Rule.TextOver link messages bits of_bits) }
    ensures len { length page.new ≤ length page.old + MAX_RULE_LEN }
{
    push_field(page, b"text-over link=", u32::from(link));
    push_amounts_of(page, (1, messages), (bits, of_bits));
}

/// Appends the words of a broken rule.
pub(crate) fn push_rule(page: &mut OutBuffer, rule: &Rule)
    requires { length page.old + MAX_RULE_LEN ≤ PAGE_SIZE }
    ensures bytes { page.new ≡ page.old ++ rule_words rule.now }
    ensures len { length page.new ≤ length page.old + MAX_RULE_LEN }
{
    match *rule {
        Rule::Short { bits } => push_field(page, b"short bits=", bits),
        Rule::OwnHost { kind, link } => push_kind_and_link(page, b"own-host type=", kind, link),
        Rule::Kind { kind } => push_one(page, b"kind type=", kind),
        Rule::Fault { fault, link } => push_fault(page, fault, link),
        Rule::WrongLink { link } => push_one(page, b"wrong-link link=", link),
        Rule::WrongSize { size } => push_one(page, b"wrong-size size=", size),
        Rule::Extras {
            flags,
            low,
            text,
            rest,
        } => push_extras(page, flags, low, text, rest),
        Rule::Occupied { link } => push_one(page, b"occupied link=", link),
        Rule::Changed { link } => push_one(page, b"changed link=", link),
        Rule::Stray { kind, link } => push_kind_and_link(page, b"stray type=", kind, link),
        Rule::Unsent { host, link, why } => push_unsent(page, host, link, why),
        Rule::FalseAnswer {
            kind,
            host,
            link,
            came,
        } => push_false_answer(page, kind, host, link, came),
        Rule::Bad { ref fault } => push_bad(page, fault),
        Rule::Early {
            thing,
            began,
            waits,
            owes,
        } => push_early(page, thing, began, waits, owes),
        Rule::RstAgain => page.push_text(b"rst-again"),
        Rule::RrpUnasked => page.push_text(b"rrp-unasked"),
        Rule::Unquiet { reply, link } => push_unquiet(page, reply, link),
        Rule::RrpFirst => page.push_text(b"rrp-first"),
        Rule::MissingRrp => page.push_text(b"missing RRP"),
        Rule::Missing { ref command } => push_named(page, b"missing ", command),
        Rule::Skipped { ref command } => push_named(page, b"skipped ", command),
        Rule::EcoAgain { byte } => push_one(page, b"eco-again ECO data=", byte),
        Rule::ErpUnasked { byte } => push_one(page, b"erp-unasked ERP data=", byte),
        Rule::ErrUnjust { code, ref bytes } => {
            push_error(page, b"err-unjust ERR code=", code, bytes)
        }
        Rule::Sex { ref command } => push_named(page, b"sex ", command),
        Rule::LinkRange { ref command } => push_named(page, b"link-range ", command),
        Rule::SizeZero { ref command } => push_named(page, b"size-zero ", command),
        Rule::AskedAgain { ref command, since } => {
            push_since(page, b"asked-again ", command, since)
        }
        Rule::Unended { ref command, since } => push_since(page, b"unended ", command, since),
        Rule::LinkUsed {
            ref command,
            local,
            remote,
        } => push_link_used(page, command, local, remote),
        Rule::ClsUnknown { ref command } => push_named(page, b"cls-unknown ", command),
        Rule::ClsAgain { ref command, since } => push_since(page, b"cls-again ", command, since),
        Rule::TextOut { ref command, link } => push_text_out(page, command, link),
        Rule::NotOpen { ref command, why } => push_not_open(page, command, why),
        Rule::OverLimit {
            ref command,
            messages,
            bits,
        } => push_over_limit(page, command, messages, bits),
        Rule::GvbAgain { ref command } => push_named(page, b"gvb-again ", command),
        Rule::RetUnasked { ref command } => push_named(page, b"ret-unasked ", command),
        Rule::RetOther {
            ref command,
            messages,
            bits,
        } => push_named_amounts(page, b"ret-other ", command, messages, bits),
        Rule::RetOver {
            ref command,
            messages,
            bits,
        } => push_named_amounts(page, b"ret-over ", command, messages, bits),
        Rule::TextNotOpen { link, why } => push_text_not_open(page, link, why),
        Rule::TextSize { link, size, asked } => push_text_size(page, link, size, asked),
        Rule::TextOver {
            link,
            messages,
            bits,
            of_bits,
        } => push_text_over(page, link, messages, bits, of_bits),
    }
}

/// Whether a rule is one of the standard (NIC 8246, BBN 1822), not of this project.
pub(crate) fn is_standard(rule: &Rule) -> bool
    ensures { result ≡ is_standard rule.now }
{
    match *rule {
        Rule::Short { .. }
        | Rule::Fault { .. }
        | Rule::WrongLink { .. }
        | Rule::WrongSize { .. }
        | Rule::Occupied { .. }
        | Rule::Stray { .. }
        | Rule::Unsent { .. }
        | Rule::FalseAnswer { .. }
        | Rule::Bad { .. }
        | Rule::RrpUnasked
        | Rule::ErpUnasked { .. }
        | Rule::ErrUnjust { .. }
        | Rule::Sex { .. }
        | Rule::LinkRange { .. }
        | Rule::SizeZero { .. }
        | Rule::AskedAgain { .. }
        | Rule::Unended { .. }
        | Rule::ClsUnknown { .. }
        | Rule::ClsAgain { .. }
        | Rule::NotOpen { .. }
        | Rule::RetOver { .. }
        | Rule::TextNotOpen { .. }
        | Rule::TextSize { .. }
        | Rule::TextOver { .. } => true,
        Rule::Early { began, owes, .. } => began || owes,
        Rule::OwnHost { .. }
        | Rule::Kind { .. }
        | Rule::Extras { .. }
        | Rule::Changed { .. }
        | Rule::RstAgain
        | Rule::Unquiet { .. }
        | Rule::RrpFirst
        | Rule::MissingRrp
        | Rule::Missing { .. }
        | Rule::Skipped { .. }
        | Rule::EcoAgain { .. }
        | Rule::LinkUsed { .. }
        | Rule::TextOut { .. }
        | Rule::OverLimit { .. }
        | Rule::GvbAgain { .. }
        | Rule::RetUnasked { .. }
        | Rule::RetOther { .. } => false,
    }
}
