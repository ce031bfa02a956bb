//! The meanings of the rules of `ncp audit`.
ghost use Rattle.std.specs.Prelude.{◌≢◌, All, AllPairs, Contains, IfNone, IfSome};
ghost use Rattle.ncp_play_audit.specs.Rules.{rules_reported};

use ncp_play_explain::text_beside;

/// The names of the rules, as `ncp audit` prints them, each with its text: what the rule requires,
/// whose rule it is, and what to check.
pub const RULES: &[(&str, &str)] = &[
    (
        "short",
        "A message has at least the 32 bits of its leader. Rule of the standard (BBN 1822). Check the capture: a cut message is not what was on the wire.",
    ),
    (
        "own-host",
        "The leader of a message names the other host, never the one at whose interface it is seen. Rule of this project. Check the host's number in the capture.",
    ),
    (
        "kind",
        "A host sends messages of type 0, and NOPs (type 4). Rule of this project: the standard has others, from host to IMP, that no rule here covers.",
    ),
    (
        "fault",
        "A message of type 0 is a regular message; 'ncp explain' knows the name of its fault. Rule of the standard (NIC 8246). Check the bits between leader and text.",
    ),
    (
        "wrong-link",
        "Link 0 carries control, links 2 to 71 carry connections. Rule of the standard (NIC 8246), but other links were used for tests.",
    ),
    (
        "wrong-size",
        "The bytes of a message on link 0 have eight bits. Rule of the standard (NIC 8246). Check the byte size.",
    ),
    (
        "extras",
        "A message has no flags, a low field of 0, some text of at most 8,000 bits, on link 0 of 120 bytes, and nothing after it but padding: at most 52 bits, at most one of them a one. Rule of this project: the standard admits flags and other padding.",
    ),
    (
        "occupied",
        "A host sends no further message on a link before the last one is answered. Rule of the standard (BBN 1822). Check the last message on the link. After a type 10, or a type 8 for the link, it may be sent again.",
    ),
    (
        "changed",
        "A message that was not delivered is sent again unchanged, before another one on its link. Rule of this project. Check the message before the answer.",
    ),
    (
        "stray",
        "The subnet answers only an unacknowledged message, once. Rule of the standard (BBN 1822). Check whether the capture lacks a record.",
    ),
    (
        "unsent",
        "A message arrives once, and as it was sent except for the host in its leader. Rule of the standard. Judged if the capture has both hosts' interfaces. not-out: none is unacknowledged on the link; twice: it arrived before; altered: another one is unacknowledged.",
    ),
    (
        "false-answer",
        "RFNM answers a message that arrived, Incomplete Transmission and Destination Dead one that did not. Rule of the standard (BBN 1822). Judged if the capture has both hosts' interfaces.",
    ),
    (
        "bad",
        "A control text is whole commands with opcodes from 0 to 13. Rule of the standard (NIC 8246). Code 1: an opcode over 13; code 2: a command that ends early; data: the bytes from there on.",
    ),
    (
        "early",
        "A host sends only RST or RRP until it has sent one of them, while it waits for an RRP, and while it owes one. After an RST this is a rule of the standard; before any, of this project. Flags: began, it has sent an RST or an RRP; wait, it waits for an RRP; owe, it owes one.",
    ),
    (
        "rst-again",
        "A host that waits for an RRP sends no second RST. Rule of this project: after a long silence the standard admits one.",
    ),
    (
        "rrp-unasked",
        "An RRP answers an RST. Rule of the standard (NIC 8246). If the capture begins in the middle, use 'ncp audit --part'.",
    ),
    (
        "unquiet",
        "A host sends RST or RRP while none of its data links has a message unacknowledged or to be sent again. Rule of this project. Check the named link.",
    ),
    (
        "rrp-first",
        "A host that owes an RRP sends it before an RST of its own, if a data link was busy when it was asked. Rule of this project.",
    ),
    (
        "missing",
        "A control message with room for it includes what the host has to send: the RRP that it owes, while no data link is busy; a reply that it owes; and its own CLS if the other's arrived, while no text of it is unacknowledged and no text arrived. Rule of this project. Check what the named command answers.",
    ),
    (
        "skipped",
        "Replies are sent in the order of what they answer. Rule of this project. The named command was due before the one that was sent.",
    ),
    (
        "eco-again",
        "A host that waits for an ERP sends no second ECO. Rule of this project. Check its last ECO.",
    ),
    (
        "erp-unasked",
        "An ERP has the byte of an ECO that it answers. Rule of the standard (NIC 8246). Check the ECOs before it.",
    ),
    (
        "err-unjust",
        "An ERR is about a command that its receiver sent and that breaks a rule; its data are the first bytes of that command. Rule of the standard (NIC 8246), its codes and data of this project. Look for that command before it, or for a text with these bits.",
    ),
    (
        "sex",
        "The receiver's socket of a request is even and the sender's is odd, and of a CLS one is even and one is odd. Rule of the standard (NIC 8246).",
    ),
    (
        "link-range",
        "An RTS names a link from 2 to 71. Rule of the standard (NIC 8246).",
    ),
    (
        "size-zero",
        "The byte size of an STR is not 0. Rule of the standard (NIC 8246).",
    ),
    (
        "asked-again",
        "Each side asks once for a connection, the receiver by an RTS, the sender by an STR. Rule of the standard (NIC 8246). Check its last request for these sockets.",
    ),
    (
        "unended",
        "A side that sent its CLS asks for no connection of the same sockets before the CLS of the other. Rule of the standard (NIC 8246). Check its CLS.",
    ),
    (
        "link-used",
        "A link serves one connection of a receiver at a time. Rule of this project. The sockets after 'by' have the link: of the host at this interface, and of the other.",
    ),
    (
        "cls-unknown",
        "A CLS ends a connection, or a request, of its two sockets. Rule of the standard (NIC 8246). Check for a request before it.",
    ),
    (
        "cls-again",
        "A side sends one CLS for a connection. Rule of the standard (NIC 8246). Check its last CLS.",
    ),
    (
        "text-out",
        "A host that sends closes after its last text is answered. Rule of this project. Check the named link.",
    ),
    (
        "not-open",
        "ALL, GVB and INR of the receiver, and RET and INS of the sender, name the link of an open connection. Rule of the standard (NIC 8246). no-pair: no connection has the link; closed: its sender has sent its CLS; not-asked: not both have asked.",
    ),
    (
        "over-limit",
        "After an ALL a sender may send no more than 65,535 messages and 65,536 bits. Rule of this project. Check the two sums.",
    ),
    (
        "gvb-again",
        "A receiver that waits for a RET sends no second GVB. Rule of this project. Check its last GVB on the link.",
    ),
    (
        "ret-unasked",
        "A RET answers a GVB of its link. Rule of this project: the standard admits an unrequested one. Check the GVBs before it.",
    ),
    (
        "ret-other",
        "A RET gives back the parts that the GVB asks for, in 128ths rounded up. Rule of this project. The numbers after the command are those asked for; of the host at whose interface it is not seen, the most that it may give back.",
    ),
    (
        "ret-over",
        "A RET gives back no more than is allocated. Rule of the standard (NIC 8246). The numbers after the command are the most that may be left.",
    ),
    (
        "text-not-open",
        "A text is sent on the link of an open connection. Rule of the standard (NIC 8246). no-pair: no connection has the link; closed: a CLS was sent; not-asked: not both have asked.",
    ),
    (
        "text-size",
        "The bytes of a text have the size of the sender's STR. Rule of the standard (NIC 8246). After 'of' is the size that was asked for.",
    ),
    (
        "text-over",
        "A text takes one message and its bits of what is allocated. Rule of the standard (NIC 8246). After each 'of' is what was left: of the host exactly, of the other at most.",
    ),
];

/// The meaning of a rule, if there is one with this name.
pub fn rule_meaning(name: &str) -> Option<&'static str>
    ensures known { IfSome result (λ text. Contains rules_reported (name.now, text.now)) }
    ensures unknown { IfNone result (All (λ entry. entry.0 ≢ name.now) rules_reported) }
{
    text_beside(RULES, name)
}

/// No name of a rule appears twice in the table, so each has one meaning.
pub fn each_rule_has_one_meaning()
    ensures { AllPairs (λ one other. one.0 ≢ other.0) rules_reported }
{}
