//! The meanings of the words about a message.
ghost use Rattle.std.specs.Prelude.{◌≢◌, All, Contains, IfSome, IfNone};
ghost use Rattle.ncp_play_explain.specs.Printed.{message_words};

use crate::names::{Meaning, text_beside};

/// The words of the lines of a message, the types of messages, and the words of its commands.
pub const MESSAGE_WORDS: &[Meaning] = &[
    // The first line of a message.
    (
        "at",
        "The number of the host at whose interface with its IMP the message was seen.",
    ),
    (
        "to-imp",
        "The message goes from the host after at= to its IMP.",
    ),
    (
        "from-imp",
        "The message comes from the IMP to the host after at=.",
    ),
    (
        "host",
        "In a leader to the IMP the host that the message is for; in one from the IMP its sender, or the host that the answered message was for. In a finding the host that broke the rule; after 'unsent' and 'false-answer' the host in the leader. Of a connection the other host.",
    ),
    (
        "link",
        "The number of a link, a channel from one host to another: 0 carries commands, 2 to 71 carry texts. In 'state' it is - if the end has none yet.",
    ),
    (
        "flags",
        "The first four bits of a leader. 'ncp show' prints them if they or the low field are not zero; they have no effect.",
    ),
    (
        "low",
        "The last eight bits of a leader. 'ncp show' prints them if they or the flags are not zero; they have no effect.",
    ),
    (
        "short",
        "A message of fewer than 32 bits, which has no whole leader. In the line of 'check' and after 'ignored' how many there are.",
    ),
    (
        "regular",
        "A message of type 0: commands on link 0, a text on another link. In the line of 'check' how many there are.",
    ),
    (
        "going-down",
        "A message of type 2 from the IMP: the IMP will go down. A host counts it as 'other', and does nothing else.",
    ),
    (
        "nop",
        "A message of type 4, which asks for nothing. A host counts it as 'other', and does nothing else.",
    ),
    (
        "rfnm",
        "A message of type 5 from the IMP, Ready For Next Message: the message sent on this link was delivered.",
    ),
    (
        "dead",
        "A message of type 7 from the IMP, Destination Dead: the message sent on this link was not delivered, since its destination is not there. In a script the subnet finds that a message has such a destination.",
    ),
    (
        "incomplete",
        "A message of type 9 from the IMP, Incomplete Transmission: the message sent on this link was not delivered, and the host sends it again.",
    ),
    (
        "type",
        "The type of a message, bits 5 to 8 of its leader; 'ncp explain type-5' explains type 5.",
    ),
    // The types of messages, by number.
    (
        "type-0",
        "A regular message, to the IMP and from it: commands on link 0, a text on another link. 'ncp show' prints 'regular'.",
    ),
    (
        "type-1",
        "A message of type 1. It has no name here, and a host does nothing with it.",
    ),
    (
        "type-2",
        "From the IMP: the IMP will go down; 'ncp show' prints 'going-down'. To the IMP it has no name here.",
    ),
    (
        "type-3",
        "A message of type 3. It has no name here, and a host does nothing with it.",
    ),
    (
        "type-4",
        "A NOP, to the IMP and from it, which asks for nothing. 'ncp show' prints 'nop'.",
    ),
    (
        "type-5",
        "From the IMP: RFNM, the message on the link was delivered; 'ncp show' prints 'rfnm'. To the IMP it has no name here.",
    ),
    (
        "type-6",
        "A message of type 6. It has no name here, and a host does nothing with it.",
    ),
    (
        "type-7",
        "From the IMP: Destination Dead, the destination of the message on the link is not there; 'ncp show' prints 'dead'. To the IMP it has no name here.",
    ),
    (
        "type-8",
        "From the IMP: it dropped the message to this host on this link, and does not answer it, so the host may send it again. A host counts it as 'other', and does nothing else. To the IMP it has no name here.",
    ),
    (
        "type-9",
        "From the IMP: Incomplete Transmission, the message on the link was not delivered; 'ncp show' prints 'incomplete'. To the IMP it has no name here.",
    ),
    (
        "type-10",
        "From the IMP: the interface was reset, and the messages in flight are gone, so the host may send each unanswered one again. A host counts it as 'other', and does nothing else. To the IMP it has no name here.",
    ),
    (
        "type-11",
        "A message of type 11. It has no name here, and a host does nothing with it.",
    ),
    (
        "type-12",
        "A message of type 12. It has no name here, and a host does nothing with it.",
    ),
    (
        "type-13",
        "A message of type 13. It has no name here, and a host does nothing with it.",
    ),
    (
        "type-14",
        "A message of type 14. It has no name here, and a host does nothing with it.",
    ),
    (
        "type-15",
        "A leader of 96 bits, of a later form of the interface. It is not read here: what is printed are its first 32 bits, read as an old leader.",
    ),
    // The parts of a message after its leader.
    (
        "fault",
        "The message is of type 0, and no regular message. The name of its fault follows; 'ncp explain' knows it.",
    ),
    (
        "faults",
        "How many messages of type 0 are no regular message.",
    ),
    (
        "size",
        "How many bits a byte has: of a message by its field S, of a connection as the sender's STR chose it. On link 0 it is 8. In 'state' it is - if the end does not know it yet.",
    ),
    (
        "count",
        "How many bytes the text of a message has, by its field C.",
    ),
    (
        "text",
        "The text of a message or of a connection: its bits in hexadecimal, with zeros after the last one. After 'in' and 'deliver' a text arrived, and the next word shows what became of it. After 'early' it is what was sent; after 'extras' its number of bits; in a ledger the messages and bits of the texts that are in flight.",
    ),
    (
        "bits",
        "A number of bits: of a text, of a message that is sent, of an ALL or a RET, or of all texts of a connection. In 'state' how many a sender may still send, or how many a receiver still expects. After 'not-judged' more than 4096 were to be kept: from then on no link and no reset is judged.",
    ),
    (
        "bad",
        "On link 0 bytes that are no whole command: code= shows why, and data= has them. In the line of 'check' how many messages on link 0 have such bytes, or another byte size than 8.",
    ),
    (
        "code",
        "What is wrong: 1 an opcode over 13, 2 a command that ends early, 3 wrong parameters, 4 a socket without a request, 5 a link without a connection.",
    ),
    (
        "data",
        "Of ECO and ERP the byte of the echo. Of ERR and 'bad' ten bytes, of what is wrong, with zeros after the last one.",
    ),
    // The commands, and their fields.
    ("NOP", "The command with opcode 0, which asks for nothing."),
    (
        "RTS",
        "The command with opcode 1: the receiver asks for a connection, and chooses its link.",
    ),
    (
        "STR",
        "The command with opcode 2: the sender asks for a connection, and chooses its byte size.",
    ),
    (
        "CLS",
        "The command with opcode 3: a host refuses a request, or closes a connection. The other answers it with a CLS.",
    ),
    (
        "ALL",
        "The command with opcode 4: the receiver allows more messages and bits on a link.",
    ),
    (
        "GVB",
        "The command with opcode 5: the receiver asks for a part of its allocation back. The sender answers it with a RET.",
    ),
    (
        "RET",
        "The command with opcode 6: the sender gives messages and bits of its allocation back.",
    ),
    (
        "INR",
        "The command with opcode 7: the receiver interrupts the sender.",
    ),
    (
        "INS",
        "The command with opcode 8: the sender interrupts the receiver.",
    ),
    (
        "ECO",
        "The command with opcode 9: a host asks for a byte back, in an ERP.",
    ),
    (
        "ERP",
        "The command with opcode 10, the answer to an ECO, with the same byte.",
    ),
    (
        "ERR",
        "The command with opcode 11: the other host found an error; code= shows which, and data= where. It is never answered.",
    ),
    (
        "RST",
        "The command with opcode 12: a host asks the other to forget all connections between the two, and to answer with an RRP.",
    ),
    ("RRP", "The command with opcode 13, the answer to an RST."),
    (
        "receive",
        "The receiver's socket, an even number. Of a connection of 'follow', and after end=: the host receives on it.",
    ),
    (
        "send",
        "The sender's socket, an odd number. Of a connection of 'follow', and after end=: the host sends on it.",
    ),
    ("my", "The socket of the host that sends the CLS."),
    ("your", "The socket of the host that gets the CLS."),
    (
        "fm",
        "How much of the messages that were allowed a GVB asks back, in 128ths.",
    ),
    (
        "fb",
        "How much of the bits that were allowed a GVB asks back, in 128ths.",
    ),
    (
        "messages",
        "A number of messages: of an ALL or a RET, of all texts of a connection, in the line of 'check' of the file. In 'state' how many a sender may still send, or how many a receiver still expects. After 'not-judged' more than 4096 were to be kept: from then on no link and no reset is judged.",
    ),
];

/// The meaning of a word, if it is one of these.
pub(crate) fn message_word_meaning(word: &str) -> Option<&'static str>
    ensures known { IfSome result (λ text. Contains message_words (word.now, text.now)) }
    ensures unknown { IfNone result (All (λ entry. entry.0 ≢ word.now) message_words) }
{
    text_beside(MESSAGE_WORDS, word)
}
