//! The first part of a script: both hosts come up, a connection opens, three bytes are given, and
//! the first message with two of them is sent. Each step has its printed lines and its records.
//!
//! A record is a direction, a host, a number of bits, then a leader and the rest of the message.

pub(crate) const HOSTS: &[u8] = b"hosts 1 2\n";

/// The header of a recording.
pub(crate) const HEADER: &[u8] = b"NCPJ";

/// Both hosts come up.
pub(crate) const COMING_UP: &[u8] = b"a reset
a out
a deliver 0
a answer 0
b out
b deliver 0
b answer 0
";

pub(crate) const COMING_UP_LINES: &[u8] = b"1 a reset ok
2 a out host=2 link=0 bits=80
  size=8 count=1
  RST
3 a deliver 0 control 1
4 a answer 0 rfnm
5 b out host=1 link=0 bits=80
  size=8 count=1
  RRP
6 b deliver 0 control 1
7 b answer 0 rfnm
";

/// The RST of host 1 and the RRP of host 2: each when sent and when received, with its RFNM.
pub(crate) const COMING_UP_RECORDS: &[u8] = b"H\x01\x00\x50\x00\x02\x00\x00\x00\x08\x00\x01\x00\x0c\
    I\x02\x00\x50\x00\x01\x00\x00\x00\x08\x00\x01\x00\x0c\
    I\x01\x00\x20\x05\x02\x00\x00\
    H\x02\x00\x50\x00\x01\x00\x00\x00\x08\x00\x01\x00\x0d\
    I\x01\x00\x50\x00\x02\x00\x00\x00\x08\x00\x01\x00\x0d\
    I\x02\x00\x20\x05\x01\x00\x00";

/// The connection opens, with room for two messages of 16 bits, and three bytes are given.
pub(crate) const GIVING: &[u8] = b"b ask-receive 2 3 1024
a ask-send 3 2 8 1024
b out
b deliver 0
b answer 0
a out
a deliver 0
a answer 0
b allocate 2 3 2 16
b out
b deliver 0
b answer 0
a give 3 2 24 616263
";

pub(crate) const GIVING_LINES: &[u8] = b"8 b ask-receive ok
9 a ask-send ok
10 b out host=1 link=0 bits=152
  size=8 count=10
  RTS receive=2 send=3 link=2
11 b deliver 0 control 1
12 b answer 0 rfnm
13 a out host=2 link=0 bits=152
  size=8 count=10
  STR send=3 receive=2 size=8
14 a deliver 0 control 1
15 a answer 0 rfnm
16 b allocate ok
17 b out host=1 link=0 bits=136
  size=8 count=8
  ALL link=2 messages=2 bits=16
18 b deliver 0 control 1
19 b answer 0 rfnm
20 a give ok
";

/// RTS of host 2, STR of host 1, and ALL of host 2.
pub(crate) const GIVING_RECORDS: &[u8] =
    b"H\x02\x00\x98\x00\x01\x00\x00\x00\x08\x00\x0a\x00\x01\x00\x00\x00\x02\x00\x00\x00\x03\x02\
    I\x01\x00\x98\x00\x02\x00\x00\x00\x08\x00\x0a\x00\x01\x00\x00\x00\x02\x00\x00\x00\x03\x02\
    I\x02\x00\x20\x05\x01\x00\x00\
    H\x01\x00\x98\x00\x02\x00\x00\x00\x08\x00\x0a\x00\x02\x00\x00\x00\x03\x00\x00\x00\x02\x08\
    I\x02\x00\x98\x00\x01\x00\x00\x00\x08\x00\x0a\x00\x02\x00\x00\x00\x03\x00\x00\x00\x02\x08\
    I\x01\x00\x20\x05\x02\x00\x00\
    H\x02\x00\x88\x00\x01\x00\x00\x00\x08\x00\x08\x00\x04\x02\x00\x02\x00\x00\x00\x10\
    I\x01\x00\x88\x00\x02\x00\x00\x00\x08\x00\x08\x00\x04\x02\x00\x02\x00\x00\x00\x10\
    I\x02\x00\x20\x05\x01\x00\x00";

/// The first message is sent.
pub(crate) const SENDING: &[u8] = b"a out
";

pub(crate) const SENDING_LINES: &[u8] = b"21 a out host=2 link=2 bits=88
  size=8 count=2
  text bits=16 6162
";

/// Two bytes of text on link 2.
pub(crate) const SENDING_RECORDS: &[u8] =
    b"H\x01\x00\x58\x00\x02\x02\x00\x00\x08\x00\x02\x00\x61\x62";
