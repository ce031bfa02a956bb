//! The texts after the lists in the help: an example, the statuses, and where the formats are
//! documented.

/// For the program.
pub(crate) const PROGRAM_HELP: &str = "Without a command it is 'ncp show'.

Example:
  ncp world examples/one_connection.script

Statuses:
  0  all is good
  1  'check' or 'audit' says no, or a call of a script was refused, or 'explain' does not know a name, or 'follow' a number
  2  a fault, reported on standard error

The formats of files, scripts and lines are in docs/FORMATS.md and in ncp(1).
'ncp explain NAME' prints what a fault, a refusal, a rule or a word of a line means.";

/// For `show`.
pub(crate) const SHOWN: &str =
    "Each message is read by itself: its leader, its prefix, and its commands. 'ncp audit' reports who broke which rule.

Example:
  ncp show examples/first.ncp

Statuses:
  0  all messages are shown
  2  the file has a fault, or could not be read or written

A message file begins with the letters NCPH, NCPI or NCPJ: docs/FORMATS.md, and ncp(1).";

/// For `check`.
pub(crate) const CHECKED: &str =
    "Each message is judged by itself: its leader, its prefix, and its commands. 'ncp audit' reports who broke which rule.

Example:
  ncp check examples/first.ncp

Statuses:
  0  all messages are well formed
  1  one is not
  2  the file has a fault, or could not be read or written

A message file begins with the letters NCPH, NCPI or NCPJ: docs/FORMATS.md, and ncp(1).";

/// For `count`.
pub(crate) const COUNTED: &str = "Example:
  ncp count examples/first.ncp

Statuses:
  0  all messages are counted
  2  the file has a fault, or could not be read or written

A message file begins with the letters NCPH, NCPI or NCPJ: docs/FORMATS.md, and ncp(1).";

/// For `convert`.
pub(crate) const CONVERTED: &str = "Example:
  ncp convert --at 7 examples/first.ncp > placed.ncp

Statuses:
  0  the whole file is written
  2  the file has a fault, or a record of another direction or host, or it could not be read or written

A message file begins with the letters NCPH, NCPI or NCPJ: docs/FORMATS.md, and ncp(1).";

/// For `audit`.
pub(crate) const AUDITED: &str =
    "A line for each finding: the number of the record, the host at whose interface it was seen, who broke
the rule, and the rule. 'ncp explain RULE' prints what it asks for. The file is one of version 2.

With '--coverage' a line follows with the number of messages that were judged, and one for each two hosts between
which some were not, at the interface of the first. 'ncp explain REASON' prints what its last word means.

Example:
  ncp record examples/one_connection.script | ncp audit

Statuses:
  0  nothing was found
  1  something was; or, with '--strict', not all was judged, for another reason than 'alone'
  2  the file has a fault, or could not be read or written

A message file of version 2 begins with the letters NCPJ: docs/FORMATS.md, and ncp(1).";

/// For `follow`.
pub(crate) const FOLLOWED: &str =
    "Two lines for each connection that was opened, in the order of opening: the host at whose interface it is
seen, the other, the sockets, the link, the records that opened and ended it, and then its text. 'ncp explain
WHY' prints what the word after by= means. A line with - counts the texts of no connection. The file is one of
version 2.

The first 8192 bits of a text are shown, and the first 4096 connections of a file. With '--letters' a line follows each
text, with its bytes as ASCII characters, and any other byte as \\x and two digits. '--bytes N' writes the whole text of
connection N, eight bits a byte, padded with zeros, and no line. A terminal may act on such bytes, so it gets them only
with '--raw'.

Examples:
  ncp record examples/one_connection.script | ncp follow
  ncp record examples/one_connection.script | ncp follow --bytes 1

Statuses:
  0  the whole file is followed
  1  there is no connection with the number of '--bytes'
  2  the file has a fault, or could not be read or written

A message file of version 2 begins with the letters NCPJ: docs/FORMATS.md, and ncp(1).";

/// For `host`.
pub(crate) const PLAYED_HOST: &str = "Example:
  printf 'host 1 2\\nreset 2\\nout\\n' | ncp host

Statuses:
  0  the script was played
  1  it was played, and a call was refused
  2  the script has a fault, or could not be read, or its lines not written

The first line is 'host ME PEER ..', and each line after it is played: docs/FORMATS.md, and ncp(1).";

/// For `world`.
pub(crate) const PLAYED: &str = "Example:
  printf 'hosts 1 2\\na reset\\na out\\na deliver 0\\n' | ncp world

Statuses:
  0  the script was played
  1  it was played, and a call was refused
  2  the script has a fault, or could not be read, or its lines not written

The first line is 'hosts A B' or 'many N1 N2 ..', and each line after it is played: docs/FORMATS.md, and ncp(1).";

/// For `record`.
pub(crate) const RECORDED: &str = "Example:
  ncp record examples/one_connection.script | ncp show

Statuses:
  0  the script was played
  1  it was played, and a call was refused
  2  the script has a fault, or could not be read, or its messages not written

The scripts are those of 'ncp world'; the file is one of version 2: docs/FORMATS.md, and ncp(1).";

/// For `explain`.
pub(crate) const EXPLAINED: &str =
    "It knows each word of a line that 'ncp' prints, also with its value, as late=3, and each type of a message, as type-15.

Example:
  ncp explain BadLine

Statuses:
  0  the name is explained
  1  no such name is known
  2  it could not be written";
