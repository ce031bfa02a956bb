//! Lines of scripts and their directives, computed from the definitions.
ghost use Rattle.std.specs.Prelude.{◌≡◌, ◌<◌, ◌++◌, ℕ, codes, length, List, [], ◌∷◌, Option, None, Some, true, false};
ghost use Rattle.ncp_numbers.specs.Bytes.{bits_of_bytes};
ghost use Rattle.ncp_transcript.specs.declared.call.Call.TheVariants as calls;
ghost use Rattle.ncp_transcript.specs.declared.input.Input.TheVariants as inputs;
ghost use Rattle.ncp_play_script.specs.declared.host_lines.HostEvent.TheVariants as events;
ghost use Rattle.ncp_play_script.specs.declared.host_lines.HostLine.TheVariants as lines;
ghost use Rattle.ncp_play_script.specs.Words.{words_of};
ghost use Rattle.ncp_play_script.specs.Calls.{call_of, NamesGive, NamesGiveAfter};
ghost use Rattle.ncp_play_script.specs.HostLines.{host_line_of, input_line};
ghost use Rattle.ncp_play_script.specs.FirstLines.{first_of_host, is_many, many_first, hosts_first};
ghost use Rattle.ncp_play_script.specs.Lines.{text_of_line, is_skipped, line_kind};
ghost use Rattle.ncp_play_script.specs.declared.line_buffer.TheConstants.{MAX_LINE};
ghost use Rattle.ncp_play_script.specs.declared.line_buffer.LineKind.TheVariants as kinds;
ghost use Rattle.ncp_play_script.specs.Scripts.{Over, Fed, Faulty, BadLine, BadHosts, NoHosts, Plays, number_following};
ghost use Rattle.ncp_play_script.specs.HostScripts.{host_script};

/// The text of a give: its number of bits, and their bytes.
#[tactic(auto, unfolding(ncp_numbers::specs::Bytes::byte_bits, ncp_numbers::specs::Numbers::bits_of))]
pub fn texts_are_given_so()
    ensures some { call_of None (words_of (codes "give 9 3 4 4 A0")) ≡ Some (calls.Give 9 (record { local = 3; remote = 4 }) (true ∷ false ∷ true ∷ false ∷ [])) }
    ensures none { call_of None (words_of (codes "give 9 3 4 0")) ≡ Some (calls.Give 9 (record { local = 3; remote = 4 }) []) }
{}

/// Each other call, with arguments that all differ.
pub fn calls_are_read_so()
    ensures reset { call_of None (words_of (codes "reset 9")) ≡ Some (calls.Reset 9) }
    ensures ask_send { call_of None (words_of (codes "ask-send 9 3 4 8 1024")) ≡ Some (calls.AskSend 9 3 4 8 1024) }
    ensures ask_receive { call_of None (words_of (codes "ask-receive 9 2 5 1024")) ≡ Some (calls.AskReceive 9 2 5 1024) }
    ensures take { call_of None (words_of (codes "take 9 2 5 100")) ≡ Some (calls.Take 9 (record { local = 2; remote = 5 }) 100) }
    ensures allocate { call_of None (words_of (codes "allocate 9 2 5 65535 65536")) ≡ Some (calls.Allocate 9 (record { local = 2; remote = 5 }) 65535 65536) }
    ensures call_back { call_of None (words_of (codes "call-back 9 2 5 64 1")) ≡ Some (calls.CallBack 9 (record { local = 2; remote = 5 }) 64 1) }
    ensures interrupt { call_of None (words_of (codes "interrupt 9 3 4")) ≡ Some (calls.Interrupt 9 (record { local = 3; remote = 4 })) }
    ensures echo { call_of None (words_of (codes "echo 9 65")) ≡ Some (calls.Echo 9 65) }
    ensures close { call_of None (words_of (codes "close 9 3 4")) ≡ Some (calls.Close 9 (record { local = 3; remote = 4 })) }
    ensures wake { call_of None (words_of (codes "wake 9")) ≡ Some (calls.Wake 9) }
    ensures phase { call_of None (words_of (codes "phase 9")) ≡ Some (calls.Phase 9) }
    ensures state { call_of None (words_of (codes "state 9 3 4")) ≡ Some (calls.State 9 (record { local = 3; remote = 4 })) }
    ensures echoed { call_of None (words_of (codes "echoed 9")) ≡ Some (calls.Echoed 9) }
    ensures errors { call_of None (words_of (codes "errors 9")) ≡ Some (calls.Errors 9) }
    ensures counts { call_of None (words_of (codes "counts 9")) ≡ Some (calls.Counts 9) }
    ensures ignored { call_of None (words_of (codes "ignored")) ≡ Some calls.Ignored }
{}

/// The largest numbers of calls.
pub fn the_largest_numbers_are_read_so()
    ensures ask_send { call_of None (words_of (codes "ask-send 255 4294967295 4294967294 255 4294967295")) ≡ Some (calls.AskSend 255 4294967295 4294967294 255 4294967295) }
    ensures ask_receive { call_of None (words_of (codes "ask-receive 9 2 5 4294967295")) ≡ Some (calls.AskReceive 9 2 5 4294967295) }
    ensures take { call_of None (words_of (codes "take 9 2 5 4294967295")) ≡ Some (calls.Take 9 (record { local = 2; remote = 5 }) 4294967295) }
    ensures allocate { call_of None (words_of (codes "allocate 9 2 5 65535 4294967295")) ≡ Some (calls.Allocate 9 (record { local = 2; remote = 5 }) 65535 4294967295) }
    ensures room { call_of None (words_of (codes "ask-receive 9 2 5 4294967296")) ≡ None }
    ensures bytes { call_of None (words_of (codes "take 9 2 5 4294967296")) ≡ None }
{}

/// In a script of two hosts no word names the peer.
pub fn a_given_peer_has_no_word()
    ensures close { call_of (Some 9) (words_of (codes "close 3 4")) ≡ Some (calls.Close 9 (record { local = 3; remote = 4 })) }
    ensures phase { call_of (Some 9) (words_of (codes "phase")) ≡ Some (calls.Phase 9) }
    ensures ignored { call_of (Some 9) (words_of (codes "ignored")) ≡ Some calls.Ignored }
    ensures word { call_of (Some 9) (words_of (codes "phase 9")) ≡ None }
{}

/// These are no calls: no word, a word too few or too many, a number that is too large.
pub fn no_calls()
    ensures none { call_of None (words_of []) ≡ None }
    ensures unknown { call_of None (words_of (codes "Reset 9")) ≡ None }
    ensures few { call_of None (words_of (codes "close 9 3")) ≡ None }
    ensures many { call_of None (words_of (codes "close 9 3 4 5")) ≡ None }
    ensures end { call_of None (words_of (codes "close 9 3 4 ")) ≡ None }
    ensures peer { call_of None (words_of (codes "ignored 9")) ≡ None }
    ensures byte { call_of None (words_of (codes "echo 9 256")) ≡ None }
    ensures messages { call_of None (words_of (codes "allocate 9 2 5 65536 0")) ≡ None }
    ensures size { call_of None (words_of (codes "ask-send 9 3 4 256 1024")) ≡ None }
{}

/// The lines that give a text: in a script of one host `give` is the first word, in one of more
/// hosts it follows the side or the host.
pub fn lines_that_give_are_distinguished()
    ensures give { NamesGive (words_of (codes "give 9 3 4 0")) }
    ensures whatever { NamesGive (words_of (codes "give")) }
    ensures take { NamesGive (words_of (codes "take 9 2 5 100")) → ⊥ }
    ensures longer { NamesGive (words_of (codes "gives 9 3 4 0")) → ⊥ }
    ensures following { NamesGiveAfter (words_of (codes "a give 3 4 0")) }
    ensures front { NamesGiveAfter (words_of (codes "give 9 3 4 0")) → ⊥ }
    ensures alone { NamesGiveAfter (words_of (codes "a")) → ⊥ }
{}

/// The text of a line: one CR before its LF is dropped, and a last line without LF keeps it.
pub fn lines_render_this()
    ensures line { text_of_line true (codes "out") ≡ codes "out" }
    ensures cr { text_of_line true (codes "out\r") ≡ codes "out" }
    ensures one { text_of_line true (codes "out\r\r") ≡ codes "out\r" }
    ensures last { text_of_line false (codes "out\r") ≡ codes "out\r" }
    ensures empty { text_of_line true (codes "\r") ≡ [] }
{}

/// An empty line and a remark of any length are skipped. Other lines are played up to the length
/// limit.
pub fn lines_are_judged_so()
    ensures empty { line_kind [] ≡ kinds.Skipped }
    ensures remark { (text : List ℕ) → line_kind (codes "#" ++ text) ≡ kinds.Skipped }
    ensures played { line_kind (codes " #") ≡ kinds.Played }
    ensures long { (text : List ℕ) → is_skipped text ≡ false → MAX_LINE < length text → line_kind text ≡ kinds.TooLong }
    ensures longest { (text : List ℕ) → is_skipped text ≡ false → length text ≡ MAX_LINE → line_kind text ≡ kinds.Played }
{}

/// Line numbers go up by one, and saturate.
pub fn lines_are_numbered_so()
    ensures next { number_following 7 ≡ 8 }
    ensures last { number_following 4294967294 ≡ 4294967295 }
    ensures stays { number_following 4294967295 ≡ 4294967295 }
{}

/// Bits for the host, in a script of one host.
#[tactic(auto, unfolding(ncp_numbers::specs::Bytes::byte_bits, ncp_numbers::specs::Numbers::bits_of))]
pub fn bits_come_so()
    ensures some { host_line_of [] (words_of (codes "in 4 A0")) ≡ Some (input_line (inputs.In (true ∷ false ∷ true ∷ false ∷ []))) }
{}

/// The directives of lines of a script of one host.
pub fn host_lines_are_read_so()
    ensures in_none { host_line_of [] (words_of (codes "in 0")) ≡ Some (input_line (inputs.In [])) }
    ensures out { host_line_of [] (words_of (codes "out")) ≡ Some (input_line inputs.Out) }
    ensures feed { host_line_of [] (words_of (codes "feed")) ≡ Some lines.Feed }
    ensures call { host_line_of [] (words_of (codes "close 9 3 4")) ≡ Some (input_line (inputs.Call (calls.Close 9 (record { local = 3; remote = 4 })))) }
    ensures no_bits { host_line_of [] (words_of (codes "in")) ≡ None }
    ensures more_bits { host_line_of [] (words_of (codes "in 4 A0 0")) ≡ None }
    ensures more_out { host_line_of [] (words_of (codes "out 9")) ≡ None }
    ensures more_feed { host_line_of [] (words_of (codes "feed ")) ≡ None }
    ensures none { host_line_of [] (words_of []) ≡ None }
{}

/// A restart of the IMP is for one peer of the host, or for each.
pub fn restarts_are_read_so()
    ensures each { host_line_of (2 ∷ 3 ∷ []) (words_of (codes "restart")) ≡ Some (lines.Event (events.Restart None)) }
    ensures first { host_line_of (2 ∷ 3 ∷ []) (words_of (codes "restart 2")) ≡ Some (lines.Event (events.Restart (Some 2))) }
    ensures last { host_line_of (2 ∷ 3 ∷ []) (words_of (codes "restart 3")) ≡ Some (lines.Event (events.Restart (Some 3))) }
    ensures zeros { host_line_of (0 ∷ []) (words_of (codes "restart 0000000000")) ≡ Some (lines.Event (events.Restart (Some 0))) }
    ensures no_peer { host_line_of (2 ∷ 3 ∷ []) (words_of (codes "restart 4")) ≡ None }
    ensures large { host_line_of (2 ∷ 3 ∷ []) (words_of (codes "restart 256")) ≡ None }
    ensures two { host_line_of (2 ∷ 3 ∷ []) (words_of (codes "restart 2 3")) ≡ None }
    ensures end { host_line_of (2 ∷ 3 ∷ []) (words_of (codes "restart ")) ≡ None }
    ensures following { host_line_of (2 ∷ 3 ∷ []) (words_of (codes "restart 2 ")) ≡ None }
    ensures longer { host_line_of (2 ∷ 3 ∷ []) (words_of (codes "restarts")) ≡ None }
{}

/// The first line of a script of one host: one to eight distinct peers, none of them the host
/// itself.
pub fn first_lines_of_one_host_are_read_so()
    ensures one { first_of_host (words_of (codes "host 9 3")) ≡ Some (record { me = 9; peers = 3 ∷ [] }) }
    ensures eight { first_of_host (words_of (codes "host 0 8 7 6 5 4 3 2 255")) ≡ Some (record { me = 0; peers = 8 ∷ 7 ∷ 6 ∷ 5 ∷ 4 ∷ 3 ∷ 2 ∷ 255 ∷ [] }) }
    ensures nine { first_of_host (words_of (codes "host 0 8 7 6 5 4 3 2 255 1")) ≡ None }
    ensures no_peer { first_of_host (words_of (codes "host 9")) ≡ None }
    ensures itself { first_of_host (words_of (codes "host 9 3 9")) ≡ None }
    ensures twice { first_of_host (words_of (codes "host 9 3 3")) ≡ None }
    ensures large { first_of_host (words_of (codes "host 9 256")) ≡ None }
    ensures word { first_of_host (words_of (codes "hosts 9 3")) ≡ None }
    ensures end { first_of_host (words_of (codes "host 9 3 ")) ≡ None }
{}

/// The first line of a script of two hosts: they are distinct, and further words may follow.
pub fn first_lines_of_two_are_read_so()
    ensures two { hosts_first (words_of (codes "hosts 0 255")) ≡ Some (record { a = 0; b = 255 }, []) }
    ensures more { hosts_first (words_of (codes "hosts 3 4 5 ")) ≡ Some (record { a = 3; b = 4 }, codes "5" ∷ [] ∷ []) }
    ensures same { hosts_first (words_of (codes "hosts 3 03")) ≡ None }
    ensures one { hosts_first (words_of (codes "hosts 3")) ≡ None }
    ensures large { hosts_first (words_of (codes "hosts 3 256")) ≡ None }
    ensures word { hosts_first (words_of (codes "host 3 4")) ≡ None }
{}

/// The plan of a script of one host, by its bytes.
#[tactic(auto, unfolding(ncp_numbers::specs::Bytes::byte_bits, ncp_numbers::specs::Numbers::bits_of))]
pub fn scripts_of_one_host_are_read_so()
    ensures whole { host_script (codes "# one\n\nhost 9 3 4\r\nphase 3\nin 4 a0\nout") ≡ Plays (record { me = 9; peers = 3 ∷ 4 ∷ [] }) (record { events = events.Input (inputs.Call (calls.Phase 3)) ∷ events.Input (inputs.In (true ∷ false ∷ true ∷ false ∷ [])) ∷ events.Input inputs.Out ∷ []; ending = Over }) }
    ensures nothing { host_script (codes "host 9 3") ≡ Plays (record { me = 9; peers = 3 ∷ [] }) (record { events = []; ending = Over }) }
    ensures feed { host_script (codes "host 9 3\nout\nfeed\nNCPI\nout\n") ≡ Plays (record { me = 9; peers = 3 ∷ [] }) (record { events = events.Input inputs.Out ∷ []; ending = Fed (codes "NCPI\nout\n") }) }
    ensures feed_without_lf { host_script (codes "host 9 3\nout\nfeed") ≡ Plays (record { me = 9; peers = 3 ∷ [] }) (record { events = events.Input inputs.Out ∷ []; ending = Faulty (BadLine 3) }) }
    ensures bad_line { host_script (codes "host 9 3\n#\n\nout\nout \nout\n") ≡ Plays (record { me = 9; peers = 3 ∷ [] }) (record { events = events.Input inputs.Out ∷ []; ending = Faulty (BadLine 5) }) }
    ensures restarts { host_script (codes "host 9 3 4\nrestart\nrestart 4\nrestart 5\n") ≡ Plays (record { me = 9; peers = 3 ∷ 4 ∷ [] }) (record { events = events.Restart None ∷ events.Restart (Some 4) ∷ []; ending = Faulty (BadLine 4) }) }
    ensures no_line { host_script [] ≡ NoHosts BadHosts }
    ensures no_hosts { host_script (codes "#\n\n") ≡ NoHosts BadHosts }
    ensures other_hosts { host_script (codes "out\nhost 9 3\n") ≡ NoHosts BadHosts }
{}

/// A script of one host with calls, received bits and a sent message.
#[tactic(auto, unfolding(ncp_numbers::specs::Bytes::byte_bits, ncp_numbers::specs::Numbers::bits_of))]
pub fn a_script_of_one_host()
    ensures { host_script (codes "host 1 2\nphase 2\nin 32 05020000\nin 80 0002000000080001000c\nphase 2\necho 2 65\necho 2 66\nout\n") ≡ Plays (record { me = 1; peers = 2 ∷ [] }) (record { events = events.Input (inputs.Call (calls.Phase 2)) ∷ events.Input (inputs.In (bits_of_bytes (5 ∷ 2 ∷ 0 ∷ 0 ∷ []))) ∷ events.Input (inputs.In (bits_of_bytes (0 ∷ 2 ∷ 0 ∷ 0 ∷ 0 ∷ 8 ∷ 0 ∷ 1 ∷ 0 ∷ 12 ∷ []))) ∷ events.Input (inputs.Call (calls.Phase 2)) ∷ events.Input (inputs.Call (calls.Echo 2 65)) ∷ events.Input (inputs.Call (calls.Echo 2 66)) ∷ events.Input inputs.Out ∷ []; ending = Over }) }
{}

/// The start of the first line of a script of two to eight hosts: the word `many` and their
/// numbers. Whether these are too few, or not distinct, is not checked here.
pub fn many_are_named_so()
    ensures three { many_first (words_of (codes "many 3 1 255")) ≡ Some (3 ∷ 1 ∷ 255 ∷ [], []) }
    ensures same { many_first (words_of (codes "many 7 7")) ≡ Some (7 ∷ 7 ∷ [], []) }
    ensures none { many_first (words_of (codes "many")) ≡ Some ([], []) }
    ensures watch { many_first (words_of (codes "many 3 1 watch 1")) ≡
        Some (3 ∷ 1 ∷ [], codes "watch" ∷ codes "1" ∷ []) }
    ensures nine { many_first (words_of (codes "many 1 2 3 4 5 6 7 8 9")) ≡ None }
    ensures far { many_first (words_of (codes "many 1 256")) ≡ None }
    ensures word { many_first (words_of (codes "many 1 see 2")) ≡ None }
    ensures two { many_first (words_of (codes "hosts 1 2")) ≡ None }
    ensures begins { is_many (words_of (codes "many x")) ≡ true }
    ensures hosts { is_many (words_of (codes "hosts 1 2")) ≡ false }
    ensures longer { is_many (words_of (codes "many1 2")) ≡ false }
{}
