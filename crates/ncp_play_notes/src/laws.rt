//! Worked lines, computed from the definitions.
ghost use Rattle.std.specs.Prelude.{◌≡◌, ◌∷◌, [], map, codes};
ghost use Rattle.std.specs.List.{flat_map};
ghost use Rattle.ncp_play_notes.specs.Faults.{number_of_play_fault, fault_line};
ghost use Rattle.ncp_play_notes.specs.NoteLines.{lines_from};
ghost use Rattle.ncp_play_notes.specs.Examples.{line_prefix_of_host, of_side_b, first_host_script, each_result, each_that_came, of_a_side, each_fault};

/// The lines of the first script of one host.
pub fn first_host_script()
    ensures { lines_from line_prefix_of_host first_host_script ≡ codes "1 phase 2 ok down\n2 in stray\n3 in control 1\n4 phase 2 ok up\n5 echo 2 ok\n6 echo 2 refused Busy\n7 out host=2 link=0 bits=96\n  size=8 count=3\n  RRP\n  ECO data=65\n" }
{}

/// The words after `ok` and after `refused`.
pub fn results()
    ensures { lines_from line_prefix_of_host each_result ≡ codes "1 take 2 ok bits=16 6162\n2 take 2 ok bits=0\n3 state 2 ok end=send asked=1 heard=1 opened=1 leaving=0 left=0 cls=0 link=2 size=8 messages=1 bits=0 stored=8 interrupts=0\n4 state 2 ok end=send asked=1 heard=0 opened=0 leaving=0 left=0 cls=0 link=- size=8 messages=0 bits=0 stored=0 interrupts=0\n5 state 2 ok end=receive asked=1 heard=0 opened=0 leaving=0 left=1 cls=0 link=2 size=- messages=0 bits=0 stored=0 interrupts=0\n6 phase 2 ok down want owe wait\n7 echoed 2 ok none\n8 echoed 2 ok 65\n9 errors 2 ok 0\n10 errors 2 ok 1\n  ERR code=1 data=0e000000000000000000\n11 counts 2 ok stray=1 faults=2 wrong-link=3 wrong-size=4 not-up=5 late=6 over=7\n12 ignored ok short=1 other=2 unknown=3\n13 state 2 refused NoEntry\n14 ask-send 2 refused OutOfMemory\n" }
{}

/// Each outcome of received bits.
pub fn bits_that_came()
    ensures { lines_from line_prefix_of_host each_that_came ≡ codes "1 in short\n2 in other 4\n3 in unknown\n4 in stray\n5 in answered\n6 in fault TextMissing\n7 in wrong-link\n8 in wrong-size\n9 in control 12\n10 in text admitted\n11 in text late\n12 in text wrong-size\n13 in text over\n14 in text not-open\n15 in text not-up\n" }
{}

/// The lines of a side of two hosts name the side, and no peer.
pub fn a_side()
    ensures { lines_from of_side_b of_a_side ≡ codes "1 b ask-receive ok\n2 b out host=1 link=2 bits=88\n  size=8 count=2\n  text bits=16 6162\n3 b out nothing\n" }
{}

/// The numbers of the faults, and their lines on standard error.
pub fn faults()
    ensures numbers { map number_of_play_fault each_fault ≡ 1 ∷ 2 ∷ 3 ∷ 4 ∷ 5 ∷ 6 ∷ 7 ∷ [] }
    ensures lines { flat_map fault_line each_fault ≡ codes "ncp: line 3: BadLine\nncp: line 12: LineTooLong\nncp: BadHosts\nncp: BadHeader\nncp: ReadFailed\nncp: WriteFailed\nncp: OutOfMemory\n" }
{}
