//! Laws about orders and the command line, stated as contracts.
ghost use Rattle.std.specs.Prelude.{◌≡◌, ◌↔◌, ◌∷◌, [], None, Some, true, false, IsTrue, codes};
ghost use Rattle.clap.specs.Faults.{fault_of};
ghost use Rattle.clap.specs.declared.error.kind.ErrorKind.TheVariants as kind;
ghost use Rattle.ncp_play_command_line.specs.CommandLine.{order_in, program, word_in};
ghost use Rattle.ncp_play_command_line.specs.Examples.{typed};
ghost use Rattle.ncp_play_command_line.specs.declared.report.Report.TheVariants.{Findings, Coverage, Strict};
ghost use Rattle.ncp_play_command_line.specs.declared.orders.Order.TheVariants.{Audit, Convert, Count, Explain, Follow, Record, Show, World};

use crate::orders::Order;

/// Two orders compare as equal exactly when they are the same.
pub fn same_order(one: Order, other: Order) -> bool
    ensures { IsTrue result ↔ one ≡ other }
{
    one == other
}

/// Worked command lines, computed from the definitions: each subcommand gives its order, and no
/// subcommand gives `show`. `--version` is clap's request to display the version, not an order.
pub fn words_are_read_so()
    ensures nothing { order_in (typed (codes "ncp")) ≡ Show }
    ensures world { order_in (typed (codes "ncp world")) ≡ World }
    ensures counted { order_in (typed (codes "ncp count")) ≡ Count }
    ensures recorded { order_in (typed (codes "ncp record")) ≡ Record }
    ensures version { fault_of program (typed (codes "ncp --version")) ≡ kind.DisplayVersion ∷ [] }
{}

/// Worked command lines of `convert`: `--at` takes a number from 0 to 255. A missing number, one
/// out of range, and one given twice are faults.
pub fn numbers_are_read_so()
    ensures seven { order_in (typed (codes "ncp convert --at 7")) ≡ Convert 7 }
    ensures most { order_in (typed (codes "ncp convert --at=255")) ≡ Convert 255 }
    ensures sound { fault_of program (typed (codes "ncp convert --at=255")) ≡ [] }
    ensures missing { fault_of program (typed (codes "ncp convert")) ≡ kind.MissingRequiredArgument ∷ [] }
    ensures great { fault_of program (typed (codes "ncp convert --at=256")) ≡ kind.ValueValidation ∷ [] }
    ensures negative { fault_of program (typed (codes "ncp convert --at=-1")) ≡ kind.ValueValidation ∷ [] }
    ensures twice { fault_of program (typed (codes "ncp convert --at=7 --at=7")) ≡ kind.ArgumentConflict ∷ [] }
{}

/// Worked command lines of `audit`: its arguments may be in any order, before or after the file.
pub fn audits_are_read_so()
    ensures bare { order_in (typed (codes "ncp audit")) ≡ Audit false false Findings }
    ensures part { order_in (typed (codes "ncp audit --part")) ≡ Audit true false Findings }
    ensures both { order_in (typed (codes "ncp audit --standard first.ncp --part")) ≡ Audit true true Findings }
    ensures coverage { order_in (typed (codes "ncp audit --coverage first.ncp")) ≡ Audit false false Coverage }
    ensures strict { order_in (typed (codes "ncp audit --strict --standard")) ≡ Audit false true Strict }
    ensures file { word_in (typed (codes "ncp audit --standard first.ncp --part")) ≡ Some (codes "first.ncp") }
    ensures valued { fault_of program (typed (codes "ncp audit --part=7")) ≡ kind.TooManyValues ∷ [] }
{}

/// Worked command lines of `follow`: `--bytes` takes the number of a connection, from 1 to 4096.
pub fn follows_are_read_so()
    ensures bare { order_in (typed (codes "ncp follow")) ≡ Follow false false None false }
    ensures part { order_in (typed (codes "ncp follow first.ncp --part")) ≡ Follow true false None false }
    ensures bytes { order_in (typed (codes "ncp follow --bytes 7 first.ncp")) ≡ Follow false false (Some 7) false }
    ensures most { order_in (typed (codes "ncp follow --bytes=4096 --part")) ≡ Follow true false (Some 4096) false }
    ensures sound { fault_of program (typed (codes "ncp follow --bytes=4096")) ≡ [] }
    ensures none { fault_of program (typed (codes "ncp follow --bytes=0")) ≡ kind.ValueValidation ∷ [] }
    ensures great { fault_of program (typed (codes "ncp follow --bytes=4097")) ≡ kind.ValueValidation ∷ [] }
    ensures letters { order_in (typed (codes "ncp follow --letters first.ncp")) ≡ Follow false true None false }
    ensures raw { order_in (typed (codes "ncp follow --raw --bytes 7")) ≡ Follow false false (Some 7) true }
    ensures file { word_in (typed (codes "ncp follow --part first.ncp")) ≡ Some (codes "first.ncp") }
{}

/// Worked words after a subcommand: a file does not change the order, `-` is a word like any other,
/// at most one word is allowed, and `explain` requires one.
pub fn files_are_read_so()
    ensures order { order_in (typed (codes "ncp world first.script")) ≡ World }
    ensures file { word_in (typed (codes "ncp world first.script")) ≡ Some (codes "first.script") }
    ensures standard { word_in (typed (codes "ncp show -")) ≡ Some (codes "-") }
    ensures none { word_in (typed (codes "ncp show")) ≡ None }
    ensures converted { order_in (typed (codes "ncp convert --at 7 first.ncp")) ≡ Convert 7 }
    ensures following { word_in (typed (codes "ncp convert --at 7 first.ncp")) ≡ Some (codes "first.ncp") }
    ensures more { fault_of program (typed (codes "ncp show a b")) ≡ kind.UnknownArgument ∷ [] }
    ensures explained { order_in (typed (codes "ncp explain BadLine")) ≡ Explain }
    ensures unnamed { fault_of program (typed (codes "ncp explain")) ≡ kind.MissingRequiredArgument ∷ [] }
{}
