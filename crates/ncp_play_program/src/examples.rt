//! The statuses of the program, computed from the definitions.
ghost use Rattle.std.specs.Prelude.{◌≡◌, true, false, Ok, Err};
ghost use Rattle.clap.specs.declared.error.kind.ErrorKind.TheVariants as kinds;
ghost use Rattle.ncp_play_notes.specs.declared.fault.PlayFault.TheVariants as faults;
ghost use Rattle.ncp_play_program.specs.Obeying.{status_after, status_of_kind};

/// 0 if all is good, 1 if a call was refused or a message is wrong, 2 after a fault; 0 for help and
/// the version, and 2 for words that are no command line, or if allocation for them failed.
pub fn statuses_are_these()
    ensures good { status_after (Ok true) ≡ 0 }
    ensures refused { status_after (Ok false) ≡ 1 }
    ensures fault { status_after (Err (faults.BadLine 3)) ≡ 2 }
    ensures help { status_of_kind kinds.DisplayHelp ≡ 0 }
    ensures version { status_of_kind kinds.DisplayVersion ≡ 0 }
    ensures unknown { status_of_kind kinds.UnknownArgument ≡ 2 }
    ensures subcommand { status_of_kind kinds.InvalidSubcommand ≡ 2 }
    ensures missing { status_of_kind kinds.MissingRequiredArgument ≡ 2 }
    ensures value { status_of_kind kinds.ValueValidation ≡ 2 }
    ensures memory { status_of_kind kinds.OutOfMemory ≡ 2 }
{}
