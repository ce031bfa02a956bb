//! Bounds on the numbers in a call, from their types.
ghost use Rattle.ncp_transcript_two.specs.Tie.{IsPair};
ghost use Rattle.ncp_transcript_two.specs.Seen.{CallFits};

use ncp_host::Pair;
use ncp_transcript::Call;

// A lemma: the numbers of a pair fit the fields of commands, by the bounds of their types.
fn pair_fits(pair: &Pair)
    ensures { IsPair pair.now }
{
    let _local = pair.local;
    let _remote = pair.remote;
}

// A lemma: the numbers of a call fit them, too.
pub(crate) fn numbers_fit(call: &Call)
    ensures { CallFits call.now }
{
    match call {
        Call::AskSend {
            local,
            remote,
            size,
            ..
        } => {
            let _local = *local;
            let _remote = *remote;
            let _size = *size;
        }
        Call::AskReceive { local, remote, .. } => {
            let _local = *local;
            let _remote = *remote;
        }
        Call::Allocate {
            pair,
            messages,
            bits,
            ..
        } => {
            pair_fits(pair);
            let _messages = *messages;
            let _bits = *bits;
        }
        Call::CallBack { pair, fm, fb, .. } => {
            pair_fits(pair);
            let _messages = *fm;
            let _bits = *fb;
        }
        Call::Give { pair, .. } => pair_fits(pair),
        Call::Take { pair, .. } => pair_fits(pair),
        Call::Interrupt { pair, .. } => pair_fits(pair),
        Call::Close { pair, .. } => pair_fits(pair),
        Call::Echo { byte, .. } => {
            let _byte = *byte;
        }
        _ => {}
    }
}
