//! Two runs of one code.
ghost use Rattle.std.specs.Prelude.{◌≡◌, map};
ghost use Rattle.machine.specs.Opening.{opened, offer_of};
ghost use Rattle.machine.specs.Calls.{served};
ghost use Rattle.laws.specs.TwoRuns.{AgreeThroughout};
ghost use Rattle.run.specs.Serving.{asked, answers_in, serving};
ghost use Rattle.run.specs.Transcripts.{transcript_of};

use crate::exchange::Exchange;
use crate::run::Run;
use crate::serve::serve;
use code::code::Code;
use engine::engine::GLOBALS;
use store::store::Store;

/// Opens a run on two stores, and carries out a list on it.
fn open_and_serve<'a, F: Store, W: Store>(
    code: &'a Code,
    numbers: [i32; GLOBALS],
    stores: (F, W),
    exchanges: &mut [Exchange],
) -> Run<'a, F, W>
    ensures whole { (exchanges.new, result) ≡ serving (opened code.now numbers (offer_of (F.meaning stores.0)) (offer_of (W.meaning stores.1))) exchanges.old }
    ensures answers { (answers_in exchanges.new, result) ≡ served (opened code.now numbers (offer_of (F.meaning stores.0)) (offer_of (W.meaning stores.1))) (map asked exchanges.old) }
{
    let (frames, winds) = stores;
    let mut run = Run::open(code, numbers, frames, winds);
    serve(&mut run, exchanges);
    run
}

/// Opens two runs of a code with the same numbers, each on stores of its own, and carries out a list on each. Each run gives what the
/// machine's definition says. Where both pairs of stores are fit, the two agree: at equal step counts they have printed the same bytes
/// and tell the same figures and cells, whatever the stores and the lists are. A run on stores that are not fit has ended with 43 at once.
pub fn two_runs<'a, F: Store, W: Store, G: Store, V: Store>(
    code: &'a Code,
    numbers: [i32; GLOBALS],
    first: (F, W),
    second: (G, V),
    first_calls: &mut [Exchange],
    second_calls: &mut [Exchange],
) -> (Run<'a, F, W>, Run<'a, G, V>)
    ensures first { (first_calls.new, result.0) ≡ serving (opened code.now numbers (offer_of (F.meaning first.0)) (offer_of (W.meaning first.1))) first_calls.old }
    ensures second { (second_calls.new, result.1) ≡ serving (opened code.now numbers (offer_of (G.meaning second.0)) (offer_of (V.meaning second.1))) second_calls.old }
    ensures agree { AgreeThroughout code.now numbers (transcript_of (offer_of (F.meaning first.0)) (offer_of (W.meaning first.1)) first_calls.old first_calls.new result.0) (transcript_of (offer_of (G.meaning second.0)) (offer_of (V.meaning second.1)) second_calls.old second_calls.new result.1) }
{
    (
        open_and_serve(code, numbers, first, first_calls),
        open_and_serve(code, numbers, second, second_calls),
    )
}
