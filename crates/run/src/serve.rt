//! Carrying out a list of exchanges on a run.
ghost use Rattle.std.specs.Prelude.{◌≡◌, map};
ghost use Rattle.machine.specs.Calls.{served};
ghost use Rattle.run.specs.Serving.{asked, answers_in, exchanged, serving};

use crate::exchange::Exchange;
use crate::run::Run;
use store::store::Store;

/// Makes the call that an exchange asks, and puts the answer in its place.
fn serve_one<F: Store, W: Store>(run: &mut Run<'_, F, W>, exchange: &mut Exchange)
    ensures { (exchange.new, run.new) ≡ exchanged run.old exchange.old }
{
    match exchange {
        Exchange::Run {
            budget,
            buffer,
            answer,
        } => *answer = Some(run.run(*budget, buffer.as_mut_slice())),
        Exchange::Tally { answer } => *answer = Some(run.tally()),
        Exchange::Look { index, answer } => *answer = Some(run.look(*index)),
        Exchange::Force { index, answer } => *answer = Some(run.force(*index)),
    }
}

/// Carries out each, in their order, and puts its answer in its place. The answers are those that the machine's definition has to
/// the calls that were asked.
pub fn serve<F: Store, W: Store>(run: &mut Run<'_, F, W>, exchanges: &mut [Exchange])
    ensures whole { (exchanges.new, run.new) ≡ serving run.old exchanges.old }
    ensures answers { (answers_in exchanges.new, run.new) ≡ served run.old (map asked exchanges.old) }
{
    for exchange in exchanges.iter_mut() {
        serve_one(run, exchange);
    }
}
