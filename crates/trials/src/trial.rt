//! A sheet on all makes of stores.

use crate::answers::{Answers, print_together};
use crate::asked::{Call, exchanges};
use crate::directives::Directives;
use crate::filled::filled;
use crate::stores::{both_cached, both_copied, both_layered, both_linked, both_quotas};
use crate::told::{tell_answers, tell_level};
use code::code::Code;
use run::exchange::Exchange;
use run::run::Run;
use run::serve::serve;
use run::two_runs::two_runs;
use sheet::reader::read;
use std::alloc::{AllocError, Global};
use std::io::Write;
use store::store::Store;

/// How many makes of stores there are.
const MAKES: usize = 5;

/// A code, and how it is run.
#[derive(Drop)]
struct Trial {
    heap: Global,
    code: Code,
    directives: Directives,
}

fn halves(exchanges: &mut [Exchange]) -> (&mut [Exchange], &mut [Exchange]) {
    let half = exchanges.len() / 2;
    exchanges.split_at_mut(half)
}

impl Trial {
    /// What a run was answered.
    fn answers<F: Store, W: Store>(
        &self,
        make: &'static str,
        run: &Run<'_, F, W>,
        exchanges: &[Exchange],
    ) -> Result<Answers, AllocError> {
        let mut text = String::new(self.heap);
        tell_answers(&mut text, exchanges)?;
        tell_level(&mut text, &run.tally())?;
        Ok(Answers { make, text })
    }

    /// What a list is answered on two stores.
    fn on<F: Store + Drop, W: Store + Drop>(
        &self,
        make: &'static str,
        calls: &[Call],
        stores: (F, W),
    ) -> Result<Answers, AllocError> {
        let mut asked = exchanges(self.heap, calls)?;
        let (frames, winds) = filled(&self.directives, stores);
        let mut run = Run::open(&self.code, self.directives.numbers, frames, winds);
        serve(&mut run, &mut asked);
        self.answers(make, &run, &asked)
    }

    /// What a list is answered on two makes of which both runs are opened by one call. It answers the first half, and each run that
    /// it hands back is served the other.
    fn on_linked_and_layered(&self, calls: &[Call]) -> Result<(Answers, Answers), AllocError> {
        let limits = &self.directives.limits;
        let mut asked = exchanges(self.heap, calls)?;
        let mut others = exchanges(self.heap, calls)?;
        let (first, later) = halves(&mut asked);
        let (others_first, others_later) = halves(&mut others);
        let (mut one, mut other) = two_runs(
            &self.code,
            self.directives.numbers,
            filled(&self.directives, both_linked(self.heap, limits)?),
            filled(&self.directives, both_layered(self.heap, limits)?),
            first,
            others_first,
        );
        serve(&mut one, later);
        serve(&mut other, others_later);
        Ok((
            self.answers("linked", &one, &asked)?,
            self.answers("layered", &other, &others)?,
        ))
    }

    /// What a list is answered on each make.
    fn on_all(&self, calls: &[Call]) -> Result<[Answers; MAKES], AllocError> {
        let limits = &self.directives.limits;
        let (on_linked, on_layered) = self.on_linked_and_layered(calls)?;
        Ok([
            on_linked,
            self.on("copied", calls, both_copied(self.heap, limits)?)?,
            on_layered,
            self.on("cached", calls, both_cached(self.heap, limits)?)?,
            self.on("quotas", calls, both_quotas(self.heap, limits)?)?,
        ])
    }
}

/// Prints what a sheet is answered, or its refusal.
pub fn print_sheet<W: Write>(out: &mut W, heap: Global, sheet: &[u8]) -> anyhow::Result<()> {
    let mut code = Code::empty();
    if let Err(refusal) = read(&mut code, sheet) {
        writeln!(out, "{refusal}")?;
        return Ok(());
    }
    let directives = Directives::of_sheet(heap, sheet)?;
    let trial = Trial {
        heap,
        code,
        directives,
    };
    for calls in &trial.directives.lists {
        print_together(out, &trial.on_all(calls)?)?;
    }
    Ok(())
}
