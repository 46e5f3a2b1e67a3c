//! What is printed of a run.
ghost use Rattle.std.specs.Prelude.{OnOk};
ghost use Rattle.std.specs.List.{flat_map};
ghost use Rattle.std.specs.Io.KnownBytes.{Appends};
ghost use Rattle.run.specs.Serving.{answers_in};
ghost use Rattle.hathrelig.specs.Report.{last_line, exchange_text, run_text};

use machine::tally::Tally;
use run::exchange::Exchange;
use std::io;
use std::io::Write;

/// Prints how a run ended, or that it is still going.
fn print_end<W: Write>(out: &mut W, tally: &Tally) -> io::Result<()>
    ensures { OnOk result (Appends (W.contents out.old) (W.contents out.new) (last_line tally.now)) }
{
    let steps = tally.steps;
    match tally.ending {
        Some(ending) => writeln!(out, "end {} steps {steps}", ending.end.number()),
        None => writeln!(out, "open steps {steps}"),
    }
}

/// Prints what a run call wrote, or the last line for a tally. Nothing is printed of a look or a force, or of a call that was refused.
fn print_answer<W: Write>(out: &mut W, call: &Exchange) -> io::Result<()>
    ensures { OnOk result (Appends (W.contents out.old) (W.contents out.new) (exchange_text call.now)) }
{
    match call {
        Exchange::Run {
            buffer,
            answer: Some(Ok(progress)),
            ..
        } => out.write_all(&buffer[..progress.bytes.min(buffer.len())]),
        Exchange::Tally {
            answer: Some(tally),
        } => print_end(out, tally),
        Exchange::Run {
            answer: None | Some(Err(_)),
            ..
        }
        | Exchange::Tally { answer: None }
        | Exchange::Look { .. }
        | Exchange::Force { .. } => Ok(()),
    }
}

/// Prints what some calls were answered.
fn print_answers<W: Write>(out: &mut W, calls: &[Exchange]) -> io::Result<()>
    ensures { OnOk result (Appends (W.contents out.old) (W.contents out.new) (flat_map exchange_text calls.now)) }
{
    for call in calls {
        print_answer(out, call)?;
    }
    Ok(())
}

/// Prints the name of a run's stores, and what its calls were answered.
pub fn print_run<W: Write>(out: &mut W, name: &str, calls: &[Exchange]) -> io::Result<()>
    ensures { OnOk result (Appends (W.contents out.old) (W.contents out.new) (run_text name.now (answers_in calls.now))) }
{
    writeln!(out, "{name}")?;
    print_answers(out, calls)
}
