//! Answers as text, as the independent evaluator writes them.

use cell::cell::Cell;
use machine::end::End;
use machine::index_refusal::IndexRefusal;
use machine::progress::Progress;
use machine::run_refusal::RunRefusal;
use machine::tally::Tally;
use run::exchange::Exchange;
use std::alloc::AllocError;

/// What stands in a buffer before a call: a byte that no line has.
pub const OLD: u8 = 7;

/// Tells each byte that was written beyond those that a call tells. The evaluator never has such a line.
fn tell_rest(text: &mut String, buffer: &[u8], bytes: usize) -> Result<(), AllocError> {
    for &b in buffer.iter().skip(bytes) {
        if b != OLD {
            writeln!(text, "written")?;
        }
    }
    Ok(())
}

fn tell_progress(text: &mut String, progress: Progress, buffer: &[u8]) -> Result<(), AllocError> {
    let reason = progress.reason.number();
    write!(
        text,
        "steps {} bytes {} reason {reason} ",
        progress.steps, progress.bytes
    )?;
    for b in buffer.iter().take(progress.bytes) {
        write!(text, "{b:02x}")?;
    }
    writeln!(text)
}

fn tell_run(
    text: &mut String,
    answer: Result<Progress, RunRefusal>,
    buffer: &[u8],
) -> Result<(), AllocError> {
    match answer {
        Ok(progress) => tell_progress(text, progress, buffer),
        Err(refusal) => writeln!(text, "refused {}", refusal.number()),
    }
}

fn tell_tally(text: &mut String, tally: &Tally) -> Result<(), AllocError> {
    let names = tally.names;
    let winds = tally.winds;
    write!(text, "tally {}", tally.steps)?;
    for n in [names.made, names.used, names.forgotten, names.held] {
        write!(text, " {n}")?;
    }
    for n in [winds.entered, winds.left, winds.current] {
        write!(text, " {n}")?;
    }
    if let Some(ending) = tally.ending {
        write!(text, " {} {}", ending.end.number(), ending.address.0)?;
    }
    writeln!(text)
}

fn tell_cell(text: &mut String, answer: Result<Cell, IndexRefusal>) -> Result<(), AllocError> {
    match answer {
        Ok(cell) => {
            write!(text, "cell")?;
            for word in cell.words {
                write!(text, " {word}")?;
            }
            writeln!(text)
        }
        Err(refusal) => writeln!(text, "refused {}", refusal.number()),
    }
}

fn tell(text: &mut String, exchange: &Exchange) -> Result<(), AllocError> {
    match exchange {
        Exchange::Run {
            budget: _,
            buffer,
            answer: Some(answer),
        } => {
            tell_run(text, *answer, buffer)?;
            tell_rest(text, buffer, answer.map_or(0, |progress| progress.bytes))
        }
        Exchange::Tally {
            answer: Some(tally),
        } => tell_tally(text, tally),
        Exchange::Look {
            index: _,
            answer: Some(answer),
        } => tell_cell(text, *answer),
        Exchange::Force {
            index: _,
            answer: Some(answer),
        } => tell_cell(text, *answer),
        _ => writeln!(text, "no answer"),
    }
}

/// Tells the answers that stand in a list of calls, a line for each.
pub fn tell_answers(text: &mut String, exchanges: &[Exchange]) -> Result<(), AllocError> {
    for exchange in exchanges {
        tell(text, exchange)?;
    }
    Ok(())
}

/// Tells the level of the store that was full, if a run ended so.
pub fn tell_level(text: &mut String, tally: &Tally) -> Result<(), AllocError> {
    match tally.ending.map(|ending| ending.end) {
        Some(End::FrameLimit(level) | End::WindLimit(level)) => writeln!(text, "level {level}"),
        _ => Ok(()),
    }
}
