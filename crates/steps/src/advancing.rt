//! Steps with the lines that they print, one and many in a row.
ghost use Rattle.std.specs.Prelude.{◌≡◌, Ok};
ghost use Rattle.machine.specs.Printed.{line};
ghost use Rattle.printer.specs.Written.{written};
ghost use Rattle.steps.specs.Advancing.{turning, after_line, advancing};

use crate::stepping::step;
use crate::stopped::Stopped;
use crate::turn::Turn;
use code::code::Code;
use engine::engine::Engine;
use engine::step::Step;
use machine::end::End;
use machine::mode::Mode;
use machine::progress::Progress;
use machine::reason::Reason;
use printer::print::print_line;
use store::store::Store;

/// Makes a step whose line was not printed yet, if there is room for the line.
fn print_at<F: Store, W: Store>(
    engine: &mut Engine<F, W>,
    buffer: &mut [u8],
    at: usize,
    number: i32,
    mode: Mode,
) -> Turn
    ensures { (Ok result, buffer.new, engine.new) ≡ after_line (written buffer.old at (line number)) at mode engine.old }
{
    let Some(bytes) = print_line(buffer, at, number) else {
        return Turn::NoRoom;
    };
    engine.go(mode);
    Turn::Went(at + bytes)
}

/// Makes the next step, and writes its line into the buffer from an index on.
fn step_with_line<F: Store, W: Store>(
    engine: &mut Engine<F, W>,
    code: &Code,
    buffer: &mut [u8],
    at: usize,
) -> Result<Turn, End>
    ensures { (result, buffer.new, engine.new) ≡ turning code.now engine.old buffer.old at }
{
    Ok(match step(engine, code)? {
        Step::Made => Turn::Went(at),
        Step::Line(number, mode) => print_at(engine, buffer, at, number, mode),
        Step::Finished => Turn::Finished,
    })
}

/// Makes as many steps as the budget has, unless the run ends before or a line finds no room; the bytes stand from the
/// buffer's start, and the rest of the buffer is as it was.
pub fn advance<F: Store, W: Store>(
    engine: &mut Engine<F, W>,
    code: &Code,
    budget: u32,
    buffer: &mut [u8],
) -> Stopped
    ensures { (result, buffer.new, engine.new) ≡ advancing code.now budget 0 engine.old buffer.old 0 }
{
    let mut bytes = 0;
    for steps in 0..budget {
        match step_with_line(engine, code, buffer, bytes) {
            Ok(Turn::Went(at)) => bytes = at,
            Ok(Turn::NoRoom) => return stopped(steps, bytes, Reason::BufferFull, None),
            Ok(Turn::Finished) => {
                return stopped(steps + 1, bytes, Reason::Ended, Some(End::Finished));
            }
            Err(end) => return stopped(steps, bytes, Reason::Ended, Some(end)),
        }
    }
    stopped(budget, bytes, Reason::BudgetUsed, None)
}

/// What steps in a row did, and how they ended the run, if they did.
fn stopped(steps: u32, bytes: usize, reason: Reason, end: Option<End>) -> Stopped
    ensures { result ≡ record { progress = record { steps = steps; bytes = bytes; reason = reason }; end = end } }
{
    Stopped {
        progress: Progress {
            steps,
            bytes,
            reason,
        },
        end,
    }
}
