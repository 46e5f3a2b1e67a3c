//! What `print` writes.
ghost use Rattle.std.specs.Prelude.{◌≡◌};
ghost use Rattle.machine.specs.Printed.{line};
ghost use Rattle.printer.specs.Written.{written};

use crate::line_guard::LineGuard;
use itoa::Buffer;

/// Writes the line of `number` at `at` if it fits whole, and answers its number of bytes; else the buffer is as it was.
pub fn print_line(buffer: &mut [u8], at: usize, number: i32) -> Option<usize>
    ensures { (result, buffer.new) ≡ written buffer.old at (line number) }
{
    if at > buffer.len() {
        return None;
    }
    let mut digits = Buffer::new();
    let mut guard = LineGuard::new(buffer, at);
    guard.put(digits.format(number).as_bytes())?;
    guard.put(b"\n")?;
    Some(guard.commit())
}
