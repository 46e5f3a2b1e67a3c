//! The kind of a line, and the bytes that it may have.
ghost use Rattle.std.specs.Prelude.{◌≡◌};
ghost use Rattle.lexer.specs.Kinds.{kind_of, kind as kinds, printable as printables};

use crate::bytes::all_within;
use crate::line::Line;

/// The first byte that may stand in a line, and the last.
const FIRST_PRINTABLE: u8 = b' ';

const LAST_PRINTABLE: u8 = b'~';

/// Which kind a line is of, by its first byte.
pub fn kind(line: &[u8]) -> Line<'_>
    ensures { kind_of result ≡ kinds line.now }
{
    match line {
        [] => Line::Blank,
        [b';', ..] => Line::Comment,
        [b':', name @ ..] => Line::Label(name),
        _ => Line::Code(line),
    }
}

/// Whether a line has only bytes that it may have.
pub fn printable(line: &[u8]) -> bool
    ensures { result ≡ printables line.now }
{
    all_within(line, FIRST_PRINTABLE, LAST_PRINTABLE)
}
