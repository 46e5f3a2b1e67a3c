//! A guard over a line that is begun, and its end, which takes the line back.
ghost use Rattle.std.specs.Prelude.{◌≡◌, ◌+◌, ◌<◌, ◌≤◌, [], length, OnSome, IfNone};
ghost use Rattle.printer.specs.Written.{longest_line, overwrite};

use arrayvec::ArrayVec;

/// How many bytes the longest line has: a sign, ten digits and byte 10.
const LONGEST_LINE: usize = 12;

/// A line is begun in `bytes` at `at`, and `old` has what stood there before: that stands again when the guard ends, unless
/// the line was committed.
pub struct LineGuard<'a> {
    bytes: &'a mut [u8],
    at: usize,
    old: ArrayVec<u8, LONGEST_LINE>,
    ghost inside: { at + length old.items ≤ length bytes.now },
}

impl<'a> LineGuard<'a> {
    ghost use Rattle.printer.specs.Guards.{next, restored};

    /// Begins a line at `at`.
    pub fn new(bytes: &'a mut [u8], at: usize) -> LineGuard<'a>
        requires { at ≤ length bytes.old }
        ensures bytes { result.bytes.now ≡ bytes.old }
        ensures same { result.bytes.ghost_name ≡ bytes.entry.ghost_name }
        ensures start { (result.at ≡ at) × (result.old.items ≡ []) }
    {
        LineGuard {
            bytes,
            at,
            old: ArrayVec::new(),
        }
    }

    /// Writes a piece more if there is room for all of it.
    pub fn put(&mut self, piece: &[u8]) -> Option<()>
        requires { length self.now.old.items + length piece.now ≤ longest_line }
        ensures room { OnSome result (next self.entry.now + length piece.now ≤ length self.entry.now.bytes.now) }
        ensures none { IfNone result (length self.entry.now.bytes.now < next self.entry.now + length piece.now) }
        ensures unchanged { IfNone result (self.exit.now.bytes.now ≡ self.entry.now.bytes.now) }
        ensures kept { IfNone result (self.exit.now.old.items ≡ self.entry.now.old.items) }
        ensures bytes { OnSome result (self.exit.now.bytes.now ≡ overwrite self.entry.now.bytes.now (next self.entry.now) piece.now) }
        ensures len { OnSome result (length self.exit.now.old.items ≡ length self.entry.now.old.items + length piece.now) }
        ensures restores { restored self.exit.now ≡ restored self.entry.now }
        ensures start { self.exit.now.at ≡ self.entry.now.at }
        ensures same { self.exit.now.bytes.ghost_name ≡ self.entry.now.bytes.ghost_name }
    {
        let start = self.at + self.old.len();
        if piece.len() > self.bytes.len() - start {
            return None;
        }
        let place = &mut self.bytes[start..start + piece.len()];
        self.old.try_extend_from_slice(place).unwrap();
        place.copy_from_slice(piece);
        Some(())
    }

    /// Ends the line, so that what was written stays, and answers its number of bytes.
    pub fn commit(self) -> usize
        ensures len { result ≡ length self.entry.old.items }
        ensures bytes { self.exit.0.now ≡ self.entry.bytes.now }
    {
        let LineGuard {
            bytes: _,
            at: _,
            old,
        } = self;
        old.len()
    }
}

impl Drop for LineGuard<'_> {
    fn drop(self)
        ensures { self.exit.0.now ≡ overwrite self.entry.bytes.now self.entry.at self.entry.old.items }
    {
        let LineGuard { bytes, at, old } = self;
        bytes[at..at + old.len()].copy_from_slice(&old);
    }
}
