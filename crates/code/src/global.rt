//! Globals.
ghost use Rattle.std.specs.Prelude.{◌≡◌};

/// How many globals a run has.
pub const GLOBALS: u8 = 32;

/// A global: g0 to g31 are 0 to 31. A type apart from `Register`: with a const parameter for both, each test would read the same,
/// but no value could be made by the type's own name.
#[derive(Clone, Copy, PartialEq, Eq, Debug)]
pub struct Global(pub u8);

impl Global {
    ghost use Rattle.code.specs.Fits.{is_global};

    pub(crate) fn is_known(self) -> bool
        ensures { result ≡ is_global self }
    {
        self.0 < GLOBALS
    }
}
