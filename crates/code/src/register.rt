//! Registers.
ghost use Rattle.std.specs.Prelude.{◌≡◌};

/// How many registers a run has.
pub const REGISTERS: u8 = 8;

/// A register: r0 to r7 are 0 to 7.
#[derive(Clone, Copy, PartialEq, Eq, Debug)]
pub struct Register(pub u8);

impl Register {
    ghost use Rattle.code.specs.Fits.{is_register};

    pub(crate) fn is_known(self) -> bool
        ensures { result ≡ is_register self }
    {
        self.0 < REGISTERS
    }
}
