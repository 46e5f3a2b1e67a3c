//! What a step needs to find in an engine, and the end that it comes to where it does not.
ghost use Rattle.std.specs.Prelude.{◌≡◌, IfOk};
ghost use Rattle.machine.specs.Checks.{number as number_of, procedure as procedure_of};
ghost use Rattle.machine.specs.Going.{reg};
ghost use Rattle.engine.specs.Parts.{state_from};
ghost use Rattle.steps.specs.Planning.{row_under, wind_on_top};

use crate::checks::{number, procedure};
use cell::address::Address;
use cell::name::Name;
use cell::wind::Wind;
use code::register::Register;
use engine::engine::Engine;
use held::held_row::HeldRow;
use machine::end::End;
use store::store::Store;

/// What a register holds, which has to be a number.
pub(crate) fn number_in<F: Store, W: Store>(
    engine: &Engine<F, W>,
    register: Register,
) -> Result<i32, End>
    ensures { result ≡ number_of (reg (state_from engine.now) register) }
{
    number(engine.register(register))
}

/// What a register holds, which has to be a procedure.
pub(crate) fn procedure_in<F: Store, W: Store>(
    engine: &Engine<F, W>,
    register: Register,
) -> Result<Address, End>
    ensures { result ≡ procedure_of (reg (state_from engine.now) register) }
{
    procedure(engine.register(register))
}

/// The row of a name, which has to be held.
pub(crate) fn row<F: Store, W: Store>(engine: &Engine<F, W>, name: Name) -> Result<HeldRow, End>
    ensures value { result ≡ row_under engine.now name }
    ensures named { IfOk result (λ row. row.name ≡ name) }
{
    engine.row(name).ok_or(End::NotHeld)
}

/// The top wind, which has to be there.
pub(crate) fn top_wind<F: Store, W: Store>(engine: &Engine<F, W>) -> Result<Wind, End>
    ensures { result ≡ wind_on_top engine.now }
{
    engine.top_wind().ok_or(End::WrongFrame)
}
