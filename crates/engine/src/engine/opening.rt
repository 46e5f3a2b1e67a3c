//! Engines just opened.
ghost use Rattle.std.specs.Prelude.{◌≡◌, cond, map, Ok, Err};
ghost use Rattle.cell.specs.Elements.{frame_in, wind_in};
ghost use Rattle.cell.specs.declared.value.Value.TheVariants.{Number};
ghost use Rattle.store.specs.Typed.{read_as};
ghost use Rattle.machine.specs.Opening.{fit as is_fit, both_fit, offer_of};
ghost use Rattle.engine.specs.Parts.{starting};

use crate::counters::Counters;
use crate::engine::{Engine, GLOBALS, REGISTERS};
use cell::address::Address;
use cell::element::Element;
use cell::frame::Frame;
use cell::value::Value;
use cell::wind::Wind;
use held::held_table::HeldTable;
use machine::mode::Mode;
use store::store::Store;
use store::typed::Typed;

/// How many names either store has to be able to hold.
const LEAST_HELD: u32 = 2;

/// The address that a run starts at.
const FIRST: Address = Address(0);

/// Whether a store can serve a run as a list of elements of a kind: it is empty, holds no name, and has room enough.
fn fit<S: Store, E: Element>(store: &S) -> bool
    ensures { result ≡ is_fit E.LEAST_DEPTH (offer_of (S.meaning store.now)) }
{
    store.len() == 0
        && store.held() == 0
        && store.held_limit() >= LEAST_HELD
        && store.depth_limit() >= E::LEAST_DEPTH
}

/// Globals that hold these numbers.
fn globals_of(numbers: [i32; GLOBALS]) -> [Value; GLOBALS]
    ensures { result ≡ map Number numbers }
{
    let mut globals = [Value::Empty; GLOBALS];
    // By index: of a mapped array no proof learns what its elements are.
    for index in 0..GLOBALS {
        globals[index] = Value::Number(numbers[index]);
    }
    globals
}

impl<F: Store, W: Store> Engine<F, W> {
    /// An engine at its start, with these numbers in its globals; two stores that are not both fit are handed back as they are.
    pub fn open(numbers: [i32; GLOBALS], frames: F, winds: W) -> Result<Self, (F, W)>
        ensures { result ≡ cond (both_fit (offer_of (F.meaning frames)) (offer_of (W.meaning winds))) (Ok (starting numbers (read_as frame_in (F.meaning frames)) (read_as wind_in (W.meaning winds)))) (Err (frames, winds)) }
    {
        if !(fit::<F, Frame>(&frames) && fit::<W, Wind>(&winds)) {
            return Err((frames, winds));
        }
        Ok(Engine {
            registers: [Value::Empty; REGISTERS],
            globals: globals_of(numbers),
            frames: Typed::new(frames),
            winds: Typed::new(winds),
            held: HeldTable::new(),
            mode: Mode::Going(FIRST),
            tried: FIRST,
            counts: Counters::default(),
        })
    }
}
