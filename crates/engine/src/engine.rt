//! Engines.

use crate::counters::Counters;
use cell::address::Address;
use cell::frame::Frame;
use cell::value::Value;
use cell::wind::Wind;
use code::register::Register;
use held::held_table::HeldTable;
use machine::mode::Mode;
use std::marker::Model;
use store::store::Store;
use store::typed::Typed;

mod acts;
mod captures;
pub mod cells;
mod looking;
mod names;
mod opening;
mod parts;
mod telling;

/// How many registers an engine has.
pub const REGISTERS: usize = code::register::REGISTERS as usize;

/// How many globals.
pub const GLOBALS: usize = code::global::GLOBALS as usize;

/// The register that values are passed in.
pub const ZEROTH: Register = Register(0);

// The bounds stand on the struct, since its model reads what the two lists mean.
/// A machine's state, its frames and its winds in force in two stores.
#[derive(Drop)]
pub struct Engine<F: Store, W: Store> {
    registers: [Value; REGISTERS],
    globals: [Value; GLOBALS],
    frames: Typed<F, Frame>,
    winds: Typed<W, Wind>,
    held: HeldTable,
    mode: Mode,
    /// The last address that a step was Going at.
    tried: Address,
    counts: Counters,
}

impl<F: Store, W: Store> Model for Engine<F, W> {
    ghost use Rattle.cell.specs.Elements.{frame_in, frame_words, wind_in, wind_words};
    ghost use Rattle.store.specs.Typed.{Written};
    ghost use Rattle.engine.specs.Parts.{Parts, counts_of};

    ghost Value = { Parts };

    ghost view = { λ e. record { registers = e.registers; globals = e.globals; frames = e.frames.list; winds = e.winds.list; rows = e.held; mode = e.mode; tried = e.tried; counts = counts_of e.counts } };

    // Each cell is the one that its frame or wind is written as, so that what is told of a cell can be said of those.
    ghost invariant = { λ e. Written frame_in frame_words (F.meaning e.frames.store) × Written wind_in wind_words (W.meaning e.winds.store) };
}
