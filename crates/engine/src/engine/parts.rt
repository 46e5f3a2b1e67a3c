//! What an act is put together from: one call on a store, one write, or the end of a step.
ghost use Rattle.std.specs.Prelude.{◌≡◌, slice_index_or, slice_set};
ghost use Rattle.cell.specs.declared.value.Value.TheVariants.{Empty};
ghost use Rattle.engine.specs.Parts.{with_register, with_global, turned};
ghost use Rattle.engine.specs.Acting.{pushing, popping, entering, leaving, room_in, frame_room, name_room};

use crate::engine::Engine;
use cell::frame::Frame;
use cell::value::Value;
use cell::wind::Wind;
use code::global::Global;
use code::register::Register;
use held::held_table::ROWS;
use machine::end::End;
use machine::mode::Mode;
use machine::name_move::NameMove;
use machine::wind_move::WindMove;
use store::refusal::Refusal;
use store::refused::Refused;
use store::store::Store;

/// The value at an index; beyond the last there is none. Registers and globals are read and written by these two, a line for each.
fn value_at(values: &[Value], index: usize) -> Value
    ensures { result ≡ slice_index_or values.now index Empty }
{
    values.get(index).copied().unwrap_or_default()
}

/// Writes the value at an index, if there is one.
fn set_value(values: &mut [Value], index: usize, value: Value)
    ensures { values.new ≡ slice_set values.old index value }
{
    // By `get_mut` no proof closes: after it a slice's length is known, and no element.
    if index < values.len() {
        values[index] = value;
    }
}

impl<F: Store, W: Store> Engine<F, W> {
    /// What a register holds.
    pub fn register(&self, register: Register) -> Value
        ensures { result ≡ slice_index_or self.now.registers register.0 Empty }
    {
        value_at(&self.registers, register.0 as usize)
    }

    /// What a global holds.
    pub fn global(&self, global: Global) -> Value
        ensures { result ≡ slice_index_or self.now.globals global.0 Empty }
    {
        value_at(&self.globals, global.0 as usize)
    }

    /// Writes a register.
    pub(crate) fn set_register(&mut self, register: Register, value: Value)
        ensures { self.new ≡ with_register self.old register value }
    {
        set_value(&mut self.registers, register.0 as usize, value);
    }

    /// Writes a global.
    pub(crate) fn set_global(&mut self, global: Global, value: Value)
        ensures { self.new ≡ with_global self.old global value }
    {
        set_value(&mut self.globals, global.0 as usize, value);
    }

    // Frames and winds stay apart: one method for both would need a trait that picks the list, and the kind of end that refuses.
    /// Pushes a frame.
    pub(crate) fn push_frame(&mut self, frame: Frame) -> Result<(), End>
        ensures { (result, self.new) ≡ pushing frame self.old }
    {
        Ok(self.frames.push(frame)?)
    }

    /// Pops the top frame.
    pub(crate) fn pop_frame(&mut self) -> Result<Frame, End>
        ensures { (result, self.new) ≡ popping self.old }
    {
        Ok(self.frames.pop()?)
    }

    /// Puts a wind in force.
    pub(crate) fn push_wind(&mut self, wind: Wind) -> Result<(), End>
        ensures { (result, self.new) ≡ entering wind self.old }
    {
        Ok(self.winds.push(wind)?)
    }

    /// Removes the top wind.
    pub(crate) fn pop_wind(&mut self) -> Result<Wind, End>
        ensures { (result, self.new) ≡ leaving self.old }
    {
        Ok(self.winds.pop()?)
    }

    /// Ends a step that made these moves.
    #[inline]
    pub(crate) fn turn(&mut self, mode: Mode, winds: WindMove, names: NameMove)
        ensures { self.new ≡ turned self.old mode winds names }
    {
        if let Mode::Going(at) = self.mode {
            self.tried = at;
        }
        self.mode = mode;
        self.counts.count(winds, names);
    }

    /// The refusal of the list of frames, where it has no room for so many more.
    fn room_for(&self, more: u32) -> Result<(), Refused<Frame>>
        ensures { result ≡ room_in self.now.frames more }
    {
        if u64::from(self.frames.len()) + u64::from(more) <= u64::from(self.frames.depth_limit()) {
            return Ok(());
        }
        Err(Refusal::Full(self.frames.limit_level()).into())
    }

    /// There has to be room for so many frames more.
    pub(crate) fn check_frames(&self, more: u32) -> Result<(), End>
        ensures { (result, self.now) ≡ frame_room more self.now }
    {
        Ok(self.room_for(more)?)
    }

    /// There has to be room for a name more.
    pub(crate) fn check_names(&self) -> Result<(), End>
        ensures { (result, self.now) ≡ name_room self.now }
    {
        let limit = self.frames.held_limit().min(self.winds.held_limit());
        if self.held.len() < ROWS.min(limit as usize) {
            return Ok(());
        }
        Err(End::HeldLimit)
    }
}
