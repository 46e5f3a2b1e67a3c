//! What names are made, used up and forgotten by: calls on both stores and on the rows.
ghost use Rattle.std.specs.Prelude.{◌≡◌, true};
ghost use Rattle.machine.specs.declared.frame_move.FrameMove.TheVariants.{Keep, Restore};
ghost use Rattle.engine.specs.Acting.{restoring, taking, releasing_frames, release as releasing, saving, adding, promoting, holding_many, holding_once, capture_room, fresh};

use crate::counters::up;
use crate::engine::Engine;
use cell::name::Name;
use held::held_row::HeldRow;
use held::save_both::save_both;
use machine::end::End;
use store::store::Store;

impl<F: Store, W: Store> Engine<F, W> {
    /// The name that is made next.
    pub(crate) fn next_name(&self) -> Name
        ensures { result ≡ fresh self.now }
    {
        Name(up(self.counts.made))
    }

    // Some of these hand on one call of a list: each turns its refusal into the run's end, and has the act's own contract.
    /// Makes the frames saved under a name current.
    pub(crate) fn restore_frames(&mut self, name: Name) -> Result<(), End>
        ensures { (result, self.new) ≡ restoring name self.old }
    {
        Ok(self.frames.restore(name)?)
    }

    /// The same, and the frame store lets the name go.
    pub(crate) fn take_frames(&mut self, name: Name) -> Result<(), End>
        ensures { (result, self.new) ≡ taking name self.old }
    {
        Ok(self.frames.take(name)?)
    }

    /// The frame store lets a name go.
    fn release_frames(&mut self, name: Name) -> Result<(), End>
        ensures { (result, self.new) ≡ releasing_frames name self.old }
    {
        Ok(self.frames.release(name)?)
    }

    /// The wind store lets a name go, and so do the rows.
    pub(crate) fn release_winds(&mut self, name: Name) -> Result<(), End>
        ensures { (result, self.new) ≡ releasing (Restore name) name self.old }
    {
        self.winds.release(name)?;
        self.held.remove(name);
        Ok(())
    }

    /// A name is held no more.
    pub(crate) fn release(&mut self, name: Name) -> Result<(), End>
        ensures { (result, self.new) ≡ releasing Keep name self.old }
    {
        self.release_frames(name)?;
        self.release_winds(name)
    }

    /// There has to be room for a capture that pushes so many frames.
    pub(crate) fn check_capture(&self, frames: u32) -> Result<(), End>
        ensures { (result, self.now) ≡ capture_room frames self.now }
    {
        self.check_frames(frames)?;
        self.check_names()
    }

    /// Saves in both stores under a name.
    fn save(&mut self, name: Name) -> Result<(), End>
        ensures { (result, self.new) ≡ saving name self.old }
    {
        Ok(save_both(self.frames.store_mut(), self.winds.store_mut(), name)?)
    }

    /// Adds the row of a name.
    fn add_row(&mut self, name: Name, once: bool) -> Result<(), End>
        ensures { (result, self.new) ≡ adding name once self.old }
    {
        Ok(self.held.add(HeldRow { name, once })?)
    }

    /// The rows whose name has a Mark in the frames serve for many throws.
    fn promote(&mut self)
        ensures { self.new ≡ promoting self.old }
    {
        self.held.promote(self.frames.store());
    }

    /// Both stores and the rows hold a name, for many throws.
    pub(crate) fn hold_many(&mut self, name: Name) -> Result<(), End>
        ensures { (result, self.new) ≡ holding_many name self.old }
    {
        self.save(name)?;
        self.promote();
        self.add_row(name, false)
    }

    // Not one function with a flag: this promotes no row, and a test between the save and the row would be no plainer.
    /// The same, for one throw.
    pub(crate) fn hold_once(&mut self, name: Name) -> Result<(), End>
        ensures { (result, self.new) ≡ holding_once name self.old }
    {
        self.save(name)?;
        self.add_row(name, true)
    }
}
