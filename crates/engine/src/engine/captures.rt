//! Acts that make a name, use one up or forget one.
ghost use Rattle.std.specs.Prelude.{◌≡◌};
ghost use Rattle.cell.specs.declared.frame.Frame.TheVariants.{Back as BackTo, Mark as MarkOf};
ghost use Rattle.cell.specs.declared.value.Value.TheVariants.{Continuation as ContinuationOf};
ghost use Rattle.machine.specs.Acts.{moves, writing, framing, naming, does};
ghost use Rattle.machine.specs.Going.{zeroth};
ghost use Rattle.machine.specs.declared.frame_move.FrameMove.TheVariants.{Push, PushBoth, Pop, Restore};
ghost use Rattle.machine.specs.declared.mode.Mode.TheVariants.{Going as GoingAt, Returning as ReturningNow};
ghost use Rattle.machine.specs.declared.name_move.NameMove.TheVariants.{SaveMany, SaveOnce, Use, Forget};
ghost use Rattle.machine.specs.declared.wind_move.WindMove.TheVariants.{Stay};
ghost use Rattle.machine.specs.declared.write.Write.TheVariants.{Register as ToRegister};
ghost use Rattle.engine.specs.Parts.{turned, with_register};
ghost use Rattle.engine.specs.Acting.{carried, carry_as, capturing, fresh_mark};

use crate::engine::{Engine, ZEROTH};
use crate::step::Step;
use cell::address::Address;
use cell::frame::Frame;
use cell::name::Name;
use cell::value::Value;
use machine::end::End;
use machine::mode::Mode;
use machine::name_move::NameMove;
use machine::wind_move::WindMove;
use store::store::Store;

/// How many frames `cc` pushes.
const FRAMES_FOR_MANY: u32 = 1;

/// How many frames `cc1` pushes.
const FRAMES_FOR_ONE: u32 = 2;

impl<F: Store, W: Store> Engine<F, W> {
    /// Ends a step that saved under a name: it is in r0, and the procedure follows.
    fn pass_name(&mut self, name: Name, body: Address, save: NameMove)
        ensures { self.new ≡ turned (with_register self.old zeroth (ContinuationOf name)) (GoingAt body) Stay save }
    {
        self.set_register(ZEROTH, Value::Continuation(name));
        self.turn(Mode::Going(body), WindMove::Stay, save);
    }

    /// The rest of `cc`, under a name.
    fn capture_many_as(&mut self, name: Name, back: Address, body: Address) -> Result<Step, End>
        ensures { (result, self.new) ≡ carry_as name (naming SaveMany (writing (ToRegister zeroth (ContinuationOf name)) (framing (Push (BackTo back)) (moves (GoingAt body))))) self.old }
    {
        self.check_capture(FRAMES_FOR_MANY)?;
        self.push_frame(Frame::Back(back))?;
        self.hold_many(name)?;
        self.pass_name(name, body, NameMove::SaveMany);
        Ok(Step::Made)
    }

    /// A continuation is captured for many throws, and the procedure follows.
    pub fn capture_many(&mut self, back: Address, body: Address) -> Result<Step, End>
        ensures { (result, self.new) ≡ carried (capturing SaveMany (Push (BackTo back)) self.old body) self.old }
    {
        let name = self.next_name();
        self.capture_many_as(name, back, body)
    }

    // Apart from `capture_many_as`: the save comes before the Mark is pushed, so one function would test the kind twice.
    /// The rest of `cc1`, under a name.
    fn capture_once_as(&mut self, name: Name, back: Address, body: Address) -> Result<Step, End>
        ensures { (result, self.new) ≡ carry_as name (naming SaveOnce (writing (ToRegister zeroth (ContinuationOf name)) (framing (PushBoth (BackTo back) (MarkOf name)) (moves (GoingAt body))))) self.old }
    {
        self.check_capture(FRAMES_FOR_ONE)?;
        self.push_frame(Frame::Back(back))?;
        self.hold_once(name)?;
        self.push_frame(Frame::Mark(name))?;
        self.pass_name(name, body, NameMove::SaveOnce);
        Ok(Step::Made)
    }

    /// A continuation is captured for one throw, and the procedure follows.
    pub fn capture_once(&mut self, back: Address, body: Address) -> Result<Step, End>
        ensures { (result, self.new) ≡ carried (capturing SaveOnce (PushBoth (BackTo back) (fresh_mark self.old)) self.old body) self.old }
    {
        let name = self.next_name();
        self.capture_once_as(name, back, body)
    }

    /// A name is forgotten.
    pub fn forget(&mut self, name: Name, mode: Mode) -> Result<Step, End>
        ensures { (result, self.new) ≡ carried (does (naming (Forget name) (moves mode))) self.old }
    {
        self.release(name)?;
        self.turn(mode, WindMove::Stay, NameMove::Forget(name));
        Ok(Step::Made)
    }

    /// The Mark of a name that serves for one throw is passed, which uses the name up.
    pub fn pop_using(&mut self, name: Name) -> Result<Step, End>
        ensures { (result, self.new) ≡ carried (does (naming (Use name) (framing Pop (moves ReturningNow)))) self.old }
    {
        self.pop_frame()?;
        self.release(name)?;
        self.turn(Mode::Returning, WindMove::Stay, NameMove::Use(name));
        Ok(Step::Made)
    }

    /// A throw comes to its end, and its name goes on being held.
    pub fn land(&mut self, name: Name, value: Value) -> Result<Step, End>
        ensures { (result, self.new) ≡ carried (does (writing (ToRegister zeroth value) (framing (Restore name) (moves ReturningNow)))) self.old }
    {
        self.restore_frames(name)?;
        Ok(self.write(ZEROTH, value, Mode::Returning))
    }

    /// Ends a step that used a name up: the value is in r0, and it is returned.
    fn pass_value(&mut self, name: Name, value: Value)
        ensures { self.new ≡ turned (with_register self.old zeroth value) ReturningNow Stay (Use name) }
    {
        self.set_register(ZEROTH, value);
        self.turn(Mode::Returning, WindMove::Stay, NameMove::Use(name));
    }

    /// A throw comes to its end, which uses its name up.
    pub fn land_using(&mut self, name: Name, value: Value) -> Result<Step, End>
        ensures { (result, self.new) ≡ carried (does (writing (ToRegister zeroth value) (naming (Use name) (framing (Restore name) (moves ReturningNow))))) self.old }
    {
        self.take_frames(name)?;
        self.release_winds(name)?;
        self.pass_value(name, value);
        Ok(Step::Made)
    }
}
