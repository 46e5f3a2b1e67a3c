//! Acts that no name is part of: writes, and moves of frames and winds.
ghost use Rattle.std.specs.Prelude.{◌≡◌, Ok, None};
ghost use Rattle.machine.specs.Acts.{moves, writing, framing, winding, does};
ghost use Rattle.machine.specs.declared.frame_move.FrameMove.TheVariants.{Push as PushOne, PushBoth, Pop as PopOne, Replace};
ghost use Rattle.machine.specs.declared.mode.Mode.TheVariants.{Going as GoingAt};
ghost use Rattle.machine.specs.declared.wind_move.WindMove.TheVariants.{Open, Reenter, Leave};
ghost use Rattle.machine.specs.declared.write.Write.TheVariants.{Register as ToRegister, Global as ToGlobal};
ghost use Rattle.engine.specs.Acting.{carried, entering, new_wind, replacing};

use crate::counters::up;
use crate::engine::Engine;
use crate::step::Step;
use cell::address::Address;
use cell::frame::Frame;
use cell::value::Value;
use cell::wind::Wind;
use cell::wind_number::WindNumber;
use code::global::Global;
use code::register::Register;
use machine::end::End;
use machine::mode::Mode;
use machine::name_move::NameMove;
use machine::wind_move::WindMove;
use store::store::Store;

impl<F: Store, W: Store> Engine<F, W> {
    /// Nothing but the mode changes.
    pub fn go(&mut self, mode: Mode) -> Step
        ensures { (Ok result, self.new) ≡ carried (does (moves mode)) self.old }
    {
        self.turn(mode, WindMove::Stay, NameMove::Keep);
        Step::Made
    }

    /// A register is written.
    pub fn write(&mut self, register: Register, value: Value, mode: Mode) -> Step
        ensures { (Ok result, self.new) ≡ carried (does (writing (ToRegister register value) (moves mode))) self.old }
    {
        self.set_register(register, value);
        self.go(mode)
    }

    /// A global is written.
    pub fn write_global(&mut self, global: Global, value: Value, mode: Mode) -> Step
        ensures { (Ok result, self.new) ≡ carried (does (writing (ToGlobal global value) (moves mode))) self.old }
    {
        self.set_global(global, value);
        self.go(mode)
    }

    /// A frame is pushed.
    pub fn push(&mut self, frame: Frame, mode: Mode) -> Result<Step, End>
        ensures { (result, self.new) ≡ carried (does (framing (PushOne frame) (moves mode))) self.old }
    {
        self.push_frame(frame)?;
        Ok(self.go(mode))
    }

    /// Two frames are pushed, or none.
    pub fn push_both(&mut self, first: Frame, second: Frame, mode: Mode) -> Result<Step, End>
        ensures { (result, self.new) ≡ carried (does (framing (PushBoth first second) (moves mode))) self.old }
    {
        self.check_frames(2)?;
        self.push_frame(first)?;
        self.push_frame(second)?;
        Ok(self.go(mode))
    }

    /// The top frame is popped.
    pub fn pop(&mut self, mode: Mode) -> Result<Step, End>
        ensures { (result, self.new) ≡ carried (does (framing PopOne (moves mode))) self.old }
    {
        self.pop_frame()?;
        Ok(self.go(mode))
    }

    /// The top frame is popped, and a register is written.
    pub fn pop_into(&mut self, register: Register, value: Value, mode: Mode) -> Result<Step, End>
        ensures { (result, self.new) ≡ carried (does (framing PopOne (writing (ToRegister register value) (moves mode)))) self.old }
    {
        self.pop_frame()?;
        Ok(self.write(register, value, mode))
    }

    /// A wind of the next number is put in force.
    fn enter_new(&mut self, before: Address, after: Address) -> Result<(), End>
        ensures { (result, self.new) ≡ entering (new_wind self.old before after) self.old }
    {
        let number = WindNumber(up(self.counts.numbered));
        self.push_wind(Wind {
            number,
            before,
            after,
        })
    }

    /// Another frame takes the place of the top frame.
    fn replace_top(&mut self, frame: Frame) -> Result<(), End>
        ensures { (result, self.new) ≡ replacing frame self.old }
    {
        self.pop_frame()?;
        self.push_frame(frame)
    }

    /// A new wind is entered, and its body follows.
    pub fn open_wind(&mut self, before: Address, body: Address, after: Address) -> Result<Step, End>
        ensures { (result, self.new) ≡ carried (does (winding (Open before after) (framing (Replace Frame.Out) (moves (GoingAt body))))) self.old }
    {
        self.enter_new(before, after)?;
        self.replace_top(Frame::Out)?;
        self.turn(
            Mode::Going(body),
            WindMove::Open(before, after),
            NameMove::Keep,
        );
        Ok(Step::Made)
    }

    /// A wind is left by its body, whose value waits, and its after follows.
    pub fn close_wind(&mut self, value: Value, after: Address) -> Result<Step, End>
        ensures { (result, self.new) ≡ carried (does (winding Leave (framing (Replace (Frame.Hold value)) (moves (GoingAt after))))) self.old }
    {
        self.replace_top(Frame::Hold(value))?;
        self.leave(after)
    }

    /// A wind is left by a throw, which waits in a frame, and its after follows.
    pub fn throw_out(&mut self, toss: Frame, after: Address) -> Result<Step, End>
        ensures { (result, self.new) ≡ carried (does (winding Leave (framing (PushOne toss) (moves (GoingAt after))))) self.old }
    {
        self.push_frame(toss)?;
        self.leave(after)
    }

    /// The top wind is left, and its after follows.
    fn leave(&mut self, after: Address) -> Result<Step, End>
        ensures { (result, self.new) ≡ carried (does (winding Leave (moves (GoingAt after)))) self.old }
    {
        self.pop_wind()?;
        self.turn(Mode::Going(after), WindMove::Leave, NameMove::Keep);
        Ok(Step::Made)
    }

    /// A saved wind is entered again, and the throw to it goes on.
    pub fn reenter(&mut self, wind: Wind, mode: Mode) -> Result<Step, End>
        ensures { (result, self.new) ≡ carried (does (winding (Reenter wind) (framing PopOne (moves mode)))) self.old }
    {
        self.push_wind(wind)?;
        self.pop_frame()?;
        self.turn(mode, WindMove::Reenter(wind), NameMove::Keep);
        Ok(Step::Made)
    }
    /// The run ends well.
    pub fn finish(&mut self) -> Step
        ensures { (Ok result, self.new) ≡ carried (Ok None) self.old }
    {
        self.turn(self.mode, WindMove::Stay, NameMove::Keep);
        Step::Finished
    }
}
