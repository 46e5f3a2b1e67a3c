//! Frames as elements.

ghost use Rattle.cell.specs.Elements.{frame_words, frame_in};

use crate::address::Address;
use crate::cell::Cell;
use crate::element::Element;
use crate::frame::Frame;
use crate::name::Name;
use crate::value::Value;

// Tags are words of a cell, and stay numbers: an enum of them would repeat the variants of `Frame`, and be turned twice.
const SAVED: u32 = 1;

const BACK: u32 = 2;

const MARK: u32 = 3;

const IN: u32 = 4;

const OUT: u32 = 5;

const HOLD: u32 = 6;

const TOSS: u32 = 7;

const ENTER: u32 = 8;

impl Element for Frame {
    const LEAST_DEPTH: u32 = 16;

    ghost LEAST_DEPTH = { 16 };

    ghost written = { frame_words };

    ghost read = { frame_in };

    fn to_cell(self) -> Cell {
        match self {
            Frame::Saved(value) => Cell::filled(&[SAVED, value.kind(), value.payload()]),
            Frame::Back(address) => Cell::filled(&[BACK, address.0]),
            Frame::Mark(name) => Cell::filled(&[MARK, name.0]),
            Frame::In(before, body, after) => Cell::filled(&[IN, before.0, body.0, after.0]),
            Frame::Out => Cell::filled(&[OUT]),
            Frame::Hold(value) => Cell::filled(&[HOLD, value.kind(), value.payload()]),
            Frame::Toss(name, value) => Cell::filled(&[
                TOSS,
                name.0,
                value.kind(),
                value.payload(),
            ]),
            Frame::Enter(name, value) => Cell::filled(&[
                ENTER,
                name.0,
                value.kind(),
                value.payload(),
            ]),
        }
    }

    fn from_cell(cell: Cell) -> Frame {
        let [tag, first, second, third, ..] = cell.words;
        match tag {
            SAVED => Frame::Saved(Value::from_words(first, second)),
            BACK => Frame::Back(Address(first)),
            MARK => Frame::Mark(Name(first)),
            IN => Frame::In(Address(first), Address(second), Address(third)),
            HOLD => Frame::Hold(Value::from_words(first, second)),
            TOSS => Frame::Toss(Name(first), Value::from_words(second, third)),
            ENTER => Frame::Enter(Name(first), Value::from_words(second, third)),
            _ => Frame::Out,
        }
    }
}
