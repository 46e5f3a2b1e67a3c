//! Values as words.

ghost use Rattle.std.specs.Prelude.{◌≡◌};
ghost use Rattle.cell.specs.Elements.{value_kind, value_payload, value_in};

use crate::address::Address;
use crate::name::Name;
use crate::value::Value;

// Kinds are words of a cell, and stay numbers: an enum of them would repeat the variants of `Value`.
const EMPTY: u32 = 0;

const NUMBER: u32 = 1;

const PROCEDURE: u32 = 2;

const CONTINUATION: u32 = 3;

impl Value {
    /// The word that tells a value's kind. Apart from `payload`, so that the words of a frame stand in one list.
    pub(crate) fn kind(self) -> u32
        ensures { result ≡ value_kind self }
    {
        match self {
            Value::Empty => EMPTY,
            Value::Number(_) => NUMBER,
            Value::Procedure(_) => PROCEDURE,
            Value::Continuation(_) => CONTINUATION,
        }
    }

    /// The word that a kind is followed by.
    pub(crate) fn payload(self) -> u32
        ensures value { result ≡ value_payload self }
        ensures faithful { value_in (value_kind self) result ≡ self }
    {
        match self {
            Value::Empty => 0,
            Value::Number(number) => number.cast_unsigned(),
            Value::Procedure(address) => address.0,
            Value::Continuation(name) => name.0,
        }
    }

    /// The value of two words.
    pub(crate) fn from_words(kind: u32, payload: u32) -> Value
        ensures { result ≡ value_in kind payload }
    {
        match kind {
            NUMBER => Value::Number(payload.cast_signed()),
            PROCEDURE => Value::Procedure(Address(payload)),
            CONTINUATION => Value::Continuation(Name(payload)),
            _ => Value::Empty,
        }
    }
}
