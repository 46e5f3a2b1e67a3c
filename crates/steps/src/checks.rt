//! The checks of a step on values and numbers, each as the machine defines it.
ghost use Rattle.std.specs.Prelude.{◌≡◌, ◌+ℤ◌, ◌-ℤ◌};
ghost use Rattle.machine.specs.Checks.{number as number_of, procedure as procedure_of, continuation as continuation_of, signed_word};

use cell::address::Address;
use cell::name::Name;
use cell::value::Value;
use machine::end::End;

/// The value has to be a number.
pub(crate) fn number(value: Value) -> Result<i32, End>
    ensures { result ≡ number_of value }
{
    match value {
        Value::Number(number) => Ok(number),
        Value::Empty | Value::Procedure(_) | Value::Continuation(_) => Err(End::WrongKind),
    }
}

/// The value has to be a procedure.
pub(crate) fn procedure(value: Value) -> Result<Address, End>
    ensures { result ≡ procedure_of value }
{
    match value {
        Value::Procedure(address) => Ok(address),
        Value::Empty | Value::Number(_) | Value::Continuation(_) => Err(End::WrongKind),
    }
}

/// The value has to be a continuation.
pub(crate) fn continuation(value: Value) -> Result<Name, End>
    ensures { result ≡ continuation_of value }
{
    match value {
        Value::Continuation(name) => Ok(name),
        Value::Empty | Value::Number(_) | Value::Procedure(_) => Err(End::WrongKind),
    }
}

/// The sum has to be a signed word.
pub(crate) fn sum(left: i32, right: i32) -> Result<i32, End>
    ensures { result ≡ signed_word (left +ℤ right) }
{
    left.checked_add(right).ok_or(End::SumOutOfRange)
}

/// The difference has to be a signed word.
pub(crate) fn difference(left: i32, right: i32) -> Result<i32, End>
    ensures { result ≡ signed_word (left -ℤ right) }
{
    left.checked_sub(right).ok_or(End::SumOutOfRange)
}
