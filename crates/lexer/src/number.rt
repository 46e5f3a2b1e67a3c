//! Numbers in base ten.
ghost use Rattle.std.specs.Prelude.{◌≡◌, ◌^◌, ◌<◌, ◌≤◌, true, length};
ghost use Rattle.lexer.specs.Number.{all_digits, well_formed, value_after, magnitude as magnitudes, number as numbers};

use crate::bytes::all_within;
use crate::fault::Fault;

/// How many digits a number may have.
const MOST_DIGITS: usize = 10;

/// One digit, or several of which the first is not 0.
fn is_well_formed(digits: &[u8]) -> bool
    ensures { result ≡ well_formed digits.now }
{
    match digits {
        [] => false,
        [b'0', _, ..] => false,
        _ => all_within(digits, b'0', b'9'),
    }
}

/// By hand, since `parse` takes text, and its refusals, none of which can be met here, would have to be ruled out.
fn value(digits: &[u8]) -> u64
    requires digits { all_digits digits.now ≡ true }
    requires few { length digits.now ≤ 10 }
    ensures { result ≡ value_after 0 digits.now }
{
    let mut n = 0u64;
    for b in digits {
        n = n * 10 + u64::from(*b - b'0');
    }
    n
}

/// The value of at most ten well-formed digits.
pub fn magnitude(digits: &[u8]) -> Result<u64, Fault>
    ensures { result ≡ magnitudes digits.now }
{
    if !is_well_formed(digits) {
        return Err(Fault::BadOperand);
    }
    if digits.len() > MOST_DIGITS {
        return Err(Fault::NumberOutOfRange);
    }
    Ok(value(digits))
}

/// A signed word.
pub fn number(word: &[u8]) -> Result<i32, Fault>
    ensures { result ≡ numbers word.now }
{
    let signed = match word {
        [b'-', digits @ ..] => match magnitude(digits)? {
            0 => return Err(Fault::BadOperand),
            m => -i128::from(m),
        },
        _ => i128::from(magnitude(word)?),
    };
    i32::try_from(signed).map_err(|_| Fault::NumberOutOfRange)
}
