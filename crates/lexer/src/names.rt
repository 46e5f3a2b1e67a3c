//! Names read from bytes.
ghost use Rattle.std.specs.Prelude.{◌≡◌};
ghost use Rattle.lexer.specs.Names.{label_name};

use crate::bytes::all_within;
use crate::label_name::{LabelName, MOST_LETTERS};

/// The name that these bytes make, if they are 1 to 12 letters.
pub fn name(word: &[u8]) -> Option<LabelName>
    ensures { result ≡ label_name word.now }
{
    if word.is_empty() || word.len() > MOST_LETTERS || !all_within(word, b'a', b'z') {
        return None;
    }
    let mut letters = [0; MOST_LETTERS];
    letters[..word.len()].copy_from_slice(word);
    Some(LabelName { letters })
}
