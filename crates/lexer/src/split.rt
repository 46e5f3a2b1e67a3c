//! Bytes parted at a separator.
ghost use Rattle.std.specs.Prelude.{◌≡◌};
ghost use Rattle.std.specs.Option.{option_map};
ghost use Rattle.lexer.specs.Split.{spaces, split_once as splits_once};

/// The bytes before the first separator and those after it, if there is one.
pub(crate) fn split_once(bytes: &[u8], separator: u8) -> Option<(&[u8], &[u8])>
    ensures { option_map (λ p. (p.0.now, p.1.now)) result ≡ splits_once separator bytes.now }
{
    let end = bytes.iter().position(|b| *b == separator)?;
    Some((&bytes[..end], &bytes[end + 1..]))
}

/// How many spaces there are.
pub fn space_count(line: &[u8]) -> usize
    ensures { result ≡ spaces line.now }
{
    line.iter().filter(|b| **b == b' ').count()
}
