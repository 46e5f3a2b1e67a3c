//! Bytes that lie in a range.
ghost use Rattle.std.specs.Prelude.{◌≡◌};
ghost use Rattle.lexer.specs.Bytes.{all_within};

/// Whether every byte lies between the lowest and the highest.
pub fn all_within(bytes: &[u8], low: u8, high: u8) -> bool
    ensures { result ≡ all_within low high bytes.now }
{
    bytes.iter().all(|b| (low..=high).contains(b))
}
