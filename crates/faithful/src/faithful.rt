//! The law of this crate.

ghost use Rattle.faithful.specs.Faithful.{PortionsCarriedOut};

/// Steps in a row on two stores come to what the machine's portion of as many steps comes to, with the same bytes, and leave the
/// stores and the rows fit for more.
pub fn portions_carried_out()
    ensures { PortionsCarriedOut }
{}
