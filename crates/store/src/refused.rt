//! Refusals of a store, by what it keeps.

ghost use Rattle.std.specs.Prelude.{◌≡◌};
ghost use Rattle.store.specs.Typed.{refused_of};

use crate::refusal::Refusal;
use std::marker::PhantomData;

/// A store of elements of one kind refused a call; no other store's refusal is taken for it.
#[derive(Clone, Copy, PartialEq, Eq, Debug)]
pub struct Refused<E> {
    pub why: Refusal,
    of: PhantomData<E>,
}

impl<E> From<Refusal> for Refused<E> {
    ghost from_gives = { λ e r. r ≡ refused_of e };

    fn from(why: Refusal) -> Self {
        Refused {
            why,
            of: PhantomData,
        }
    }
}
