//! A store as a list of elements of one kind: one text for every store and every kind.

ghost use Rattle.std.specs.Prelude.{◌≡◌, length, map};
ghost use Rattle.store.specs.Meaning.{pushed, popped, saved, restored, taken, released, cell_in, saved_length, saved_cell_in, top as uppermost};
ghost use Rattle.std.specs.Borrow.{Lends, sem};
ghost use Rattle.store.specs.contracts.typed.Typed.{the_row};
ghost use Rattle.store.specs.Typed.{refused_as, refused_of, outcome_as, read_as, Written};

use crate::refused::Refused;
use crate::store::Store;
use cell::element::Element;
use cell::name::Name;
use std::marker::{Model, PhantomData};

// Each call below is the call of the same name on the store, at elements; the store is only lent. `Typed` has the same calls on a store of its own.

/// Adds an element on top.
pub fn push<S: Store, E: Element>(store: &mut S, element: E) -> Result<(), Refused<E>>
    ensures call { (result, read_as E.read (S.meaning store.new)) ≡ outcome_as refused_of (pushed (read_as E.read (S.meaning store.old)) element) }
    ensures written { Written E.read E.written (S.meaning store.old) → Written E.read E.written (S.meaning store.new) }
    ensures memory { S.fixed store.new ≡ S.fixed store.old }
{
    Ok(store.push(element.to_cell())?)
}

/// Removes and answers the element on top.
pub fn pop<S: Store, E: Element>(store: &mut S) -> Result<E, Refused<E>>
    ensures call { (result, read_as E.read (S.meaning store.new)) ≡ outcome_as refused_of (popped (read_as E.read (S.meaning store.old))) }
    ensures written { Written E.read E.written (S.meaning store.old) → Written E.read E.written (S.meaning store.new) }
    ensures memory { S.fixed store.new ≡ S.fixed store.old }
{
    Ok(E::from_cell(store.pop()?))
}

/// Keeps the current list under a name.
pub fn save<S: Store, E: Element>(store: &mut S, name: Name) -> Result<(), Refused<E>>
    ensures call { (result, read_as E.read (S.meaning store.new)) ≡ outcome_as refused_of (saved (read_as E.read (S.meaning store.old)) name.0) }
    ensures written { Written E.read E.written (S.meaning store.old) → Written E.read E.written (S.meaning store.new) }
    ensures memory { S.fixed store.new ≡ S.fixed store.old }
{
    Ok(store.save(name)?)
}

/// Makes the list saved under a name current.
pub fn restore<S: Store, E: Element>(store: &mut S, name: Name) -> Result<(), Refused<E>>
    ensures call { (result, read_as E.read (S.meaning store.new)) ≡ outcome_as refused_of (restored (read_as E.read (S.meaning store.old)) name.0) }
    ensures written { Written E.read E.written (S.meaning store.old) → Written E.read E.written (S.meaning store.new) }
    ensures memory { S.fixed store.new ≡ S.fixed store.old }
{
    Ok(store.restore(name)?)
}

/// As restore, and lets the name go.
pub fn take<S: Store, E: Element>(store: &mut S, name: Name) -> Result<(), Refused<E>>
    ensures call { (result, read_as E.read (S.meaning store.new)) ≡ outcome_as refused_of (taken (read_as E.read (S.meaning store.old)) name.0) }
    ensures written { Written E.read E.written (S.meaning store.old) → Written E.read E.written (S.meaning store.new) }
    ensures memory { S.fixed store.new ≡ S.fixed store.old }
{
    Ok(store.take(name)?)
}

/// Lets a name go.
pub fn release<S: Store, E: Element>(store: &mut S, name: Name) -> Result<(), Refused<E>>
    ensures call { (result, read_as E.read (S.meaning store.new)) ≡ outcome_as refused_of (released (read_as E.read (S.meaning store.old)) name.0) }
    ensures written { Written E.read E.written (S.meaning store.old) → Written E.read E.written (S.meaning store.new) }
    ensures memory { S.fixed store.new ≡ S.fixed store.old }
{
    Ok(store.release(name)?)
}

/// Answers the element on top, if there is any.
pub fn top<S: Store, E: Element>(store: &S) -> Option<E>
    ensures { result ≡ uppermost (map E.read (S.meaning store.now).current) }
{
    let index = store.len().checked_sub(1)?;
    let cell = store.cell_at(index).ok()?;
    Some(E::from_cell(cell))
}

/// Answers the element at an index of the current list.
pub fn at<S: Store, E: Element>(store: &S, index: u32) -> Result<E, Refused<E>>
    ensures { result ≡ refused_as refused_of (cell_in (map E.read (S.meaning store.now).current) index) }
{
    Ok(E::from_cell(store.cell_at(index)?))
}

/// Answers the length of the list that is saved under a name.
pub fn saved_len<S: Store, E: Element>(store: &S, name: Name) -> Result<u32, Refused<E>>
    ensures { result ≡ refused_as refused_of (saved_length (read_as E.read (S.meaning store.now)) name.0) }
{
    Ok(store.saved_len(name)?)
}

/// Answers the element at an index of the list that is saved under a name.
pub fn saved_at<S: Store, E: Element>(store: &S, name: Name, index: u32) -> Result<E, Refused<E>>
    ensures { result ≡ refused_as refused_of (saved_cell_in (read_as E.read (S.meaning store.now)) name.0 index) }
{
    Ok(E::from_cell(store.saved_cell(name, index)?))
}

/// A store, each cell of which is read as an element. Each call is the call of the same name on the store, at elements.
/// What a call keeps is two clauses in each: one name for both would take four functions of the two bounds.
#[derive(Drop)]
pub struct Typed<S: Store, E: Element> {
    store: S,
    of: PhantomData<E>,
}

impl<S: Store, E: Element> Model for Typed<S, E> {
    ghost use Rattle.store.specs.Elements.{Elements};
    ghost use Rattle.store.specs.Typed.{read_as};

    ghost Value = { Elements S E };

    ghost view = { λ t. record { store = t.store; list = read_as E.read (S.meaning t.store) } };
}

impl<S: Store, E: Element> Typed<S, E> {
    /// A store as a list of elements.
    pub fn new(store: S) -> Self
        ensures store { result.store ≡ store }
        ensures list { result.list ≡ read_as E.read (S.meaning store) }
    {
        Typed {
            store,
            of: PhantomData,
        }
    }

    /// Gives the store back.
    pub fn into_store(self) -> S
        ensures store { result ≡ self.store }
        ensures list { self.list ≡ read_as E.read (S.meaning result) }
    {
        let Typed { store, of: _ } = self;
        store
    }

    /// The store. The list is always what it means when each of its cells is read.
    pub fn store(&self) -> &S
        ensures store { result.now ≡ self.now.store }
        ensures list { self.now.list ≡ read_as E.read (S.meaning self.now.store) }
    {
        &self.store
    }

    /// The store, lent. The list is then what is left in the store, each cell read.
    pub fn store_mut(&mut self) -> &mut S
        ensures* writes_back { sem 𝓛 (Lends (the_row S.row E.row S.Slot.row S.Store E.Element) S.row self.entry result (λ s. record { store = s; list = read_as E.read (S.meaning s) })) }
        ensures store { result.now ≡ self.old.store }
        ensures list { self.old.list ≡ read_as E.read (S.meaning self.old.store) }
    {
        &mut self.store
    }

    /// Adds an element on top.
    pub fn push(&mut self, element: E) -> Result<(), Refused<E>>
        ensures call { (result, self.new.list) ≡ outcome_as refused_of (pushed self.old.list element) }
        ensures written { Written E.read E.written (S.meaning self.old.store) → Written E.read E.written (S.meaning self.new.store) }
        ensures memory { S.fixed self.new.store ≡ S.fixed self.old.store }
    {
        push(&mut self.store, element)
    }

    /// Removes and answers the element on top.
    pub fn pop(&mut self) -> Result<E, Refused<E>>
        ensures call { (result, self.new.list) ≡ outcome_as refused_of (popped self.old.list) }
        ensures written { Written E.read E.written (S.meaning self.old.store) → Written E.read E.written (S.meaning self.new.store) }
        ensures memory { S.fixed self.new.store ≡ S.fixed self.old.store }
    {
        pop(&mut self.store)
    }

    /// Keeps the current list under a name.
    pub fn save(&mut self, name: Name) -> Result<(), Refused<E>>
        ensures call { (result, self.new.list) ≡ outcome_as refused_of (saved self.old.list name.0) }
        ensures written { Written E.read E.written (S.meaning self.old.store) → Written E.read E.written (S.meaning self.new.store) }
        ensures memory { S.fixed self.new.store ≡ S.fixed self.old.store }
    {
        save(&mut self.store, name)
    }

    /// Makes the list saved under a name current.
    pub fn restore(&mut self, name: Name) -> Result<(), Refused<E>>
        ensures call { (result, self.new.list) ≡ outcome_as refused_of (restored self.old.list name.0) }
        ensures written { Written E.read E.written (S.meaning self.old.store) → Written E.read E.written (S.meaning self.new.store) }
        ensures memory { S.fixed self.new.store ≡ S.fixed self.old.store }
    {
        restore(&mut self.store, name)
    }

    /// As restore, and lets the name go.
    pub fn take(&mut self, name: Name) -> Result<(), Refused<E>>
        ensures call { (result, self.new.list) ≡ outcome_as refused_of (taken self.old.list name.0) }
        ensures written { Written E.read E.written (S.meaning self.old.store) → Written E.read E.written (S.meaning self.new.store) }
        ensures memory { S.fixed self.new.store ≡ S.fixed self.old.store }
    {
        take(&mut self.store, name)
    }

    /// Lets a name go.
    pub fn release(&mut self, name: Name) -> Result<(), Refused<E>>
        ensures call { (result, self.new.list) ≡ outcome_as refused_of (released self.old.list name.0) }
        ensures written { Written E.read E.written (S.meaning self.old.store) → Written E.read E.written (S.meaning self.new.store) }
        ensures memory { S.fixed self.new.store ≡ S.fixed self.old.store }
    {
        release(&mut self.store, name)
    }

    /// Answers the element on top, if there is any.
    pub fn top(&self) -> Option<E>
        ensures { result ≡ uppermost self.now.list.current }
    {
        top(&self.store)
    }

    /// Answers the element at an index of the current list.
    pub fn at(&self, index: u32) -> Result<E, Refused<E>>
        ensures { result ≡ refused_as refused_of (cell_in self.now.list.current index) }
    {
        at(&self.store, index)
    }

    /// Answers the length of the list that is saved under a name.
    pub fn saved_len(&self, name: Name) -> Result<u32, Refused<E>>
        ensures { result ≡ refused_as refused_of (saved_length self.now.list name.0) }
    {
        saved_len(&self.store, name)
    }

    /// Answers the element at an index of the list that is saved under a name.
    pub fn saved_at(&self, name: Name, index: u32) -> Result<E, Refused<E>>
        ensures { result ≡ refused_as refused_of (saved_cell_in self.now.list name.0 index) }
    {
        saved_at(&self.store, name, index)
    }

    /// Answers the length of the current list.
    pub fn len(&self) -> u32
        ensures { result ≡ length self.now.list.current }
    {
        self.store.len()
    }

    /// Answers how long the current list may be.
    pub fn depth_limit(&self) -> u32
        ensures { result ≡ self.now.list.depth_limit }
    {
        self.store.depth_limit()
    }

    /// Answers the height of the store whose depth limit this is.
    pub fn limit_level(&self) -> u32
        ensures { result ≡ self.now.list.limit_level }
    {
        self.store.limit_level()
    }

    /// Answers how many names are held.
    pub fn held(&self) -> u32
        ensures { result ≡ length self.now.list.held }
    {
        self.store.held()
    }

    /// Answers how many names may be held.
    pub fn held_limit(&self) -> u32
        ensures { result ≡ self.now.list.held_limit }
    {
        self.store.held_limit()
    }
}
