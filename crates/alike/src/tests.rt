//! Stores of equal limits, called alike.

use crate::answers::Answers;
use crate::caller::Caller;
use cell::address::Address;
use cell::frame::Frame;
use copied::copied::Copied;
use layers::cache::Cache;
use layers::quota::Quota;
use linked::linked::Linked;
use linked::node::Node;
use std::alloc::{AllocError, Global};
use std::test::Fail;
use store::lent::Lent;
use store::store::Store;
use store::typed::Typed;

const DEPTH: u32 = 20;

const HELD: u32 = 5;

const CELLS: usize = 120;

const CALLS: u32 = 20000;

const BEGINNING: u64 = 2026;

fn linked(heap: Global) -> Result<Linked, AllocError> {
    let memory = vec![in heap; Node::default(); CELLS]?;
    Ok(Linked::new(memory, DEPTH, HELD))
}

fn copied(heap: Global, depth: u32) -> Result<Copied, AllocError> {
    let memory = vec![in heap; 0u32; 1024]?;
    Ok(Copied::new(memory, depth, HELD))
}

/// What a store answers to the calls.
fn answers<S: Store + Drop>(mut store: S) -> Answers {
    Caller::new(BEGINNING).call(&mut store, CALLS)
}

// The depth limit and the held limit are met many times, and a bottom store's limit is its own.
#[test]
fn limits_are_met(rt: HostRuntime) -> Result<(), Fail> {
    let answers = answers(linked(rt.alloc())?);
    assert!(rt; answers.times_full > 100);
    assert!(rt; answers.times_held_full > 100);
    assert_eq!(rt; answers.level, 0);
    Ok(())
}

#[test]
fn copied_as_linked(rt: HostRuntime) -> Result<(), Fail> {
    let copied = answers(copied(rt.alloc(), DEPTH)?);
    assert_eq!(rt; copied, answers(linked(rt.alloc())?));
    Ok(())
}

#[test]
fn two_caches_as_linked(rt: HostRuntime) -> Result<(), Fail> {
    let cached = answers(Cache::new(Cache::new(linked(rt.alloc())?)));
    assert_eq!(rt; cached, answers(linked(rt.alloc())?));
    Ok(())
}

// The quota is two layers above the bottom, and it is its limit that is met.
#[test]
fn quota_as_linked_but_for_its_level(rt: HostRuntime) -> Result<(), Fail> {
    let bottom = answers(linked(rt.alloc())?);
    let layered = answers(Quota::new(Cache::new(copied(rt.alloc(), 32)?), DEPTH));
    assert_eq!(rt; layered, Answers { level: 2, ..bottom });
    Ok(())
}

// A list made of a store that is only lent changes that store.
#[test]
fn lent_store_keeps_what_its_list_was_given(rt: HostRuntime) -> Result<(), Fail> {
    let mut store = linked(rt.alloc())?;
    let mut frames: Typed<Lent<Linked>, Frame> = Typed::new(Lent(&mut store));
    assert_eq!(rt; frames.push(Frame::Back(Address(7))), Ok(()));
    assert_eq!(rt; frames.top(), Some(Frame::Back(Address(7))));
    assert_eq!(rt; frames.store().len(), 1);
    assert_eq!(rt; store.len(), 1);
    Ok(())
}
