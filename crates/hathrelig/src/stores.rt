//! The stores that a sheet is run on.
ghost use Rattle.std.specs.Prelude.{◌≡◌, true, IfOk};
ghost use Rattle.bottom.specs.Limits.{in_range};
ghost use Rattle.bottom.specs.Meant.{opened};
ghost use Rattle.layers.specs.Layers.{raised, limited};
ghost use Rattle.machine.specs.Opening.{offer_of};
ghost use Rattle.hathrelig.specs.Output.{empty_store};

use bottom::limits::cells_needed;
use cell::cell::WIDTH;
use copied::copied::Copied;
use layers::cache::Cache;
use layers::quota::Quota;
use linked::linked::Linked;
use linked::node::Node;
use std::alloc::{AllocError, Global};
use store::store::Store;

/// How deep the stores of frames are.
const FRAME_DEPTH: u32 = 48;

/// How deep those of winds are.
const WIND_DEPTH: u32 = 16;

/// How many names each store may hold.
const NAMES: u32 = 7;

/// The quota over the copied stacks.
const QUOTA: u32 = 32;

/// A copied stack with a cache over it, and a quota over both.
pub type Layered = Quota<Cache<Copied>>;

/// A store of linked frames, with nothing in it.
fn linked(alloc: Global, depth: u32) -> Result<Linked, AllocError>
    requires { in_range depth 7 ≡ true }
    ensures { IfOk result (λ s. ⟦<Linked as Store>⟧.meaning s ≡ opened true depth 7) }
{
    let memory = vec![in alloc; Node::default(); cells_needed(depth, NAMES)]?;
    Ok(Linked::new(memory, depth, NAMES))
}

/// A copied stack with its layers, with nothing in it.
fn layered(alloc: Global, depth: u32) -> Result<Layered, AllocError>
    requires { in_range depth 7 ≡ true }
    ensures { IfOk result (λ s. ⟦<Layered as Store>⟧.meaning s ≡ limited 32 (raised (opened true depth 7))) }
{
    let memory = vec![in alloc; 0u32; WIDTH * cells_needed(depth, NAMES)]?;
    let bottom = Copied::new(memory, depth, NAMES);
    Ok(Quota::new(Cache::new(bottom), QUOTA))
}

/// Linked stores, for frames and for winds.
pub fn linked_stores(alloc: Global) -> Result<(Linked, Linked), AllocError>
    ensures { IfOk result (λ s. (offer_of (⟦<Linked as Store>⟧.meaning s.0) ≡ empty_store 48 0) × (offer_of (⟦<Linked as Store>⟧.meaning s.1) ≡ empty_store 16 0)) }
{
    Ok((linked(alloc, FRAME_DEPTH)?, linked(alloc, WIND_DEPTH)?))
}

/// Copied stacks with their layers, for frames and for winds.
pub fn layered_stores(alloc: Global) -> Result<(Layered, Layered), AllocError>
    ensures frames { IfOk result (λ s. offer_of (⟦<Layered as Store>⟧.meaning s.0) ≡ empty_store 32 2) }
    ensures winds { IfOk result (λ s. offer_of (⟦<Layered as Store>⟧.meaning s.1) ≡ empty_store 16 0) }
{
    Ok((layered(alloc, FRAME_DEPTH)?, layered(alloc, WIND_DEPTH)?))
}
