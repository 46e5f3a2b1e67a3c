//! Stores of some makes, with nothing in them.

use crate::directives::Limits;
use bottom::limits::{are_in_range, cells_needed};
use cell::cell::WIDTH;
use copied::copied::Copied;
use layers::cache::Cache;
use layers::quota::Quota;
use linked::linked::Linked;
use linked::node::Node;
use std::alloc::{AllocError, Global};

/// The depth of the bottom stores under quotas.
const DEPTH: u32 = 64;

/// By how much one quota of two is the larger.
const MORE: u32 = 4;

/// Of how many cells memory is given: none for limits that no bottom store may have.
fn cells_given(depth: u32, names: u32) -> usize {
    if are_in_range(depth, names) {
        cells_needed(depth, names)
    } else {
        0
    }
}

fn linked(heap: Global, depth: u32, names: u32) -> Result<Linked, AllocError> {
    let memory = vec![in heap; Node::default(); cells_given(depth, names)]?;
    Ok(Linked::new(memory, depth, names))
}

fn copied(heap: Global, depth: u32, names: u32) -> Result<Copied, AllocError> {
    let memory = vec![in heap; 0u32; cells_given(depth, names).saturating_mul(WIDTH)]?;
    Ok(Copied::new(memory, depth, names))
}

fn layered(heap: Global, depth: u32, names: u32) -> Result<Quota<Cache<Copied>>, AllocError> {
    Ok(Quota::new(Cache::new(copied(heap, DEPTH, names)?), depth))
}

/// A frame store and a wind store of linked frames.
pub fn both_linked(heap: Global, limits: &Limits) -> Result<(Linked, Linked), AllocError> {
    let frames = linked(heap, limits.frames, limits.frame_names)?;
    let winds = linked(heap, limits.winds, limits.wind_names)?;
    Ok((frames, winds))
}

/// Copied stacks.
pub fn both_copied(heap: Global, limits: &Limits) -> Result<(Copied, Copied), AllocError> {
    let frames = copied(heap, limits.frames, limits.frame_names)?;
    let winds = copied(heap, limits.winds, limits.wind_names)?;
    Ok((frames, winds))
}

/// Quotas over caches over copied stacks.
pub fn both_layered(
    heap: Global,
    limits: &Limits,
) -> Result<(Quota<Cache<Copied>>, Quota<Cache<Copied>>), AllocError> {
    let frames = layered(heap, limits.frames, limits.frame_names)?;
    let winds = layered(heap, limits.winds, limits.wind_names)?;
    Ok((frames, winds))
}

/// A cache over linked frames, and one over a copied stack.
pub fn both_cached(
    heap: Global,
    limits: &Limits,
) -> Result<(Cache<Linked>, Cache<Copied>), AllocError> {
    let frames = linked(heap, limits.frames, limits.frame_names)?;
    let winds = copied(heap, limits.winds, limits.wind_names)?;
    Ok((Cache::new(frames), Cache::new(winds)))
}

/// Two quotas over a copied stack, the outer one less, and two over linked frames, the inner one less.
pub fn both_quotas(
    heap: Global,
    limits: &Limits,
) -> Result<(Quota<Quota<Copied>>, Quota<Quota<Linked>>), AllocError> {
    let frames = copied(heap, DEPTH, limits.frame_names)?;
    let winds = linked(heap, DEPTH, limits.wind_names)?;
    let larger = Quota::new(frames, limits.frames.saturating_add(MORE));
    let smaller = Quota::new(winds, limits.winds);
    Ok((
        Quota::new(larger, limits.frames),
        Quota::new(smaller, limits.winds.saturating_add(MORE)),
    ))
}
