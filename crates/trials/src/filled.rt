//! Stores that have something in them.

use crate::directives::Directives;
use cell::cell::Cell;
use cell::name::Name;
use store::store::Store;

/// The first word of a cell that no frame is written as.
const STRANGE: u32 = 9;

/// Fills a store with cells and names, as many of them as it takes.
fn fill<S: Store>(store: &mut S, cells: u32, names: u32) {
    for i in 0..cells {
        let _ = store.push(Cell {
            words: [STRANGE, i, i, i],
        });
    }
    for i in 1..=names {
        let _ = store.save(Name(i));
    }
}

/// The stores with what a sheet wants in them.
pub fn filled<F: Store, W: Store>(directives: &Directives, stores: (F, W)) -> (F, W) {
    let (mut frames, mut winds) = stores;
    let cells = directives.cells;
    let names = directives.names;
    fill(&mut frames, cells.in_frames, names.in_frames);
    fill(&mut winds, cells.in_winds, names.in_winds);
    (frames, winds)
}
