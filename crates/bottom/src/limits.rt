//! The limits that a bottom store may be given: a depth and a number of names, each by itself, as callers give them.
ghost use Rattle.std.specs.Prelude.{◌≡◌, if◌then◌else◌};
ghost use Rattle.bottom.specs.Limits.{in_range, cells_needed, accepted};

/// The least depth limit that a bottom store may have; what a list of frames needs is the same number, but a rule of its own.
pub const LEAST_DEPTH: u32 = 16;

/// The greatest depth limit.
pub const MOST_DEPTH: u32 = 4096;

/// The least held limit.
pub const LEAST_HELD: u32 = 2;

/// The greatest held limit.
pub const MOST_HELD: u32 = 64;

/// Whether a depth limit and a held limit are ones that a bottom store may have.
pub fn are_in_range(depth: u32, held: u32) -> bool
    ensures { result ≡ in_range depth held }
{
    (LEAST_DEPTH..=MOST_DEPTH).contains(&depth) && (LEAST_HELD..=MOST_HELD).contains(&held)
}

/// How many cells a store with these limits must have room for.
pub fn cells_needed(depth: u32, held: u32) -> usize
    ensures { result ≡ cells_needed depth held }
{
    depth as usize * (held as usize + 1)
}

/// The limits that were asked for, or both 0 unless they are in range and there is room for so many cells: a store that
/// refuses everything, so no `Option`.
pub fn granted(room: usize, depth: u32, held: u32) -> (u32, u32)
    ensures { result ≡ (if accepted room (cells_needed depth held) depth held then (depth, held) else (0, 0)) }
{
    if are_in_range(depth, held) && cells_needed(depth, held) <= room {
        (depth, held)
    } else {
        (0, 0)
    }
}
