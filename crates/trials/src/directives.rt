//! The comments of a sheet that say how it is run. They begin with `;! `; another reader passes over them as over any comment.

use crate::asked::{Call, calls_of};
use crate::numbers::{signed, word};
use anyhow::{Context, Result, bail};
use code::global::GLOBALS;
use std::alloc::Global;

const BEGINNING: &[u8] = b";! ";

/// The limits that two stores are asked to have.
#[derive(Clone, Copy)]
pub struct Limits {
    pub frames: u32,
    pub winds: u32,
    pub frame_names: u32,
    pub wind_names: u32,
}

const USUAL_LIMITS: Limits = Limits {
    frames: 48,
    winds: 16,
    frame_names: 7,
    wind_names: 7,
};

/// How much stands in two stores when a run is opened on them.
#[derive(Clone, Copy)]
pub struct Contents {
    pub in_frames: u32,
    pub in_winds: u32,
}

const NOTHING: Contents = Contents {
    in_frames: 0,
    in_winds: 0,
};

/// What is asked of a sheet that has no list of its own.
const USUAL_CALLS: [&str; 2] = [
    "run 10000 12000, tally",
    "4*run 1 12+tally+look 0-2+force 0, 6*run 5 13+tally, run 10000 1000, tally, look 0, force 0, run 1 12",
];

/// How a sheet is run.
#[derive(Drop)]
pub struct Directives {
    heap: Global,
    pub limits: Limits,
    pub numbers: [i32; GLOBALS as usize],
    /// A run of its own is asked each of these lists.
    pub lists: Vec<Vec<Call>>,
    pub cells: Contents,
    pub names: Contents,
}

fn contents_of(given: &str) -> Result<Contents> {
    let (in_frames, in_winds) = given
        .split_once(' ')
        .context("two counts are wanted, of frames and of winds")?;
    Ok(Contents {
        in_frames: word(in_frames)?,
        in_winds: word(in_winds)?,
    })
}

fn limits_of(heap: Global, given: &str) -> Result<Limits> {
    let numbers: Vec<u32> = given.split(' ').map(word).try_collect(heap)?;
    match numbers.as_slice() {
        &[frames, winds, frame_names] => Ok(Limits {
            frames,
            winds,
            frame_names,
            wind_names: frame_names,
        }),
        &[frames, winds, frame_names, wind_names] => Ok(Limits {
            frames,
            winds,
            frame_names,
            wind_names,
        }),
        _ => bail!("three or four limits are wanted"),
    }
}

impl Directives {
    fn usual(heap: Global) -> Self {
        Directives {
            heap,
            limits: USUAL_LIMITS,
            numbers: [0; GLOBALS as usize],
            lists: Vec::new(heap),
            cells: NOTHING,
            names: NOTHING,
        }
    }

    /// The directives of a sheet.
    pub fn of_sheet(heap: Global, sheet: &[u8]) -> Result<Self> {
        let mut directives = Directives::usual(heap);
        for (at, line) in sheet.split(|&b| b == b'\n').enumerate() {
            if let Some(directive) = line.strip_prefix(BEGINNING) {
                directives
                    .take(directive)
                    .context(format_args!("line {}", at.saturating_add(1)))?;
            }
        }
        if directives.lists.is_empty() {
            for list in USUAL_CALLS {
                directives.take_calls(list)?;
            }
        }
        Ok(directives)
    }

    fn take(&mut self, directive: &[u8]) -> Result<()> {
        let directive = str::from_utf8(directive)?;
        let (name, given) = directive.split_once(' ').unwrap_or((directive, ""));
        match name {
            "limits" => self.limits = limits_of(self.heap, given)?,
            "globals" => self.take_globals(given)?,
            "calls" => self.take_calls(given)?,
            "cells" => self.cells = contents_of(given)?,
            "names" => self.names = contents_of(given)?,
            _ => bail!("{name:?} is no directive"),
        }
        Ok(())
    }

    fn take_calls(&mut self, list: &str) -> Result<()> {
        self.lists.push(calls_of(self.heap, list)?)?;
        Ok(())
    }

    fn take_globals(&mut self, given: &str) -> Result<()> {
        for assignment in given.split(' ') {
            self.take_global(assignment)?;
        }
        Ok(())
    }

    fn take_global(&mut self, assignment: &str) -> Result<()> {
        let (global, number) = assignment
            .strip_prefix('g')
            .and_then(|rest| rest.split_once('='))
            .context("a global is wanted, `=` and its number")?;
        let place = self
            .numbers
            .get_mut(word(global)? as usize)
            .context("there is no such global")?;
        *place = signed(number)?;
        Ok(())
    }
}
