//! Numbers in directives.

use anyhow::{Context, Result};

/// A count, a limit or an index.
pub fn word(text: &str) -> Result<u32> {
    text.parse::<u32>()
        .context(format_args!("{text:?} is no word"))
}

/// A number that a global may begin with.
pub fn signed(text: &str) -> Result<i32> {
    text.parse::<i32>()
        .context(format_args!("{text:?} is no signed word"))
}
