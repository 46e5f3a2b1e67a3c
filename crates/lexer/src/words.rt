//! The words of a line.
ghost use Rattle.std.specs.Prelude.{◌≡◌, drop};
ghost use Rattle.std.specs.Iterator.{YieldsFirstBy, item_count};
ghost use Rattle.lexer.specs.Split.{words, words_left, word_at, placed};

use crate::split::split_once;
use std::marker::Model;

/// A word: a part of the line, and the index at which it starts there.
#[derive(Clone, Copy, Debug, PartialEq, Eq)]
pub struct Word<'a> {
    pub bytes: &'a [u8],
    pub start: usize,
}

/// An iterator over the words of a line, seen as those that are still to come, each after the index at which it starts.
#[derive(Drop)]
pub struct Words<'a> {
    line: &'a [u8],
    next: Option<usize>,
}

impl<'a> Model for Words<'a> {
    ghost use Rattle.std.specs.Prelude.{ℕ, List};
    ghost use Rattle.lexer.specs.Split.{words_from, IsWithin};

    ghost Value = { List (ℕ × List ℕ) };

    ghost view = { λ w. words_from w.line.now w.next };

    ghost invariant = { λ w. IsWithin w.line.now w.next };
}

impl<'a> Words<'a> {
    /// All words of a line.
    pub fn new(line: &'a [u8]) -> Self
        ensures words { words_left result ≡ words line.now }
        ensures starts { result ≡ placed 0 (words line.now) }
    {
        Words {
            line,
            next: Some(0),
        }
    }

    /// The bytes of the next word, or no bytes where none is left, as `word_at` says: the caller counts the words, so no `Option`.
    pub fn next_bytes(&mut self) -> &'a [u8]
        ensures bytes { result.now ≡ word_at (words_left self.old) 0 }
        ensures rest { self.new ≡ drop 1 self.old }
    {
        self.next().map_or(&[], |word| word.bytes)
    }
}

impl<'a> Iterator for Words<'a> {
    type Item = Word<'a>;

    ghost next_gives = { YieldsFirstBy (λ word. (word.start, word.bytes.now)) (λ left. left) };

    ghost remaining = { item_count (λ left. left) };

    /// The next word, split off at a space.
    fn next(&mut self) -> Option<Word<'a>> {
        let start = self.next.take()?;
        let rest = &self.line[start..];
        let Some((bytes, _)) = split_once(rest, b' ') else {
            return Some(Word { bytes: rest, start });
        };
        self.next = Some(start + bytes.len() + 1);
        Some(Word { bytes, start })
    }
}
