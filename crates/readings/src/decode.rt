//! Sheets written in one line each, so that a table of them can be read by eye.
//!
//! `\n` is byte 10, `\\` and `\"` are themselves, `\xNN` is the byte of that value, and `{COUNT*TEXT}` is TEXT as
//! often as COUNT says. Any other byte is itself.

use std::alloc::{AllocError, Global};

/// What the next byte belongs to. Closures that go on to one another would have to be boxed, each with a type of its own.
#[derive(Clone, Copy, PartialEq, Eq, Debug)]
enum State {
    Text,
    Escape,
    HighDigit,
    LowDigit(u8),
    Count(usize),
}

/// A text that is to be repeated, and how often while one is put together. Its memory serves for the next one.
#[derive(Drop)]
struct Part {
    times: Option<usize>,
    text: Vec<u8>,
}

/// A sheet that is being put together.
#[derive(Drop)]
struct Decoder {
    sheet: Vec<u8>,
    part: Part,
    state: State,
}

/// The sheet that a line stands for.
pub fn decoded(alloc: Global, line: &[u8]) -> Result<Vec<u8>, AllocError> {
    let mut decoder = Decoder::new(alloc);
    for b in line {
        decoder.take(*b)?;
    }
    Ok(decoder.sheet)
}

/// A digit of base 16; a capital letter, as any other byte, counts as 0.
fn hex_digit(b: u8) -> u8 {
    let digit = char::from(b).to_digit(16);
    digit.filter(|_| !b.is_ascii_uppercase()).unwrap_or(0) as u8
}

impl Decoder {
    fn new(alloc: Global) -> Self {
        let part = Part {
            times: None,
            text: Vec::new(alloc),
        };
        Decoder {
            sheet: Vec::new(alloc),
            part,
            state: State::Text,
        }
    }

    fn put(&mut self, b: u8) -> Result<(), AllocError> {
        self.state = State::Text;
        match self.part.times {
            Some(_) => self.part.text.push(b)?,
            None => self.sheet.push(b)?,
        }
        Ok(())
    }

    fn repeat(&mut self) -> Result<(), AllocError> {
        // `repeat` would make all of it once more, beside the sheet.
        for _ in 0..self.part.times.take().unwrap_or(0) {
            self.sheet.extend_from_slice(&self.part.text)?;
        }
        Ok(())
    }

    /// Takes in one byte of the written form.
    fn take(&mut self, b: u8) -> Result<(), AllocError> {
        match (self.state, b) {
            (State::Text, b'\\') => self.state = State::Escape,
            (State::Text, b'{') => self.state = State::Count(0),
            (State::Text, b'}') => self.repeat()?,
            (State::Text, _) => self.put(b)?,
            (State::Escape, b'n') => self.put(b'\n')?,
            (State::Escape, b'x') => self.state = State::HighDigit,
            (State::Escape, _) => self.put(b)?,
            (State::HighDigit, _) => self.state = State::LowDigit(hex_digit(b)),
            (State::LowDigit(high), _) => self.put((high << 4) | hex_digit(b))?,
            (State::Count(times), b'*') => {
                self.part.text.clear();
                self.part.times = Some(times);
                self.state = State::Text;
            }
            (State::Count(so_far), _) => {
                let digit = usize::from(hex_digit(b));
                self.state = State::Count(so_far.saturating_mul(10).saturating_add(digit));
            }
        }
        Ok(())
    }
}
