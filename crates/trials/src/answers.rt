//! What a list of calls is answered on some makes of stores.

use std::io;
use std::io::Write;

/// What a list of calls is answered on stores of one make.
#[derive(Drop)]
pub struct Answers {
    pub make: &'static str,
    pub text: String,
}

/// Whether there is an equal text.
fn is_among(text: &String, answers: &[Answers]) -> bool {
    answers.iter().any(|answers| answers.text == *text)
}

/// Prints a text, after the names of all makes that have it.
fn print_text<W: Write>(out: &mut W, text: &String, answers: &[Answers]) -> io::Result<()> {
    write!(out, "on")?;
    for other in answers {
        if other.text == *text {
            write!(out, " {}", other.make)?;
        }
    }
    writeln!(out)?;
    write!(out, "{text}")
}

/// Prints each text once: a difference between makes of stores is seen at once.
pub fn print_together<W: Write>(out: &mut W, answers: &[Answers]) -> io::Result<()> {
    for (at, Answers { make: _, text }) in answers.iter().enumerate() {
        if !is_among(text, &answers[..at]) {
            print_text(out, text, answers)?;
        }
    }
    Ok(())
}
