//! Reads each sheet of a table and prints what the reader answers, a line for each, as an independent evaluator does.
//! It rests on `sheet`, `lexer` and `code`, and on `anyhow` for its errors.
#![tactic(auto)]

use crate::decode::decoded;
use code::code::Code;
use lexer::lines::Lines;
use sheet::reader::read;
use std::fs::Files;
use std::{fs, io};

mod decode;

const TABLE: &str = "sheets.txt";

fn print_answer(rt: &impl Print, sheet: &[u8]) -> io::Result<()> {
    let mut table = Code::empty();
    match read(&mut table, sheet) {
        Ok(()) => println!(rt; "ok {}", table.len()),
        Err(refusal) => println!(rt; "{refusal}"),
    }
}

/// The lines of a table, and what follows the last of them. It is bytes and not text, so only byte 10 ends a line.
fn parted(table: &[u8]) -> (Lines<'_>, &[u8]) {
    let last_end = table.iter().rposition(|b| *b == b'\n');
    let (lines, rest) = table.split_at(last_end.map_or(0, |at| at + 1));
    (Lines::new(lines), rest)
}

fn answer_all(rt: &(impl Files + Print + AllocGlobal)) -> anyhow::Result<()> {
    let table = fs::read(rt, TABLE)?;
    let (lines, rest) = parted(&table);
    for line in lines {
        print_answer(rt, &decoded(rt.alloc(), line)?)?;
    }
    // It is decoded as the lines are, but it is none, so it is not answered.
    decoded(rt.alloc(), rest)?;
    Ok(())
}

fn main(rt: HostRuntime) -> anyhow::Result<()> {
    answer_all(&rt)
}

#[cfg(test)]
mod cases;

#[cfg(test)]
mod tests {
    use crate::cases::CASES;
    use crate::decode::decoded;
    use crate::parted;
    use code::code::Code;
    use sheet::reader::read;
    use std::test::Fail;

    // The number of instructions, or the refusal's number and line.
    fn answer(sheet: &[u8]) -> Result<usize, (u32, u32)> {
        let mut table = Code::empty();
        match read(&mut table, sheet) {
            Ok(()) => Ok(table.len()),
            Err(refusal) => Err((refusal.number(), refusal.line())),
        }
    }

    #[test]
    fn reads_as_the_evaluator(rt: HostRuntime) {
        for (sheet, told) in CASES {
            assert_eq!(rt; answer(sheet), told);
        }
    }

    // No text: a byte 13 and one that is no character stay in their line, and what no byte 10 ends is no line.
    #[test]
    fn a_line_ends_with_byte_ten(rt: HostRuntime) {
        let (mut lines, rest) = parted(b"\xff\r\n\nlast");
        assert_eq!(rt; lines.next(), Some(&b"\xff\r"[..]));
        assert_eq!(rt; lines.next(), Some(&b""[..]));
        assert_eq!(rt; lines.next(), None);
        assert_eq!(rt; rest, &b"last"[..]);
    }

    // A capital letter is no digit of base 16, and counts as 0.
    #[test]
    fn digits_are_small_letters(rt: HostRuntime) -> Result<(), Fail> {
        let sheet = decoded(rt.alloc(), b"\\x1f\\x1F")?;
        assert_eq!(rt; sheet.as_slice(), &[0x1f, 0x10][..]);
        Ok(())
    }
}
