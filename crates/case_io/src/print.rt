// Answers to a writer. Nothing is said of what is printed.
use parsing::Refusal;
use std::io;
use std::io::Write;

// A word.
pub fn say<W: Write>(writer: &mut W, word: &[u8]) -> io::Result<()> {
    writer.write_all(word)
}

// A number behind a space.
pub fn number<W: Write>(writer: &mut W, n: u64) -> io::Result<()> {
    write!(writer, " {n}")
}

// A word, and a number behind a space.
pub fn numbered<W: Write>(writer: &mut W, word: &[u8], n: u64) -> io::Result<()> {
    say(writer, word)?;
    number(writer, n)
}

// A signed value behind a space.
pub fn value<W: Write>(writer: &mut W, z: i32) -> io::Result<()> {
    write!(writer, " {z}")
}

// A refusal: its number and its place.
pub fn refusal<W: Write>(writer: &mut W, r: Refusal) -> io::Result<()> {
    write!(writer, "{r}")
}

// The answer of a check.
pub fn verdict<W: Write>(writer: &mut W, c: Result<(), Refusal>) -> io::Result<()> {
    match c {
        Ok(()) => say(writer, b"accepted"),
        Err(r) => refusal(writer, r),
    }
}

// Bytes: two hexadecimal digits each, or in decimal, each behind a space.
pub fn bytes<W: Write>(writer: &mut W, part: &[u8], hexadecimal: bool) -> io::Result<()> {
    for b in part {
        if hexadecimal {
            write!(writer, "{b:02x}")?;
        } else {
            number(writer, u64::from(*b))?;
        }
    }
    Ok(())
}
