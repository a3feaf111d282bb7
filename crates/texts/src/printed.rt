// What is printed, and what became of a buffer and of rows.
ghost use Rattle.std.specs.Prelude.{◌<◌};

use std::fmt::{self, Display};

// Each piece of a text is written at once: an output that is lent through all functions would make each of their proofs dearer.
pub fn put(rt: &(impl Print + Eprint), text: &(impl Display + Drop)) {
    streams::print_output(rt, b"calls", text);
}

// Octets as they are, characters or not.
pub fn put_octets(rt: &(impl Print + Eprint), octets: &[u8]) {
    streams::write_output(rt, b"calls", octets);
}

// The character of a hexadecimal digit.
fn digit_of(value: u8) -> u8
    requires { value < 16 }
{
    if value < 10 {
        return b'0' + value;
    }
    b'a' + (value - 10)
}

// An octet as two hexadecimal digits, one piece.
#[derive(Clone, Copy, Debug)]
struct Hexadecimal(u8);

impl Display for Hexadecimal {
    fn fmt<W: fmt::Write>(&self, f: &mut fmt::Formatter<W>) -> fmt::Result {
        let digits = [digit_of(self.0 / 16), digit_of(self.0 % 16)];
        f.write_str(str::from_utf8(&digits).unwrap_or("?"))
    }
}

// The octets that a call wrote, how many beyond hold what the buffer was filled with, and whether another is among them.
#[derive(Clone, Copy, Debug)]
pub struct Buffer<'a> {
    pub written: &'a [u8],
    pub beyond: &'a [u8],
    pub filling: u8,
}

impl Display for Buffer<'_> {
    fn fmt<W: fmt::Write>(&self, f: &mut fmt::Formatter<W>) -> fmt::Result {
        let filling = self.filling;
        write!(f, " [")?;
        for octet in self.written {
            write!(f, " {}", Hexadecimal(*octet))?;
        }
        let left = self
            .beyond
            .iter()
            .filter(|octet| **octet == filling)
            .count();
        write!(f, " ] {left} of {}", Hexadecimal(filling))?;
        if left < self.beyond.len() {
            write!(f, ", others changed")?;
        }
        Ok(())
    }
}

// Words, each behind a space.
#[derive(Clone, Copy, Debug)]
pub struct Spaced<'a>(pub &'a [u64]);

impl Display for Spaced<'_> {
    fn fmt<W: fmt::Write>(&self, f: &mut fmt::Formatter<W>) -> fmt::Result {
        for word in self.0 {
            write!(f, " {word}")?;
        }
        Ok(())
    }
}

// Prints the rows of a width that are not as before, each with its place, or that all are as before.
pub fn put_changes(rt: &(impl Print + Eprint), before: &[u64], after: &[u64], width: usize)
    requires { 0 < width }
{
    if before == after {
        put(rt, &", table stays");
    }
    for (row, (old, new)) in before.chunks(width).zip(after.chunks(width)).enumerate() {
        if old != new {
            put(rt, &format_args!(", row {row}:{}", Spaced(new)));
        }
    }
}
