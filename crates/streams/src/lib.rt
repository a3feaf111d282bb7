// Standard input and output of the programs; what is lost is said on standard error.
#![tactic(auto)]

ghost use Rattle.std.specs.Prelude.{◌≡◌, ◌≤◌, length};
ghost use Rattle.streams.specs.Counts.{IsPrefixLen};

pub use octets::filled;
use std::fmt::{self, Display, Write};
use std::io::{Input, Read};

// Room for the input of a program.
pub const INPUT_ROOM: usize = 65_536;

// Octets on standard error: as the text that they are, or else with what is no character written out. There is no other place to say it.
fn put_error(rt: &impl Eprint, octets: &[u8]) {
    let _ = match str::from_utf8(octets) {
        Ok(text) => rt.eprint(text),
        Err(_) => rt.eprint(octets.escape_ascii()),
    };
}

// Says what a program lost.
pub fn say(rt: &impl Eprint, program: &[u8], lost: &[u8]) {
    put_error(rt, program);
    put_error(rt, lost);
}

// Reads until the input ends or the buffer is full; how many octets there are.
fn read_all(rt: &(impl Input + Eprint), program: &[u8], buffer: &mut [u8]) -> usize
    ensures { result ≤ length buffer.new }
{
    let mut input = rt.reader();
    let mut count = 0;
    // Kept: a `for` is no plainer, since `read` says how far it came, and nothing is counted one by one.
    while count < buffer.len() {
        match input.read(&mut buffer[count..]) {
            Ok(0) => return count,
            Ok(more) => count += more,
            Err(_) => {
                say(rt, program, b": input lost\n");
                return count;
            }
        }
    }
    count
}

// Standard input, as much of it as the buffer holds; how many octets these are.
pub fn read_input(rt: &(impl Input + Eprint), program: &[u8], buffer: &mut [u8]) -> usize
    ensures { IsPrefixLen result buffer.new }
{
    read_all(rt, program, buffer)
}

// The same, as the octets themselves.
pub fn input_in<'a>(rt: &(impl Input + Eprint), program: &[u8], buffer: &'a mut [u8]) -> &'a [u8]
    ensures { length result.now ≤ length buffer.old }
{
    let count = read_input(rt, program, buffer);
    &buffer[..count]
}

// Octets on standard output, all of them or said to be lost.
pub fn write_output(rt: &(impl Print + Eprint), program: &[u8], octets: &[u8]) {
    if rt.write_all(octets).is_err() {
        say(rt, program, b": output lost\n");
    }
}

// Standard output as a place for text: each piece is written at once, and one that is lost is said to be, and the next one tried.
#[derive(Drop)]
struct Pieces<'a, R> {
    rt: &'a R,
    program: &'a [u8],
}

impl<R: Print + Eprint> fmt::Write for Pieces<'_, R> {
    fn write_str(&mut self, piece: &str) -> fmt::Result {
        write_output(self.rt, self.program, piece.as_bytes());
        Ok(())
    }
}

// What has a text, piece by piece.
pub fn print_output<R: Print + Eprint>(rt: &R, program: &[u8], text: &(impl Display + Drop)) {
    let mut pieces = Pieces { rt, program };
    // A piece that is lost is said to be there, and a text has no other way to fail.
    let _ = pieces.write(text);
}
