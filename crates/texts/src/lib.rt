// Words and octets as text: the fields of a line read, words that are put in behind one another, and what became of a buffer and of rows printed.
#![tactic(auto)]

mod fields;
mod printed;
mod words;

pub use fields::{Fields, MOST_WORDS, Tail, read_fields};
pub use printed::{Buffer, Spaced, put, put_changes, put_octets};
pub use words::Words;
