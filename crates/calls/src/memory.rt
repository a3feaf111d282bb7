// What the lines set: table, list, figures, and the buffer that is lent.
use rows::ROW_WORDS;
use shown::{Blank, Call, Lent};
use texts::{Spaced, Words, put};

// The words of a table and a list stay below these, which are more than either may have.
const TABLE: usize = ROW_WORDS * 1_100;

const LIST: usize = 8_400;

// The most words of figures, more than a call takes.
const FIGURES: usize = 8;

// The figures beside the table, and whether calls show them.
#[derive(Clone, Copy, Debug)]
pub struct State {
    pub table: Words<TABLE>,
    figures: Words<FIGURES>,
    shows_figures: bool,
    list: Words<LIST>,
    blank: Blank,
}

// Puts a line's words into memory: all that it holds, more of it, or rows of more. Where there is no room they are taken back; all that it holds has room, since a
// line has few words. Memory is not copied: that would cost all its room for each line.
fn fill<const N: usize>(memory: &mut Words<N>, sign: &[u8], words: &[u64]) -> Option<()> {
    let used = memory.as_slice().len();
    match (sign, words) {
        (b"", words) => {
            memory.truncate(0);
            memory.extend(words);
        }
        (b"+", words) => memory.extend(words),
        (b"*", [rows, first, others @ ..]) => memory.extend_rows(*rows, *first, others),
        _ => return None,
    }
    if memory.is_full() {
        memory.truncate(used);
        return None;
    }
    Some(())
}

// The figures of a table; zeros where it is unsound.
fn recounted(table: &[u64]) -> Words<FIGURES> {
    let mut figures = Words::new();
    match tables::recount(table) {
        Ok(n) => figures.extend(&[n.held, n.waiting, n.flying]),
        Err(_) => figures.extend(&[0, 0, 0]),
    }
    figures
}

impl State {
    // An empty table, with its figures.
    pub fn new() -> State {
        State {
            table: Words::new(),
            figures: recounted(&[]),
            shows_figures: false,
            list: Words::new(),
            blank: Blank::none(),
        }
    }

    // Sets memory by a name and words; nothing where they have another form, or no room.
    pub fn set(&mut self, name: &[u8], words: &[u64]) -> Option<()> {
        if let Some(sign) = name.strip_prefix(b"table") {
            fill(&mut self.table, sign, words)?;
            self.figures = recounted(self.table.as_slice());
            self.shows_figures = false;
        } else if let Some(sign) = name.strip_prefix(b"list") {
            fill(&mut self.list, sign, words)?;
        } else {
            match (name, words) {
                (b"buffer", [octets, filling]) => self.blank = Blank::read(*octets, *filling)?,
                (b"figures", words) if words.len() <= FIGURES => {
                    self.figures = Words::new();
                    self.figures.extend(words);
                    self.shows_figures = true;
                }
                _ => return None,
            }
        }
        Some(())
    }

    // Makes a call on table, figures and list, and prints it.
    pub fn show(&mut self, rt: &(impl Print + Eprint), call: Call, octets: &[u8]) {
        let mut lent = Lent {
            table: self.table.as_mut_slice(),
            figures: self.figures.as_mut_slice(),
            list: self.list.as_slice(),
        };
        shown::show_call(rt, call, octets, &mut lent, self.blank);
    }

    pub fn put_figures(&self, rt: &(impl Print + Eprint)) {
        if self.shows_figures {
            put(
                rt,
                &format_args!(", figures{}", Spaced(self.figures.as_slice())),
            );
        }
    }
}
