// The calls of the node by lines of text: a line sets memory or makes one call, and what is printed of a call is its answer, the octets that it
// wrote, what lies beyond them, and what became of table and figures. Document 01's examples and those of crews, frames, figures and own numbers stand in the file
// stdin. What they print, in the file stdout, was worked out by hand from the papers; the independent implementation answers the same lines, and random
// ones beside them.
//
// A line is a name and its fields, one space apart: words in decimal (numbers in stored form), and last perhaps a tail, which reaches to the end of
// the line: 'CHARACTERS or xOCTETS in hexadecimal. Any other line prints `?` and changes nothing.
//
//   # ..                                  a comment: printed as it stands, and so is an empty line
//   : TITLE                               printed before what the next line prints
//   table WORD..    list WORD..           the table, the list
//   table+ WORD..   list+ WORD..          these words behind it
//   table* N WORD.. list* N WORD..        N rows of these words behind it, the first word counted up
//                                         a table gets the figures of a recount, zeros where it is unsound
//   buffer OCTETS FILLING                 the buffer that the calls below are lent
//   figures WORD..                        other figures, up to 8 words: calls that are lent them show them, until the table is set
//   request REQUESTER SCHEME TAIL         characters are packed first
//   sending NUMBER DELAY CLOCK
//   result NUMBER KIND CLOCK
//   finding DELAY CLOCK
//   recount                               the figures of the table, refused 2 where it is unsound
//   pack TAIL       unpack TAIL
//   write OPERATION NUMBER [MSISDN] TAIL  0 registers, 1 erases, 2 interrogates
//   read TAIL                             characters are packed first
//   number WORD                           whether it is a number in stored form
//   framed REQUESTER TAIL                 a framed request, the tail is the message
//   register TRANSACTION INVOKE OPERATION NUMBER [MSISDN] TAIL
//                                         writes a Register, the tail is the additional field
//   registered TAIL                       reads a Register
//   released TAIL                         reads a Release Complete
#![tactic(auto)]

mod memory;

use memory::State;
use rows::ROW_WORDS;
use shown::Call;
use streams::INPUT_ROOM;
use texts::{Tail, put, put_octets};

// Room for the octets of a tail, and for more characters than one has.
const TAIL_ROOM: usize = 1_024;

// The octets of a tail; the characters of a request's string are packed.
fn read_octets<'a>(call: Call, tail: Option<Tail<'a>>, room: &'a mut [u8]) -> Option<&'a [u8]> {
    match tail {
        None => Some(&[]),
        Some(Tail::Characters(characters)) if call.packs_characters() => {
            if room.len() <= characters.len() {
                return None;
            }
            let count = packing::pack(characters, room).ok()?;
            room.get(..count)
        }
        Some(tail) => tail.read(room),
    }
}

// Makes a call, and prints what became of table and figures where it is lent them to change.
fn do_call(rt: &(impl Print + Eprint), call: Call, octets: &[u8], state: &mut State) {
    let before = state.table;
    state.show(rt, call, octets);
    if call.shows_table() {
        texts::put_changes(rt, before.as_slice(), state.table.as_slice(), ROW_WORDS);
        state.put_figures(rt);
    }
    put(rt, &"\n");
}

// A line that makes a call or sets memory; nothing is done where it has another form.
fn do_line(rt: &(impl Print + Eprint), line: &[u8], state: &mut State) -> Option<()> {
    let fields = texts::read_fields(line)?;
    let words = fields.words.as_slice();
    let Some(call) = Call::read(fields.name, words) else {
        if fields.tail.is_some() {
            return None;
        }
        return state.set(fields.name, words);
    };
    if fields.tail.is_some() && !call.takes_tail() {
        return None;
    }
    let mut room = [0; TAIL_ROOM];
    let octets = read_octets(call, fields.tail, &mut room)?;
    do_call(rt, call, octets, state);
    Some(())
}

// A comment, which an empty line is too, a title, or another line.
fn put_line(rt: &(impl Print + Eprint), line: &[u8], state: &mut State) {
    match line {
        [] | [b'#', ..] => {
            put_octets(rt, line);
            put(rt, &"\n");
        }
        [b':'] => put(rt, &": "),
        [b':', _, title @ ..] => {
            put_octets(rt, title);
            put(rt, &": ");
        }
        _ => {
            if do_line(rt, line, state).is_none() {
                put(rt, &"?\n");
            }
        }
    }
}

fn main(rt: HostRuntime) {
    let mut buffer = streams::filled::<u8, INPUT_ROOM>(0);
    let input = streams::input_in(&rt, b"calls", &mut buffer);
    if input.len() == INPUT_ROOM {
        streams::say(&rt, b"calls", b": more input than there is room for\n");
    }
    let mut state = State::new();
    for line in input.split_inclusive(|octet| *octet == b'\n') {
        put_line(&rt, line.strip_suffix(b"\n").unwrap_or(line), &mut state);
    }
}
