// The calls by their words and octets, and what they answer, as text.
#![tactic(auto)]

mod answer;
mod call;

ghost use Rattle.std.specs.Prelude.{◌≡◌, ◌≤◌};

use answer::Answer;
use answers::{Failure, Refusal};
pub use call::Call;
use call::Wanted;
use texts::{Buffer, put};

// Room for the buffer that a call is lent.
pub const MOST_OCTETS: usize = 512;

// The buffer that a call is lent: how many octets, and what each is.
#[derive(Clone, Copy, Debug)]
pub struct Blank {
    octets: usize,
    filling: u8,
    ghost within: { octets ≤ 512 },
}

impl Blank {
    ghost use Rattle.shown.specs.Blanks.{said_blank, blank_of};

    pub fn none() -> Blank
        ensures { (result.octets ≡ 0) × (result.filling ≡ 0) }
    {
        Blank {
            octets: 0,
            filling: 0,
        }
    }

    // A buffer by the words of its line.
    pub fn read(octets: u64, filling: u64) -> Option<Blank>
        ensures { said_blank result ≡ blank_of octets filling }
    {
        let octets = usize::try_from(octets).ok()?;
        if MOST_OCTETS < octets {
            return None;
        }
        let filling = u8::try_from(filling).ok()?;
        Some(Blank { octets, filling })
    }
}

// What a call is lent beside its buffer.
#[derive(Drop)]
pub struct Lent<'a> {
    pub table: &'a mut [u64],
    pub figures: &'a mut [u64],
    pub list: &'a [u64],
}

fn write(wanted: Wanted, additional: &[u8], out: &mut [u8]) -> Result<usize, Refusal> {
    writers::write_request(
        wanted.operation,
        wanted.number,
        wanted.erasing,
        additional,
        out,
    )
}

fn write_register(
    transaction: u8,
    invoke: u8,
    wanted: Wanted,
    additional: &[u8],
    frame: &mut [u8],
) -> Result<usize, Refusal> {
    framers::write_register(
        transaction,
        invoke,
        wanted.operation,
        wanted.number,
        wanted.erasing,
        additional,
        frame,
    )
}

fn make(
    call: Call,
    octets: &[u8],
    lent: &mut Lent<'_>,
    buffer: &mut [u8],
) -> Result<Answer, Failure> {
    let table = &mut *lent.table;
    let figures = &mut *lent.figures;
    let list = lent.list;
    let answer = match call {
        Call::Request(requester, scheme) => {
            node::request(table, figures, list, buffer, requester, scheme, octets)?.into()
        }
        Call::Framed(requester) => {
            exchange::framed_request(table, figures, list, buffer, requester, octets)?.into()
        }
        Call::Sending(number, delay, clock) => {
            Answer::Sent(node::sending(table, figures, buffer, number, delay, clock)?)
        }
        Call::Result(number, kind, clock) => {
            Answer::Taken(node::result(table, figures, number, kind, clock)?)
        }
        Call::Finding(delay, clock) => Answer::Due(node::finding(table, delay, clock)?),
        Call::Recount => Answer::Recounted(tables::recount(table)?),
        Call::Pack => Answer::Count(packing::pack(octets, buffer)?),
        Call::Unpack => Answer::Count(packing::unpack(octets, buffer)?),
        Call::Write(wanted) => Answer::Count(write(wanted, octets, buffer)?),
        Call::Read => Answer::Read(strings::read_request(octets)),
        Call::Number(word) => Answer::IsNumber(numbers::is_number(word)),
        Call::Register(transaction, invoke, wanted) => {
            Answer::Count(write_register(transaction, invoke, wanted, octets, buffer)?)
        }
        Call::Registered => Answer::Register(frames::read_register(octets)?, octets.len()),
        Call::Released => Answer::Release(frames::read_release(octets)?, octets.len()),
    };
    Ok(answer)
}

// Prints an answer or why there is none; how many octets were written.
fn put_answer(rt: &(impl Print + Eprint), answer: Result<Answer, Failure>) -> usize {
    match answer {
        Ok(answer) => {
            put(rt, &answer);
            return answer.octets();
        }
        Err(Failure::Refused(refusal)) => put(rt, &format_args!("refused {}", u8::from(refusal))),
        Err(Failure::Error(error)) => put(rt, &format_args!("error {}", u8::from(error))),
    }
    0
}

// Makes a call, and prints what it answers and writes.
pub fn show_call(
    rt: &(impl Print + Eprint),
    call: Call,
    octets: &[u8],
    lent: &mut Lent<'_>,
    blank: Blank,
) {
    let mut memory = [blank.filling; MOST_OCTETS];
    let buffer = &mut memory[..blank.octets];
    let count = put_answer(rt, make(call, octets, lent, buffer));
    if call.fills_buffer() {
        let (written, beyond) = buffer.split_at(count.min(buffer.len()));
        let filling = blank.filling;
        put(
            rt,
            &Buffer {
                written,
                beyond,
                filling,
            },
        );
    }
}
