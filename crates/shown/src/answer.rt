// What the calls answer, and its text.
ghost use Rattle.std.specs.Prelude.{◌≡◌};
ghost use Rattle.shown.specs.Answers.{of_reply, of_framed};

use answers::{Outcome, RequestError};
use crews::Crew;
use exchange::Framed;
use frames::{Problem, Register, Release, VERSION};
use numbers::{FunctionalNumber, Msisdn};
use records::Fate;
use std::fmt::{self, Display};
use strings::{Erasing, Fields, MOST_CHARACTERS, Operation, ReadRequest};
use tables::Figures;
use visits::{Reply, Sent};

// An answer that is no refusal; of a Register and a Release Complete with the message's length.
#[derive(Clone, Copy, Debug)]
pub enum Answer {
    Outcome(Outcome, usize),
    Held(Msisdn, usize),
    Error(RequestError, usize),
    Reject(Problem, usize),
    Sent(Sent),
    Taken(Fate),
    Due(Option<FunctionalNumber>),
    Recounted(Figures),
    Count(usize),
    IsNumber(bool),
    Read(ReadRequest),
    Register(Register, usize),
    Release(Release, usize),
}

impl From<Reply> for Answer {
    ghost from_gives = { λ reply answer. answer ≡ of_reply reply };

    fn from(reply: Reply) -> Answer {
        match reply {
            Reply::Outcome(outcome, octets) => Answer::Outcome(outcome, octets),
            Reply::Held(msisdn, octets) => Answer::Held(msisdn, octets),
        }
    }
}

impl From<Framed> for Answer {
    ghost from_gives = { λ framed answer. answer ≡ of_framed framed };

    fn from(framed: Framed) -> Answer {
        match framed {
            Framed::Outcome(outcome, octets) => Answer::Outcome(outcome, octets),
            Framed::Held(msisdn, octets) => Answer::Held(msisdn, octets),
            Framed::Error(error, octets) => Answer::Error(error, octets),
            Framed::Reject(problem, octets) => Answer::Reject(problem, octets),
        }
    }
}

impl Answer {
    // How many octets were written into the buffer.
    pub fn octets(&self) -> usize {
        match self {
            Answer::Outcome(_, octets)
            | Answer::Held(_, octets)
            | Answer::Error(_, octets)
            | Answer::Reject(_, octets)
            | Answer::Count(octets) => *octets,
            Answer::Sent(sent) => sent.octets,
            _ => 0,
        }
    }
}

impl Display for Answer {
    fn fmt<W: fmt::Write>(&self, f: &mut fmt::Formatter<W>) -> fmt::Result {
        match self {
            Answer::Outcome(outcome, octets) => {
                let number = u8::from(*outcome);
                write!(f, "outcome {}{}, {octets} octets", number / 10, number % 10)
            }
            Answer::Held(msisdn, octets) => {
                write!(f, "outcome 03, holder {}, {octets} octets", msisdn.0)
            }
            Answer::Error(error, octets) => {
                write!(f, "return error {}, {octets} octets", u8::from(*error))
            }
            Answer::Reject(problem, octets) => {
                write!(f, "reject {}, {octets} octets", u8::from(*problem))
            }
            Answer::Sent(sent) => {
                write!(f, "sent to {}, {} octets", sent.addressee.0, sent.octets)
            }
            Answer::Taken(fate) => f.write_str(fate_text(*fate)),
            Answer::Due(Some(number)) => write!(f, "due {}", number.0),
            Answer::Due(None) => f.write_str("none due"),
            Answer::Recounted(figures) => put_figures(f, figures),
            Answer::Count(octets) => write!(f, "{octets}"),
            Answer::IsNumber(true) => f.write_str("a number"),
            Answer::IsNumber(false) => f.write_str("no number"),
            Answer::Read(request) => put_request(f, request),
            Answer::Register(register, length) => put_register(f, register, *length),
            Answer::Release(release, length) => put_release(f, release, *length),
        }
    }
}

fn fate_text(fate: Fate) -> &'static str {
    match fate {
        Fate::Delivered => "delivered",
        Fate::Dropped => "dropped",
        Fate::Again => "again",
    }
}

fn put_figures<W: fmt::Write>(f: &mut fmt::Formatter<W>, figures: &Figures) -> fmt::Result {
    let held = figures.held;
    let waiting = figures.waiting;
    let flying = figures.flying;
    write!(f, "recounted {held} {waiting} {flying}")
}

// A request's string ends before the SS version.
fn put_register<W: fmt::Write>(
    f: &mut fmt::Formatter<W>,
    register: &Register,
    length: usize,
) -> fmt::Result {
    write!(f, "first {}, invoke {}", register.first, register.number)?;
    match register.body {
        Ok(asked) => {
            let count = asked.count;
            let start = length.wrapping_sub(VERSION.len()).wrapping_sub(count);
            write!(
                f,
                ", scheme {}, string from {start}, {count} octets",
                asked.scheme
            )
        }
        Err(problem) => write!(f, ", problem {}", u8::from(problem)),
    }
}

// A result's string ends the message.
fn put_release<W: fmt::Write>(
    f: &mut fmt::Formatter<W>,
    release: &Release,
    length: usize,
) -> fmt::Result {
    let first = release.first;
    match release.answer {
        frames::Answer::Result(number, count) => {
            let start = length.wrapping_sub(count);
            write!(
                f,
                "first {first}, invoke {number}, result from {start}, {count} octets"
            )
        }
        frames::Answer::Error(number, code) => {
            write!(f, "first {first}, invoke {number}, error {code}")
        }
        frames::Answer::Reject(number, problem) => {
            write!(f, "first {first}, invoke {number}, problem {problem}")
        }
    }
}

fn put_request<W: fmt::Write>(f: &mut fmt::Formatter<W>, request: &ReadRequest) -> fmt::Result {
    match &request.reading {
        Some(fields) => put_fields(f, fields, &request.text),
        None => f.write_str("error 36"),
    }
}

fn operation_text(operation: Operation) -> &'static str {
    match operation {
        Operation::Register => "register, number ",
        Operation::Erase => "erase, number ",
        Operation::Interrogate => "interrogate, number ",
    }
}

// The fields of a request; the additional one by its place in the text, and its characters.
fn put_fields<W: fmt::Write>(
    f: &mut fmt::Formatter<W>,
    fields: &Fields,
    text: &[u8; MOST_CHARACTERS],
) -> fmt::Result {
    let operation = operation_text(fields.operation);
    write!(f, "{operation}{}", fields.number.0)?;
    match fields.erasing {
        Erasing::Empty => f.write_str(", MSISDN none, additional from ")?,
        Erasing::Forced(msisdn) => write!(f, ", MSISDN {}, additional from ", msisdn.0)?,
    }
    let start = fields.start;
    let count = fields.count;
    write!(f, "{start}, {count} characters '")?;
    let (_, behind) = text.split_at(start.min(text.len()));
    let (additional, _) = behind.split_at(count.min(behind.len()));
    f.write_str(str::from_utf8(additional).unwrap_or_default())?;
    match fields.crew {
        Crew::Codes(codes) => write!(f, "', of a crew, codes {codes}"),
        Crew::Single | Crew::Broken => f.write_str("'"),
    }
}
