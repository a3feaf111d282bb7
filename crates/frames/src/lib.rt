// Real message frames: Register and Release Complete, and the components inside them, read strictly.
#![tactic(auto)]

ghost use Rattle.std.specs.Prelude.{◌≡◌};
ghost use Rattle.frames.specs.Parts.{contents_of, octet_at};
ghost use Rattle.frames.specs.Components.{argument_of, body_of, invoke_of, result_of, pair_of, component_of};
ghost use Rattle.frames.specs.Messages.{message_of, register_of, release_of};
ghost use Rattle.frames.specs.Read.{problem_number, start_of, told_octet, told_pair, told_argument, told_body, ended_body, told_invoke, end_of, or_unread, told_register, told_answer, told_release};

use answers::{Refusal, begins_with};
use strings::CODING_SCHEME;

// A length from here on stands behind an octet that says that one follows.
const LONG_LENGTH: usize = 128;

const ONE_FOLLOWS: u8 = 0x81;

// Before the contents of a part stand its tag and its length, of one octet or two.
const SHORT_HEAD: usize = 2;

const LONG_HEAD: usize = 3;

// A part of one octet: tag, length and octet.
const OCTET_PART: usize = 3;

// The tags.
pub const INVOKE_TAG: u8 = 0xA1;

pub const RESULT_TAG: u8 = 0xA2;

pub const ERROR_TAG: u8 = 0xA3;

pub const REJECT_TAG: u8 = 0xA4;

pub const INTEGER_TAG: u8 = 0x02;

pub const SEQUENCE_TAG: u8 = 0x30;

pub const OCTETS_TAG: u8 = 0x04;

pub const PROBLEM_TAG: u8 = 0x81;

// ProcessUnstructuredSS-Request.
pub const OPERATION_CODE: u8 = 0x3B;

// The message types, and the element that has the component.
pub const REGISTER_TYPE: u8 = 0x7B;

pub const RELEASE_TYPE: u8 = 0x2A;

pub const FACILITY: u8 = 0x1C;

// The first octet's low half.
pub const PROTOCOL: u8 = 0xB;

// Half an octet has so many values.
pub const HALF: u8 = 16;

// Before the element's contents stand first octet, message type, Facility and length.
const HEADER: usize = 4;

// The SS version, with its length and indicator.
pub const VERSION: [u8; 3] = [0x7F, 0x01, 0x00];

// A frame buffer has at least so many octets.
pub const FRAME_ROOM: usize = 120;

// A result's string has at most so many octets.
pub const MOST_RESULT_OCTETS: usize = 80;

// The problems of a Reject: "an unknown or unreadable operation", and "anything wrong after it".
#[derive(Clone, Copy, Debug, PartialEq, Eq)]
pub enum Problem {
    UnrecognizedOperation,
    MistypedParameter,
}

// The problem's code.
impl From<Problem> for u8 {
    ghost from_gives = { λ problem number. number ≡ problem_number problem };

    fn from(problem: Problem) -> u8 {
        match problem {
            Problem::UnrecognizedOperation => 1,
            Problem::MistypedParameter => 2,
        }
    }
}

// What a request asks with: the coding scheme, and how many octets the string has, which end the component.
// Kept: the string by its count in place of a slice, since two answers to one message are equal (`read_invoke_one`), and a slice has an address.
#[derive(Clone, Copy, Debug, PartialEq, Eq)]
pub struct Asked {
    pub scheme: u8,
    pub count: usize,
}

// The component of a request: its invoke number, and what stands behind that.
#[derive(Clone, Copy, Debug, PartialEq, Eq)]
pub struct Invoke {
    pub number: u8,
    pub body: Result<Asked, Problem>,
}

// A Register: its first octet, its invoke number, and what stands behind that.
#[derive(Clone, Copy, Debug, PartialEq, Eq)]
pub struct Register {
    pub first: u8,
    pub number: u8,
    pub body: Result<Asked, Problem>,
}

// An answer's component: a result by its invoke number and how many octets its string has, which end the component; an error by its invoke number and code; a Reject by its invoke number and problem.
// Kept: codes and problems are octets, since a message may have any (`told_component`).
#[derive(Clone, Copy, Debug, PartialEq, Eq)]
pub enum Answer {
    Result(u8, usize),
    Error(u8, u8),
    Reject(u8, u8),
}

// A Release Complete: its first octet and its component.
#[derive(Clone, Copy, Debug, PartialEq, Eq)]
pub struct Release {
    pub first: u8,
    pub answer: Answer,
}

// Where the contents of a part that fills the octets start; nothing where it is no such part.
fn contents_start(tag: u8, octets: &[u8]) -> Option<usize>
    ensures { result ≡ start_of octets.now (contents_of tag octets.now) }
{
    let n = octets.len();
    if n < SHORT_HEAD {
        return None;
    }
    if octets[0] != tag {
        return None;
    }
    if (n - SHORT_HEAD < LONG_LENGTH) & (octets[1] as usize == n - SHORT_HEAD) {
        return Some(SHORT_HEAD);
    }
    if n < LONG_LENGTH + LONG_HEAD {
        return None;
    }
    if (octets[1] == ONE_FOLLOWS) & (octets[2] as usize == n - LONG_HEAD) {
        return Some(LONG_HEAD);
    }
    None
}

// A part of one octet at the front.
fn read_octet(tag: u8, octets: &[u8]) -> Option<u8>
    ensures { told_octet result octets.now ≡ octet_at tag octets.now }
{
    if octets.len() < OCTET_PART {
        return None;
    }
    if (octets[0] != tag) | (octets[1] != 1) {
        return None;
    }
    Some(octets[2])
}

// The coding scheme and the string, in a sequence that fills the octets.
fn read_argument(octets: &[u8]) -> Option<Asked>
    ensures { told_argument result octets.now ≡ argument_of octets.now }
{
    let at = contents_start(SEQUENCE_TAG, octets)?;
    let contents = &octets[at..];
    let scheme = read_octet(OCTETS_TAG, contents)?;
    let last = &contents[OCTET_PART..];
    let start = contents_start(OCTETS_TAG, last)?;
    let count = last.len() - start;
    Some(Asked { scheme, count })
}

// What stands behind the invoke number.
fn read_body(octets: &[u8]) -> Result<Asked, Problem>
    ensures { told_body result octets.now ≡ body_of octets.now }
{
    if !begins_with(octets, &[INTEGER_TAG, 1, OPERATION_CODE]) {
        return Err(Problem::UnrecognizedOperation);
    }
    // Kept: no `ok_or`: it moves the whole value, with the octets that lie unused in it, and a processor waits for these.
    let Some(Asked { scheme, count }) = read_argument(&octets[OCTET_PART..]) else {
        return Err(Problem::MistypedParameter);
    };
    Ok(Asked { scheme, count })
}

// A request's component, which fills the octets.
pub fn read_invoke(octets: &[u8]) -> Option<Invoke>
    ensures { told_invoke result octets.now ≡ invoke_of octets.now }
{
    let at = contents_start(INVOKE_TAG, octets)?;
    let contents = &octets[at..];
    let number = read_octet(INTEGER_TAG, contents)?;
    let body = read_body(&contents[OCTET_PART..]);
    Some(Invoke { number, body })
}

// Where the element of a message of this type ends; nothing where it is no such message.
fn element_end(kind: u8, message: &[u8]) -> Option<usize>
    ensures { result ≡ end_of (message_of kind message.now) }
{
    if message.len() < HEADER {
        return None;
    }
    if (message[0] % HALF != PROTOCOL) | (message[1] != kind) | (message[2] != FACILITY) {
        return None;
    }
    let end = HEADER + message[3] as usize;
    if message.len() < end {
        return None;
    }
    Some(end)
}

// What stands behind the invoke number, with the rest of the message behind the element.
fn end_body(rest: &[u8], body: Result<Asked, Problem>) -> Result<Asked, Problem>
    ensures { result ≡ ended_body rest.now body }
{
    let asked = body?;
    if (rest.len() == VERSION.len()) & begins_with(rest, &VERSION) {
        return Ok(asked);
    }
    Err(Problem::MistypedParameter)
}

// A Register.
// Inlined: the export and the framed request take the answer apart at once, and a processor waits where it is laid down part by part and then read whole.
#[inline(always)]
pub fn read_register(message: &[u8]) -> Result<Register, Refusal>
    ensures { told_register result message.now ≡ or_unread (register_of message.now) }
{
    let Some(end) = element_end(REGISTER_TYPE, message) else {
        return Err(Refusal::NoMessage);
    };
    let Some(invoke) = read_invoke(&message[HEADER..end]) else {
        return Err(Refusal::NoMessage);
    };
    let body = end_body(&message[end..], invoke.body);
    Ok(Register {
        first: message[0],
        number: invoke.number,
        body,
    })
}

// A result's component.
fn read_result(octets: &[u8]) -> Option<Answer>
    ensures { told_answer result octets.now ≡ result_of octets.now }
{
    let at = contents_start(RESULT_TAG, octets)?;
    let contents = &octets[at..];
    let number = read_octet(INTEGER_TAG, contents)?;
    let outer = &contents[OCTET_PART..];
    let first = contents_start(SEQUENCE_TAG, outer)?;
    let Ok(asked) = read_body(&outer[first..]) else {
        return None;
    };
    if (asked.scheme != CODING_SCHEME) | (MOST_RESULT_OCTETS < asked.count) {
        return None;
    }
    Some(Answer::Result(number, asked.count))
}

// An invoke number and one octet more, in a component that they fill.
fn read_pair(tag: u8, inner: u8, octets: &[u8]) -> Option<(u8, u8)>
    ensures { told_pair result ≡ pair_of tag inner octets.now }
{
    let at = contents_start(tag, octets)?;
    let contents = &octets[at..];
    let number = read_octet(INTEGER_TAG, contents)?;
    let last = &contents[OCTET_PART..];
    let code = read_octet(inner, last)?;
    if last.len() != OCTET_PART {
        return None;
    }
    Some((number, code))
}

// The component of an answer, which fills the octets.
pub fn read_answer(octets: &[u8]) -> Option<Answer>
    ensures { told_answer result octets.now ≡ component_of octets.now }
{
    if let Some((number, code)) = read_pair(ERROR_TAG, INTEGER_TAG, octets) {
        return Some(Answer::Error(number, code));
    }
    if let Some((number, problem)) = read_pair(REJECT_TAG, PROBLEM_TAG, octets) {
        return Some(Answer::Reject(number, problem));
    }
    read_result(octets)
}

// A Release Complete.
pub fn read_release(message: &[u8]) -> Result<Release, Refusal>
    ensures { told_release result message.now ≡ or_unread (release_of message.now) }
{
    let Some(end) = element_end(RELEASE_TYPE, message) else {
        return Err(Refusal::NoMessage);
    };
    if end != message.len() {
        return Err(Refusal::NoMessage);
    }
    let Some(answer) = read_answer(&message[HEADER..]) else {
        return Err(Refusal::NoMessage);
    };
    Ok(Release {
        first: message[0],
        answer,
    })
}
