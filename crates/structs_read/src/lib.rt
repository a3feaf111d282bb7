// The structs that the C functions return for what they read: the fields of a request, and messages.
#![tactic(auto)]

ghost use Rattle.std.specs.Prelude.{◌≡◌};
ghost use Rattle.frames.specs.Messages.{register_of, release_of};
ghost use Rattle.frames.specs.Read.{or_unread, told_register, told_release};
ghost use Rattle.structs_read.specs.Fields.{of_operation, of_erasing, of_crew, code_count, of_fields, operation_of, erasing_of};
ghost use Rattle.structs_read.specs.Frames.{stringless, string_at, of_register, of_release};

use answers::Refusal;
use crews::Crew;
use frames::{Answer, Register, Release, VERSION};
use numbers::Msisdn;
use strings::{CODING_SCHEME, Erasing, Fields, Operation};
use structs::{READ, REFUSAL, REJECT, RETURN_ERROR};

// What the request's reader answers: the class; the number of an error; the operation, whether it is of a crew, the functional number, the
// MSISDN that a forced erasure names, or 0; the start and the length of the additional field in the text, and how many codes it ends in.
// Kept: C gets this struct (include/ffn.h), so its class is a number and what an answer lacks is 0.
#[repr(C)]
#[derive(Clone, Copy, Debug, PartialEq, Eq)]
pub struct RequestRead {
    pub class: u32,
    pub number: u32,
    pub operation: u32,
    pub crew: u32,
    pub functional_number: u64,
    pub msisdn: u64,
    pub start: usize,
    pub length: usize,
    pub codes: usize,
}

// What a message's reader answers: the class; the number of a refusal, of an error or of a Reject; the first octet and the invoke number;
// the string by its coding scheme, its start in the message and its length.
// Kept: C gets this struct (include/ffn.h), so its class is a number and what an answer lacks is 0.
#[repr(C)]
#[derive(Clone, Copy, Debug, PartialEq, Eq)]
pub struct FrameRead {
    pub class: u32,
    pub number: u32,
    pub first: u32,
    pub invoke: u32,
    pub scheme: u32,
    pub start: usize,
    pub length: usize,
}

// The operation of a number, where it stands for one.
pub fn operation_of(n: u32) -> Option<Operation>
    ensures { result ≡ operation_of n }
{
    match n {
        0 => Some(Operation::Register),
        1 => Some(Operation::Erase),
        2 => Some(Operation::Interrogate),
        _ => None,
    }
}

// The number of an operation.
// Kept: no `From`, since the number is C's, and this crate has neither the type nor u32.
fn of_operation(operation: Operation) -> u32
    ensures { result ≡ of_operation operation }
{
    match operation {
        Operation::Register => 0,
        Operation::Erase => 1,
        Operation::Interrogate => 2,
    }
}

// Supervisor field and MSISDN to erase: both empty for 0.
pub fn erasing_of(msisdn: u64) -> Erasing
    ensures { result ≡ erasing_of msisdn }
{
    if msisdn == 0 {
        return Erasing::Empty;
    }
    Erasing::Forced(Msisdn(msisdn))
}

// The MSISDN that a forced erasure names, or 0.
fn of_erasing(erasing: Erasing) -> u64
    ensures { result ≡ of_erasing erasing }
{
    match erasing {
        Erasing::Empty => 0,
        Erasing::Forced(msisdn) => msisdn.0,
    }
}

// Whether a request is of a crew, 0 or 1.
fn of_crew(crew: Crew) -> u32
    ensures { result ≡ of_crew crew }
{
    match crew {
        Crew::Single => 0,
        Crew::Codes(_) => 1,
        Crew::Broken => 0,
    }
}

// How many codes a crew has besides the lead's.
fn codes_of(crew: Crew) -> usize
    ensures { result ≡ code_count crew }
{
    match crew {
        Crew::Single => 0,
        Crew::Codes(n) => n,
        Crew::Broken => 0,
    }
}

// The fields that were read.
pub fn of_fields(fields: Fields) -> RequestRead
    ensures { result ≡ of_fields fields.operation fields.number fields.erasing fields.start fields.count fields.crew }
{
    RequestRead {
        class: READ,
        number: 0,
        operation: of_operation(fields.operation),
        crew: of_crew(fields.crew),
        functional_number: fields.number.0,
        msisdn: of_erasing(fields.erasing),
        start: fields.start,
        length: fields.count,
        codes: codes_of(fields.crew),
    }
}

// A message without a string.
fn no_string(class: u32, number: u8, first: u8, invoke: u8) -> FrameRead
    ensures { result ≡ stringless class number first invoke }
{
    FrameRead {
        class,
        number: u32::from(number),
        first: u32::from(first),
        invoke: u32::from(invoke),
        scheme: 0,
        start: 0,
        length: 0,
    }
}

// A message with a string, by its place.
fn string_at(first: u8, invoke: u8, scheme: u8, start: usize, length: usize) -> FrameRead
    ensures { result ≡ string_at first invoke scheme start length }
{
    FrameRead {
        scheme: u32::from(scheme),
        start,
        length,
        ..no_string(READ, 0, first, invoke)
    }
}

// The Register that was read in a message.
pub fn of_register(message: &[u8], read: Result<Register, Refusal>) -> FrameRead
    requires { told_register read message.now ≡ or_unread (register_of message.now) }
    ensures { result ≡ of_register message.now (register_of message.now) }
{
    match read {
        Err(refusal) => no_string(REFUSAL, u8::from(refusal), 0, 0),
        Ok(register) => match register.body {
            Err(problem) => {
                no_string(REJECT, u8::from(problem), register.first, register.number)
            }
            Ok(asked) => {
                let start = message.len() - VERSION.len() - asked.count;
                string_at(
                    register.first,
                    register.number,
                    asked.scheme,
                    start,
                    asked.count,
                )
            }
        },
    }
}

// The Release Complete that was read in a message.
pub fn of_release(message: &[u8], read: Result<Release, Refusal>) -> FrameRead
    requires { told_release read message.now ≡ or_unread (release_of message.now) }
    ensures { result ≡ of_release message.now (release_of message.now) }
{
    match read {
        Err(refusal) => no_string(REFUSAL, u8::from(refusal), 0, 0),
        Ok(Release { first, answer }) => match answer {
            Answer::Result(invoke, count) => {
                string_at(first, invoke, CODING_SCHEME, message.len() - count, count)
            }
            Answer::Error(invoke, code) => no_string(RETURN_ERROR, code, first, invoke),
            Answer::Reject(invoke, problem) => no_string(REJECT, problem, first, invoke),
        },
    }
}
