// The calls, by their names and the words of their lines.
ghost use Rattle.std.specs.Prelude.{◌≡◌, [], ◌∷◌, IfSome};
ghost use Rattle.answers.specs.Ascii.{ascii};
ghost use Rattle.shown.specs.Calls.{operation_word, erasing_words, wanted_words, name_of, words_of, takes_tail, packs_characters};

use numbers::{FunctionalNumber, Msisdn};
use strings::{Erasing, Operation};

// A request that is to be written, without its additional field.
#[derive(Clone, Copy, Debug, PartialEq, Eq)]
pub struct Wanted {
    pub operation: Operation,
    pub number: FunctionalNumber,
    pub erasing: Erasing,
}

// A call with its words. A sending and a finding have a delay and a clock, a result a kind and a clock, a Register a transaction identifier and an invoke number.
#[derive(Clone, Copy, Debug, PartialEq, Eq)]
pub enum Call {
    Request(Msisdn, u8),
    Sending(FunctionalNumber, u32, u32),
    Result(FunctionalNumber, u32, u32),
    Finding(u32, u32),
    Recount,
    Framed(Msisdn),
    Pack,
    Unpack,
    Write(Wanted),
    Read,
    Number(u64),
    Register(u8, u8, Wanted),
    Registered,
    Released,
}

fn read_operation(word: u64) -> Option<Operation>
    ensures { IfSome result (λ operation. operation_word operation ≡ word) }
{
    match word {
        0 => Some(Operation::Register),
        1 => Some(Operation::Erase),
        2 => Some(Operation::Interrogate),
        _ => None,
    }
}

// An MSISDN, where a line has that word.
fn read_erasing(words: &[u64]) -> Option<Erasing>
    ensures { IfSome result (λ erasing. erasing_words erasing ≡ words.now) }
{
    match words {
        [] => Some(Erasing::Empty),
        [msisdn] => Some(Erasing::Forced(Msisdn(*msisdn))),
        _ => None,
    }
}

fn read_wanted(words: &[u64]) -> Option<Wanted>
    ensures { IfSome result (λ wanted. wanted_words wanted ≡ words.now) }
{
    let [operation, number, erasing @ ..] = words else {
        return None;
    };
    Some(Wanted {
        operation: read_operation(*operation)?,
        number: FunctionalNumber(*number),
        erasing: read_erasing(erasing)?,
    })
}

fn read_register(words: &[u64]) -> Option<Call>
    ensures { IfSome result (λ call. (name_of call ≡ ascii "register") × (words_of call ≡ words.now)) }
{
    let [transaction, invoke, wanted @ ..] = words else {
        return None;
    };
    Some(Call::Register(
        u8::try_from(*transaction).ok()?,
        u8::try_from(*invoke).ok()?,
        read_wanted(wanted)?,
    ))
}

// A number with a delay or kind, and a clock.
fn read_numbered(words: &[u64]) -> Option<(FunctionalNumber, u32, u32)>
    ensures { IfSome result (λ read. read.0.0 ∷ read.1 ∷ read.2 ∷ [] ≡ words.now) }
{
    let [number, second, clock] = words else {
        return None;
    };
    Some((
        FunctionalNumber(*number),
        u32::try_from(*second).ok()?,
        u32::try_from(*clock).ok()?,
    ))
}

fn read_request(words: &[u64]) -> Option<Call>
    ensures { IfSome result (λ call. (name_of call ≡ ascii "request") × (words_of call ≡ words.now)) }
{
    let [requester, scheme] = words else {
        return None;
    };
    Some(Call::Request(Msisdn(*requester), u8::try_from(*scheme).ok()?))
}

fn read_finding(words: &[u64]) -> Option<Call>
    ensures { IfSome result (λ call. (name_of call ≡ ascii "finding") × (words_of call ≡ words.now)) }
{
    let [delay, clock] = words else {
        return None;
    };
    Some(Call::Finding(u32::try_from(*delay).ok()?, u32::try_from(*clock).ok()?))
}

// A call with at most one word.
fn read_short(name: &[u8], words: &[u64]) -> Option<Call>
    ensures { IfSome result (λ call. (name_of call ≡ name.now) × (words_of call ≡ words.now)) }
{
    match (name, words) {
        (b"framed", [requester]) => Some(Call::Framed(Msisdn(*requester))),
        (b"number", [word]) => Some(Call::Number(*word)),
        (b"recount", []) => Some(Call::Recount),
        (b"pack", []) => Some(Call::Pack),
        (b"unpack", []) => Some(Call::Unpack),
        (b"read", []) => Some(Call::Read),
        (b"registered", []) => Some(Call::Registered),
        (b"released", []) => Some(Call::Released),
        _ => None,
    }
}

impl Call {
    // The call of a name, where these are its words.
    pub fn read(name: &[u8], words: &[u64]) -> Option<Call>
        ensures { IfSome result (λ call. (name_of call ≡ name.now) × (words_of call ≡ words.now)) }
    {
        match name {
            b"request" => read_request(words),
            b"sending" => {
                let (number, delay, clock) = read_numbered(words)?;
                Some(Call::Sending(number, delay, clock))
            }
            b"result" => {
                let (number, kind, clock) = read_numbered(words)?;
                Some(Call::Result(number, kind, clock))
            }
            b"finding" => read_finding(words),
            b"write" => Some(Call::Write(read_wanted(words)?)),
            b"register" => read_register(words),
            _ => read_short(name, words),
        }
    }

    // Whether its line may have a tail.
    pub fn takes_tail(self) -> bool
        ensures { result ≡ takes_tail self }
    {
        !matches!(
            self,
            Call::Sending(..)
                | Call::Result(..)
                | Call::Finding(..)
                | Call::Recount
                | Call::Number(_)
        )
    }

    // Whether the characters of a tail are packed first: those of a request's string.
    pub fn packs_characters(self) -> bool
        ensures { result ≡ packs_characters self }
    {
        matches!(self, Call::Request(..) | Call::Read)
    }

    // Whether it writes into the buffer.
    pub fn fills_buffer(self) -> bool {
        matches!(
            self,
            Call::Request(..)
                | Call::Sending(..)
                | Call::Framed(_)
                | Call::Pack
                | Call::Unpack
                | Call::Write(..)
                | Call::Register(..)
        )
    }

    // Whether it is lent the table and the figures to change.
    pub fn shows_table(self) -> bool {
        matches!(
            self,
            Call::Request(..) | Call::Sending(..) | Call::Result(..) | Call::Framed(_)
        )
    }
}
