// The request string and the notice: their fields, and the readers of their packed octets.
#![tactic(auto)]

ghost use Rattle.std.specs.Prelude.{◌≡◌, true, ◌+◌, ◌<◌};
ghost use Rattle.strings.specs.Text.{is_additional, may_force, may_carry, crew_allowed};
ghost use Rattle.strings.specs.Reader.{operation_at, number_field_at, erasing_at, leading_additional, fields_of};
ghost use Rattle.strings.specs.Found.{FieldIs, ServiceIs, AdditionalIs};
ghost use Rattle.strings.specs.Outcomes.{told, tell, made_read, reading};
ghost use Rattle.strings.specs.Notices.{supervisor_field_at, notice_string_at, notice_string_of, notice_read};

use answers::{begins_with, stands_at};
use crews::{Crew, LEAD_CODE};
use numbers::{FunctionalNumber, Msisdn};

// An additional field has at most so many characters.
pub const MOST_ADDITIONAL: usize = 30;

// The text of sound fields has at most so many characters.
pub const MOST_CHARACTERS: usize = 72;

// The data coding scheme of a request's string.
pub const CODING_SCHEME: u8 = 0x0F;

// What is asked for: `**`, `##` or `*#`.
#[derive(Clone, Copy, Debug, PartialEq, Eq)]
pub enum Operation {
    Register,
    Erase,
    Interrogate,
}

// The supervisor field and the MSISDN to erase: both empty, or `88` and the holder that a forced erasure names.
// Kept: an `Option<Msisdn>` is no plainer, since the paper has these two cases of two fields, and the definitions and theorems name them.
#[derive(Clone, Copy, Debug, PartialEq, Eq)]
pub enum Erasing {
    Empty,
    Forced(Msisdn),
}

// The fields of a request; the additional field by its start and its count of characters in the unpacked text, and what it says of a crew.
// Kept: a start and a count in place of a slice, since the text is returned beside the fields.
#[derive(Clone, Copy, Debug, PartialEq, Eq)]
pub struct Fields {
    pub operation: Operation,
    pub number: FunctionalNumber,
    pub erasing: Erasing,
    pub start: usize,
    pub count: usize,
    pub crew: Crew,
}

// The fields, or none for error 36, beside the unpacked text in which the additional field stands.
#[derive(Clone, Copy, Debug, PartialEq, Eq)]
pub struct ReadRequest {
    pub reading: Option<Fields>,
    pub text: [u8; MOST_CHARACTERS],
}

// The operation.
fn read_operation(part: &[u8]) -> Option<(Operation, usize)>
    ensures { FieldIs operation_at result part.now }
{
    if begins_with(part, b"**") {
        return Some((Operation::Register, 2));
    }
    if begins_with(part, b"##") {
        return Some((Operation::Erase, 2));
    }
    if begins_with(part, b"*#") {
        return Some((Operation::Interrogate, 2));
    }
    None
}

// `214` and its star.
fn read_service(part: &[u8]) -> Option<usize>
    ensures { ServiceIs result part.now }
{
    if begins_with(part, b"214*") {
        return Some(4);
    }
    None
}

// A number and its star.
fn read_number_field(part: &[u8]) -> Option<(u64, usize)>
    ensures { FieldIs number_field_at result part.now }
{
    let Some((word, n)) = numbers::read_number(part) else {
        return None;
    };
    if !stands_at(part, n, b'*') {
        return None;
    }
    Some((word, n + 1))
}

// Whether the operation may be a forced one: with `##` only.
pub fn may_force(operation: Operation) -> bool
    ensures { result ≡ may_force operation }
{
    operation == Operation::Erase
}

// Supervisor field and MSISDN to erase, each with its star: both empty, or `88` and a number.
fn read_erasing(operation: Operation, part: &[u8]) -> Option<(Erasing, usize)>
    ensures { FieldIs (erasing_at operation) result part.now }
{
    if begins_with(part, b"**") {
        return Some((Erasing::Empty, 2));
    }
    if !may_force(operation) {
        return None;
    }
    if !begins_with(part, b"88*") {
        return None;
    }
    let Some((word, n)) = read_number_field(&part[3..]) else {
        return None;
    };
    Some((Erasing::Forced(Msisdn(word)), 3 + n))
}

// Whether a character may stand in an additional field: a digit, a letter A–Z or a space.
fn is_additional(c: u8) -> bool
    ensures { result ≡ is_additional c }
{
    c.is_ascii_digit() | c.is_ascii_uppercase() | (c == b' ')
}

// How many characters at the front of a part may stand in an additional field.
pub fn leading_additional(part: &[u8]) -> usize
    ensures { result ≡ leading_additional part.now }
{
    part.iter().take_while(|c| is_additional(**c)).count()
}

// The additional field and what it says of a crew, and `#` as last character.
fn read_additional(part: &[u8]) -> Option<(usize, Crew)>
    ensures { AdditionalIs result part.now }
{
    let n = leading_additional(part);
    if MOST_ADDITIONAL < n {
        return None;
    }
    if !stands_at(part, n, b'#') {
        return None;
    }
    if part.len() != n + 1 {
        return None;
    }
    Some((n, crews::read_crew(&part[..n])))
}

// Whether a request may carry a crew: with register and plain erase only.
fn may_carry(operation: Operation, erasing: Erasing) -> bool
    ensures { result ≡ may_carry operation erasing }
{
    erasing == Erasing::Empty && operation != Operation::Interrogate
}

// Whether what an additional field says of a crew may stand beside the other fields.
pub fn crew_allowed(
    operation: Operation,
    number: FunctionalNumber,
    erasing: Erasing,
    crew: Crew,
) -> bool
    ensures { result ≡ crew_allowed operation number erasing crew }
{
    match crew {
        Crew::Single => true,
        Crew::Codes(_) => (number.0 % 100 == LEAD_CODE) & may_carry(operation, erasing),
        Crew::Broken => false,
    }
}

// The fields of a text, each read from the rest of it; the first that cannot be read ends the reading.
// Kept: `let .. else` on each field's answer in place of `?`, a form that the project was given (docs/DECISIONS.md, "Forms").
fn read_fields(text: &[u8]) -> Option<Fields>
    ensures { told result text.now ≡ tell text.now (fields_of text.now) }
{
    let Some((operation, cursor)) = read_operation(text) else {
        return None;
    };
    let Some(n) = read_service(&text[cursor..]) else {
        return None;
    };
    let cursor = cursor + n;
    let Some((word, n)) = read_number_field(&text[cursor..]) else {
        return None;
    };
    let cursor = cursor + n;
    let Some((erasing, n)) = read_erasing(operation, &text[cursor..]) else {
        return None;
    };
    let start = cursor + n;
    let Some((count, crew)) = read_additional(&text[start..]) else {
        return None;
    };
    let number = FunctionalNumber(word);
    if !crew_allowed(operation, number, erasing, crew) {
        return None;
    }
    Some(Fields {
        operation,
        number,
        erasing,
        start,
        count,
        crew,
    })
}

// Reads a packed request string; one with too many characters for any fields, or with unreadable bits, is unreadable.
pub fn read_request(octets: &[u8]) -> ReadRequest
    ensures { made_read result ≡ reading octets.now }
{
    let mut text = [0u8; MOST_CHARACTERS];
    let Ok(n) = packing::unpack(octets, &mut text) else {
        return ReadRequest {
            reading: None,
            text,
        };
    };
    let reading = read_fields(&text[..n]);
    ReadRequest { reading, text }
}

// A notice's supervisor: a number and its star, or the star alone.
fn read_supervisor(part: &[u8]) -> Option<(u64, usize)>
    ensures { FieldIs supervisor_field_at result part.now }
{
    if stands_at(part, 0, b'*') {
        return Some((0, 1));
    }
    read_number_field(part)
}

// The fields of a notice's text, each read from the rest of it.
fn read_notice_fields(text: &[u8]) -> Option<(FunctionalNumber, Msisdn)>
    ensures { result ≡ notice_read (notice_string_at text.now) }
{
    if !begins_with(text, b"##214*") {
        return None;
    }
    let Some((word, n)) = read_number_field(&text[6..]) else {
        return None;
    };
    let number = FunctionalNumber(word);
    let cursor = 6 + n;
    if !begins_with(&text[cursor..], b"88*") {
        return None;
    }
    let cursor = cursor + 3;
    let Some((word, n)) = read_supervisor(&text[cursor..]) else {
        return None;
    };
    let supervisor = Msisdn(word);
    let Some((_, crew)) = read_additional(&text[cursor + n..]) else {
        return None;
    };
    if !crew_allowed(Operation::Erase, number, Erasing::Forced(supervisor), crew) {
        return None;
    }
    Some((number, supervisor))
}

// Reads a packed notice; octets of too many characters for any, or with unreadable bits, are no notice's.
pub fn read_notice(octets: &[u8]) -> Option<(FunctionalNumber, Msisdn)>
    ensures { result ≡ notice_read (notice_string_of octets.now) }
{
    let mut text = [0u8; MOST_CHARACTERS];
    let Ok(n) = packing::unpack(octets, &mut text) else {
        return None;
    };
    read_notice_fields(&text[..n])
}
