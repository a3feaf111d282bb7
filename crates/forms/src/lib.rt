// The form of a line of the program: its letter, and the fields that stand behind it one space apart.
#![tactic(auto)]

ghost use Rattle.std.specs.Prelude.{◌≡◌, List, ℕ, ◌^◌, ◌≤◌, ◌<◌, length, MatchOption};
ghost use Rattle.octets.specs.Octets.{index_of};
ghost use Rattle.forms.specs.Lines.{is_digits, number_of, asked_of, value_below, number_form, subscriber_form, request_form, sending_form, result_fields, result_form, delay_form, lettered};
ghost use Rattle.forms.specs.Reads.{value_in, Whole, Parted, Reads};

use numbers::{FunctionalNumber, Msisdn};
use tables::MOST_FLAGS;

// Flags, and now, kind and seconds, are below these.
const FLAGS_END: u64 = MOST_FLAGS + 1;

const TWO_TO_THE_32: u64 = 4_294_967_296;

// The form of a line behind its letter, with the values of its fields; a string by where it starts.
// Kept: a slice in place of the start has an address, and `read_form_one` says that a line has one answer.
#[derive(Clone, Copy, Debug, PartialEq, Eq)]
pub enum Line {
    Number(FunctionalNumber),
    Subscriber(Msisdn, u8),
    Request(Msisdn, usize),
    Sending(u32, FunctionalNumber),
    Result(u32, FunctionalNumber, u32),
    Delay(u32),
}

// Where an octet first stands in a part; the part's length where it does not.
pub fn place_of(octet: u8, part: &[u8]) -> usize
    ensures { (result ≡ index_of octet part.now) × (result ≤ length part.now) }
{
    octets::find(part, 0, part.len(), octet)
}

// The field up to the first space of a part, and what stands behind that space.
fn split_at_space(rest: &[u8]) -> Option<(&[u8], &[u8])>
    ensures { MatchOption result (Whole rest.now) (λ parts. Parted rest.now parts.0.now parts.1.now) }
{
    let end = rest.iter().position(|octet| *octet == b' ')?;
    Some((&rest[..end], &rest[end + 1..]))
}

// Whether a field is digits, at least one.
fn is_digits(field: &[u8]) -> bool
    ensures { result ≡ is_digits field.now }
{
    !field.is_empty() & numbers::are_digits(field)
}

// The value of a field of digits, which has to be below the limit.
fn value_below(field: &[u8], limit: u64) -> Option<u64>
    requires { (0 < limit) × (limit ≤ 2 ^ 32) }
    ensures { value_in result ≡ value_below limit field.now }
{
    if !is_digits(field) {
        return None;
    }
    let mut value: u64 = 0;
    for digit in field {
        value = 10 * value + u64::from(*digit - b'0');
        if limit <= value {
            return None;
        }
    }
    Some(value)
}

// A number of `N` or `S`, in stored form.
fn number_of(field: &[u8]) -> Option<u64>
    ensures { value_in result ≡ number_of field.now }
{
    if !is_digits(field) {
        return None;
    }
    let (word, _) = numbers::read_number(field)?;
    Some(word)
}

// A number of `R`, `T` or `D`, in stored form; 0, a malformed number, where it has not 5 to 15 digits.
fn asked_of(field: &[u8]) -> Option<u64>
    ensures { value_in result ≡ asked_of field.now }
{
    if !is_digits(field) {
        return None;
    }
    Some(number_of(field).unwrap_or(0))
}

// `N` number.
fn read_number(rest: &[u8]) -> Option<Line>
    ensures { Reads rest.now result (number_form rest.now) }
{
    let word = number_of(rest)?;
    Some(Line::Number(FunctionalNumber(word)))
}

// `S` MSISDN flags.
fn read_subscriber(rest: &[u8]) -> Option<Line>
    ensures { Reads rest.now result (subscriber_form rest.now) }
{
    let (field, last) = split_at_space(rest)?;
    let word = number_of(field)?;
    let flags = value_below(last, FLAGS_END)?;
    Some(Line::Subscriber(Msisdn(word), flags as u8))
}

// `R` requester string.
fn read_request(rest: &[u8]) -> Option<Line>
    ensures { Reads rest.now result (request_form rest.now) }
{
    let (field, string) = split_at_space(rest)?;
    let word = asked_of(field)?;
    Some(Line::Request(Msisdn(word), rest.len() - string.len()))
}

// `T` now number.
fn read_sending(rest: &[u8]) -> Option<Line>
    ensures { Reads rest.now result (sending_form rest.now) }
{
    let (field, last) = split_at_space(rest)?;
    let clock = value_below(field, TWO_TO_THE_32)?;
    let word = asked_of(last)?;
    Some(Line::Sending(clock as u32, FunctionalNumber(word)))
}

// Number and kind of a `D`, behind its now.
fn read_result_at(clock: u32, rest: &[u8]) -> Option<Line>
    ensures { (line : List ℕ) → Reads line result (result_fields clock rest.now) }
{
    let (field, last) = split_at_space(rest)?;
    let word = asked_of(field)?;
    let kind = value_below(last, TWO_TO_THE_32)?;
    Some(Line::Result(clock, FunctionalNumber(word), kind as u32))
}

// `D` now number kind.
fn read_result(rest: &[u8]) -> Option<Line>
    ensures { Reads rest.now result (result_form rest.now) }
{
    let (field, last) = split_at_space(rest)?;
    let clock = value_below(field, TWO_TO_THE_32)?;
    read_result_at(clock as u32, last)
}

// `W` seconds.
fn read_delay(rest: &[u8]) -> Option<Line>
    ensures { Reads rest.now result (delay_form rest.now) }
{
    let seconds = value_below(rest, TWO_TO_THE_32)?;
    Some(Line::Delay(seconds as u32))
}

// The form of a line by its letter; none where it has no form.
// Kept: a `match` on the letter is no plainer as a table of functions, which a proof would have to look up.
pub fn read_form(letter: u8, rest: &[u8]) -> Option<Line>
    ensures { Reads rest.now result (lettered letter rest.now) }
{
    match letter {
        b'N' => read_number(rest),
        b'S' => read_subscriber(rest),
        b'R' => read_request(rest),
        b'T' => read_sending(rest),
        b'D' => read_result(rest),
        b'W' => read_delay(rest),
        _ => None,
    }
}
