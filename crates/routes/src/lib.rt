// M-112: where a text message goes, the MSISDN that stands behind a functional number in the table that is lent. Nothing is written.
#![tactic(auto)]

ghost use Rattle.std.specs.Prelude.{◌≡◌, true, cond, ◌+◌, ◌≤◌, length, Ok};
ghost use Rattle.answers.specs.Writing.{Stands};
ghost use Rattle.numbers.specs.Numbers.{fewest_digits, most_digits, are_digits, stored_form};
ghost use Rattle.tables.specs.Tables.{table_sound, record_of};
ghost use Rattle.rules.specs.Routing.{code_length, with_code_in, is_international_code, is_outside, subaddress_of, by_code, routing as routingOf};
ghost use Rattle.routes.specs.Said.{octets_in, said_routing};

use answers::{Failure, Outcome, Refusal, RequestError, begins_with};
use frames::HALF;
use numbers::{FEWEST_DIGITS, FunctionalNumber, MOST_DIGITS, Msisdn};

// An international code has so many digits.
const CODE_LENGTH: usize = 3;

// "80 48": the type of the subaddress, and how its digits are written.
const TYPE_OCTET: u8 = 0x80;

const FORMAT_OCTET: u8 = 0x48;

// The subaddress octets that go with an MSISDN; the last has the branch.
// Kept: a struct and no array, since two answers that the contract allows are equal (`routing_one`), and a proof does not know how long an array is.
#[derive(Clone, Copy, Debug, PartialEq, Eq)]
pub struct Subaddress {
    pub kind: u8,
    pub format: u8,
    pub branch: u8,
}

// The answer to a routing that is neither refused nor in error: an outcome; another network's code by its three characters; or the MSISDN, with the subaddress.
#[derive(Clone, Copy, Debug, PartialEq, Eq)]
pub enum RoutingAnswer {
    Outcome(Outcome),
    AskNetwork([u8; CODE_LENGTH]),
    Routed(Msisdn, Option<Subaddress>),
}

// Whether characters are an international code.
fn is_international_code(code: &[u8]) -> bool
    ensures { result ≡ is_international_code code.now }
{
    (code.len() == CODE_LENGTH) & numbers::are_digits(code)
}

// Whether so many digits, with the node's code in front where they have none, are too few or too many for a number.
fn is_outside(coded: bool, digits: usize) -> bool
    ensures { result ≡ is_outside (cond coded digits (code_length + digits)) }
{
    if coded {
        return (digits < FEWEST_DIGITS) | (MOST_DIGITS < digits);
    }
    (digits < FEWEST_DIGITS - CODE_LENGTH) | (MOST_DIGITS - CODE_LENGTH < digits)
}

// Writes the digits, behind the node's code where they have none.
fn put_digits(home: &[u8], coded: bool, asked: &[u8], out: &mut [u8]) -> usize
    requires { length (with_code_in home.now coded asked.now) ≤ length out.old }
    ensures { Stands (with_code_in home.now coded asked.now) out.old result out.new }
{
    if coded {
        return writers::put(asked, out);
    }
    let at = writers::put(home, out);
    at + writers::put(asked, &mut out[at..])
}

// The branch of a number of type 2, 3 or 4, in the halves of an octet.
fn branch_of(digits: &[u8]) -> Option<Subaddress>
    requires { (are_digits digits.now ≡ true) × (fewest_digits ≤ length digits.now) }
    ensures { octets_in result ≡ subaddress_of digits.now }
{
    let kind = digits[CODE_LENGTH] - b'0';
    if !((kind == 2) | (kind == 3) | (kind == 4)) {
        return None;
    }
    let last = digits[digits.len() - 1] - b'0';
    let before = digits[digits.len() - 2] - b'0';
    Some(Subaddress {
        kind: TYPE_OCTET,
        format: FORMAT_OCTET,
        branch: HALF * last + before,
    })
}

// By the code, and by the record of the number where the code is the node's own.
fn route(table: &[u64], home: &[u8], digits: &[u8]) -> RoutingAnswer
    requires table_value { table_sound table.now ≡ true }
    requires digits_value { (are_digits digits.now ≡ true) × (fewest_digits ≤ length digits.now) × (length digits.now ≤ most_digits) }
    ensures { said_routing (Ok result) ≡ by_code home.now digits.now (record_of table.now (stored_form digits.now)) }
{
    if !begins_with(digits, home) {
        return RoutingAnswer::AskNetwork([digits[0], digits[1], digits[2]]);
    }
    // Digits of a number: they read.
    let Some((word, _)) = numbers::read_number(digits) else {
        unreachable!()
    };
    let Some(row) = tables::row_of(table, FunctionalNumber(word)) else {
        return RoutingAnswer::Outcome(Outcome::UnknownNumber);
    };
    let holder = rows::load(table, row).holder;
    if holder.0 == 0 {
        return RoutingAnswer::Outcome(Outcome::NoHolder);
    }
    RoutingAnswer::Routed(holder, branch_of(digits))
}

// Where a text message to these digits goes.
pub fn routing(
    table: &[u64],
    home: &[u8],
    coded: bool,
    asked: &[u8],
) -> Result<RoutingAnswer, Failure>
    ensures { said_routing result ≡ routingOf table.now home.now coded asked.now }
{
    if !tables::table_sound(table) {
        return Err(Failure::Refused(Refusal::UnsoundTable));
    }
    if !is_international_code(home) {
        return Err(Failure::Error(RequestError::UnexpectedData));
    }
    if !numbers::are_digits(asked) {
        return Err(Failure::Error(RequestError::UnexpectedData));
    }
    if is_outside(coded, asked.len()) {
        return Err(Failure::Error(RequestError::UnexpectedData));
    }
    let mut digits = [0u8; MOST_DIGITS];
    let n = put_digits(home, coded, asked, &mut digits);
    Ok(route(table, home, &digits[..n]))
}
