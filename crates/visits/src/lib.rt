// A call's visit to the row of its number: the record is read, a step of it taken and stored, and what the step says is written. The answers of the node's calls.
#![tactic(auto)]

ghost use Rattle.std.specs.Prelude.{◌≡◌, true, [], ◌≤◌, ◌<◌, length, ℕ};
ghost use Rattle.answers.specs.Numbers.{outcome_number};
ghost use Rattle.packing.specs.Packing.{takes, octets_for};
ghost use Rattle.numbers.specs.Numbers.{is_number, two_digits};
ghost use Rattle.records.specs.Step.{said_step};
ghost use Rattle.records.specs.Steps.{interrogated, sent, is_due};
ghost use Rattle.rows.specs.Rows.{record_at, row_sound, record_sound};
ghost use Rattle.tables.specs.Tables.{table_sound, rows_in};
ghost use Rattle.states.specs.Lent.{state_in, SameLoans};
ghost use Rattle.states.specs.States.{state_sound};
ghost use Rattle.rules.specs.Answers.{made, outcome as outcome_of, holder_is, buffer_room, packed_over, octet_count, holder_text};
ghost use Rattle.rules.specs.Requests.{says, comes_to, replying};
ghost use Rattle.rules.specs.Notices as notices;
ghost use Rattle.rules.specs.Visits.{visited, storing, step_at, decides_at, holder_answered, erases, sent_step, visit_result};
ghost use Rattle.visits.specs.Settled.{step_by};
ghost use Rattle.visits.specs.Said.{said_reply, said_sending, said_result, said_due};

use answers::{Outcome, Refusal};
use numbers::{FunctionalNumber, Msisdn};
use records::{Fate, Record};
use states::Lent;
use strings::{Erasing, Fields, Operation};

// What a request's reply says, with its octet count: an outcome, or 03 with the holder.
#[derive(Clone, Copy, Debug, PartialEq, Eq)]
pub enum Reply {
    Outcome(Outcome, usize),
    Held(Msisdn, usize),
}

// A notice sent: its addressee and its octet count.
#[derive(Clone, Copy, Debug, PartialEq, Eq)]
pub struct Sent {
    pub addressee: Msisdn,
    pub octets: usize,
}

// Packs a text that the packer takes into a buffer that has room for it.
pub fn put(text: &[u8], out: &mut [u8]) -> usize
    requires { (takes text.now ≡ true) × (octets_for (length text.now) ≤ length out.old) }
    ensures { (result ≡ octet_count text.now) × (out.new ≡ packed_over text.now out.old) }
{
    packing::pack(text, out).unwrap()
}

// A number's two characters in the reply; how many octets they are.
pub fn say(n: u8, reply: &mut [u8]) -> usize
    requires { buffer_room ≤ length reply.old }
    ensures { (result ≡ octet_count (two_digits n)) × (reply.new ≡ packed_over (two_digits n) reply.old) }
{
    let text = writers::two_digits(n);
    put(&text, reply)
}

// An outcome: its two characters in the reply.
pub fn answer(outcome: Outcome, reply: &mut [u8]) -> Reply
    requires { buffer_room ≤ length reply.old }
    ensures { (said_reply result ≡ outcome_of (outcome_number outcome) (octet_count (two_digits (outcome_number outcome)))) × (reply.new ≡ packed_over (two_digits (outcome_number outcome)) reply.old) }
{
    let octets = say(u8::from(outcome), reply);
    Reply::Outcome(outcome, octets)
}

// Outcome 03: the holder's digits after the code and the space.
fn tell(msisdn: Msisdn, reply: &mut [u8]) -> Reply
    requires { (is_number msisdn.0 ≡ true) × (buffer_room ≤ length reply.old) }
    ensures { (said_reply result ≡ holder_is msisdn.0 (octet_count (holder_text msisdn.0))) × (reply.new ≡ packed_over (holder_text msisdn.0) reply.old) }
{
    let mut text = [b' '; 18];
    text[0] = b'0';
    text[1] = b'3';
    let n = numbers::write_digits(msisdn.0, &mut text[3..]).unwrap();
    let octets = put(&text[..n + 3], reply);
    Reply::Held(msisdn, octets)
}

// A step of the record of a row, stored where the record becomes the next one: its outcome, `success` there, in whatever outcomes are told by, a number too.
pub fn settle<O: Copy>(lent: &mut Lent<'_>, row: usize, success: O, step: Result<Record, O>) -> O
    requires { (state_sound (state_in lent.old) ≡ true) × (row < rows_in lent.old.table.now) }
    ensures answer { (number : O → ℕ) → comes_to (says (number result)) (state_in lent.new) ≡ step_at (state_in lent.old) row (number success) (step_by number step) }
    ensures loans { SameLoans lent.old lent.new }
{
    match step {
        Ok(next) => {
            lent.store(row, next);
            success
        }
        Err(outcome) => outcome,
    }
}

// An erasure, plain or forced.
fn erasure(
    held: Record,
    erasing: Erasing,
    number: FunctionalNumber,
    requester: Msisdn,
) -> Result<Record, Outcome>
    ensures { said_step result ≡ erases erasing number requester held }
{
    match erasing {
        Erasing::Empty => held.erase(number, requester),
        Erasing::Forced(msisdn) => held.force(requester, msisdn),
    }
}

// What an interrogation of a sound record found.
fn answer_holder(held: Record, reply: &mut [u8]) -> Reply
    requires { (record_sound held ≡ true) × (buffer_room ≤ length reply.old) }
    ensures { visited (said_reply result) reply.new held ≡ holder_answered reply.old held (interrogated held) }
{
    match held.interrogate() {
        Ok(msisdn) => tell(msisdn, reply),
        Err(outcome) => answer(outcome, reply),
    }
}

// What the record of a row decides, by the operation.
pub fn decide_at(
    lent: &mut Lent<'_>,
    row: usize,
    reply: &mut [u8],
    requester: Msisdn,
    fields: Fields,
) -> Reply
    requires { (state_sound (state_in lent.old) ≡ true) × (row < rows_in lent.old.table.now) × (buffer_room ≤ length reply.old) }
    ensures answer { made (said_reply result) (state_in lent.new) reply.new ≡ replying reply.old (decides_at fields.operation fields.erasing fields.number requester (state_in lent.old) row) }
    ensures loans { SameLoans lent.old lent.new }
{
    let record = lent.load(row);
    let number = fields.number;
    match fields.operation {
        Operation::Register => {
            let step = record.register(number, requester);
            let outcome = settle(lent, row, Outcome::Registered, step);
            answer(outcome, reply)
        }
        Operation::Erase => {
            let step = erasure(record, fields.erasing, number, requester);
            let outcome = settle(lent, row, Outcome::Erased, step);
            answer(outcome, reply)
        }
        Operation::Interrogate => answer_holder(record, reply),
    }
}

// A sending of the notice of the record of a row.
pub fn send_at(
    lent: &mut Lent<'_>,
    row: usize,
    buffer: &mut [u8],
    number: FunctionalNumber,
    delay: u32,
    clock: u32,
) -> Result<Sent, Refusal>
    requires figures_value { (state_sound (state_in lent.old) ≡ true) × (row < rows_in lent.old.table.now) }
    requires number_value { (is_number number.0 ≡ true) × (buffer_room ≤ length buffer.old) }
    ensures answer { made (said_sending result) (state_in lent.new) buffer.new ≡ storing (state_in lent.old) row (sent_step number buffer.old (record_at lent.old.table.now row) (sent delay clock (record_at lent.old.table.now row))) }
    ensures loans { SameLoans lent.old lent.new }
{
    let held = lent.load(row);
    let launched = held.send(delay, clock)?;
    lent.store(row, launched);
    let octets = writers::write_notice(number, held.supervisor, buffer);
    Ok(Sent {
        addressee: held.addressee,
        octets,
    })
}

// The result of a sending, for the notice of the record of a row.
pub fn result_at(lent: &mut Lent<'_>, row: usize, kind: u32, clock: u32) -> Result<Fate, Refusal>
    requires { (state_sound (state_in lent.old) ≡ true) × (row < rows_in lent.old.table.now) }
    ensures answer { made (said_result result) (state_in lent.new) [] ≡ storing (state_in lent.old) row (visit_result kind clock (record_at lent.old.table.now row)) }
    ensures loans { SameLoans lent.old lent.new }
{
    let held = lent.load(row);
    let (fate, next) = held.result(kind, clock)?;
    lent.store(row, next);
    Ok(fate)
}

// Whether the notice in a sound row is due.
fn row_due(table: &[u64], row: usize, delay: u32, clock: u32) -> bool
    requires { (row < rows_in table.now) × (row_sound table.now row ≡ true) }
    ensures { result ≡ is_due delay clock (record_at table.now row).notice }
{
    let held = rows::load(table, row);
    records::is_due(delay, clock, held.notice)
}

// The lowest number whose notice is due, if one is.
pub fn first_due(table: &[u64], delay: u32, clock: u32) -> Option<FunctionalNumber>
    requires { table_sound table.now ≡ true }
    ensures { said_due result ≡ notices.first_due table.now delay clock (rows_in table.now) 0 }
{
    let rows = table.len() / rows::ROW_WORDS;
    for row in 0..rows {
        if row_due(table, row, delay, clock) {
            return Some(FunctionalNumber(table[rows::ROW_WORDS * row]));
        }
    }
    None
}
