// A crew's request over a sound table and right figures: the single steps of its numbers one after the other, what they count, and the reply.
#![tactic(auto)]

ghost use Rattle.std.specs.Prelude.{◌≡◌, true, false, List, [], ◌∷◌, ◌++◌, ℕ, ◌+◌, ◌*◌, ◌≤◌, ◌<◌, length};
ghost use Rattle.answers.specs.Numbers.{outcome_number};
ghost use Rattle.answers.specs.Writing.{Stands};
ghost use Rattle.packing.specs.Packing.{takes};
ghost use Rattle.numbers.specs.Numbers.{is_number, are_digits};
ghost use Rattle.crews.specs.Crews.{codes_in};
ghost use Rattle.states.specs.Lent.{state_in, SameLoans};
ghost use Rattle.states.specs.States.{state_sound};
ghost use Rattle.rules.specs.Answers.{outcome as outcome_of, made, buffer_room, packed_over, octet_count};
ghost use Rattle.rules.specs.Requests.{is_interrogate, says, comes_to};
ghost use Rattle.rules.specs.Requests as requests;
ghost use Rattle.rules.specs.Crews.{Walk, crew_codes, walked, set_out, crew_number, crew_outcome};
ghost use Rattle.visits.specs.Said.{said_reply};
ghost use Rattle.rules.specs.Crews.{most_steps};
ghost use Rattle.rules.specs.Singles.{plainly};
ghost use Rattle.walks.specs.Tallies.{codes_room, Holds, steps_counted, FitsReply, Tallies, gone_on, part_of, reply_room, tally_text};

use answers::Outcome;
use crews::LEAD_CODE;
use numbers::{FunctionalNumber, Msisdn};
use states::Lent;
use strings::Operation;
use visits::Reply;

// The lead and at most nine codes.
const MOST_STEPS: usize = 10;

// `11`, and twice a space, two digits, a space and codes: ten codes in all.
const REPLY_ROOM: usize = 30;

// Codes by their digits, one behind the other.
// Kept: fixed memory, a rule of the project: a walk is lent no words in which a slice of codes could stand.
#[derive(Clone, Copy, Debug, PartialEq, Eq)]
struct Codes {
    digits: [u8; 2 * MOST_STEPS],
    count: usize,
}

// The codes of the steps that succeeded, and of those that failed, each in their order.
#[derive(Clone, Copy, Debug, PartialEq, Eq)]
struct Tally {
    successes: Codes,
    failures: Codes,
}

// Before the first step.
fn no_codes() -> Codes
    ensures { Holds result [] }
{
    let digits = [0u8; 2 * MOST_STEPS];
    Codes { digits, count: 0 }
}

// One code more, behind the others.
fn with_code(codes: Codes, code: u64) -> Codes
    requires { (codes.count < most_steps) × (code < 100) }
    ensures { (result.count ≡ codes.count + 1) × ((l : List ℕ) → Holds codes l → Holds result (l ++ (code ∷ []))) }
{
    let mut digits = codes.digits;
    let count = codes.count;
    let [tens, ones] = writers::two_digits(code as u8);
    digits[2 * count] = tens;
    digits[2 * count + 1] = ones;
    Codes {
        digits,
        count: count + 1,
    }
}

// The step of one number: the outcome of its single request.
fn step(
    lent: &mut Lent<'_>,
    requester: Msisdn,
    operation: Operation,
    number: FunctionalNumber,
) -> Outcome
    requires { (state_sound (state_in lent.old) ≡ true) × (is_interrogate operation ≡ false) }
    ensures answer { comes_to (says (outcome_number result)) (state_in lent.new) ≡ requests.step (state_in lent.old) requester (plainly operation number) }
    ensures loans { SameLoans lent.old lent.new }
{
    let Some(row) = lent.row_of(number) else {
        return Outcome::UnknownNumber;
    };
    let record = lent.load(row);
    match operation {
        Operation::Register => {
            let step = record.register(number, requester);
            visits::settle(lent, row, Outcome::Registered, step)
        }
        _ => {
            let step = record.erase(number, requester);
            visits::settle(lent, row, Outcome::Erased, step)
        }
    }
}

// One step more: of the number with its last two digits replaced, its code among the successes or among the failures.
fn step_on(
    lent: &mut Lent<'_>,
    requester: Msisdn,
    operation: Operation,
    lead: FunctionalNumber,
    code: u64,
    tally: Tally,
) -> Tally
    requires figures_value { (state_sound (state_in lent.old) ≡ true) × (is_interrogate operation ≡ false) × (is_number requester.0 ≡ true) }
    requires lead_value { (is_number lead.0 ≡ true) × (code < 100) × (steps_counted tally < most_steps) }
    ensures answer { (state_sound (state_in lent.new) ≡ true) × (steps_counted result ≡ steps_counted tally + 1) × ((w : Walk) → Tallies tally (state_in lent.old) w → Tallies result (state_in lent.new) (gone_on requester operation lead code w)) }
    ensures loans { SameLoans lent.old lent.new }
{
    let number = FunctionalNumber(100 * (lead.0 / 100) + code);
    match step(lent, requester, operation, number) {
        Outcome::Registered | Outcome::Erased => Tally {
            successes: with_code(tally.successes, code),
            ..tally
        },
        _ => Tally {
            failures: with_code(tally.failures, code),
            ..tally
        },
    }
}

// The walk: the lead's step, then each code's, in their order.
fn walk(
    lent: &mut Lent<'_>,
    requester: Msisdn,
    operation: Operation,
    lead: FunctionalNumber,
    digits: &[u8],
) -> Tally
    requires figures_value { (state_sound (state_in lent.old) ≡ true) × (is_interrogate operation ≡ false) × (is_number requester.0 ≡ true) }
    requires lead_value { (is_number lead.0 ≡ true) × (are_digits digits.now ≡ true) × (length digits.now < 2 * most_steps) }
    ensures answer { (steps_counted result ≤ most_steps) × Tallies result (state_in lent.new) (walked requester (plainly operation lead) (crew_codes (codes_in digits.now)) (set_out (state_in lent.old))) }
    ensures loans { SameLoans lent.old lent.new }
{
    let none = Tally {
        successes: no_codes(),
        failures: no_codes(),
    };
    let mut tally = step_on(lent, requester, operation, lead, LEAD_CODE, none);
    // Kept: `chunks_exact(2)` is no plainer: the contract of `crews::code_at` goes by the place.
    for i in 0..digits.len() / 2 {
        let code = crews::code_at(digits, i);
        tally = step_on(lent, requester, operation, lead, code, tally);
    }
    tally
}

// Writes a space and digits.
fn put_spaced(digits: &[u8], out: &mut [u8]) -> usize
    requires { length digits.now < length out.old }
    ensures { Stands (32 ∷ digits.now) out.old result out.new }
{
    let at = writers::put(b" ", out);
    at + writers::put(digits, &mut out[at..])
}

// Writes a space and a count, and a space and the codes if there are any.
fn put_part(codes: Codes, out: &mut [u8]) -> usize
    requires { (codes.count ≤ most_steps) × (length codes.digits ≡ codes_room) × (4 + 2 * codes.count ≤ length out.old) }
    ensures { Stands (part_of codes) out.old result out.new }
{
    let count = codes.count;
    let at = writers::put_numbered(b" ", count as u8, out);
    if count == 0 {
        return at;
    }
    let digits = codes.digits;
    at + put_spaced(&digits[..2 * count], &mut out[at..])
}

// Writes the reply's text: the outcome's number, the successes and the failures.
fn write_reply(n: u8, tally: Tally, text: &mut [u8]) -> usize
    requires { FitsReply tally × (reply_room ≤ length text.old) }
    ensures { Stands (tally_text n tally) text.old result text.new }
{
    let successes = tally.successes;
    let failures = tally.failures;
    let at = writers::put_numeral(n, text);
    let at = at + put_part(successes, &mut text[at..]);
    at + put_part(failures, &mut text[at..])
}

// The outcome, its text in the reply.
fn answer(outcome: Outcome, tally: Tally, reply: &mut [u8]) -> Reply
    requires { FitsReply tally × (takes (tally_text (outcome_number outcome) tally) ≡ true) × (buffer_room ≤ length reply.old) }
    ensures { (said_reply result ≡ outcome_of (outcome_number outcome) (octet_count (tally_text (outcome_number outcome) tally))) × (reply.new ≡ packed_over (tally_text (outcome_number outcome) tally) reply.old) }
{
    let mut text = [0u8; REPLY_ROOM];
    let count = write_reply(u8::from(outcome), tally, &mut text);
    let octets = visits::put(&text[..count], reply);
    Reply::Outcome(outcome, octets)
}

// The outcome of a crew's registration or of its erasure.
fn crew_success(operation: Operation) -> Outcome
    ensures { outcome_number result ≡ crew_number operation }
{
    match operation {
        Operation::Register => Outcome::CrewRegistered,
        _ => Outcome::CrewErased,
    }
}

// The request of a crew: its lead's number and the digits of its codes.
pub fn request_crew(
    lent: &mut Lent<'_>,
    reply: &mut [u8],
    requester: Msisdn,
    operation: Operation,
    lead: FunctionalNumber,
    digits: &[u8],
) -> Reply
    requires figures_value { (state_sound (state_in lent.old) ≡ true) × (is_interrogate operation ≡ false) × (is_number requester.0 ≡ true) }
    requires lead_value { (is_number lead.0 ≡ true) × (are_digits digits.now ≡ true) × (length digits.now < 2 * most_steps) }
    requires buffer_room_in_bounds { buffer_room ≤ length reply.old }
    ensures answer { made (said_reply result) (state_in lent.new) reply.new ≡ crew_outcome (crew_number operation) reply.old (walked requester (plainly operation lead) (crew_codes (codes_in digits.now)) (set_out (state_in lent.old))) }
    ensures loans { SameLoans lent.old lent.new }
{
    let tally = walk(lent, requester, operation, lead, digits);
    answer(crew_success(operation), tally, reply)
}
