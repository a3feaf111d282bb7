// The five calls of the node over lent memory: a request, a sending, a result, a finding and an erasure at the terminal, each equal to the rules of documents 01 and 02 for every input.
#![tactic(auto)]

ghost use Rattle.std.specs.Prelude.{◌≡◌, true, not, ◌&&◌, [], ◌≤◌, length};
ghost use Rattle.numbers.specs.Numbers.{is_number};
ghost use Rattle.crews.specs.Crews.{count_of};
ghost use Rattle.strings.specs.Text.{erasing_sound, request_sound};
ghost use Rattle.tables.specs.Tables.{list_sound, flags_of};
ghost use Rattle.states.specs.Lent.{state_in, SameLoans};
ghost use Rattle.states.specs.States.{beside, state_sound};
ghost use Rattle.rules.specs.Answers.{made, buffer_room};
ghost use Rattle.rules.specs.Requests.{is_forced, is_supervisor};
ghost use Rattle.rules.specs.Requests as requests;
ghost use Rattle.rules.specs.Crews as crews;
ghost use Rattle.rules.specs.Notices as notices;
ghost use Rattle.rules.specs.Terminal.{terminal_erasure};
ghost use Rattle.node.specs.Asked.{with_additional, asked_by};
ghost use Rattle.visits.specs.Said.{said_reply, said_request, said_sending, said_result, said_finding};

use answers::{Failure, Outcome, Refusal, RequestError};
use crews::Crew;
use numbers::{FunctionalNumber, Msisdn};
use records::Fate;
use states::Lent;
use strings::{CODING_SCHEME, Erasing, Fields, Operation};
use visits::{Reply, Sent};

// Reply and notice buffers have at least so many octets.
pub const BUFFER_ROOM: usize = 80;

// A request's string has at most so many octets.
const MOST_STRING_OCTETS: usize = 160;

// A forced erasure without the supervisor's flag.
fn is_forbidden(erasing: Erasing, flags: u64) -> bool
    ensures { result ≡ (is_forced erasing && not (is_supervisor flags)) }
{
    match erasing {
        Erasing::Empty => false,
        Erasing::Forced(_) => flags / 2 % 2 != 1,
    }
}

// A single request: the number's row, and what its record decides.
fn ask_single(lent: &mut Lent<'_>, reply: &mut [u8], requester: Msisdn, fields: Fields) -> Reply
    requires { (state_sound (state_in lent.old) ≡ true) × (buffer_room ≤ length reply.old) × (erasing_sound fields.operation fields.erasing ≡ true) }
    ensures answer { made (said_reply result) (state_in lent.new) reply.new ≡ requests.once (state_in lent.old) reply.old requester (with_additional fields []) }
    ensures loans { SameLoans lent.old lent.new }
{
    match lent.row_of(fields.number) {
        Some(row) => visits::decide_at(lent, row, reply, requester, fields),
        None => visits::answer(Outcome::UnknownNumber, reply),
    }
}

// A request whose string was read: the requester's flags, and then the single request or the crew's.
fn ask(
    lent: &mut Lent<'_>,
    list: &[u64],
    reply: &mut [u8],
    requester: Msisdn,
    fields: Fields,
    additional: &[u8],
) -> Result<Reply, Failure>
    requires figures_value { (state_sound (state_in lent.old) ≡ true) × (list_sound list.now ≡ true) × (buffer_room ≤ length reply.old) × (is_number requester.0 ≡ true) }
    requires additional_value { (request_sound (with_additional fields additional.now) ≡ true) × (fields.crew ≡ count_of additional.now) }
    ensures answer { made (said_request result) (state_in lent.new) reply.new ≡ asked_by (state_in lent.old) (flags_of list.now requester.0) reply.old requester (with_additional fields additional.now) }
    ensures loans { SameLoans lent.old lent.new }
{
    let flags = tables::flags_of(list, requester);
    if flags % 2 != 1 {
        return Ok(visits::answer(Outcome::NoFollowMe, reply));
    }
    if is_forbidden(fields.erasing, flags) {
        return Ok(visits::answer(Outcome::NoSupervisor, reply));
    }
    match fields.crew {
        Crew::Single => Ok(ask_single(lent, reply, requester, fields)),
        Crew::Codes(n) => {
            let digits = &additional[additional.len() - 2 * n..];
            Ok(walks::request_crew(
                lent,
                reply,
                requester,
                fields.operation,
                fields.number,
                digits,
            ))
        }
        // No string reads so.
        Crew::Broken => Err(Failure::Error(RequestError::UnexpectedData)),
    }
}

// A request over a sound table, right figures and a sound list, with room for the reply: the checks with an error, in document 01's order, and what its string asks for.
pub fn ask_string(
    lent: &mut Lent<'_>,
    list: &[u64],
    reply: &mut [u8],
    requester: Msisdn,
    scheme: u8,
    string: &[u8],
) -> Result<Reply, Failure>
    requires { (state_sound (state_in lent.old) ≡ true) × (list_sound list.now ≡ true) × (buffer_room ≤ length reply.old) }
    ensures answer { made (said_request result) (state_in lent.new) reply.new ≡ crews.requesting (state_in lent.old) list.now reply.old requester scheme string.now }
    ensures loans { SameLoans lent.old lent.new }
{
    if !numbers::is_number(requester.0) {
        return Err(Failure::Error(RequestError::DataMissing));
    }
    if scheme != CODING_SCHEME {
        return Err(Failure::Error(RequestError::UnknownAlphabet));
    }
    if string.is_empty() {
        return Err(Failure::Error(RequestError::DataMissing));
    }
    if MOST_STRING_OCTETS < string.len() {
        return Err(Failure::Error(RequestError::UnexpectedData));
    }
    let read = strings::read_request(string);
    let Some(fields) = read.reading else {
        return Err(Failure::Error(RequestError::UnexpectedData));
    };
    let text = read.text;
    let start = fields.start;
    let end = start + fields.count;
    let additional = &text[start..end];
    ask(lent, list, reply, requester, fields, additional)
}

// A request: the checks with a refusal, and then those of its string.
pub fn request(
    table: &mut [u64],
    figures: &mut [u64],
    list: &[u64],
    reply: &mut [u8],
    requester: Msisdn,
    scheme: u8,
    string: &[u8],
) -> Result<Reply, Failure>
    ensures { made (said_request result) (beside table.new figures.new) reply.new ≡ crews.requesting (beside table.old figures.old) list.now reply.old requester scheme string.now }
{
    if reply.len() < BUFFER_ROOM {
        return Err(Failure::Refused(Refusal::NoRoom));
    }
    if !tables::list_sound(list) {
        return Err(Failure::Refused(Refusal::UnsoundList));
    }
    states::check(table, figures)?;
    ask_string(
        &mut Lent { table, figures },
        list,
        reply,
        requester,
        scheme,
        string,
    )
}

// An erasure at the node's terminal: a forced one by nobody listed, naming the number's holder.
pub fn terminal_erasure(
    table: &mut [u64],
    figures: &mut [u64],
    reply: &mut [u8],
    number: FunctionalNumber,
    holder: Msisdn,
) -> Result<Reply, Failure>
    ensures { made (said_request result) (beside table.new figures.new) reply.new ≡ terminal_erasure (beside table.old figures.old) reply.old number holder }
{
    if reply.len() < BUFFER_ROOM {
        return Err(Failure::Refused(Refusal::NoRoom));
    }
    states::check(table, figures)?;
    if !(numbers::is_number(number.0) & numbers::is_number(holder.0)) {
        return Err(Failure::Refused(Refusal::NoNumber));
    }
    let fields = Fields {
        operation: Operation::Erase,
        number,
        erasing: Erasing::Forced(holder),
        start: 0,
        count: 0,
        crew: Crew::Single,
    };
    Ok(ask_single(&mut Lent { table, figures }, reply, Msisdn(0), fields))
}

// A sending names a number.
pub fn sending(
    table: &mut [u64],
    figures: &mut [u64],
    buffer: &mut [u8],
    number: FunctionalNumber,
    delay: u32,
    clock: u32,
) -> Result<Sent, Refusal>
    ensures { made (said_sending result) (beside table.new figures.new) buffer.new ≡ notices.sending_notice (beside table.old figures.old) buffer.old number delay clock }
{
    if buffer.len() < BUFFER_ROOM {
        return Err(Refusal::NoRoom);
    }
    states::check(table, figures)?;
    if !numbers::is_number(number.0) {
        return Err(Refusal::NoNumber);
    }
    let Some(row) = tables::row_of(table, number) else {
        return Err(Refusal::NoNumber);
    };
    visits::send_at(
        &mut Lent { table, figures },
        row,
        buffer,
        number,
        delay,
        clock,
    )
}

// A result names a number and a kind.
pub fn result(
    table: &mut [u64],
    figures: &mut [u64],
    number: FunctionalNumber,
    kind: u32,
    clock: u32,
) -> Result<Fate, Refusal>
    ensures { made (said_result result) (beside table.new figures.new) [] ≡ notices.taking_result (beside table.old figures.old) number kind clock }
{
    states::check(table, figures)?;
    if !numbers::is_number(number.0) {
        return Err(Refusal::NoNumber);
    }
    let Some(row) = tables::row_of(table, number) else {
        return Err(Refusal::NoNumber);
    };
    visits::result_at(&mut Lent { table, figures }, row, kind, clock)
}

// The lowest due number, if one is due.
pub fn finding(table: &[u64], delay: u32, clock: u32) -> Result<Option<FunctionalNumber>, Refusal>
    ensures { said_finding result ≡ notices.finding table.now delay clock }
{
    if !tables::table_sound(table) {
        return Err(Refusal::UnsoundTable);
    }
    if !records::delay_allowed(delay) {
        return Err(Refusal::WrongDelay);
    }
    Ok(visits::first_due(table, delay, clock))
}
