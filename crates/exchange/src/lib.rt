// The framed request: a Register in, a Release Complete out, and between them the request as the node carries it out.
#![tactic(auto)]

ghost use Rattle.std.specs.Prelude.{◌≡◌, true, [], ◌≤◌, length};
ghost use Rattle.frames.specs.Messages.{frame_room};
ghost use Rattle.tables.specs.Tables.{list_sound};
ghost use Rattle.states.specs.Lent.{state_in, SameLoans};
ghost use Rattle.states.specs.States.{beside, state_sound};
ghost use Rattle.rules.specs.Answers.{made};
ghost use Rattle.rules.specs.Crews.{requesting};
ghost use Rattle.rules.specs.Frames.{answered_in, in_frame, own_reply, framed_request};
ghost use Rattle.visits.specs.Said.{said_request};
ghost use Rattle.exchange.specs.Said.{said_framed, string_fits};

use answers::{Failure, Outcome, Refusal, RequestError};
use framers::Fault;
use frames::{FRAME_ROOM, Problem, Register, VERSION};
use node::BUFFER_ROOM;
use numbers::Msisdn;
use states::Lent;
use visits::Reply;

// What was written: an outcome, 03 with the holder, an error or a Reject, each with the frame's octet count.
#[derive(Clone, Copy, Debug, PartialEq, Eq)]
pub enum Framed {
    Outcome(Outcome, usize),
    Held(Msisdn, usize),
    Error(RequestError, usize),
    Reject(Problem, usize),
}

// Writes the answer of the request inside as a Release Complete.
fn put_answer(
    answer: Result<Reply, Failure>,
    reply: &[u8],
    first: u8,
    number: u8,
    frame: &mut [u8],
) -> Result<Framed, Refusal>
    requires { (string_fits (said_request answer) (length reply.now) ≡ true) × (frame_room ≤ length frame.old) }
    ensures { made (said_framed result) (beside [] []) frame.new ≡ answered_in first number frame.old (beside [] []) reply.now (said_request answer) }
{
    match answer {
        Err(Failure::Refused(refusal)) => Err(refusal),
        Err(Failure::Error(error)) => {
            let fault = Fault::Error(u8::from(error));
            let count = framers::write_fault(first, number, fault, frame);
            Ok(Framed::Error(error, count))
        }
        Ok(Reply::Outcome(outcome, octets)) => {
            let count = framers::write_result(first, number, &reply[..octets], frame);
            Ok(Framed::Outcome(outcome, count))
        }
        Ok(Reply::Held(msisdn, octets)) => {
            let count = framers::write_result(first, number, &reply[..octets], frame);
            Ok(Framed::Held(msisdn, count))
        }
    }
}

// Carries out the request inside, and writes its answer.
fn ask_inside(
    lent: &mut Lent<'_>,
    list: &[u64],
    frame: &mut [u8],
    requester: Msisdn,
    first: u8,
    number: u8,
    scheme: u8,
    string: &[u8],
) -> Result<Framed, Refusal>
    requires { (state_sound (state_in lent.old) ≡ true) × (list_sound list.now ≡ true) × (frame_room ≤ length frame.old) }
    ensures answer { made (said_framed result) (state_in lent.new) frame.new ≡ in_frame first number frame.old (requesting (state_in lent.old) list.now own_reply requester scheme string.now) }
    ensures loans { SameLoans lent.old lent.new }
{
    let mut reply = [0u8; BUFFER_ROOM];
    let answer = node::ask_string(lent, list, &mut reply, requester, scheme, string);
    put_answer(answer, &reply, first, number, frame)
}

// A framed request: refusals 1, 11, 8, 2 and 10, a Reject, and then the request inside; list, table and figures are tested once.
pub fn framed_request(
    table: &mut [u64],
    figures: &mut [u64],
    list: &[u64],
    frame: &mut [u8],
    requester: Msisdn,
    message: &[u8],
) -> Result<Framed, Refusal>
    ensures { made (said_framed result) (beside table.new figures.new) frame.new ≡ framed_request (beside table.old figures.old) list.now frame.old requester message.now }
{
    if frame.len() < FRAME_ROOM {
        return Err(Refusal::NoRoom);
    }
    let Register {
        first,
        number,
        body,
    } = frames::read_register(message)?;
    if !tables::list_sound(list) {
        return Err(Refusal::UnsoundList);
    }
    states::check(table, figures)?;
    match body {
        Err(problem) => {
            let fault = Fault::Reject(u8::from(problem));
            let count = framers::write_fault(first, number, fault, frame);
            Ok(Framed::Reject(problem, count))
        }
        Ok(asked) => {
            let end = message.len() - VERSION.len();
            let string = &message[end - asked.count..end];
            let scheme = asked.scheme;
            let lent = &mut Lent { table, figures };
            ask_inside(lent, list, frame, requester, first, number, scheme, string)
        }
    }
}
