// The numbers that stand in the C functions' structs for what the node's calls and a routing answer.
#![tactic(auto)]

ghost use Rattle.std.specs.Prelude.{◌≡◌};
ghost use Rattle.visits.specs.Said.{said_request, said_sending, said_result, said_finding};
ghost use Rattle.exchange.specs.Said.{said_framed};
ghost use Rattle.rules.specs.Answers.{holder_is, routed_to};
ghost use Rattle.routes.specs.Said.{octets_in, said_routing};
ghost use Rattle.structs.specs.Numbers.{struct_of};
ghost use Rattle.structs_calls.specs.Answers.{of_answer};
ghost use Rattle.structs_calls.specs.Routes.{no_octets, of_route};

use answers::{Failure, Refusal};
use exchange::Framed;
use numbers::{FunctionalNumber, Msisdn};
use records::Fate;
use routes::{RoutingAnswer, Subaddress};
use structs::{Answer, ERROR, REFUSAL, REJECT, RETURN_ERROR};
use visits::{Reply, Sent};

// The classes of an answer that `structs` has not.
const OUTCOME: u32 = 3;

const SENT: u32 = 4;

const RESULT: u32 = 5;

const FOUND: u32 = 6;

const NONE_DUE: u32 = 7;

const ASK_NETWORK: u32 = 14;

const ROUTED: u32 = 15;

// What a routing answers: the class; the number of a refusal, an error or an outcome; the MSISDN; the three characters of another network's code; the octets of the
// subaddress, and how many there are. What an answer does not have is 0.
// Kept: C gets this struct (include/ffn.h), so its class is a number and its octets have a count beside them.
#[repr(C)]
#[derive(Clone, Copy, Debug, PartialEq, Eq)]
pub struct Route {
    pub class: u32,
    pub number: u32,
    pub msisdn: u64,
    pub code: [u8; 3],
    pub subaddress: [u8; 3],
    pub subaddress_octets: u8,
}

// The holder has this number among the outcomes.
const HOLDER_IS: u8 = 3;

// What no octets stand in.
const NO_OCTETS: [u8; 3] = [0, 0, 0];

// An answer that is a number of its class and the octets that say so.
fn counted(class: u32, number: u8, octets: usize) -> Answer
    ensures { result ≡ struct_of class number octets 0 }
{
    Answer {
        count: octets,
        ..structs::numbered(class, u32::from(number))
    }
}

// The holder, and the octets that say so.
fn held(msisdn: Msisdn, octets: usize) -> Answer
    ensures { result ≡ of_answer (holder_is msisdn.0 octets) }
{
    Answer {
        value: msisdn.0,
        ..counted(OUTCOME, HOLDER_IS, octets)
    }
}

// A request's answer.
pub fn of_request(answer: Result<Reply, Failure>) -> Answer
    ensures { result ≡ of_answer (said_request answer) }
{
    match answer {
        Ok(Reply::Outcome(outcome, octets)) => counted(OUTCOME, u8::from(outcome), octets),
        Ok(Reply::Held(msisdn, octets)) => held(msisdn, octets),
        Err(Failure::Refused(refusal)) => structs::refused(refusal),
        Err(Failure::Error(error)) => counted(ERROR, u8::from(error), 0),
    }
}

// A sending's answer.
pub fn of_sending(answer: Result<Sent, Refusal>) -> Answer
    ensures { result ≡ of_answer (said_sending answer) }
{
    match answer {
        Ok(sent) => Answer {
            value: sent.addressee.0,
            ..counted(SENT, 0, sent.octets)
        },
        Err(refusal) => structs::refused(refusal),
    }
}

// A result's answer.
pub fn of_result(answer: Result<Fate, Refusal>) -> Answer
    ensures { result ≡ of_answer (said_result answer) }
{
    match answer {
        Ok(Fate::Delivered) => structs::numbered(RESULT, 0),
        Ok(Fate::Dropped) => structs::numbered(RESULT, 1),
        Ok(Fate::Again) => structs::numbered(RESULT, 2),
        Err(refusal) => structs::refused(refusal),
    }
}

// A finding's answer.
pub fn of_finding(answer: Result<Option<FunctionalNumber>, Refusal>) -> Answer
    ensures { result ≡ of_answer (said_finding answer) }
{
    match answer {
        Ok(Some(number)) => Answer {
            value: number.0,
            ..structs::numbered(FOUND, 0)
        },
        Ok(None) => structs::numbered(NONE_DUE, 0),
        Err(refusal) => structs::refused(refusal),
    }
}

// A framed request's answer.
pub fn of_framed(answer: Result<Framed, Refusal>) -> Answer
    ensures { result ≡ of_answer (said_framed answer) }
{
    match answer {
        Ok(Framed::Outcome(outcome, octets)) => counted(OUTCOME, u8::from(outcome), octets),
        Ok(Framed::Held(holder, octets)) => held(holder, octets),
        Ok(Framed::Error(error, octets)) => counted(RETURN_ERROR, u8::from(error), octets),
        Ok(Framed::Reject(problem, octets)) => counted(REJECT, u8::from(problem), octets),
        Err(refusal) => structs::refused(refusal),
    }
}

// A routing's answer that is only a number of its class.
fn plain_route(class: u32, number: u8) -> Route
    ensures { result ≡ record { class = class; number = number; msisdn = 0; code = no_octets; subaddress = no_octets; subaddress_octets = 0 } }
{
    Route {
        class,
        number: u32::from(number),
        msisdn: 0,
        code: NO_OCTETS,
        subaddress: NO_OCTETS,
        subaddress_octets: 0,
    }
}

// Where a text message goes: the MSISDN and its subaddress.
fn routed(msisdn: Msisdn, subaddress: Option<Subaddress>) -> Route
    ensures { result ≡ of_route (routed_to msisdn.0 (octets_in subaddress)) }
{
    let plain = Route {
        msisdn: msisdn.0,
        ..plain_route(ROUTED, 0)
    };
    match subaddress {
        None => plain,
        Some(octets) => Route {
            subaddress: [octets.kind, octets.format, octets.branch],
            subaddress_octets: 3,
            ..plain
        },
    }
}

// A routing's answer.
pub fn of_routing(answer: Result<RoutingAnswer, Failure>) -> Route
    ensures { result ≡ of_route (said_routing answer) }
{
    match answer {
        Ok(RoutingAnswer::Outcome(outcome)) => plain_route(OUTCOME, u8::from(outcome)),
        Ok(RoutingAnswer::AskNetwork(code)) => Route {
            code,
            ..plain_route(ASK_NETWORK, 0)
        },
        Ok(RoutingAnswer::Routed(msisdn, subaddress)) => routed(msisdn, subaddress),
        Err(Failure::Refused(refusal)) => plain_route(REFUSAL, u8::from(refusal)),
        Err(Failure::Error(error)) => plain_route(ERROR, u8::from(error)),
    }
}
