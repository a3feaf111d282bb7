// The cab radio's three calls, by value: a number stored, a notice, a reply. Each gives the radio's next state and what the cab's main software is to do next.
#![tactic(auto)]

ghost use Rattle.std.specs.Prelude.{◌≡◌, ◌≤◌, length};
ghost use Rattle.strings.specs.Outcomes.{writer_room};
ghost use Rattle.answers.specs.Numbers.{refusal_number};
ghost use Rattle.stores.specs.Stores.{entries_in, flag_of};
ghost use Rattle.radio.specs.Radio.{doing, next_of, refused, asks_next, storing, noticing, verdict_on, verdict_of, replying};
ghost use Rattle.radio.specs.Asking.{Asks};

use answers::{Refusal, begins_with};
use numbers::FunctionalNumber;
use stores::{MOST_STORED, Radio, Verdict};
use strings::{Erasing, Operation};
use writers::WRITER_ROOM;

// A reply that says something of a number has at most 18 characters; one of more than 24 need not be unpacked.
const REPLY_CHARACTERS: usize = 24;

// What is to be done next: a refusal's number, or 0; 1 where the empty response is to be returned; the invoke number and the octets of the question that stands in
// the question buffer. None is to be asked exactly where `octets` is 0, and `invoke` is 0 then too.
// Kept: C gets this struct (include/ffn_radio.h), so what is to be done is numbers.
#[repr(C)]
#[derive(Clone, Copy, Debug, PartialEq, Eq)]
pub struct Doing {
    pub refusal: u8,
    pub respond: u8,
    pub invoke: u8,
    pub octets: usize,
}

// A radio's next state, and what is to be done.
#[derive(Clone, Copy, Debug, PartialEq, Eq)]
pub struct Next {
    pub radio: Radio,
    pub doing: Doing,
}

// Neither a refusal nor a question.
const NOTHING: Doing = Doing {
    refusal: 0,
    respond: 0,
    invoke: 0,
    octets: 0,
};

// A refusal changes nothing.
fn refused(refusal: Refusal, radio: Radio) -> Next
    ensures { result ≡ refused (refusal_number refusal) radio }
{
    let refusal = u8::from(refusal);
    Next {
        radio,
        doing: Doing { refusal, ..NOTHING },
    }
}

// All is done, and no question is to be asked.
fn done(respond: bool, radio: Radio) -> Next
    ensures { result ≡ next_of radio (doing 0 (flag_of respond) 0 0) }
{
    let respond = u8::from(respond);
    Next {
        radio,
        doing: Doing { respond, ..NOTHING },
    }
}

// A number is stored, once.
pub fn stored(radio: Radio, number: u64) -> Next
    ensures { result ≡ storing radio number }
{
    if !stores::sound(radio) {
        return refused(Refusal::UnsoundRadio, radio);
    }
    if !numbers::is_number(number) {
        return refused(Refusal::NotStorable, radio);
    }
    if stores::has(radio.entries_in(), number) {
        return done(false, radio);
    }
    if radio.count == MOST_STORED {
        return refused(Refusal::RadioFull, radio);
    }
    done(false, stores::with_new(radio, number))
}

// What a reply's text says of the number that was asked.
fn verdict_on(own: u64, text: &[u8]) -> Verdict
    ensures { result ≡ verdict_on own text.now }
{
    if text == b"62".as_slice() {
        return Verdict::Drops;
    }
    if !begins_with(text, b"03 ") {
        return Verdict::Unsure;
    }
    let digits = &text[3..];
    let Some((msisdn, n)) = numbers::read_number(digits) else {
        return Verdict::Unsure;
    };
    if digits.len() != n {
        return Verdict::Unsure;
    }
    if msisdn == own {
        return Verdict::Keeps;
    }
    Verdict::Drops
}

// What a packed reply says of it: unreadable octets, and too many, say nothing.
fn verdict(own: u64, string: &[u8]) -> Verdict
    ensures { result ≡ verdict_of own string.now }
{
    let mut text = [0u8; REPLY_CHARACTERS];
    let Ok(n) = packing::unpack(string, &mut text) else {
        return Verdict::Unsure;
    };
    verdict_on(own, &text[..n])
}

// The next question is written, or none is to be asked.
fn ask_next(radio: Radio, respond: bool, question: &mut [u8]) -> Next
    requires asks { Asks radio }
    requires writer_room_in_bounds { writer_room ≤ length question.old }
    ensures { (result ≡ (asks_next (flag_of respond) radio (entries_in radio) question.old).next) × (question.new ≡ (asks_next (flag_of respond) radio (entries_in radio) question.old).question) }
{
    let Some(number) = stores::open_number(radio.entries_in()) else {
        return done(respond, radio);
    };
    // A number, and room: nothing is refused.
    let octets = writers::write_request(
        Operation::Interrogate,
        FunctionalNumber(number),
        Erasing::Empty,
        b"",
        question,
    )
    .unwrap();
    let invoke = radio.invoke.wrapping_add(1);
    let respond = u8::from(respond);
    Next {
        radio: Radio { invoke, ..radio },
        doing: Doing {
            respond,
            invoke,
            octets,
            ..NOTHING
        },
    }
}

// A notice begins a round.
pub fn noticed(radio: Radio, string: &[u8], question: &mut [u8]) -> Next
    ensures { (result ≡ (noticing radio string.now question.old).next) × (question.new ≡ (noticing radio string.now question.old).question) }
{
    if !stores::sound(radio) {
        return refused(Refusal::UnsoundRadio, radio);
    }
    if question.len() < WRITER_ROOM {
        return refused(Refusal::NoRoom, radio);
    }
    let Some((number, _)) = strings::read_notice(string) else {
        return refused(Refusal::NoNotice, radio);
    };
    ask_next(stores::begin(radio, number.0), true, question)
}

// A reply answers the open question.
pub fn replied(radio: Radio, invoke: u8, string: &[u8], question: &mut [u8]) -> Next
    ensures { (result ≡ (replying radio invoke string.now question.old).next) × (question.new ≡ (replying radio invoke string.now question.old).question) }
{
    if !stores::sound(radio) {
        return refused(Refusal::UnsoundRadio, radio);
    }
    if question.len() < WRITER_ROOM {
        return refused(Refusal::NoRoom, radio);
    }
    let open = stores::open_number(radio.entries_in()).is_some();
    if !(open & (invoke == radio.invoke)) {
        return refused(Refusal::NoQuestion, radio);
    }
    let verdict = verdict(radio.own, string);
    ask_next(stores::settle(radio, verdict), false, question)
}
