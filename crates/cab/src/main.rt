// A small exchange between a node's table and a cab radio, over packed strings. The driver A registers three numbers of two roots, and her radio stores them; the
// supervisor B forces her off one; the notice comes to her radio, and the radio asks the node about every number that it stores of that root. Then staff at the node's
// terminal clear her number of the other root, and the notice names nobody. Each string that passes is printed as text, a line each. What is printed, in the file stdout, was worked out by hand from documents 01 and 02.
#![tactic(auto)]

use answers::{Failure, Refusal};
use node::BUFFER_ROOM;
use numbers::{FunctionalNumber, MOST_DIGITS, Msisdn};
use radio::{Doing, Next};
use records::Fate;
use rows::ROW_WORDS;
use std::fmt::Display;
use stores::{Entry, MOST_STORED, Radio};
use strings::CODING_SCHEME;
use tables::SUBSCRIBER_WORDS;
use visits::Reply;
use writers::WRITER_ROOM;

// Document 01's A and B, in stored form: the digits behind a 1.
const DRIVER: u64 = 1_4915100001;

const SUPERVISOR: u64 = 1_4915100002;

// The leading driver of a train and three more: one root, and the branch says which. Then the leading driver of another train.
const LEADING: u64 = 1_0492123401;

const SECOND: u64 = 1_0492123402;

const THIRD: u64 = 1_0492123403;

const FOURTH: u64 = 1_0492123404;

const OTHER_LEADING: u64 = 1_0715550001;

// Four numbers, two subscribers and the figures.
const TABLE_WORDS: usize = 4 * ROW_WORDS;

const LIST_WORDS: usize = 2 * SUBSCRIBER_WORDS;

const FIGURES: usize = 3;

// The second of the sending, and the delay, which says only when the notice would be repeated.
const SENT_AT: u32 = 100;

const DELAY: u32 = 60;

// A result's kind: the notice was delivered.
const DELIVERED: u32 = 0;

// Room for the characters of 160 octets.
const CHARACTERS: usize = 182;

// ---- lines

fn put(rt: &(impl Print + Eprint), text: &(impl Display + Drop)) {
    streams::print_output(rt, b"cab", text);
}

// The octets that were written, if any were.
fn written(octets: &[u8], count: Result<usize, Refusal>) -> Option<&[u8]> {
    octets.get(..count.ok()?)
}

// A packed string as text, to the line's end.
fn put_string(rt: &(impl Print + Eprint), string: &[u8]) {
    let mut text = [0; CHARACTERS];
    let count = packing::unpack(string, &mut text);
    match written(&text, count) {
        Some(text) => {
            streams::write_output(rt, b"cab", text);
            put(rt, &"\n");
        }
        None => put(rt, &"unreadable\n"),
    }
}

// A number's digits, without the 1 of its stored form.
fn put_number(rt: &(impl Print + Eprint), number: u64) {
    let mut digits = [0; MOST_DIGITS];
    let count = numbers::write_digits(number, &mut digits);
    match written(&digits, count) {
        Some(digits) => streams::write_output(rt, b"cab", digits),
        None => put(rt, &"no number"),
    }
}

// A subscriber by document 01's letter.
fn put_subscriber(rt: &(impl Print + Eprint), msisdn: u64) {
    match msisdn {
        DRIVER => put(rt, &"A"),
        SUPERVISOR => put(rt, &"B"),
        _ => put_number(rt, msisdn),
    }
}

// A string that passes between the node and a subscriber.
fn put_passing(rt: &(impl Print + Eprint), way: &str, msisdn: u64, string: &[u8]) {
    put(rt, &way);
    put_subscriber(rt, msisdn);
    put(rt, &" ");
    put_string(rt, string);
}

// ---- the node

// The node's table and its figures.
#[derive(Clone, Copy, Debug)]
struct Node {
    table: [u64; TABLE_WORDS],
    figures: [u64; FIGURES],
}

// How long a reply is; a refusal and an error have no string.
fn reply_octets(answer: Result<Reply, Failure>) -> usize {
    match answer {
        Ok(Reply::Outcome(_, octets)) | Ok(Reply::Held(_, octets)) => octets,
        Err(_) => 0,
    }
}

impl Node {
    // The numbers that the node knows, ascending, each free: a row begins with its number.
    fn new() -> Node {
        let mut table = [0; TABLE_WORDS];
        table[0] = LEADING;
        table[ROW_WORDS] = SECOND;
        table[2 * ROW_WORDS] = THIRD;
        table[3 * ROW_WORDS] = OTHER_LEADING;
        let figures = match tables::recount(&table) {
            Ok(n) => [n.held, n.waiting, n.flying],
            Err(_) => [0, 0, 0],
        };
        Node { table, figures }
    }

    // A packed request, and the node's reply. Both subscribers have Follow Me, and B is a supervisor too.
    fn ask<'a>(
        &mut self,
        rt: &(impl Print + Eprint),
        reply: &'a mut [u8],
        requester: u64,
        string: &[u8],
    ) -> &'a [u8] {
        let list: [u64; LIST_WORDS] = [DRIVER, 1, SUPERVISOR, 3];
        let answer = node::request(
            &mut self.table,
            &mut self.figures,
            &list,
            reply,
            Msisdn(requester),
            CODING_SCHEME,
            string,
        );
        let reply = reply.get(..reply_octets(answer)).unwrap_or_default();
        put_passing(rt, "node -> ", requester, reply);
        reply
    }

    // A request by its text.
    fn request(&mut self, rt: &(impl Print + Eprint), requester: u64, text: &[u8]) {
        let mut string = [0; WRITER_ROOM];
        let mut reply = [0; BUFFER_ROOM];
        let count = packing::pack(text, &mut string);
        let Some(string) = written(&string, count) else {
            put(rt, &"nothing packed\n");
            return;
        };
        put_passing(rt, "node <- ", requester, string);
        self.ask(rt, &mut reply, requester, string);
    }

    // Staff at the node's terminal clear a number, naming its holder.
    fn clear(&mut self, rt: &(impl Print + Eprint), number: u64, holder: u64) {
        put(rt, &"terminal clears ");
        put_number(rt, number);
        put(rt, &" of ");
        put_subscriber(rt, holder);
        let mut reply = [0; BUFFER_ROOM];
        let answer = node::terminal_erasure(
            &mut self.table,
            &mut self.figures,
            &mut reply,
            FunctionalNumber(number),
            Msisdn(holder),
        );
        put(rt, &"\nnode -> terminal ");
        put_string(rt, reply.get(..reply_octets(answer)).unwrap_or_default());
    }

    // The notice to the one who was forced off.
    fn send<'a>(
        &mut self,
        rt: &(impl Print + Eprint),
        number: u64,
        notice: &'a mut [u8],
    ) -> &'a [u8] {
        let number = FunctionalNumber(number);
        let table = &mut self.table;
        let figures = &mut self.figures;
        let Ok(sent) = node::sending(table, figures, notice, number, DELAY, SENT_AT) else {
            put(rt, &"node: nothing sent\n");
            return &[];
        };
        let notice = notice.get(..sent.octets).unwrap_or_default();
        put_passing(rt, "node -> ", sent.addressee.0, notice);
        notice
    }

    // The radio's empty response tells the node that the notice was delivered.
    fn take_response(&mut self, rt: &(impl Print + Eprint), number: u64) {
        put(rt, &"radio returns the empty response\n");
        let number = FunctionalNumber(number);
        let table = &mut self.table;
        let figures = &mut self.figures;
        match node::result(table, figures, number, DELIVERED, SENT_AT) {
            Ok(Fate::Delivered) => put(rt, &"node: notice delivered\n"),
            _ => put(rt, &"node: notice not delivered\n"),
        }
    }
}

// ---- the radio

// A's radio, of the cab, which stores nothing yet.
fn new_radio() -> Radio {
    let blank = Entry {
        number: 0,
        unsure: 0,
        to_ask: 0,
    };
    Radio {
        own: DRIVER,
        count: 0,
        entries: [blank; MOST_STORED],
        hand_held: 0,
        invoke: 0,
    }
}

fn put_refusal(rt: &(impl Print + Eprint), doing: Doing) {
    if doing.refusal != 0 {
        put(rt, &format_args!("radio refuses {}\n", doing.refusal));
    }
}

fn store(rt: &(impl Print + Eprint), radio: Radio, number: u64) -> Radio {
    put(rt, &"radio stores ");
    put_number(rt, number);
    put(rt, &"\n");
    let next = radio::stored(radio, number);
    put_refusal(rt, next.doing);
    next.radio
}

fn put_entry(rt: &(impl Print + Eprint), entry: Entry) {
    put(rt, &"radio stores now ");
    put_number(rt, entry.number);
    if entry.unsure == 1 {
        put(rt, &", unsure");
    }
    put(rt, &"\n");
}

fn put_stored(rt: &(impl Print + Eprint), radio: Radio) {
    for entry in radio.entries.iter().take(radio.count) {
        put_entry(rt, *entry);
    }
}

// ---- the exchange

// A registers a number, and her radio stores it.
fn register(
    rt: &(impl Print + Eprint),
    node: &mut Node,
    radio: Radio,
    number: u64,
    text: &[u8],
) -> Radio {
    node.request(rt, DRIVER, text);
    store(rt, radio, number)
}

// She begins her service with three numbers of two roots.
fn begin_service(rt: &(impl Print + Eprint), node: &mut Node, radio: Radio) -> Radio {
    let radio = register(rt, node, radio, LEADING, b"**214*0492123401***#");
    let radio = register(rt, node, radio, SECOND, b"**214*0492123402***#");
    register(rt, node, radio, OTHER_LEADING, b"**214*0715550001***#")
}

// Her radio stores two more of the first root: one that nobody holds, which will be dropped, and one that the node does not know, which will be marked.
fn store_others(rt: &(impl Print + Eprint), radio: Radio) -> Radio {
    let radio = store(rt, radio, THIRD);
    store(rt, radio, FOURTH)
}

// The notice passes from the node to the radio; the first question stands in its buffer.
fn notify(
    rt: &(impl Print + Eprint),
    node: &mut Node,
    radio: Radio,
    number: u64,
    question: &mut [u8],
) -> Next {
    let mut notice = [0; BUFFER_ROOM];
    let notice = node.send(rt, number, &mut notice);
    let next = radio::noticed(radio, notice, question);
    put_refusal(rt, next.doing);
    if next.doing.respond == 1 {
        node.take_response(rt, number);
    }
    next
}

// A question passes to the node, and its reply back under the question's invoke number; the next question takes its place in the buffer.
fn ask(rt: &(impl Print + Eprint), node: &mut Node, next: Next, question: &mut [u8]) -> Next {
    let Next { radio, doing } = next;
    let asked = question.get(..doing.octets).unwrap_or_default();
    put(rt, &format_args!("radio asks {} ", doing.invoke));
    put_string(rt, asked);
    let mut reply = [0; BUFFER_ROOM];
    let reply = node.ask(rt, &mut reply, radio.own, asked);
    let next = radio::replied(radio, doing.invoke, reply, question);
    put_refusal(rt, next.doing);
    next
}

// The round: a question is asked until there is none, of each stored number at most once.
fn ask_round(
    rt: &(impl Print + Eprint),
    node: &mut Node,
    first: Next,
    question: &mut [u8],
) -> Radio {
    let mut next = first;
    for _ in 0..MOST_STORED {
        if next.doing.octets == 0 {
            break;
        }
        next = ask(rt, node, next, question);
    }
    next.radio
}

// She is told that she was forced off a number: the notice, the round, and what her radio stores then.
fn tell(
    rt: &(impl Print + Eprint),
    node: &mut Node,
    radio: Radio,
    number: u64,
    question: &mut [u8],
) -> Radio {
    let first = notify(rt, node, radio, number, question);
    let radio = ask_round(rt, node, first, question);
    put_stored(rt, radio);
    radio
}

fn main(rt: HostRuntime) {
    let mut node = Node::new();
    let mut question = [0; WRITER_ROOM];
    let radio = begin_service(&rt, &mut node, new_radio());
    let radio = store_others(&rt, radio);
    node.request(&rt, SUPERVISOR, b"##214*0492123401*88*4915100001*#");
    let radio = tell(&rt, &mut node, radio, LEADING, &mut question);
    node.clear(&rt, OTHER_LEADING, DRIVER);
    tell(&rt, &mut node, radio, OTHER_LEADING, &mut question);
}
