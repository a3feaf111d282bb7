// What a line of the program comes to: its form is read, carried out over the lent table and list, and what it prints is written.
#![tactic(auto)]

ghost use Rattle.std.specs.Prelude.{◌≡◌, true, false, List, ◌++◌, ℕ, ◌+◌, ◌*◌, ◌≤◌, ◌<◌, length, take, set, get_or};
ghost use Rattle.std.proofs.Math.Option.{some};
ghost use Rattle.packing.specs.Packing.{octets_for};
ghost use Rattle.rows.specs.Rows.{row_words};
ghost use Rattle.tables.specs.Tables.{subscriber_words, full_table_words, full_list_words};
ghost use Rattle.states.specs.States.{beside};
ghost use Rattle.rules.specs.Notices as notices;
ghost use Rattle.forms.specs.Lines.{line_feed};
ghost use Rattle.lines.specs.Program.{questioned, last_key, may_follow, numbered, subscribed, lent_buffer, asked, delayed, requested, dispatched, reported, effect_of, line_effect};
ghost use Rattle.forms.specs.Reads.{form_of_line, start_of};
ghost use Rattle.answers.specs.Writing.{Stands};
ghost use Rattle.replies.specs.Replies.{answer_room};
ghost use Rattle.lines.specs.Memory.{program_in, Fits, line_room, Did, Answered, ending, Lent, ran, running};

use answers::Refusal;
use forms::Line;
use node::BUFFER_ROOM;
use numbers::{FunctionalNumber, Msisdn};
use rows::ROW_WORDS;
use states::FIGURES;
use strings::CODING_SCHEME;
use tables::{MOST_NUMBERS, MOST_SUBSCRIBERS, SUBSCRIBER_WORDS};

// "It reads at most 64 KiB".
const MOST_INPUT: usize = 65_536;

// Room for the octets of a string as long as that, packed.
const PACKED_ROOM: usize = MOST_INPUT / 8 * 7;

// The longest line that is printed, and room for what every line of an input prints: at most seven times its length with its line feed.
const LINE_ROOM: usize = 61;

pub const MOST_OUTPUT: usize = 7 * MOST_INPUT + LINE_ROOM;

// M-107: document 01's listing goes by this delay.
const PROGRAM_DELAY: u32 = 60;

// How many rows of the lent table and list are in use, whether they are still being filled, the delay, whether no line has come yet, and the figures of
// the table's rows in use.
#[derive(Clone, Copy, Debug, PartialEq, Eq)]
struct Progress {
    numbers: usize,
    subscribers: usize,
    filling: bool,
    delay: u32,
    fresh: bool,
    figures: [u64; FIGURES],
}

// What a line leaves: the state, and how many octets it printed.
#[derive(Clone, Copy, Debug, PartialEq, Eq)]
struct Done {
    state: Progress,
    printed: usize,
}

// The first word of the last row, in rows of `width` words; 0 where there is none.
// Kept: an `Option` is no plainer, since every number may follow 0.
fn last_key(words: &[u64], width: usize) -> u64
    requires { 0 < width }
    ensures { result ≡ last_key width words.now }
{
    let at = words.len().saturating_sub(width);
    words.get(at).copied().unwrap_or(0)
}

// Whether a row with this key may follow the rows.
fn may_follow(width: usize, most: usize, key: u64, words: &[u64]) -> bool
    requires { 0 < width }
    ensures { result ≡ may_follow width most key words.now }
{
    let rows = words.len() / width;
    let last = last_key(words, width);
    (rows < most) & (last < key)
}

// Puts a row behind the rows in use, where it may follow them; whether it was put there.
fn append(row: &[u64], rows: usize, most: usize, words: &mut [u64]) -> bool
    requires row_in_bounds { 0 < length row.now }
    requires rows_in_bounds { (length row.now * rows ≤ length words.old) × (length row.now * most ≤ length words.old) }
    ensures allowed { result ≡ may_follow (length row.now) most (get_or row.now 0 0) (take (length row.now * rows) words.old) }
    ensures put { result ≡ true → Stands (take (length row.now * rows) words.old ++ row.now) words.old (length row.now * (rows + 1)) words.new }
    ensures kept { result ≡ false → words.new ≡ words.old }
{
    let used = row.len() * rows;
    if !may_follow(row.len(), most, row[0], &words[..used]) {
        return false;
    }
    words[used..used + row.len()].copy_from_slice(row);
    true
}

// Any other line.
fn question(state: Progress, out: &mut [u8]) -> Done
    requires { line_room ≤ length out.old }
    ensures { (table list : List ℕ) → Fits state table list → Did (questioned (program_in state table list)) state table list out.old result table list out.new }
{
    let printed = writers::put(b"?\n", out);
    Done { state, printed }
}

// `N` number: a row more of the table.
fn add_number(state: Progress, number: FunctionalNumber, table: &mut [u64], out: &mut [u8]) -> Done
    requires numbers_in_bounds { (row_words * state.numbers ≤ length table.old) × (full_table_words ≤ length table.old) }
    requires line_room_in_bounds { line_room ≤ length out.old }
    ensures { (list : List ℕ) → Fits state table.old list → Did (numbered number (program_in state table.old list)) state table.old list out.old result table.new list out.new }
{
    if !state.filling {
        return question(state, out);
    }
    let mut row = [0; ROW_WORDS];
    row[0] = number.0;
    if !append(&row, state.numbers, MOST_NUMBERS, table) {
        return question(state, out);
    }
    // A free row counts in no figure.
    let state = Progress {
        numbers: state.numbers + 1,
        ..state
    };
    Done { state, printed: 0 }
}

// `S` MSISDN flags: a row more of the list.
fn add_subscriber(
    state: Progress,
    msisdn: Msisdn,
    flags: u8,
    list: &mut [u64],
    out: &mut [u8],
) -> Done
    requires subscribers_in_bounds { (subscriber_words * state.subscribers ≤ length list.old) × (full_list_words ≤ length list.old) }
    requires line_room_in_bounds { line_room ≤ length out.old }
    ensures { (table : List ℕ) → Fits state table list.old → Did (subscribed msisdn flags (program_in state table list.old)) state table list.old out.old result table list.new out.new }
{
    if !state.filling {
        return question(state, out);
    }
    let row = [msisdn.0, u64::from(flags)];
    if !append(&row, state.subscribers, MOST_SUBSCRIBERS, list) {
        return question(state, out);
    }
    let state = Progress {
        subscribers: state.subscribers + 1,
        ..state
    };
    Done { state, printed: 0 }
}

// `W` seconds: another delay, before any other line.
fn set_delay(state: Progress, first: bool, seconds: u32, out: &mut [u8]) -> Done
    requires { line_room ≤ length out.old }
    ensures { (table list : List ℕ) → Fits state table list → Did (delayed first seconds (program_in state table list)) state table list out.old result table list out.new }
{
    if !(first & records::delay_allowed(seconds)) {
        return question(state, out);
    }
    let state = Progress {
        delay: seconds,
        ..state
    };
    Done { state, printed: 0 }
}

// Asks the node, its string packed, and writes what follows the `R`.
fn ask(
    requester: Msisdn,
    string: &[u8],
    table: &mut [u64],
    figures: &mut [u64],
    list: &[u64],
    packed: &mut [u8],
    out: &mut [u8],
) -> usize
    requires { (octets_for (length string.now) ≤ length packed.old) × (answer_room ≤ length out.old) }
    ensures { Answered (asked requester string.now (beside table.old figures.old) list.now) (beside table.new figures.new) out.old out.new result }
{
    let Ok(n) = packing::pack(string, packed) else {
        return writers::put_numbered(b"refused ", u8::from(Refusal::Unfit), out);
    };
    let mut reply = [0u8; BUFFER_ROOM];
    let answer = node::request(
        table,
        figures,
        list,
        &mut reply,
        requester,
        CODING_SCHEME,
        &packed[..n],
    );
    replies::put_request_answer(answer, &reply, out)
}

// Sends the notice of a number, and writes what follows the `T`.
fn send(
    clock: u32,
    number: FunctionalNumber,
    delay: u32,
    table: &mut [u64],
    figures: &mut [u64],
    out: &mut [u8],
) -> usize
    requires { answer_room ≤ length out.old }
    ensures { Answered (notices.sending_notice (beside table.old figures.old) lent_buffer number delay clock) (beside table.new figures.new) out.old out.new result }
{
    let mut notice = [0u8; BUFFER_ROOM];
    let answer = node::sending(table, figures, &mut notice, number, delay, clock);
    replies::put_sending_answer(answer, &notice, out)
}

// Reports the result of a sending, and writes what follows the `D`.
fn report(
    clock: u32,
    number: FunctionalNumber,
    kind: u32,
    table: &mut [u64],
    figures: &mut [u64],
    out: &mut [u8],
) -> usize
    requires { answer_room ≤ length out.old }
    ensures { Answered (notices.taking_result (beside table.old figures.old) number kind clock) (beside table.new figures.new) out.old out.new result }
{
    let answer = node::result(table, figures, number, kind, clock);
    replies::put_result_answer(answer, out)
}

// Ends a printed line with its line feed, and with it the filling; the figures are those that its call left.
fn end_line(state: Progress, figures: [u64; FIGURES], at: usize, out: &mut [u8]) -> Done
    requires { at < length out.old }
    ensures { (result ≡ ending state figures at) × (out.new ≡ set out.old at line_feed) }
{
    out[at] = b'\n';
    let state = Progress {
        filling: false,
        figures,
        ..state
    };
    Done {
        state,
        printed: at + 1,
    }
}

// `R` requester string.
fn request_line(
    state: Progress,
    requester: Msisdn,
    string: &[u8],
    table: &mut [u64],
    list: &[u64],
    packed: &mut [u8],
    out: &mut [u8],
) -> Done
    requires fits { Fits state table.old list.now }
    requires string_in_bounds { (octets_for (length string.now) ≤ length packed.old) × (line_room ≤ length out.old) }
    ensures { Did (requested requester string.now (program_in state table.old list.now)) state table.old list.now out.old result table.new list.now out.new }
{
    let words = ROW_WORDS * state.numbers;
    let entries = SUBSCRIBER_WORDS * state.subscribers;
    let mut figures = state.figures;
    let at = writers::put(b"R ", out);
    let n = ask(
        requester,
        string,
        &mut table[..words],
        &mut figures,
        &list[..entries],
        packed,
        &mut out[at..],
    );
    end_line(state, figures, at + n, out)
}

// `T` now number.
fn sending_line(
    state: Progress,
    clock: u32,
    number: FunctionalNumber,
    table: &mut [u64],
    out: &mut [u8],
) -> Done
    requires { (row_words * state.numbers ≤ length table.old) × (line_room ≤ length out.old) }
    ensures { (list : List ℕ) → Fits state table.old list → Did (dispatched clock number (program_in state table.old list)) state table.old list out.old result table.new list out.new }
{
    let words = ROW_WORDS * state.numbers;
    let mut figures = state.figures;
    let at = writers::put(b"T ", out);
    let n = send(
        clock,
        number,
        state.delay,
        &mut table[..words],
        &mut figures,
        &mut out[at..],
    );
    end_line(state, figures, at + n, out)
}

// `D` now number kind.
fn result_line(
    state: Progress,
    clock: u32,
    number: FunctionalNumber,
    kind: u32,
    table: &mut [u64],
    out: &mut [u8],
) -> Done
    requires { (row_words * state.numbers ≤ length table.old) × (line_room ≤ length out.old) }
    ensures { (list : List ℕ) → Fits state table.old list → Did (reported clock number kind (program_in state table.old list)) state table.old list out.old result table.new list out.new }
{
    let words = ROW_WORDS * state.numbers;
    let mut figures = state.figures;
    let at = writers::put(b"D ", out);
    let n = report(
        clock,
        number,
        kind,
        &mut table[..words],
        &mut figures,
        &mut out[at..],
    );
    end_line(state, figures, at + n, out)
}

// Carries a line out, by its form, and whether it is the first.
fn carry_out(
    line: Line,
    rest: &[u8],
    first: bool,
    state: Progress,
    table: &mut [u64],
    list: &mut [u64],
    packed: &mut [u8],
    out: &mut [u8],
) -> Done
    requires line_in_bounds { (start_of line ≤ length rest.now) × Fits state table.old list.old }
    requires rest_in_bounds { (octets_for (length rest.now) ≤ length packed.old) × (line_room ≤ length out.old) }
    ensures { Did (effect_of first (some (form_of_line rest.now line)) (program_in state table.old list.old)) state table.old list.old out.old result table.new list.new out.new }
{
    match line {
        Line::Number(number) => add_number(state, number, table, out),
        Line::Subscriber(msisdn, flags) => add_subscriber(state, msisdn, flags, list, out),
        Line::Request(requester, start) => {
            request_line(state, requester, &rest[start..], table, list, packed, out)
        }
        Line::Sending(clock, number) => sending_line(state, clock, number, table, out),
        Line::Result(clock, number, kind) => result_line(state, clock, number, kind, table, out),
        Line::Delay(seconds) => set_delay(state, first, seconds, out),
    }
}

// What a line comes to; once it has come, no other is the first.
fn do_line(
    line: &[u8],
    state: Progress,
    table: &mut [u64],
    list: &mut [u64],
    packed: &mut [u8],
    out: &mut [u8],
) -> Done
    requires fits { Fits state table.old list.old }
    requires line_in_bounds { (octets_for (length line.now) ≤ length packed.old) × (line_room ≤ length out.old) }
    ensures { Did (line_effect line.now (program_in state table.old list.old)) state table.old list.old out.old result table.new list.new out.new }
{
    let next = Progress {
        fresh: false,
        ..state
    };
    let [letter, b' ', rest @ ..] = line else {
        return question(next, out);
    };
    let Some(form) = forms::read_form(*letter, rest) else {
        return question(next, out);
    };
    carry_out(form, rest, state.fresh, next, table, list, packed, out)
}

// Every line of the input, one after the other.
fn run_lines(
    input: &[u8],
    table: &mut [u64],
    list: &mut [u64],
    packed: &mut [u8],
    out: &mut [u8],
) -> usize
    requires { Lent input.now table.old list.old out.old × (octets_for (length input.now) ≤ length packed.old) }
    ensures { ran result table.new list.new out.new ≡ running input.now table.old list.old out.old }
{
    let mut state = Progress {
        numbers: 0,
        subscribers: 0,
        filling: true,
        delay: PROGRAM_DELAY,
        fresh: true,
        figures: [0; FIGURES],
    };
    let mut at = 0;
    let mut n = 0;
    // Kept: over the library's `split_inclusive` the wrong program that passes over an octet is refused for its form alone, as the same program in other words is.
    while at < input.len() {
        let rest = &input[at..];
        let end = forms::place_of(b'\n', rest);
        let done = do_line(&rest[..end], state, table, list, packed, &mut out[n..]);
        state = done.state;
        n += done.printed;
        at += end + 1;
    }
    n
}

// The whole input: what its lines print is written over the front of the output, and table and list hold what they leave.
pub fn run(input: &[u8], table: &mut [u64], list: &mut [u64], out: &mut [u8]) -> usize
    requires { Lent input.now table.old list.old out.old }
    ensures { ran result table.new list.new out.new ≡ running input.now table.old list.old out.old }
{
    let mut packed = octets::filled::<u8, PACKED_ROOM>(0);
    run_lines(input, table, list, &mut packed, out)
}
