// What a radio stores: the state that the cab's main software lends, when it is sound, and what becomes of it.
#![tactic(auto)]

ghost use Rattle.std.specs.Prelude.{◌≡◌, true, ◌&&◌, ◌++◌, ◌<◌, ◌≤◌, length, take, drop, IfSome, is_some, nat_lt};
ghost use Rattle.stores.specs.Stores.{most_stored, entries_in, entry_sound, is_blank, every, has, none_twice, open_of, radio_sound, holding, with_new, is_due, begun, settled, is_of, flag_of, due_by};
ghost use Rattle.stores.specs.Places.{first_to_ask, said_place, said_open, closed_up, kept_at, dropped_at};

// It stores at most so many numbers.
pub const MOST_STORED: usize = 16;

// A stored number, with its mark and whether it is still to be asked in this round: each 0 or 1.
// Kept: C lends this struct (include/ffn_radio.h), so its flags are octets that a call tests.
#[repr(C)]
#[derive(Clone, Copy, Debug, PartialEq, Eq)]
pub struct Entry {
    pub number: u64,
    pub unsure: u8,
    pub to_ask: u8,
}

// A radio: its own MSISDN, the stored numbers in the order in which they were stored, whether it is a hand-held, and the invoke number of its last question.
// Kept: C lends this struct, so a count stands beside the places; `entries_in` makes a slice of them.
#[repr(C)]
#[derive(Clone, Copy, Debug, PartialEq, Eq)]
pub struct Radio {
    pub own: u64,
    pub count: usize,
    pub entries: [Entry; MOST_STORED],
    pub hand_held: u8,
    pub invoke: u8,
}

// What an answer says of the number that was asked.
#[derive(Clone, Copy, Debug, PartialEq, Eq)]
pub enum Verdict {
    Keeps,
    Drops,
    Unsure,
}

// A place behind the stored numbers.
const BLANK: Entry = Entry {
    number: 0,
    unsure: 0,
    to_ask: 0,
};

impl Radio {
    // The stored numbers.
    pub fn entries_in(&self) -> &[Entry]
        requires { self.now.count ≤ most_stored }
        ensures { result.now ≡ entries_in self.now }
    {
        &self.entries[..self.count]
    }
}

// Whether the number is among the entries.
pub fn has(entries: &[Entry], number: u64) -> bool
    ensures { result ≡ has number entries.now }
{
    entries.iter().any(|entry| entry.number == number)
}

// The place of the open question.
pub fn first_to_ask(entries: &[Entry]) -> Option<usize>
    ensures place { said_place (length entries.now) result ≡ first_to_ask entries.now }
    ensures within { IfSome result (λ at. at < length entries.now) }
{
    entries.iter().position(|entry| entry.to_ask == 1)
}

// The open question's number.
pub fn open_number(entries: &[Entry]) -> Option<u64>
    ensures number { said_open result ≡ open_of entries.now }
    ensures stored { IfSome result (λ number. has number entries.now ≡ true) }
    ensures open { is_some result ≡ nat_lt (first_to_ask entries.now) (length entries.now) }
{
    let at = first_to_ask(entries)?;
    Some(entries[at].number)
}

fn entry_sound(entry: Entry) -> bool
    ensures { result ≡ entry_sound entry }
{
    numbers::is_number(entry.number) & (entry.unsure <= 1) & (entry.to_ask <= 1)
}

fn is_blank(entry: Entry) -> bool
    ensures { result ≡ is_blank entry }
{
    entry == BLANK
}

// Whether each stored number is sound and comes but once.
fn entries_sound(entries: &[Entry]) -> bool
    ensures { result ≡ (every entry_sound entries.now && none_twice entries.now) }
{
    for (i, entry) in entries.iter().enumerate() {
        if !entry_sound(*entry) | has(&entries[i + 1..], entry.number) {
            return false;
        }
    }
    true
}

// Whether nothing lies behind the stored numbers.
fn rest_blank(rest: &[Entry]) -> bool
    ensures { result ≡ every is_blank rest.now }
{
    rest.iter().all(|entry| is_blank(*entry))
}

// Whether all numbers still to be asked have this root.
fn of_root(entries: &[Entry], root: u64) -> bool
    ensures { result ≡ every (is_of root) entries.now }
{
    entries
        .iter()
        .all(|entry| (entry.to_ask != 1) | (entry.number / 100 == root))
}

// Whether a radio is sound.
pub fn sound(radio: Radio) -> bool
    ensures { result ≡ radio_sound radio }
{
    if MOST_STORED < radio.count {
        return false;
    }
    if !(numbers::is_number(radio.own) & (radio.hand_held <= 1)) {
        return false;
    }
    let entries = radio.entries_in();
    if !entries_sound(entries) {
        return false;
    }
    if !rest_blank(&radio.entries[radio.count..]) {
        return false;
    }
    let root = open_number(entries).unwrap_or(0) / 100;
    (radio.hand_held == 1) | of_root(entries, root)
}

// A new number goes last.
pub fn with_new(radio: Radio, number: u64) -> Radio
    requires radio_value { radio_sound radio ≡ true }
    requires count_lt_most_stored { radio.count < most_stored }
    ensures { result ≡ holding radio radio.invoke (with_new number (entries_in radio)) }
{
    let mut next = radio;
    next.entries[radio.count] = Entry { number, ..BLANK };
    next.count += 1;
    next
}

// 1 where a number is due at a notice, else 0.
fn due_flag(hand_held: u8, about: u64, number: u64) -> u8
    ensures { result ≡ flag_of (due_by hand_held about number) }
{
    u8::from((hand_held == 1) | (number / 100 == about / 100))
}

// A round begins: to be asked are those entries that are due, and no others.
pub fn begin(radio: Radio, about: u64) -> Radio
    requires { radio_sound radio ≡ true }
    ensures { result ≡ holding radio radio.invoke (begun (is_due radio about) (entries_in radio)) }
{
    let mut entries = radio.entries;
    // Kept: a `for` over `iter_mut` does not prove: of what was written through it std says the length, and no element.
    for i in 0..radio.count {
        let to_ask = due_flag(radio.hand_held, about, entries[i].number);
        entries[i] = Entry {
            to_ask,
            ..entries[i]
        };
    }
    Radio { entries, ..radio }
}

// The places behind one move down by one.
fn closed(entries: [Entry; MOST_STORED], at: usize) -> [Entry; MOST_STORED]
    requires { at < most_stored }
    ensures { result ≡ closed_up entries at }
{
    let mut all = entries;
    all.copy_within(at + 1.., at);
    all[MOST_STORED - 1] = BLANK;
    all
}

// The number that was asked is kept, with a mark.
fn kept(radio: Radio, at: usize, mark: u8) -> Radio
    requires { at < most_stored }
    ensures { result ≡ kept_at radio at mark }
{
    let mut next = radio;
    next.entries[at] = Entry {
        unsure: mark,
        to_ask: 0,
        ..radio.entries[at]
    };
    next
}

// The number that was asked is dropped, leaving no gap.
fn dropped(radio: Radio, at: usize) -> Radio
    requires { (at < most_stored) × (0 < radio.count) }
    ensures { result ≡ dropped_at radio at }
{
    Radio {
        count: radio.count - 1,
        entries: closed(radio.entries, at),
        ..radio
    }
}

// The open question is answered.
pub fn settle(radio: Radio, verdict: Verdict) -> Radio
    requires radio_value { radio_sound radio ≡ true }
    requires fact { open_of (entries_in radio) ≡ 0 → ⊥ }
    ensures { result ≡ holding radio radio.invoke (settled verdict (entries_in radio)) }
{
    let Some(at) = first_to_ask(radio.entries_in()) else {
        unreachable!()
    };
    match verdict {
        Verdict::Keeps => kept(radio, at, 0),
        Verdict::Drops => dropped(radio, at),
        Verdict::Unsure => kept(radio, at, 1),
    }
}
