// The row of words that a record is lent in: when it is sound, the record that it is, and a record put into it.
#![tactic(auto)]

ghost use Rattle.std.specs.Prelude.{◌≡◌, true, ◌+◌, ◌*◌, ◌/◌, ◌^◌, ◌≤◌, ◌<◌, length};
ghost use Rattle.std.proofs.lemmas.List.Edits.{sets};
ghost use Rattle.numbers.specs.Numbers.{most_digits};
ghost use Rattle.rows.specs.Rows.{row_words, listed, holder_at, last_phase, phase_of, second_of, notice_of, words_at, notice_by, row_sound, record_at, stored};
ghost use Rattle.rows.specs.Starts.{rest_by, near_from, holder_start, rest_from};

use numbers::{Msisdn, is_from, is_number, least_for};
use records::{MOST_SENDINGS, Notice, Record};

// The phase of the last sending; M-102: "phases run to 12".
const LAST_PHASE: u64 = 2 * (MOST_SENDINGS as u64);

// "The last word is below 2^32": word six, before M-110 the last.
const SECONDS: u64 = 4294967296;

// "six 64-bit words a number", and M-110's seventh: where they stand in a row, the number first.
pub const ROW_WORDS: usize = 7;

pub const NUMBER: usize = 0;

pub const HOLDER: usize = 1;

pub const PHASE: usize = 2;

const ADDRESSEE: usize = 3;

const SUPERVISOR: usize = 4;

const SECOND: usize = 5;

const CLOSED: usize = 6;

// The words of a row.
#[derive(Clone, Copy, Debug, PartialEq, Eq)]
pub struct Words {
    pub number: u64,
    pub holder: u64,
    pub phase: u64,
    pub addressee: u64,
    pub supervisor: u64,
    pub second: u64,
    pub closed: u64,
}

fn notice_of(phase: u64, second: u64) -> Notice
    requires phase_le_last_phase { phase ≤ last_phase }
    requires second_bound { second < 2 ^ 32 }
    ensures { result ≡ notice_of phase second }
{
    if phase == 0 {
        return Notice::Absent;
    }
    if phase % 2 == 1 {
        return Notice::Waiting((phase / 2) as u8, second as u32);
    }
    Notice::InFlight((phase / 2) as u8)
}

fn phase_of(notice: Notice) -> u64
    ensures { result ≡ phase_of notice }
{
    match notice {
        Notice::Absent => 0,
        Notice::Waiting(sendings, _) => 2 * u64::from(sendings) + 1,
        Notice::InFlight(sendings) => 2 * u64::from(sendings),
    }
}

fn second_of(notice: Notice) -> u64
    ensures { result ≡ second_of notice }
{
    match notice {
        Notice::Absent => 0,
        Notice::Waiting(_, second) => u64::from(second),
        Notice::InFlight(_) => 0,
    }
}

// Whether words three to six of a row are those of a notice, or of none; `parties` says whether addressee and supervisor are sound.
fn notice_by(parties: bool, phase: u64, addressee: u64, supervisor: u64, second: u64) -> bool
    ensures { result ≡ notice_by parties phase addressee supervisor second }
{
    if phase == 0 {
        return (addressee == 0) & (supervisor == 0) & (second == 0);
    }
    let failed = (phase % 2 == 1) & (3 <= phase);
    (phase <= LAST_PHASE)
        & (parties & (addressee != supervisor))
        & ((second < SECONDS) & ((second == 0) | failed))
}

// Reads the words of a row.
fn words_at(table: &[u64], row: usize) -> Words
    requires { row < length table.now / row_words }
    ensures { result ≡ words_at table.now row }
{
    let [number, holder, phase, addressee, supervisor, second, closed] = row_at(table, row);
    Words {
        number,
        holder,
        phase,
        addressee,
        supervisor,
        second,
        closed,
    }
}

// The record of a sound row.
pub fn load(table: &[u64], row: usize) -> Record
    requires row_in_bounds { row < length table.now / row_words }
    requires row_value { row_sound table.now row ≡ true }
    ensures { result ≡ record_at table.now row }
{
    let words = words_at(table, row);
    Record {
        holder: Msisdn(words.holder),
        notice: notice_of(words.phase, words.second),
        addressee: Msisdn(words.addressee),
        supervisor: Msisdn(words.supervisor),
        closed: words.closed == 1,
    }
}

// Puts a record into a row, behind the row's number.
pub fn store(table: &mut [u64], row: usize, next: Record)
    requires { row < length table.old / row_words }
    ensures { table.new ≡ stored table.old row next }
{
    let at = ROW_WORDS * row;
    table[at + HOLDER] = next.holder.0;
    table[at + PHASE] = phase_of(next.notice);
    table[at + ADDRESSEE] = next.addressee.0;
    table[at + SUPERVISOR] = next.supervisor.0;
    table[at + SECOND] = second_of(next.notice);
    table[at + CLOSED] = u64::from(next.closed);
}

// Reads a row as its words.
pub fn row_at(table: &[u64], i: usize) -> [u64; ROW_WORDS]
    requires { row_words * (i + 1) ≤ length table.now }
    ensures { result ≡ listed table.now i }
{
    let at = ROW_WORDS * i;
    let mut words = [0; ROW_WORDS];
    words.copy_from_slice(&table[at..at + ROW_WORDS]);
    words
}

// Writes a row as its words.
pub fn put_row(table: &mut [u64], i: usize, words: [u64; ROW_WORDS])
    requires { row_words * (i + 1) ≤ length table.old }
    ensures { table.new ≡ sets table.old (row_words * i) words }
{
    let at = ROW_WORDS * i;
    table[at..at + ROW_WORDS].copy_from_slice(&words);
}

// Whether what stands behind a row's number is sound, the holder tested by a start; `parties` says whether addressee and supervisor are sound.
fn rest_by(words: Words, start: u64, parties: bool) -> bool
    requires { start ≤ 10 ^ most_digits }
    ensures { result ≡ rest_by start parties words }
{
    let holder = (words.holder == 0) | is_from(words.holder, start);
    let notice = notice_by(
        parties,
        words.phase,
        words.addressee,
        words.supervisor,
        words.second,
    );
    holder & (notice & ((words.closed == 0) | (words.closed == 1)))
}

// The same by one start alone, as it is in most rows: every number there is as long as the start's.
pub fn is_near(table: &[u64], row: usize, start: u64) -> bool
    requires row_in_bounds { row < length table.now / row_words }
    requires start_bound { start ≤ 10 ^ most_digits }
    ensures { result ≡ near_from start table.now row }
{
    let words = words_at(table, row);
    let parties = is_from(words.addressee, start) & is_from(words.supervisor, start);
    rest_by(words, start, parties)
}

// The start by which a row's holder is tested: `near` where that tells that she is a number or nobody, else the least number as long as hers.
pub fn holder_start(table: &[u64], row: usize, near: u64) -> u64
    requires row_in_bounds { row < length table.now / row_words }
    requires near_bound { near ≤ 10 ^ most_digits }
    ensures { result ≡ holder_start near (holder_at table.now row) }
{
    let holder = table[ROW_WORDS * row + HOLDER];
    if (holder == 0) | is_from(holder, near) {
        return near;
    }
    least_for(holder)
}

// Whether what stands behind a row's number is sound, the holder tested by her start.
pub fn rest_sound(table: &[u64], row: usize, start: u64) -> bool
    requires row_in_bounds { row < length table.now / row_words }
    requires start_bound { start ≤ 10 ^ most_digits }
    ensures { result ≡ rest_from start table.now row }
{
    let words = words_at(table, row);
    let parties = is_number(words.addressee)
        & ((words.supervisor == 0) | is_number(words.supervisor));
    rest_by(words, start, parties)
}
