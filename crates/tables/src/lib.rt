// The lent table and the lent list: whether they are sound, what the figures of a table are, and where a number or a subscriber stands in them.
#![tactic(auto)]

ghost use Rattle.std.specs.Prelude.{◌≡◌, IfErr, true, ◌*◌, ◌/◌, ◌^◌, ◌<◌, length, get_or, leb};
ghost use Rattle.answers.specs.declared.Refusal.TheVariants.{UnsoundTable};
ghost use Rattle.tables.specs.Keys.{key, every, ascends, place_of};
ghost use Rattle.tables.specs.Tables.{most_numbers, rows_in, table_sound, row_of, most_flags, list_sound, flags_of};
ghost use Rattle.tables.specs.Ends.{end_for, within, pair_within};
ghost use Rattle.tables.specs.Figures.{Few, figure_words, with_row, said_recount, recounted};

use answers::Refusal;
use numbers::{FunctionalNumber, Msisdn, least_for};
use rows::{HOLDER, PHASE, ROW_WORDS, holder_start, is_near, rest_sound};

// M-103: "numbers held, notices waiting and notices in flight".
#[derive(Clone, Copy, Debug, PartialEq, Eq)]
pub struct Figures {
    pub held: u64,
    pub waiting: u64,
    pub flying: u64,
}

// The three words of figures, in that order.
impl From<Figures> for [u64; 3] {
    ghost from_gives = { λ figures words. words ≡ figure_words figures };

    fn from(figures: Figures) -> [u64; 3] {
        [figures.held, figures.waiting, figures.flying]
    }
}

// "at most 1,024 numbers".
pub const MOST_NUMBERS: usize = 1024;

// "at most 4,096".
pub const MOST_SUBSCRIBERS: usize = 4096;

// "flags 0 to 3".
pub const MOST_FLAGS: u64 = 3;

// "two words each (MSISDN; flags 0 to 3 ..)".
pub const SUBSCRIBER_WORDS: usize = 2;

const FLAGS: usize = 1;

// The words of the fullest table and list.
pub const FULL_TABLE_WORDS: usize = ROW_WORDS * MOST_NUMBERS;

pub const FULL_LIST_WORDS: usize = SUBSCRIBER_WORDS * MOST_SUBSCRIBERS;

// The end by which a word is tested: the one reached where the word lies below it, else that of the numbers as long as the word, which is twice the least of them.
fn end_for(word: u64, end: u64) -> u64
    ensures { result ≡ end_for end word }
{
    if word < end {
        return end;
    }
    2 * least_for(word)
}

// Counts the row that the words begin with; a row without a notice, as most are, takes one branch.
fn count_row(figures: Figures, words: &[u64]) -> Figures
    requires words_nonzero { 0 < rows_in words.now }
    requires few { Few figures most_numbers }
    ensures { result ≡ with_row figures words.now 0 }
{
    let held = figures.held + u64::from(words[HOLDER] != 0);
    let phase = words[PHASE];
    if phase == 0 {
        return Figures { held, ..figures };
    }
    if phase % 2 == 1 {
        return Figures {
            held,
            waiting: figures.waiting + 1,
            ..figures
        };
    }
    Figures {
        held,
        flying: figures.flying + 1,
        ..figures
    }
}

// The figures of a sound table: whole rows, few enough, each sound and above the one before it; tested and counted in one pass.
pub fn recount(table: &[u64]) -> Result<Figures, Refusal>
    ensures figures { said_recount result ≡ recounted table.now }
    ensures refusal { IfErr result (λ refusal. refusal ≡ UnsoundTable) }
{
    if table.len() % ROW_WORDS != 0 {
        return Err(Refusal::UnsoundTable);
    }
    if MOST_NUMBERS < table.len() / ROW_WORDS {
        return Err(Refusal::UnsoundTable);
    }
    let mut figures = Figures {
        held: 0,
        waiting: 0,
        flying: 0,
    };
    let mut before = 0;
    let mut end = 0;
    let mut near = 0;
    for words in table.chunks_exact(ROW_WORDS) {
        let number = words[0];
        if !((before < number) & ((number < end) & is_near(words, 0, near))) {
            end = end_for(number, end);
            near = holder_start(words, 0, near);
            let rest = rest_sound(words, 0, near);
            if !((before < number) & ((number < end) & rest)) {
                return Err(Refusal::UnsoundTable);
            }
        }
        figures = count_row(figures, words);
        before = number;
    }
    Ok(figures)
}

// Whether the table is sound.
pub fn table_sound(table: &[u64]) -> bool
    ensures { result ≡ table_sound table.now }
{
    recount(table).is_ok()
}

// Whether a subscriber follows the one before her, below an end, with flags 0 to 3.
fn follows(before: u64, end: u64, msisdn: u64, flags: u64) -> bool
    ensures { result ≡ within before end msisdn (leb flags most_flags) }
{
    (before < msisdn) & ((msisdn < end) & (flags <= MOST_FLAGS))
}

// Whether two rows follow at once, as most do; the first begins at word `at`.
fn pair_follows(list: &[u64], at: usize, before: u64, end: u64) -> bool
    requires { at < length list.now }
    ensures { result ≡ pair_within list.now at before end }
{
    if list.len() - at < 2 * SUBSCRIBER_WORDS {
        return false;
    }
    let next = at + SUBSCRIBER_WORDS;
    let first = list[at];
    let second = list[next];
    let flags = list[at + FLAGS];
    let others = list[next + FLAGS];
    follows(before, second, first, flags) & follows(first, end, second, others)
}

// Whether the list is sound: whole rows, few enough, each sound and above the one before it.
pub fn list_sound(list: &[u64]) -> bool
    ensures { result ≡ list_sound list.now }
{
    if list.len() % SUBSCRIBER_WORDS != 0 {
        return false;
    }
    if MOST_SUBSCRIBERS < list.len() / SUBSCRIBER_WORDS {
        return false;
    }
    let mut before = 0;
    let mut end = 0;
    let mut at = 0;
    // Kept: the new form is no plainer: a pass takes two rows, or one where they do not follow, and no range or chunk has two strides.
    while at < list.len() {
        if pair_follows(list, at, before, end) {
            before = list[at + SUBSCRIBER_WORDS];
            at += 2 * SUBSCRIBER_WORDS;
        } else {
            let msisdn = list[at];
            end = end_for(msisdn, end);
            if !follows(before, end, msisdn, list[at + FLAGS]) {
                return false;
            }
            before = msisdn;
            at += SUBSCRIBER_WORDS;
        }
    }
    true
}

// Where a word stands among the first words of rows that ascend.
fn place_of<const WIDTH: usize>(words: &[u64], wanted: u64) -> Option<usize>
    requires width_bounds { (0 < WIDTH) × (WIDTH < 8) }
    requires width_value { every (ascends (key WIDTH words.now)) (length words.now / WIDTH) ≡ true }
    ensures { result ≡ place_of (key WIDTH words.now) wanted (length words.now / WIDTH) }
{
    let (rows, _) = words.as_chunks::<WIDTH>();
    rows.binary_search_by_key(
        &wanted,
        |row: &[u64; WIDTH]| -> u64
            ensures { result ≡ get_or row.now 0 0 }
        { row.first().copied().unwrap_or(0) },
    )
    .ok()
}

// The row of a functional number.
pub fn row_of(table: &[u64], number: FunctionalNumber) -> Option<usize>
    requires { table_sound table.now ≡ true }
    ensures { result ≡ row_of table.now number.0 }
{
    place_of::<ROW_WORDS>(table, number.0)
}

// The flags of a subscriber; 0 where the list does not have her.
// Kept: an `Option` is no plainer, since who is not listed has no flag (`flags_of` of the rules).
pub fn flags_of(list: &[u64], msisdn: Msisdn) -> u64
    requires { list_sound list.now ≡ true }
    ensures { result ≡ flags_of list.now msisdn.0 }
{
    match place_of::<SUBSCRIBER_WORDS>(list, msisdn.0) {
        Some(row) => list[SUBSCRIBER_WORDS * row + FLAGS],
        None => 0,
    }
}
