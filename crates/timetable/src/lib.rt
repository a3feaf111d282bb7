// M-110: numbers closed, closed ones taken out, and new ones put in, in the words that are lent.
#![tactic(auto)]

ghost use Rattle.std.specs.Prelude.{◌≡◌, true, ◌+◌, ◌*◌, ◌≤◌, length, replicate};
ghost use Rattle.records.specs.Steps.{has_run_out};
ghost use Rattle.rows.specs.Rows.{row_words, row_sound};
ghost use Rattle.tables.specs.Tables.{rows_in, table_sound, row_of};
ghost use Rattle.states.specs.States.{beside, said_check};
ghost use Rattle.timetable.specs.Moving.{goes as rowGoes, stay, compacted, place, inserted};
ghost use Rattle.timetable.specs.Timetable.{in_use, is_there, buffer_refusal, closing_number, made_close, compacting, made_compact, adding, made_add};

use answers::Refusal;
use numbers::FunctionalNumber;
use records::{Notice, Record};
use rows::{NUMBER, ROW_WORDS};
use tables::MOST_NUMBERS;

// What compacting answers: how many rows went, and how many are in use.
#[derive(Clone, Copy, Debug, PartialEq, Eq)]
pub struct Compacted {
    pub gone: usize,
    pub used: usize,
}

// ---- rows

// Whether a record is closed, with no holder and no notice.
fn has_run_out(it: Record) -> bool
    ensures { result ≡ has_run_out it }
{
    it.closed & (it.holder.0 == 0) & (it.notice == Notice::Absent)
}

// Whether a sound row is to be taken out.
fn goes(r: [u64; ROW_WORDS]) -> bool
    requires { row_sound r 0 ≡ true }
    ensures { result ≡ rowGoes r }
{
    has_run_out(rows::load(&r, 0))
}

// Takes the rows out that have run out, and says how many are left; the words that they leave are 0.
// Kept: words with the rows in use beside them, as C lends them: the words behind are room that is lent too.
fn remove(words: &mut [u64], used: usize) -> usize
    requires { (used ≤ rows_in words.old) × (table_sound (in_use words.old used) ≡ true) }
    ensures { (result ≡ length (stay used words.old)) × (words.new ≡ compacted used words.old) }
{
    let mut kept = 0;
    for i in 0..used {
        let r = rows::row_at(words, i);
        if !goes(r) {
            rows::put_row(words, kept, r);
            kept += 1;
        }
    }
    words[ROW_WORDS * kept..ROW_WORDS * used].fill(0);
    kept
}

// How many rows stand before a new number's: all up to the last whose number is below it.
fn place(words: &[u64], used: usize, number: u64) -> usize
    requires { row_words * used ≤ length words.now }
    ensures bound { result ≤ used }
    ensures place { result ≡ place number words.now used }
{
    for i in (0..used).rev() {
        if words[ROW_WORDS * i] < number {
            return i + 1;
        }
    }
    0
}

// Puts an open number without holder in its place; the rows behind it move up by one.
fn insert(words: &mut [u64], used: usize, number: u64)
    requires { row_words * (used + 1) ≤ length words.old }
    ensures { words.new ≡ inserted number used words.old }
{
    let at = place(words, used, number);
    words.copy_within(ROW_WORDS * at..ROW_WORDS * used, ROW_WORDS * (at + 1));
    let mut new = [0; ROW_WORDS];
    new[NUMBER] = number;
    rows::put_row(words, at, new);
}

// ---- the calls

// Whether the rows in use are right. No product is taken before the count is known to be within the buffer.
fn check(words: &[u64], used: usize, figures: &[u64]) -> Result<(), Refusal>
    ensures { said_check result ≡ buffer_refusal words.now used figures.now }
{
    if words.len() / ROW_WORDS < used {
        return Err(Refusal::UnsoundTable);
    }
    states::check(&words[..ROW_WORDS * used], figures)
}

// Closes a number; its holder and its notice stay.
pub fn close(table: &mut [u64], figures: &[u64], number: FunctionalNumber) -> Result<(), Refusal>
    ensures { made_close result table.new ≡ closing_number (beside table.old figures.now) number.0 }
{
    states::check(table, figures)?;
    if !numbers::is_number(number.0) {
        return Err(Refusal::NoNumber);
    }
    let Some(row) = tables::row_of(table, number) else {
        return Err(Refusal::NotThere);
    };
    let next = rows::load(table, row).close();
    rows::store(table, row, next);
    Ok(())
}

// Takes out the closed numbers that have neither holder nor notice.
pub fn compact(words: &mut [u64], used: usize, figures: &[u64]) -> Result<Compacted, Refusal>
    ensures { made_compact result words.new ≡ compacting words.old used figures.now }
{
    check(words, used, figures)?;
    let left = remove(words, used);
    Ok(Compacted {
        gone: used - left,
        used: left,
    })
}

// Whether a number stands in the rows in use.
fn is_there(words: &[u64], used: usize, number: FunctionalNumber) -> bool
    requires { (used ≤ rows_in words.now) × (table_sound (in_use words.now used) ≡ true) }
    ensures { result ≡ is_there (row_of (in_use words.now used) number.0) }
{
    tables::row_of(&words[..ROW_WORDS * used], number).is_some()
}

// Puts a number in its place, open and without holder, and says how many rows are in use.
pub fn add(
    words: &mut [u64],
    used: usize,
    figures: &[u64],
    number: FunctionalNumber,
) -> Result<usize, Refusal>
    ensures { made_add result words.new ≡ adding words.old used figures.now number.0 }
{
    check(words, used, figures)?;
    if !numbers::is_number(number.0) {
        return Err(Refusal::NoNumber);
    }
    if is_there(words, used, number) {
        return Err(Refusal::AlreadyThere);
    }
    if (MOST_NUMBERS <= used) | (words.len() / ROW_WORDS <= used) {
        return Err(Refusal::TableFull);
    }
    insert(words, used, number.0);
    Ok(used + 1)
}
