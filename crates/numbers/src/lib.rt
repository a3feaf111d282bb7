// Functional numbers and MSISDNs: their stored form, and their digits read and written.
#![tactic(auto)]

ghost use Rattle.std.specs.Prelude.{◌≡◌, ◌^◌, ◌<◌, ◌≤◌, true, ◌++◌, length, drop};
ghost use Rattle.answers.specs.Writing.{made_write};
ghost use Rattle.numbers.specs.Numbers.{most_digits, is_digit, are_digits, stored_form, is_number, digits_up_to, digits_of, leading_digits, leading_number, writing_digits};
ghost use Rattle.numbers.specs.Least.{least_for, is_from};

use answers::Refusal;

// The "dummy" number of a function on a train, in stored form.
#[derive(Clone, Copy, Debug, PartialEq, Eq)]
pub struct FunctionalNumber(pub u64);

// The "true" number of a subscriber, in stored form; 0 is nobody.
// Kept: two types alike, a form that the project was given; and 0 in place of an `Option`, since C lends the word and `nobody` of the rules is 0.
#[derive(Clone, Copy, Debug, PartialEq, Eq)]
pub struct Msisdn(pub u64);

// How many digits a number has.
pub const FEWEST_DIGITS: usize = 5;

pub const MOST_DIGITS: usize = 15;

// The least number as long as a word below 10^10; 0 where it is below the least of all.
// Kept: an `Option` is no plainer, since every word is compared with the answer, and none is from 0 on and below twice 0.
fn least_short(word: u64) -> u64
    requires { word < 10 ^ 10 }
    ensures { result ≡ least_for word }
{
    if word < 10_000_000 {
        if word < 100_000 {
            return 0;
        }
        if word < 1_000_000 {
            return 100_000;
        }
        return 1_000_000;
    }
    if word < 100_000_000 {
        return 10_000_000;
    }
    if word < 1_000_000_000 {
        return 100_000_000;
    }
    1_000_000_000
}

// The same of a word from there on.
fn least_long(word: u64) -> u64
    requires { 10 ^ 10 ≤ word }
    ensures { result ≡ least_for word }
{
    if word < 1_000_000_000_000 {
        if word < 100_000_000_000 {
            return 10_000_000_000;
        }
        return 100_000_000_000;
    }
    if word < 10_000_000_000_000 {
        return 1_000_000_000_000;
    }
    if word < 100_000_000_000_000 {
        return 10_000_000_000_000;
    }
    if word < 1_000_000_000_000_000 {
        return 100_000_000_000_000;
    }
    1_000_000_000_000_000
}

// The least number as long as a word, by a few comparisons: a table of them would be built anew for each call.
pub fn least_for(word: u64) -> u64
    ensures { result ≡ least_for word }
{
    if word < 10_000_000_000 {
        return least_short(word);
    }
    least_long(word)
}

// Whether word is not below a start, and below twice that: a word below the start wraps to a difference that is above any start.
pub fn is_from(word: u64, start: u64) -> bool
    requires { start ≤ 10 ^ most_digits }
    ensures { result ≡ is_from start word }
{
    word.wrapping_sub(start) < start
}

// Whether word is a number in stored form: it is from the least number as long as it on.
pub fn is_number(word: u64) -> bool
    ensures { result ≡ is_number word }
{
    is_from(word, least_for(word))
}

// How many digits stand at the front of a part.
pub fn leading_digits(part: &[u8]) -> usize
    ensures { result ≡ leading_digits part.now }
{
    part.iter().take_while(|c| c.is_ascii_digit()).count()
}

// Whether a part is all digits.
pub fn are_digits(part: &[u8]) -> bool
    ensures { result ≡ are_digits part.now }
{
    part.iter().all(|c| c.is_ascii_digit())
}

// The stored form of digits: they are put behind a 1.
fn stored_of(digits: &[u8]) -> u64
    requires digits_value { are_digits digits.now ≡ true }
    requires digits_len_bound { length digits.now ≤ most_digits }
    ensures { result ≡ stored_form digits.now }
{
    let mut word: u64 = 1;
    for digit in digits {
        word = 10 * word + u64::from(*digit - b'0');
    }
    word
}

// The number at the front of a part, in stored form, and how many digits it has.
pub fn read_number(part: &[u8]) -> Option<(u64, usize)>
    ensures { result ≡ leading_number part.now }
{
    let n = leading_digits(part);
    if n < FEWEST_DIGITS {
        return None;
    }
    if MOST_DIGITS < n {
        return None;
    }
    Some((stored_of(&part[..n]), n))
}

// How many digits a number in stored form has.
fn count_digits(word: u64) -> usize
    requires { is_number word ≡ true }
    ensures { result ≡ length (digits_of word) }
{
    // The 1 in front is the first of its digits.
    word.ilog10() as usize
}

// Writes the last n digits of word over the front of out, from the last one down.
fn write_last(word: u64, n: usize, out: &mut [u8])
    requires n_bound { 10 ^ n ≤ word }
    requires n_in_bounds { n ≤ length out.old }
    ensures { out.new ≡ digits_up_to n word ++ drop n out.old }
{
    let mut rest = word;
    for at in (0..n).rev() {
        out[at] = b'0' + (rest % 10) as u8;
        rest = rest / 10;
    }
}

// Writes a number's digits over the front of a part that has room for the longest.
pub fn write_digits(word: u64, out: &mut [u8]) -> Result<usize, Refusal>
    ensures { made_write result out.new ≡ writing_digits word out.old }
{
    if out.len() < MOST_DIGITS {
        return Err(Refusal::NoRoom);
    }
    if !is_number(word) {
        return Err(Refusal::Unfit);
    }
    let n = count_digits(word);
    write_last(word, n, out);
    Ok(n)
}
