// The additional field of a request for a whole crew: `BULK`, one digit n, and, if n is above 0, a space and n two-digit codes.
#![tactic(auto)]

ghost use Rattle.std.specs.Prelude.{◌≡◌, true, ◌+◌, ◌*◌, ◌<◌, length};
ghost use Rattle.numbers.specs.Numbers.{are_digits};
ghost use Rattle.crews.specs.Crews.{is_in, codes_allowed, code_at, codes_in, sound_codes_at, spaced_codes_at, counted_codes_at, count_of};
ghost use Rattle.crews.specs.Found.{CodesAre};

// The code of a lead driver's number.
pub const LEAD_CODE: u64 = 1;

// One digit counts the codes.
const MOST_CODES: usize = 9;

// What an additional field says: a single request, a crew by its count of codes, or `BULK` that breaks its rules.
// Kept: an `Option` or a `Result` is no plainer, since these are three cases, and the codes stand at the field's end.
#[derive(Clone, Copy, Debug, PartialEq, Eq)]
pub enum Crew {
    Single,
    Codes(usize),
    Broken,
}

// The value of the i-th of two-digit codes that stand one behind the other.
pub fn code_at(digits: &[u8], i: usize) -> u64
    requires digits_value { are_digits digits.now ≡ true }
    requires i_in_bounds { 2 * i + 1 < length digits.now }
    ensures { result ≡ code_at digits.now i }
{
    10 * u64::from(digits[2 * i] - b'0') + u64::from(digits[2 * i + 1] - b'0')
}

// Whether a code stands among these.
fn is_among(code: u64, digits: &[u8]) -> bool
    requires { are_digits digits.now ≡ true }
    ensures { result ≡ is_in code (codes_in digits.now) }
{
    // Kept: `chunks_exact(2)` is no plainer: `code_at` is of digits and a place, as its definition is, and of a pair it would need a second one.
    for i in 0..digits.len() / 2 {
        if code_at(digits, i) == code {
            return true;
        }
    }
    false
}

// Whether none of these codes is 01, and none comes twice.
fn are_allowed(digits: &[u8]) -> bool
    requires { are_digits digits.now ≡ true }
    ensures { result ≡ codes_allowed (codes_in digits.now) }
{
    // Kept: by the place, as in `is_among`; the rest behind the place is searched too.
    for i in 0..digits.len() / 2 {
        let code = code_at(digits, i);
        if code == LEAD_CODE {
            return false;
        }
        if is_among(code, &digits[2 * i + 2..]) {
            return false;
        }
    }
    true
}

// The codes of a part: digits, two for each.
fn read_codes(part: &[u8]) -> Option<usize>
    ensures { CodesAre result (sound_codes_at part.now) }
{
    if !numbers::are_digits(part) {
        return None;
    }
    if part.len() % 2 != 0 {
        return None;
    }
    let n = part.len() / 2;
    if MOST_CODES < n {
        return None;
    }
    if !are_allowed(part) {
        return None;
    }
    Some(n)
}

// Nothing, or a space and at least one code.
fn read_spaced(part: &[u8]) -> Option<usize>
    ensures { CodesAre result (spaced_codes_at part.now) }
{
    if part.is_empty() {
        return Some(0);
    }
    if part[0] != b' ' {
        return None;
    }
    let n = read_codes(&part[1..])?;
    if n == 0 {
        return None;
    }
    Some(n)
}

// One digit n, and n codes behind it.
fn read_counted(part: &[u8]) -> Option<usize>
    ensures { CodesAre result (counted_codes_at part.now) }
{
    if part.is_empty() {
        return None;
    }
    let n = read_spaced(&part[1..])?;
    if part[0] != b'0' + n as u8 {
        return None;
    }
    Some(n)
}

// Whether an additional field is of a crew, and of how many codes besides the lead's.
pub fn read_crew(field: &[u8]) -> Crew
    ensures { result ≡ count_of field.now }
{
    if !answers::begins_with(field, b"BULK") {
        return Crew::Single;
    }
    match read_counted(&field[4..]) {
        None => Crew::Broken,
        Some(n) => Crew::Codes(n),
    }
}
