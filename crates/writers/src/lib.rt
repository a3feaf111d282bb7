// The writers of packed strings: a request from its fields, and a notice.
#![tactic(auto)]

ghost use Rattle.std.specs.Prelude.{◌≡◌, true, ◌++◌, ◌+◌, ◌<◌, ◌≤◌, length};
ghost use Rattle.answers.specs.Writing.{made_write, Stands};
ghost use Rattle.packing.specs.Packing.{packed};
ghost use Rattle.numbers.specs.Numbers.{most_digits, is_number, number_or_nobody, digits_of, numeral, two_digits};
ghost use Rattle.strings.specs.Text.{erasing_sound, request_from, request_sound, operation_text, service_text, star, hash, supervisor_text, msisdn_text, text_of, most_characters, most_octets};
ghost use Rattle.strings.specs.Outcomes.{writing_request};
ghost use Rattle.strings.specs.Notices.{notice_text, notice_fields};
ghost use Rattle.strings.specs.Writable.{msisdn_writable, Writable};

use answers::Refusal;
use numbers::{FunctionalNumber, Msisdn};
use strings::{Erasing, MOST_ADDITIONAL, MOST_CHARACTERS, Operation};

// The buffer of a request's writer has at least so many octets.
pub const WRITER_ROOM: usize = 160;

// Writes characters over the front of a part.
pub fn put(characters: &[u8], out: &mut [u8]) -> usize
    requires { length characters.now ≤ length out.old }
    ensures { Stands characters.now out.old result out.new }
{
    let n = characters.len();
    out[..n].copy_from_slice(characters);
    n
}

// The two digits of a number below 100.
pub fn two_digits(n: u8) -> [u8; 2]
    ensures { result ≡ two_digits n }
{
    [b'0' + n / 10, b'0' + n % 10]
}

// Writes a number below 100 in its one or two digits.
pub fn put_numeral(n: u8, out: &mut [u8]) -> usize
    requires { 2 ≤ length out.old }
    ensures { Stands (numeral n) out.old result out.new }
{
    if n < 10 {
        out[0] = b'0' + n;
        return 1;
    }
    put(&two_digits(n), out)
}

// Writes words and a number behind them.
pub fn put_numbered(words: &[u8], n: u8, out: &mut [u8]) -> usize
    requires { length words.now + 2 ≤ length out.old }
    ensures { Stands (words.now ++ numeral n) out.old result out.new }
{
    let at = put(words, out);
    at + put_numeral(n, &mut out[at..])
}

// Writes the operation, `214` and the star.
fn put_operation(operation: Operation, out: &mut [u8]) -> usize
    requires { 6 ≤ length out.old }
    ensures { Stands (operation_text operation ++ (service_text ++ star)) out.old result out.new }
{
    match operation {
        Operation::Register => put(b"**214*", out),
        Operation::Erase => put(b"##214*", out),
        Operation::Interrogate => put(b"*#214*", out),
    }
}

// Writes a number's digits and what stands behind them.
pub fn put_number(word: u64, behind: &[u8], out: &mut [u8]) -> usize
    requires word_value { is_number word ≡ true }
    requires room { most_digits + length behind.now ≤ length out.old }
    ensures { Stands (digits_of word ++ behind.now) out.old result out.new }
{
    // A number, and room: nothing is refused.
    let at = numbers::write_digits(word, out).unwrap();
    at + put(behind, &mut out[at..])
}

// Writes an MSISDN's digits and the star; nobody has no digits.
fn put_msisdn(msisdn: Msisdn, out: &mut [u8]) -> usize
    requires msisdn_value { number_or_nobody msisdn.0 ≡ true }
    requires most_digits_in_bounds { most_digits < length out.old }
    ensures { Stands (digits_of msisdn.0 ++ star) out.old result out.new }
{
    if msisdn.0 == 0 {
        return put(b"*", out);
    }
    put_number(msisdn.0, b"*", out)
}

// Writes supervisor field and MSISDN, each with its star.
fn put_erasing(erasing: Erasing, out: &mut [u8]) -> usize
    requires erasing_value { msisdn_writable erasing ≡ true }
    requires most_digits_in_bounds { 3 + most_digits < length out.old }
    ensures { Stands (supervisor_text erasing ++ (star ++ (msisdn_text erasing ++ star))) out.old result out.new }
{
    match erasing {
        Erasing::Empty => put(b"**", out),
        Erasing::Forced(msisdn) => {
            let at = put(b"88*", out);
            at + put_msisdn(msisdn, &mut out[at..])
        }
    }
}

// Writes the additional field and `#`.
fn put_additional(additional: &[u8], out: &mut [u8]) -> usize
    requires { length additional.now < length out.old }
    ensures { Stands (additional.now ++ hash) out.old result out.new }
{
    let at = put(additional, out);
    at + put(b"#", &mut out[at..])
}

// Whether supervisor field and MSISDN keep the string's rules.
fn erasing_sound(operation: Operation, erasing: Erasing) -> bool
    ensures { result ≡ erasing_sound operation erasing }
{
    match erasing {
        Erasing::Empty => true,
        Erasing::Forced(msisdn) => strings::may_force(operation) & numbers::is_number(msisdn.0),
    }
}

// The fields that a text is written from: a request's, or a notice's, whose supervisor stands in the MSISDN's place.
#[derive(Clone, Copy)]
struct Request<'a> {
    operation: Operation,
    number: FunctionalNumber,
    erasing: Erasing,
    additional: &'a [u8],
}

impl Request<'_> {
    // Whether the fields keep the string's rules.
    fn is_sound(self) -> bool
        ensures { result ≡ request_sound (request_from self.entry.operation self.entry.number self.entry.erasing self.entry.additional.now) }
    {
        let count = self.additional.len();
        if MOST_ADDITIONAL < count {
            return false;
        }
        let leading = strings::leading_additional(self.additional);
        let crew = crews::read_crew(self.additional);
        numbers::is_number(self.number.0)
            & erasing_sound(self.operation, self.erasing)
            & (leading == count)
            & strings::crew_allowed(self.operation, self.number, self.erasing, crew)
    }

    // Writes the text.
    fn write_text(self, text: &mut [u8]) -> usize
        requires writable { Writable (request_from self.operation self.number self.erasing self.additional.now) }
        requires most_characters_in_bounds { most_characters ≤ length text.old }
        ensures { Stands (text_of (request_from self.entry.operation self.entry.number self.entry.erasing self.entry.additional.now)) text.old result text.new }
    {
        let at = put_operation(self.operation, text);
        let at = at + put_number(self.number.0, b"*", &mut text[at..]);
        let at = at + put_erasing(self.erasing, &mut text[at..]);
        at + put_additional(self.additional, &mut text[at..])
    }

    // Writes the packed text.
    fn write_packed(self, out: &mut [u8]) -> usize
        requires writable { Writable (request_from self.operation self.number self.erasing self.additional.now) }
        requires most_octets_in_bounds { most_octets ≤ length out.old }
        ensures { Stands (packed (text_of (request_from self.entry.operation self.entry.number self.entry.erasing self.entry.additional.now))) out.old result out.new }
    {
        let mut text = [0u8; MOST_CHARACTERS];
        let n = self.write_text(&mut text);
        // Characters that the packer takes, and room: nothing is refused.
        packing::pack(&text[..n], out).unwrap()
    }
}

// Writes a request as a packed string; what lies beyond stays.
pub fn write_request(
    operation: Operation,
    number: FunctionalNumber,
    erasing: Erasing,
    additional: &[u8],
    out: &mut [u8],
) -> Result<usize, Refusal>
    ensures { made_write result out.new ≡ writing_request (request_from operation number erasing additional.now) out.old }
{
    if out.len() < WRITER_ROOM {
        return Err(Refusal::NoRoom);
    }
    let request = Request {
        operation,
        number,
        erasing,
        additional,
    };
    if !request.is_sound() {
        return Err(Refusal::Unfit);
    }
    Ok(request.write_packed(out))
}

// Writes a notice to a holder that was forced off: the supervisor in the MSISDN's place, or nobody.
pub fn write_notice(number: FunctionalNumber, supervisor: Msisdn, out: &mut [u8]) -> usize
    requires number_value { (is_number number.0 ≡ true) × (number_or_nobody supervisor.0 ≡ true) }
    requires most_octets_in_bounds { most_octets ≤ length out.old }
    ensures { Stands (packed (notice_text (notice_fields number supervisor))) out.old result out.new }
{
    let request = Request {
        operation: Operation::Erase,
        number,
        erasing: Erasing::Forced(supervisor),
        additional: b"",
    };
    request.write_packed(out)
}
