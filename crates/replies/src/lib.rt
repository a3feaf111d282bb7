// What the program prints behind a line's letter: an answer's words, its number or its text.
#![tactic(auto)]

ghost use Rattle.std.specs.Prelude.{◌≡◌, true, [], ◌++◌, ◌+◌, ◌≤◌, length};
ghost use Rattle.answers.specs.Ascii.{ascii};
ghost use Rattle.answers.specs.Writing.{Stands};
ghost use Rattle.packing.specs.Packing.{chars_in, readable, unpacked};
ghost use Rattle.numbers.specs.Numbers.{numeral};
ghost use Rattle.answers.specs.Numbers.{refusal_number};
ghost use Rattle.visits.specs.Said.{said_request, said_sending, said_result};
ghost use Rattle.replies.specs.Replies.{behind_letter, Printable, answer_room};

use answers::{Failure, Refusal};
use records::Fate;
use visits::{Reply, Sent};

// Writes the characters that readable octets are.
fn put_text(octets: &[u8], out: &mut [u8]) -> usize
    requires { (readable octets.now ≡ true) × (chars_in (length octets.now) ≤ length out.old) }
    ensures { Stands (unpacked octets.now) out.old result out.new }
{
    // Readable, and room: nothing is refused.
    packing::unpack(octets, out).unwrap()
}

// Writes `refused` and the refusal's number.
fn put_refused(refusal: Refusal, out: &mut [u8]) -> usize
    requires { answer_room ≤ length out.old }
    ensures { Stands (ascii "refused " ++ numeral (refusal_number refusal)) out.old result out.new }
{
    writers::put_numbered(b"refused ", u8::from(refusal), out)
}

// Writes what follows an `R`.
pub fn put_request_answer(answer: Result<Reply, Failure>, reply: &[u8], out: &mut [u8]) -> usize
    requires printable { Printable (said_request answer) reply.now }
    requires answer_room_in_bounds { answer_room ≤ length out.old }
    ensures { Stands (behind_letter (said_request answer) reply.now) out.old result out.new }
{
    match answer {
        Err(Failure::Refused(refusal)) => put_refused(refusal, out),
        Err(Failure::Error(error)) => writers::put_numbered(b"error ", u8::from(error), out),
        Ok(Reply::Outcome(_, octets)) => put_text(&reply[..octets], out),
        Ok(Reply::Held(_, octets)) => put_text(&reply[..octets], out),
    }
}

// Writes what follows a `T`.
pub fn put_sending_answer(answer: Result<Sent, Refusal>, notice: &[u8], out: &mut [u8]) -> usize
    requires printable { Printable (said_sending answer) notice.now }
    requires answer_room_in_bounds { answer_room ≤ length out.old }
    ensures { Stands (behind_letter (said_sending answer) notice.now) out.old result out.new }
{
    match answer {
        Err(refusal) => put_refused(refusal, out),
        Ok(sent) => {
            let at = writers::put_number(sent.addressee.0, b" ", out);
            at + put_text(&notice[..sent.octets], &mut out[at..])
        }
    }
}

// Writes what follows a `D`.
pub fn put_result_answer(answer: Result<Fate, Refusal>, out: &mut [u8]) -> usize
    requires { answer_room ≤ length out.old }
    ensures { Stands (behind_letter (said_result answer) []) out.old result out.new }
{
    match answer {
        Err(refusal) => put_refused(refusal, out),
        Ok(Fate::Delivered) => writers::put(b"delivered", out),
        Ok(Fate::Dropped) => writers::put(b"dropped", out),
        Ok(Fate::Again) => writers::put(b"again", out),
    }
}
