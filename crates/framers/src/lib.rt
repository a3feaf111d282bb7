// Frames written: the component of a request and the three that answer one, and Register and Release Complete around them.
#![tactic(auto)]

ghost use Rattle.std.specs.Prelude.{◌≡◌, [], ◌∷◌, ◌++◌, ◌+◌, ◌≤◌, length};
ghost use Rattle.answers.specs.Writing.{made_write, Stands};
ghost use Rattle.strings.specs.Text.{most_octets, request_from, coding_scheme};
ghost use Rattle.frames.specs.Components.{operation, argument, invoke, component, most_result_octets};
ghost use Rattle.frames.specs.Components as components;
ghost use Rattle.frames.specs.Messages.{frame_room, facility, inverted, register, release};
ghost use Rattle.framers.specs.Written.{told_fault, writing_register};

use answers::Refusal;
use frames::{
    ERROR_TAG, FACILITY, FRAME_ROOM, HALF, INTEGER_TAG, INVOKE_TAG, OCTETS_TAG, OPERATION_CODE,
    PROBLEM_TAG, PROTOCOL, REGISTER_TYPE, REJECT_TAG, RELEASE_TYPE, RESULT_TAG, SEQUENCE_TAG,
    VERSION,
};
use numbers::FunctionalNumber;
use strings::{CODING_SCHEME, Erasing, Operation};
use writers::{WRITER_ROOM, put};

// The largest transaction identifier: flag and value have four bits.
const MOST_TRANSACTION: u8 = 15;

// The transaction flag is the first octet's highest bit.
const FLAG: u8 = 128;

// The component of an error or a Reject has so many octets.
const FAULT_OCTETS: u8 = 8;

// ---- components

// Beside the string's octets, a length counts what stands behind it: 3 for a part of one octet, 2 for the tag and length of any other part; 15 and 17 count whole components.

// Writes the operation and its argument around a string.
fn put_argument(string: &[u8], out: &mut [u8]) -> usize
    requires { (length string.now ≤ most_result_octets) × (10 + length string.now ≤ length out.old) }
    ensures { Stands (operation ++ argument coding_scheme string.now) out.old result out.new }
{
    let n = string.len() as u8;
    let head = [
        INTEGER_TAG,
        1,
        OPERATION_CODE,
        SEQUENCE_TAG,
        n + 5,
        OCTETS_TAG,
        1,
        CODING_SCHEME,
        OCTETS_TAG,
        n,
    ];
    let at = put(&head, out);
    at + put(string, &mut out[at..])
}

// Writes a request's component around a string of the request's writer.
pub fn put_invoke(number: u8, string: &[u8], out: &mut [u8]) -> usize
    requires { (length string.now ≤ most_octets) × (15 + length string.now ≤ length out.old) }
    ensures { Stands (invoke number coding_scheme string.now) out.old result out.new }
{
    let n = string.len() as u8;
    let at = put(&[INVOKE_TAG, n + 13, INTEGER_TAG, 1, number], out);
    at + put_argument(string, &mut out[at..])
}

// Writes a result's component around a reply.
pub fn put_result(number: u8, string: &[u8], out: &mut [u8]) -> usize
    requires { (length string.now ≤ most_result_octets) × (17 + length string.now ≤ length out.old) }
    ensures { Stands (component (components.result number string.now)) out.old result out.new }
{
    let n = string.len() as u8;
    let head = [
        RESULT_TAG,
        n + 15,
        INTEGER_TAG,
        1,
        number,
        SEQUENCE_TAG,
        n + 10,
    ];
    let at = put(&head, out);
    at + put_argument(string, &mut out[at..])
}

// An answer that is no result: an error by its code, or a Reject by its problem.
// Kept: octets and no enums, since the functions that this serves took any octet (`told_fault`).
#[derive(Clone, Copy, Debug, PartialEq, Eq)]
pub enum Fault {
    Error(u8),
    Reject(u8),
}

// Writes the component of an error or a Reject.
pub fn put_fault(number: u8, fault: Fault, out: &mut [u8]) -> usize
    requires { 8 ≤ length out.old }
    ensures { Stands (component (told_fault number fault)) out.old result out.new }
{
    match fault {
        Fault::Error(code) => put(
            &[ERROR_TAG, 6, INTEGER_TAG, 1, number, INTEGER_TAG, 1, code],
            out,
        ),
        Fault::Reject(problem) => put(
            &[
                REJECT_TAG,
                6,
                INTEGER_TAG,
                1,
                number,
                PROBLEM_TAG,
                1,
                problem,
            ],
            out,
        ),
    }
}

// ---- messages

// Writes what stands before the component.
fn put_header(first: u8, kind: u8, count: u8, frame: &mut [u8]) -> usize
    requires { frame_room ≤ length frame.old }
    ensures { Stands (first ∷ kind ∷ facility ∷ count ∷ []) frame.old result frame.new }
{
    put(&[first, kind, FACILITY, count], frame)
}

// The first octet of the answer.
fn invert(first: u8) -> u8
    ensures { result ≡ inverted first }
{
    if first < FLAG {
        return first + FLAG;
    }
    first - FLAG
}

// Writes a Release Complete with a result.
pub fn write_result(first: u8, number: u8, string: &[u8], frame: &mut [u8]) -> usize
    requires { (length string.now ≤ most_result_octets) × (frame_room ≤ length frame.old) }
    ensures { Stands (release (inverted first) (components.result number string.now)) frame.old result frame.new }
{
    let count = string.len() as u8 + 17;
    let at = put_header(invert(first), RELEASE_TYPE, count, frame);
    at + put_result(number, string, &mut frame[at..])
}

// Writes a Release Complete with an error or a Reject.
pub fn write_fault(first: u8, number: u8, fault: Fault, frame: &mut [u8]) -> usize
    requires { frame_room ≤ length frame.old }
    ensures { Stands (release (inverted first) (told_fault number fault)) frame.old result frame.new }
{
    let at = put_header(invert(first), RELEASE_TYPE, FAULT_OCTETS, frame);
    at + put_fault(number, fault, &mut frame[at..])
}

// Writes a Register around a string of the request's writer.
fn put_register(first: u8, number: u8, string: &[u8], frame: &mut [u8]) -> usize
    requires { (length string.now ≤ most_octets) × (frame_room ≤ length frame.old) }
    ensures { Stands (register first number coding_scheme string.now) frame.old result frame.new }
{
    let count = string.len() as u8 + 15;
    let at = put_header(first, REGISTER_TYPE, count, frame);
    let at = at + put_invoke(number, string, &mut frame[at..]);
    at + put(&VERSION, &mut frame[at..])
}

// Writes a Register with a request; what lies beyond stays.
pub fn write_register(
    transaction: u8,
    invocation: u8,
    operation: Operation,
    number: FunctionalNumber,
    erasing: Erasing,
    additional: &[u8],
    frame: &mut [u8],
) -> Result<usize, Refusal>
    ensures { made_write result frame.new ≡ writing_register transaction invocation (request_from operation number erasing additional.now) frame.old }
{
    if frame.len() < FRAME_ROOM {
        return Err(Refusal::NoRoom);
    }
    if MOST_TRANSACTION < transaction {
        return Err(Refusal::Unfit);
    }
    let mut string = [0u8; WRITER_ROOM];
    // The string has room: only its fields may be refused.
    let n = writers::write_request(operation, number, erasing, additional, &mut string)?;
    let first = transaction * HALF + PROTOCOL;
    Ok(put_register(first, invocation, &string[..n], frame))
}
