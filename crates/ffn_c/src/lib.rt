// The C functions of the static library, thin over the packer, the request string, the frames and the node. Each returns one struct by value and has no `requires`.
#![tactic(auto)]

ghost use Rattle.std.specs.Prelude.{◌≡◌, not, [], eqb};
ghost use Rattle.packing.specs.Outcomes.{packing, unpacking};
ghost use Rattle.frames.specs.Messages.{register_of, release_of};
ghost use Rattle.tables.specs.Figures.{recounted};
ghost use Rattle.states.specs.States.{beside};
ghost use Rattle.image.specs.Images.{leaving, writing_image, reading_image};
ghost use Rattle.timetable.specs.Timetable.{closing_number, compacting, adding};
ghost use Rattle.rules.specs.Crews.{requesting};
ghost use Rattle.rules.specs.Frames.{framed_request};
ghost use Rattle.rules.specs.Notices as notices;
ghost use Rattle.rules.specs.Terminal.{terminal_erasure};
ghost use Rattle.rules.specs.Routing.{routing};
ghost use Rattle.structs_calls.specs.Routes.{of_route};
ghost use Rattle.structs_calls.specs.Answers.{of_answer};
ghost use Rattle.structs_read.specs.Fields.{operation_of, erasing_of};
ghost use Rattle.structs.specs.Figures.{of_figures};
ghost use Rattle.structs_read.specs.Frames.{of_register, of_release};
ghost use Rattle.ffn_c.specs.Calls.{returning, of_call, of_writer, writing_fields, framing_fields, reading_into, of_reading, of_timetable};

use answers::RequestError;
use numbers::{FunctionalNumber, Msisdn};
use strings::Operation;
use structs::{Answer, ERROR, FiguresRead, ImageCounts};
use structs_calls::Route;
use structs_read::{FrameRead, RequestRead};

// Packs the characters into out.
#[unsafe(no_mangle)]
pub extern "C" fn ffn_pack(chars: &[u8], out: &mut [u8]) -> Answer
    ensures { returning result [] [] out.new ≡ of_writer (packing chars.now out.old) }
{
    structs::of_written(packing::pack(chars, out))
}

// Unpacks the octets into out.
#[unsafe(no_mangle)]
pub extern "C" fn ffn_unpack(octets: &[u8], out: &mut [u8]) -> Answer
    ensures { returning result [] [] out.new ≡ of_writer (unpacking octets.now out.old) }
{
    structs::of_written(packing::unpack(octets, out))
}

// Writes a request as a packed string.
#[unsafe(no_mangle)]
pub extern "C" fn ffn_write_request(
    operation: u32,
    number: u64,
    msisdn: u64,
    additional: &[u8],
    out: &mut [u8],
) -> Answer
    ensures { returning result [] [] out.new ≡ of_writer (writing_fields (operation_of operation) (record { 0 = number }) (erasing_of msisdn) additional.now out.old) }
{
    let erasing = structs_read::erasing_of(msisdn);
    // What is no operation breaks the string's rules, as nobody's number does: the writer refuses that 9, after 1.
    let (operation, number) = match structs_read::operation_of(operation) {
        Some(operation) => (operation, FunctionalNumber(number)),
        None => (Operation::Register, FunctionalNumber(0)),
    };
    structs::of_written(writers::write_request(operation, number, erasing, additional, out))
}

// Reads a packed request string; its characters go into the text, if it has room for them.
#[unsafe(no_mangle)]
pub extern "C" fn ffn_read_request(octets: &[u8], text: &mut [u8]) -> RequestRead
    ensures { returning result [] [] text.new ≡ reading_into octets.now text.old }
{
    let Some(fields) = strings::read_request(octets).reading else {
        return RequestRead {
            class: ERROR,
            number: u32::from(u8::from(RequestError::UnexpectedData)),
            operation: 0,
            crew: 0,
            functional_number: 0,
            msisdn: 0,
            start: 0,
            length: 0,
            codes: 0,
        };
    };
    // A text that is too short stays as it was.
    let _ = packing::unpack(octets, text);
    structs_read::of_fields(fields)
}

// A request: the requester's string over the lent table, figures and list, with the reply.
#[unsafe(no_mangle)]
pub extern "C" fn ffn_request(
    table: &mut [u64],
    figures: &mut [u64],
    list: &[u64],
    reply: &mut [u8],
    requester: u64,
    scheme: u8,
    string: &[u8],
) -> Answer
    ensures { returning result table.new figures.new reply.new ≡ of_call (requesting (beside table.old figures.old) list.now reply.old (record { 0 = requester }) scheme string.now) }
{
    let requester = Msisdn(requester);
    let answer = node::request(table, figures, list, reply, requester, scheme, string);
    structs_calls::of_request(answer)
}

// Where a text message to these digits goes; `coded` is 0 where they have no code.
#[unsafe(no_mangle)]
pub extern "C" fn ffn_routing(table: &[u64], home: &[u8], digits: &[u8], coded: u8) -> Route
    ensures { result ≡ of_route (routing table.now home.now (not (eqb coded 0)) digits.now) }
{
    structs_calls::of_routing(routes::routing(table, home, coded != 0, digits))
}

// An erasure at the node's terminal: the number and its holder over the lent table and figures, with the reply.
#[unsafe(no_mangle)]
pub extern "C" fn ffn_terminal_erasure(
    table: &mut [u64],
    figures: &mut [u64],
    reply: &mut [u8],
    number: u64,
    holder: u64,
) -> Answer
    ensures { returning result table.new figures.new reply.new ≡ of_call (terminal_erasure (beside table.old figures.old) reply.old (record { 0 = number }) (record { 0 = holder })) }
{
    let number = FunctionalNumber(number);
    let holder = Msisdn(holder);
    structs_calls::of_request(node::terminal_erasure(table, figures, reply, number, holder))
}

// A sending of a number's notice, with the notice in the buffer.
#[unsafe(no_mangle)]
pub extern "C" fn ffn_sending(
    table: &mut [u64],
    figures: &mut [u64],
    buffer: &mut [u8],
    number: u64,
    delay: u32,
    clock: u32,
) -> Answer
    ensures { returning result table.new figures.new buffer.new ≡ of_call (notices.sending_notice (beside table.old figures.old) buffer.old (record { 0 = number }) delay clock) }
{
    let number = FunctionalNumber(number);
    structs_calls::of_sending(node::sending(table, figures, buffer, number, delay, clock))
}

// The result of a sending.
#[unsafe(no_mangle)]
pub extern "C" fn ffn_result(
    table: &mut [u64],
    figures: &mut [u64],
    number: u64,
    kind: u32,
    clock: u32,
) -> Answer
    ensures { returning result table.new figures.new [] ≡ of_call (notices.taking_result (beside table.old figures.old) (record { 0 = number }) kind clock) }
{
    structs_calls::of_result(node::result(table, figures, FunctionalNumber(number), kind, clock))
}

// The figures of a table, by a recount.
#[unsafe(no_mangle)]
pub extern "C" fn ffn_recount(table: &[u64]) -> FiguresRead
    ensures { result ≡ of_figures (recounted table.now) }
{
    structs::of_recount(tables::recount(table))
}

// The lowest due number, if one is due.
#[unsafe(no_mangle)]
pub extern "C" fn ffn_finding(table: &[u64], delay: u32, clock: u32) -> Answer
    ensures { result ≡ of_answer (notices.finding table.now delay clock) }
{
    structs_calls::of_finding(node::finding(table, delay, clock))
}

// A framed request: the requester's Register over the lent table, figures and list, with the Release Complete that answers it.
#[unsafe(no_mangle)]
pub extern "C" fn ffn_framed_request(
    table: &mut [u64],
    figures: &mut [u64],
    list: &[u64],
    frame: &mut [u8],
    requester: u64,
    message: &[u8],
) -> Answer
    ensures { returning result table.new figures.new frame.new ≡ of_call (framed_request (beside table.old figures.old) list.now frame.old (record { 0 = requester }) message.now) }
{
    let requester = Msisdn(requester);
    structs_calls::of_framed(exchange::framed_request(
        table, figures, list, frame, requester, message,
    ))
}

// Writes a Register with a request.
#[unsafe(no_mangle)]
pub extern "C" fn ffn_write_register(
    transaction: u8,
    invoke: u8,
    operation: u32,
    number: u64,
    msisdn: u64,
    additional: &[u8],
    frame: &mut [u8],
) -> Answer
    ensures { returning result [] [] frame.new ≡ of_writer (framing_fields transaction invoke (operation_of operation) (record { 0 = number }) (erasing_of msisdn) additional.now frame.old) }
{
    let erasing = structs_read::erasing_of(msisdn);
    // As in ffn_write_request: refused 9, after 1.
    let (operation, number) = match structs_read::operation_of(operation) {
        Some(operation) => (operation, FunctionalNumber(number)),
        None => (Operation::Register, FunctionalNumber(0)),
    };
    structs::of_written(framers::write_register(
        transaction,
        invoke,
        operation,
        number,
        erasing,
        additional,
        frame,
    ))
}

// Reads a Register.
#[unsafe(no_mangle)]
pub extern "C" fn ffn_read_register(message: &[u8]) -> FrameRead
    ensures { result ≡ of_register message.now (register_of message.now) }
{
    structs_read::of_register(message, frames::read_register(message))
}

// Reads a Release Complete.
#[unsafe(no_mangle)]
pub extern "C" fn ffn_read_release(message: &[u8]) -> FrameRead
    ensures { result ≡ of_release message.now (release_of message.now) }
{
    structs_read::of_release(message, frames::read_release(message))
}

// Writes table and list as one image.
#[unsafe(no_mangle)]
pub extern "C" fn ffn_write_image(
    table: &[u64],
    figures: &[u64],
    list: &[u64],
    image: &mut [u8],
) -> Answer
    ensures { returning result [] [] image.new ≡ of_writer (writing_image (beside table.now figures.now) list.now image.old) }
{
    structs::of_written(image::write_image(table, figures, list, image))
}

// Reads an image back into lent words.
#[unsafe(no_mangle)]
pub extern "C" fn ffn_read_image(
    image: &[u8],
    table: &mut [u64],
    list: &mut [u64],
    figures: &mut [u64],
) -> ImageCounts
    ensures { leaving result table.new list.new figures.new ≡ of_reading (reading_image image.now table.old list.old figures.old) }
{
    structs::of_image_read(image::read_image(image, table, list, figures))
}

// Closes a number.
#[unsafe(no_mangle)]
pub extern "C" fn ffn_close(table: &mut [u64], figures: &[u64], number: u64) -> Answer
    ensures { returning result table.new [] [] ≡ of_timetable (closing_number (beside table.old figures.now) number) }
{
    structs::of_closed(timetable::close(table, figures, FunctionalNumber(number)))
}

// Removes the closed rows that have run out.
#[unsafe(no_mangle)]
pub extern "C" fn ffn_compact(words: &mut [u64], rows: usize, figures: &[u64]) -> Answer
    ensures { returning result words.new [] [] ≡ of_timetable (compacting words.old rows figures.now) }
{
    structs::of_compacted(timetable::compact(words, rows, figures))
}

// Adds a number.
#[unsafe(no_mangle)]
pub extern "C" fn ffn_add(words: &mut [u64], rows: usize, figures: &[u64], number: u64) -> Answer
    ensures { returning result words.new [] [] ≡ of_timetable (adding words.old rows figures.now number) }
{
    structs::of_added(timetable::add(words, rows, figures, FunctionalNumber(number)))
}
