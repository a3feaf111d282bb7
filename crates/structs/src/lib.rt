// The structs that the C functions return, and the numbers that stand in them for the answers: of writers, images, recounts and changes of a table.
#![tactic(auto)]

ghost use Rattle.std.specs.Prelude.{◌≡◌};
ghost use Rattle.answers.specs.Numbers.{refusal_number};
ghost use Rattle.answers.specs.Writing.{said};
ghost use Rattle.rules.specs.Answers.{refusal_class};
ghost use Rattle.tables.specs.Figures.{said_recount};
ghost use Rattle.image.specs.Images.{said_read};
ghost use Rattle.timetable.specs.Timetable.{said_close, said_compact, said_add};
ghost use Rattle.structs.specs.Numbers.{of_said, struct_of};
ghost use Rattle.structs.specs.Figures.{of_figures};
ghost use Rattle.structs.specs.Images.{of_image};
ghost use Rattle.structs.specs.Changes.{of_change};

use answers::Refusal;
use image::ImageRows;
use tables::Figures;
use timetable::Compacted;

// The classes of an answer.
const WRITTEN: u32 = 0;

pub const REFUSAL: u32 = 1;

pub const ERROR: u32 = 2;

pub const READ: u32 = 8;

pub const RETURN_ERROR: u32 = 9;

pub const REJECT: u32 = 10;

const COUNTED: u32 = 11;

const CLOSED: u32 = 12;

const ROWS: u32 = 13;

// What a function answers: the class; the number of a refusal, an error, an outcome or a result; the count of octets or characters;
// the holder's MSISDN, the notice's addressee or the number found.
// Kept: C gets this struct (include/ffn.h), so its class is a number and what an answer lacks is 0.
#[repr(C)]
#[derive(Clone, Copy, Debug, PartialEq, Eq)]
pub struct Answer {
    pub class: u32,
    pub number: u32,
    pub count: usize,
    pub value: u64,
}

// What a recount answers: the class; the number of a refusal; the numbers held, the notices waiting and the notices in flight.
// Kept: C gets this struct (include/ffn.h), so its class is a number and what an answer lacks is 0.
#[repr(C)]
#[derive(Clone, Copy, Debug, PartialEq, Eq)]
pub struct FiguresRead {
    pub class: u32,
    pub number: u32,
    pub held: u64,
    pub waiting: u64,
    pub in_flight: u64,
}

// What an image's reader answers: the class; the number of a refusal; how many rows of the table and of the list it has.
// Kept: C gets this struct (include/ffn.h), so its class is a number and what an answer lacks is 0.
#[repr(C)]
#[derive(Clone, Copy, Debug, PartialEq, Eq)]
pub struct ImageCounts {
    pub class: u32,
    pub number: u32,
    pub numbers: usize,
    pub subscribers: usize,
}

// An answer that is only a number of its class.
pub fn numbered(class: u32, number: u32) -> Answer
    ensures { result ≡ struct_of class number 0 0 }
{
    Answer {
        class,
        number,
        count: 0,
        value: 0,
    }
}

// The paper's number of a refusal.
fn number_of(refusal: Refusal) -> u32
    ensures { result ≡ refusal_number refusal }
{
    u32::from(u8::from(refusal))
}

// A refusal.
pub fn refused(refusal: Refusal) -> Answer
    ensures { result ≡ struct_of refusal_class (refusal_number refusal) 0 0 }
{
    numbered(REFUSAL, number_of(refusal))
}

// A writer's answer: how many octets or characters, also of an image, or a refusal.
pub fn of_written(written: Result<usize, Refusal>) -> Answer
    ensures { result ≡ of_said (said written) }
{
    match written {
        Ok(count) => Answer {
            count,
            ..numbered(WRITTEN, 0)
        },
        Err(refusal) => refused(refusal),
    }
}

// A recount's answer.
pub fn of_recount(recounted: Result<Figures, Refusal>) -> FiguresRead
    ensures { result ≡ of_figures (said_recount recounted) }
{
    match recounted {
        Ok(figures) => FiguresRead {
            class: COUNTED,
            number: 0,
            held: figures.held,
            waiting: figures.waiting,
            in_flight: figures.flying,
        },
        // Kept: the number of the refusal at hand does not prove, since `of_figures` says 2 of every recount that did not count.
        Err(_) => FiguresRead {
            class: REFUSAL,
            number: number_of(Refusal::UnsoundTable),
            held: 0,
            waiting: 0,
            in_flight: 0,
        },
    }
}

// The rows that an image had, or a refusal.
pub fn of_image_read(read: Result<ImageRows, Refusal>) -> ImageCounts
    ensures { result ≡ of_image (said_read read) }
{
    match read {
        Ok(rows) => ImageCounts {
            class: READ,
            number: 0,
            numbers: rows.numbers,
            subscribers: rows.subscribers,
        },
        Err(refusal) => ImageCounts {
            class: REFUSAL,
            number: number_of(refusal),
            numbers: 0,
            subscribers: 0,
        },
    }
}

// A number closed, or a refusal.
pub fn of_closed(closed: Result<(), Refusal>) -> Answer
    ensures { result ≡ of_change (said_close closed) }
{
    match closed {
        Ok(()) => numbered(CLOSED, 0),
        Err(refusal) => refused(refusal),
    }
}

// The rows now in use and how many went, or a refusal.
pub fn of_compacted(compacted: Result<Compacted, Refusal>) -> Answer
    ensures { result ≡ of_change (said_compact compacted) }
{
    match compacted {
        Ok(rows) => Answer {
            count: rows.used,
            value: rows.gone as u64,
            ..numbered(ROWS, 0)
        },
        Err(refusal) => refused(refusal),
    }
}

// The rows now in use, or a refusal.
pub fn of_added(added: Result<usize, Refusal>) -> Answer
    ensures { result ≡ of_change (said_add added) }
{
    match added {
        Ok(used) => Answer {
            count: used,
            ..numbered(ROWS, 0)
        },
        Err(refusal) => refused(refusal),
    }
}
