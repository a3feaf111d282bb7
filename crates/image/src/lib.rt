// M-109: table and list as one image, for moving a node to new hardware, and an image read back. It knows words and rows, not records.
#![tactic(auto)]

ghost use Rattle.std.specs.Prelude.{◌≡◌, ◌+◌, ◌*◌, ◌≤◌, length};
ghost use Rattle.answers.specs.Writing.{Stands, made_write};
ghost use Rattle.tables.specs.Figures.{figure_count};
ghost use Rattle.states.specs.States.{beside};
ghost use Rattle.image.specs.Images.{word_octets, octets_of, image_of, words_from, writing_image, SaidRead, trailer_says, restoring, reading_image, said_read, made_read};

use answers::Refusal;
use bases::{load, store};
use rows::ROW_WORDS;
use states::FIGURES;
use tables::{FULL_LIST_WORDS, FULL_TABLE_WORDS, MOST_NUMBERS, MOST_SUBSCRIBERS, SUBSCRIBER_WORDS};

// How many rows of the table and of the list an image has.
#[derive(Clone, Copy, Debug, PartialEq, Eq)]
pub struct ImageRows {
    pub numbers: usize,
    pub subscribers: usize,
}

// A word has 64 bits.
const WORD_OCTETS: usize = 8;

// "A 24-byte trailer": three words.
const TRAILER_WORDS: usize = 3;

const TRAILER_OCTETS: usize = WORD_OCTETS * TRAILER_WORDS;

// ---- words and their octets

// Stores words at the front of a buffer, "low byte first", one behind the other, and says how many octets they have.
fn store_words(words: &[u64], out: &mut [u8]) -> usize
    requires { word_octets * length words.now ≤ length out.old }
    ensures { Stands (octets_of words.now) out.old result out.new }
{
    for (i, word) in words.iter().enumerate() {
        store::<WORD_OCTETS>(&mut out[WORD_OCTETS * i..], *word);
    }
    WORD_OCTETS * words.len()
}

// Loads as many words as there is room for, the first from the octets at `start`.
fn load_words(octets: &[u8], start: usize, words: &mut [u64])
    requires { start + word_octets * length words.old ≤ length octets.now }
    ensures { words.new ≡ words_from octets.now start (length words.old) }
{
    for (i, word) in words.iter_mut().enumerate() {
        *word = load::<WORD_OCTETS>(&octets[start + WORD_OCTETS * i..]);
    }
}

// ---- writing

// Writes the image of table and list, "Rows come first, table then list", and says how many octets it has.
fn put_image(table: &[u64], list: &[u64], out: &mut [u8]) -> usize
    requires { length (image_of table.now list.now) ≤ length out.old }
    ensures { Stands (image_of table.now list.now) out.old result out.new }
{
    let rows = store_words(table, out);
    let both = rows + store_words(list, &mut out[rows..]);
    let trailer = [
        (table.len() / ROW_WORDS) as u64,
        (list.len() / SUBSCRIBER_WORDS) as u64,
        both as u64,
    ];
    both + store_words(&trailer, &mut out[both..])
}

// Writes table and list as one image; all is tested first, since a refusal writes nothing.
pub fn write_image(
    table: &[u64],
    figures: &[u64],
    list: &[u64],
    out: &mut [u8],
) -> Result<usize, Refusal>
    ensures { made_write result out.new ≡ writing_image (beside table.now figures.now) list.now out.old }
{
    if !tables::list_sound(list) {
        return Err(Refusal::UnsoundList);
    }
    states::check(table, figures)?;
    let size = WORD_OCTETS * (table.len() + list.len()) + TRAILER_OCTETS;
    if out.len() < size {
        return Err(Refusal::NoRoomForImage);
    }
    Ok(put_image(table, list, out))
}

// ---- reading

// What the trailer says: the counts of rows, or a refusal. The counts are compared with their limits before any product.
fn read_trailer(image: &[u8]) -> Result<ImageRows, Refusal>
    ensures { said_read result ≡ trailer_says image.now }
{
    if image.len() < TRAILER_OCTETS {
        return Err(Refusal::ImageTooShort);
    }
    let start = image.len() - TRAILER_OCTETS;
    let mut trailer = [0u64; TRAILER_WORDS];
    load_words(image, start, &mut trailer);
    let numbers = trailer[0];
    let subscribers = trailer[1];
    let distance = trailer[2];
    if distance != (start as u64) {
        return Err(Refusal::WrongDistance);
    }
    if ((MOST_NUMBERS as u64) < numbers) | ((MOST_SUBSCRIBERS as u64) < subscribers) {
        return Err(Refusal::TooManyRows);
    }
    let words = (ROW_WORDS as u64) * numbers + (SUBSCRIBER_WORDS as u64) * subscribers;
    if (WORD_OCTETS as u64) * words != distance {
        return Err(Refusal::WrongLength);
    }
    Ok(ImageRows {
        numbers: numbers as usize,
        subscribers: subscribers as usize,
    })
}

// Copies sound contents, and the figures that a recount gives; unsound ones change nothing.
fn put_contents(
    rows: &[u64],
    subscribers: &[u64],
    table: &mut [u64],
    list: &mut [u64],
    figures: &mut [u64],
) -> Result<ImageRows, Refusal>
    requires { (length rows.now ≤ length table.old) × (length subscribers.now ≤ length list.old) × (figure_count ≤ length figures.old) }
    ensures { made_read result table.new list.new figures.new ≡ restoring rows.now subscribers.now table.old list.old figures.old }
{
    let counted = tables::recount(rows)?;
    if !tables::list_sound(subscribers) {
        return Err(Refusal::UnsoundList);
    }
    table[..rows.len()].copy_from_slice(rows);
    list[..subscribers.len()].copy_from_slice(subscribers);
    let words = <[u64; 3]>::from(counted);
    figures[..FIGURES].copy_from_slice(&words);
    Ok(ImageRows {
        numbers: rows.len() / ROW_WORDS,
        subscribers: subscribers.len() / SUBSCRIBER_WORDS,
    })
}

// Reads the rows of an image whose trailer is right. They are tested where they were read to, before any lent word is changed.
fn restore(
    image: &[u8],
    counted: ImageRows,
    table: &mut [u64],
    list: &mut [u64],
    figures: &mut [u64],
) -> Result<ImageRows, Refusal>
    requires { SaidRead.counts counted.numbers counted.subscribers ≡ trailer_says image.now }
    ensures { made_read result table.new list.new figures.new ≡ reading_image image.now table.old list.old figures.old }
{
    let words = ROW_WORDS * counted.numbers;
    let entries = SUBSCRIBER_WORDS * counted.subscribers;
    if (table.len() < words) | (list.len() < entries) | (figures.len() < FIGURES) {
        return Err(Refusal::NoRoomForImage);
    }
    let mut rows = octets::filled::<u64, FULL_TABLE_WORDS>(0);
    let mut others = octets::filled::<u64, FULL_LIST_WORDS>(0);
    load_words(image, 0, &mut rows[..words]);
    load_words(image, WORD_OCTETS * words, &mut others[..entries]);
    put_contents(&rows[..words], &others[..entries], table, list, figures)
}

// Reads an image back into lent words: "The reader starts at the end".
pub fn read_image(
    image: &[u8],
    table: &mut [u64],
    list: &mut [u64],
    figures: &mut [u64],
) -> Result<ImageRows, Refusal>
    ensures { made_read result table.new list.new figures.new ≡ reading_image image.now table.old list.old figures.old }
{
    let counted = read_trailer(image)?;
    restore(image, counted, table, list, figures)
}
