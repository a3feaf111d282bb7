// The fields of a line: a name, words in decimal, and perhaps a tail of characters or octets.
ghost use Rattle.std.specs.Prelude.{◌<◌, ◌≤◌, length, IfSome};
ghost use Rattle.texts.specs.Tails.{AsItStands};

use crate::words::Words;

// A line has less than so many words.
pub const MOST_WORDS: usize = 25;

// What ends a line behind its words: 'CHARACTERS or xOCTETS in hexadecimal.
#[derive(Clone, Copy, Debug)]
pub enum Tail<'a> {
    Characters(&'a [u8]),
    Octets(&'a [u8]),
}

#[derive(Clone, Copy, Debug)]
pub struct Fields<'a> {
    pub name: &'a [u8],
    pub words: Words<MOST_WORDS>,
    pub tail: Option<Tail<'a>>,
}

fn read_word(digits: &[u8]) -> Option<u64> {
    if digits.is_empty() {
        return None;
    }
    let mut word: u64 = 0;
    for digit in digits {
        if !digit.is_ascii_digit() {
            return None;
        }
        word = word.checked_mul(10)?.checked_add(u64::from(*digit - b'0'))?;
    }
    Some(word)
}

// The fields of a line, one space apart; none where a word is no number, or there are too many.
pub fn read_fields(line: &[u8]) -> Option<Fields<'_>> {
    let (head, tail) = split_tail(line);
    let mut parts = head.split(|octet| *octet == b' ');
    let name = parts.next()?;
    let mut words = Words::new();
    for part in parts {
        words.push(read_word(part)?);
    }
    if words.is_full() {
        return None;
    }
    Some(Fields { name, words, tail })
}

// What stands before the tail and its space, and the tail.
fn split_tail(line: &[u8]) -> (&[u8], Option<Tail<'_>>) {
    let mark = line
        .array_windows::<2>()
        .position(|pair| matches!(pair, [b' ', b'\'' | b'x']));
    let Some(space) = mark else {
        return (line, None);
    };
    let (head, tail) = line.split_at(space);
    match tail {
        [_, b'\'', characters @ ..] => (head, Some(Tail::Characters(characters))),
        [_, _, octets @ ..] => (head, Some(Tail::Octets(octets))),
        _ => (head, None),
    }
}

fn read_digit(character: u8) -> Option<u8>
    ensures { IfSome result (λ digit. digit < 16) }
{
    match character {
        b'0'..=b'9' => Some(character - b'0'),
        b'a'..=b'f' => Some(character - b'a' + 10),
        _ => None,
    }
}

// Octets of two hexadecimal digits each.
fn read_octets<'a>(digits: &[u8], out: &'a mut [u8]) -> Option<&'a [u8]>
    ensures { IfSome result (λ octets. length octets.now ≤ length out.old) }
{
    let (pairs, rest) = digits.as_chunks::<2>();
    if !rest.is_empty() {
        return None;
    }
    let out = out.get_mut(..pairs.len())?;
    for (octet, [high, low]) in out.iter_mut().zip(pairs) {
        *octet = 16 * read_digit(*high)? + read_digit(*low)?;
    }
    Some(out)
}

impl<'a> Tail<'a> {
    // The octets or the characters, which leave room in the memory that is lent.
    pub fn read(self, memory: &'a mut [u8]) -> Option<&'a [u8]>
        ensures fits { IfSome result (λ octets. length octets.now ≤ length memory.old) }
        ensures characters { IfSome result (λ octets. AsItStands self.entry octets.now) }
    {
        match self {
            Tail::Characters(characters) => {
                if memory.len() <= characters.len() {
                    return None;
                }
                Some(characters)
            }
            Tail::Octets(digits) => read_octets(digits, memory),
        }
    }
}
