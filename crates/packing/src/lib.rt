// TS 23.038's packed characters, as USSD has them: characters to octets and back.
// Eight characters and their seven octets are one number: both writers go by such groups, and fewer are left over at the end.
#![tactic(auto)]

ghost use Rattle.std.specs.Prelude.{◌≡◌, true, ◌++◌, ◌-◌, ◌^◌, ◌≤◌, ◌<◌, length, get_or, drop, eqb};
ghost use Rattle.answers.specs.Writing.{made_write};
ghost use Rattle.packing.specs.Packing.{value_of, digits, octets_for, takes, return_if, packed, readable, kept, unpacked};
ghost use Rattle.packing.specs.Outcomes.{packing, unpacking};

use answers::Refusal;
use bases::{few, load, store, store_few};

const CARRIAGE_RETURN: u8 = 13;

// Whether the packer takes every character.
// Kept: `all` stops at the first character that is refused, and a compiler runs that slower than a look at all of them (the packer's bar of speed).
fn takes_all(chars: &[u8]) -> bool
    ensures { result ≡ takes chars.now }
{
    let mut ok = true;
    for &c in chars {
        ok = ok & (c < 128) & (c != CARRIAGE_RETURN);
    }
    ok
}

// ---- groups: eight characters are seven octets

// From eight bits a character to seven: of each two neighbours the higher moves down, first characters, then pairs, then fours. It moves from 2^8 to 2^7 times its own, then from 2^16 to 2^14, then from 2^32 to 2^28; of the taken characters only their 7 bits count.
fn squeezed(wide: u64) -> u64
    requires { takes (digits 256 8 wide) ≡ true }
    ensures { result ≡ value_of 128 (digits 256 8 wide) }
{
    let twos = wide - ((wide / 0x100) & 0x00ff_00ff_00ff_00ff) * 0x80;
    let fours = twos - ((twos / 0x1_0000) & 0x0000_ffff_0000_ffff) * 0xc000;
    fours - ((fours / 0x1_0000_0000) & 0xffff_ffff) * 0xf000_0000
}

// From seven bits a character to eight: the same steps backwards.
fn spread(held: u64) -> u64
    requires { held < 2 ^ 56 }
    ensures { result ≡ value_of 256 (digits 128 8 held) }
{
    let fours = held + ((held / 0x1000_0000) & 0x0fff_ffff) * 0xf000_0000;
    let twos = fours + ((fours / 0x4000) & 0x0000_3fff_0000_3fff) * 0xc000;
    twos + ((twos / 0x80) & 0x007f_007f_007f_007f) * 0x80
}

// ---- what is left over: fewer than a group

// What stands above the last characters: seven leave seven bits unused, which hold a carriage return.
fn filler(count: usize) -> u64
    ensures { (result ≡ value_of 128 (return_if (eqb count 7))) × (result < 128) }
{
    if count == 7 {
        return u64::from(CARRIAGE_RETURN);
    }
    0
}

// Writes the octets of characters that the packer takes. The characters left over, seven at most, have as many octets.
fn write_octets(chars: &[u8], out: &mut [u8])
    requires chars_value { takes chars.now ≡ true }
    requires chars_in_bounds { octets_for (length chars.now) ≤ length out.old }
    ensures { out.new ≡ packed chars.now ++ drop (octets_for (length chars.now)) out.old }
{
    let groups = chars.len() / 8;
    for k in 0..groups {
        let held = squeezed(load::<8>(&chars[8 * k..]));
        store::<7>(&mut out[7 * k..], held);
    }
    let rest = &chars[8 * groups..];
    let held = few(rest, 128, filler(rest.len()));
    store_few(&mut out[7 * groups..], rest.len(), held, 256);
}

// The last octet, or 0 where there is none.
// Kept: an `Option` is no plainer, since both callers ask for bits of it, and those of none are 0.
fn last_octet(octets: &[u8]) -> u8
    ensures { result ≡ get_or octets.now (length octets.now - 1) 0 }
{
    octets.last().copied().unwrap_or(0)
}

// Whether the unused bits are 0: m octets leave m % 7, at the top of the last.
fn is_readable(octets: &[u8]) -> bool
    ensures { result ≡ readable octets.now }
{
    let unused = octets.len() % 7;
    let last = u32::from(last_octet(octets));
    last >> (8 - unused) == 0
}

// How many characters stay: all, but for a carriage return at the top of the last octet where no bit is unused.
fn kept_count(octets: &[u8]) -> usize
    ensures { result ≡ kept octets.now }
{
    let m = octets.len();
    let count = m + m / 7;
    if (m % 7 == 0) & (last_octet(octets) / 2 == CARRIAGE_RETURN) {
        return count - 1;
    }
    count
}

// Writes the n characters of the octets that stay.
fn write_chars(octets: &[u8], out: &mut [u8], n: usize)
    requires n_value { n ≡ kept octets.now }
    requires n_in_bounds { n ≤ length out.old }
    ensures { out.new ≡ unpacked octets.now ++ drop n out.old }
{
    let groups = n / 8;
    for k in 0..groups {
        let wide = spread(load::<7>(&octets[7 * k..]));
        store::<8>(&mut out[8 * k..], wide);
    }
    let held = few(&octets[7 * groups..], 256, 0);
    store_few(&mut out[8 * groups..], n - 8 * groups, held, 128);
}

// Packs the characters into out. All of them are tested first, since a refusal leaves out as it was.
pub fn pack(chars: &[u8], out: &mut [u8]) -> Result<usize, Refusal>
    ensures { made_write result out.new ≡ packing chars.now out.old }
{
    let n = chars.len();
    let count = n - n / 8;
    if out.len() < count {
        return Err(Refusal::NoRoom); // refusal 1, before 9
    }
    if !takes_all(chars) {
        return Err(Refusal::Unfit); // refusal 9, a character
    }
    write_octets(chars, out);
    Ok(count)
}

// Unpacks the octets into out.
pub fn unpack(octets: &[u8], out: &mut [u8]) -> Result<usize, Refusal>
    ensures { made_write result out.new ≡ unpacking octets.now out.old }
{
    let m = octets.len();
    let room = m + m / 7;
    if out.len() < room {
        return Err(Refusal::NoRoom); // refusal 1, before any drop
    }
    if !is_readable(octets) {
        return Err(Refusal::Unfit); // refusal 9, the unused bits
    }
    let n = kept_count(octets);
    write_chars(octets, out, n);
    Ok(n)
}
