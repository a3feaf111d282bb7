// Numbers and their digits: octets read as one number, and a number's digits stored.
#![tactic(auto)]

ghost use Rattle.std.specs.Prelude.{◌≡◌, [], ◌∷◌, ◌++◌, ◌*◌, ◌^◌, ◌≤◌, ◌<◌, length, take, drop};
ghost use Rattle.bases.specs.Bases.{value_of, digits};

// The number of the first N octets, eight at most, to the base 256.
pub fn load<const N: usize>(octets: &[u8]) -> u64
    requires { (N ≤ 8) × (N ≤ length octets.now) }
    ensures { (result ≡ value_of 256 (take N octets.now)) × (result < 2 ^ (8 * N)) }
{
    let mut word = [0; 8];
    word[..N].copy_from_slice(&octets[..N]);
    u64::from_le_bytes(word)
}

// Stores the N lowest octets of a number.
pub fn store<const N: usize>(out: &mut [u8], held: u64)
    requires { (N ≤ 8) × (N ≤ length out.old) }
    ensures { out.new ≡ digits 256 N held ++ drop N out.old }
{
    out[..N].copy_from_slice(&held.to_le_bytes()[..N]);
}

// ---- digits to any base, fewer than a group

// The number of a few octets to a base, and what stands above them.
pub fn few(octets: &[u8], base: u64, above: u64) -> u64
    requires { (length octets.now < 8) × (base ≤ 256) × (above < 256) }
    ensures { result ≡ value_of base (octets.now ++ (above ∷ [])) }
{
    let mut held = above;
    for octet in octets.iter().rev() {
        held = u64::from(*octet) + base * held;
    }
    held
}

// Stores the count lowest digits of a number to a base.
// Kept: a count beside the octets, since the rest behind them stays (`pack`, `unpack`).
pub fn store_few(out: &mut [u8], count: usize, whole: u64, base: u64)
    requires { (count ≤ length out.old) × (0 < base) × (base ≤ 256) }
    ensures { out.new ≡ digits base count whole ++ drop count out.old }
{
    let mut held = whole;
    for digit in &mut out[..count] {
        *digit = (held % base) as u8;
        held /= base;
    }
}
