// Memory of a fixed size, and the place of an octet among others.
#![tactic(auto)]

ghost use Rattle.std.specs.Prelude.{◌≡◌, ◌==◌, ◌+◌, ◌≤◌, length};
ghost use Rattle.std.specs.List.{position_or_len};
ghost use Rattle.octets.specs.Octets.{index_of, slice};

// Memory of a fixed size, each item the same: a caller needs only its length.
pub fn filled<T: Copy, const N: usize>(item: T) -> [T; N]
    ensures { N ≡ length result }
{
    [item; N]
}

// How many octets stand before the first of this value; all of them where it does not stand there.
fn stand_before(text: &[u8], octet: u8) -> usize
    ensures { result ≡ position_or_len (λ x. x == octet) text.now }
{
    text.iter().take_while(|b| **b != octet).count()
}

// Where an octet first stands between two places of a text; the second place where it does not.
// Kept: an `Option` is no plainer, since the part before it ends there in both cases.
pub fn find(text: &[u8], start: usize, end: usize, octet: u8) -> usize
    requires order { start ≤ end }
    requires within { end ≤ length text.now }
    ensures place { result ≡ start + index_of octet (slice start end text.now) }
    ensures bound { result ≤ end }
{
    start + stand_before(&text[start..end], octet)
}
