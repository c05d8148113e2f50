//! A search by halving among ascending beginnings, which counts its probes; and the distance to the
//! next beginning.

ghost use Rattle.std.specs.Prelude.{◌≡◌, ℕ, ◌+◌, ◌^◌, ◌<◌, ◌≤◌, map, length};
ghost use Rattle.pdb_addresses.specs.SectionRun.{nearer as nearer_of, up_to_next};
ghost use Rattle.pdb_pieces.specs.Halving.{Ascend, IsSplit};

use crate::span::Span;

/// A value that begins at a place or an offset, as a number.
pub trait Begins {
    ghost beginning: { Self → ℕ };

    /// The number at which it begins.
    fn begins_at(&self) -> u64
        ensures { result ≡ beginning self.now };
}

/// A number begins at itself.
impl Begins for u64 {
    ghost beginning = { λ n. n };

    fn begins_at(&self) -> u64 {
        *self
    }
}

/// A number of 32 bits begins at itself.
impl Begins for u32 {
    ghost beginning = { λ n. n };

    fn begins_at(&self) -> u64 {
        u64::from(*self)
    }
}

/// A span begins at its first place.
impl Begins for Span {
    ghost beginning = { λ s. s.start };

    fn begins_at(&self) -> u64 {
        self.start
    }
}

/// The number of ascending items that begin at a place or before it, and the number of probes. Each
/// probe halves the rest: of n items as many are looked at as n has binary digits, or one fewer.
pub fn count_begun<T: Begins>(items: &[T], place: u64) -> (usize, u32)
    requires { Ascend 0 (map T.beginning items.now) }
    ensures begun { IsSplit (map T.beginning items.now) place result.0 }
    ensures probes { (digits : ℕ) → length items.now < 2 ^ digits → result.1 ≤ digits }
    ensures fewest { length items.now + 1 < 2 ^ (result.1 + 1) }
{
    let mut low = 0;
    let mut high = items.len();
    let mut probes = 0;
    while low < high {
        let middle = low + (high - low) / 2;
        probes += 1;
        if place < items[middle].begins_at() {
            high = middle;
        } else {
            low = middle + 1;
        }
    }
    (low, probes)
}

/// Returns the lesser of `far` and the distance from a place to the next beginning past it, of
/// ascending items. It halves, as `count_begun` does.
pub fn to_next<T: Begins>(items: &[T], place: u64, far: u32) -> u32
    requires { Ascend 0 (map T.beginning items.now) }
    ensures { result ≡ up_to_next (map T.beginning items.now) place far }
{
    let passed = count_begun(items, place).0;
    if passed < items.len() {
        nearer(place, items[passed].begins_at(), far)
    } else {
        far
    }
}

/// Returns the lesser of `far` and the distance from a place to a bound, if that lies past it.
fn nearer(place: u64, bound: u64, far: u32) -> u32
    ensures { result ≡ nearer_of place bound far }
{
    let distance = bound.saturating_sub(place);
    if 0 < distance && distance < u64::from(far) {
        distance as u32
    } else {
        far
    }
}
