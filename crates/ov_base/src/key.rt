//! Keys: the names of values.
ghost use Rattle.std.specs.Prelude.{◌≡◌, ◌<◌, ◌≤◌, ◌+◌, ◌++◌, length, take, drop, nat_eq, IsTrue, ◌↔◌, refl, Some};
ghost use Rattle.std.specs.List.{list_any};
ghost use Rattle.std.specs.Ordering.{nat_cmp};
ghost use Rattle.std.specs.Cmp.{partial_equiv_from_equiv};
ghost use Rattle.std.specs.Cmp.Lexicographic.{pointwise, slice_cmp, nat_list_cmp_total};
ghost use Rattle.std.specs.Int.{w64, from_be_bytes};
ghost use Rattle.ov_base.specs.Word.{Reads, itself};
ghost use Rattle.ov_base.specs.Key as spec;
ghost use Rattle.ov_base.specs.Key.{IsKey, all_key_bytes, is_key_byte, key_of, key_eq};
ghost use Rattle.ov_base.specs.Lemmas.{key_eq-equiv, key_eq-order, key_eq-ties, key_eq-exact};

use crate::memory::Memory;
use crate::plain::Plain;
use std::cmp::Ordering;
use std::marker::Model;

/// The most bytes of a key.
const KEY_ROOM: usize = 32;

/// The name of a value: 1 to 32 bytes of ASCII letters, digits and `_`, held in place. Contracts see its
/// bytes. Keys are ordered by their bytes, a prefix first (docs/STORE.md, Keys).
#[derive(Clone, Copy, Debug)]
pub struct Key {
    cells: [u8; 32],
    len: u8,
}

impl Model for Key {
    ghost use Rattle.std.specs.Prelude.{ℕ, List, take, length, ◌-◌, ◌++◌, replicate};
    ghost use Rattle.ov_base.specs.Key.{key_room, IsPadded};
    ghost use Rattle.ov_base.specs.Lemmas.{padded_cells, padded_len};

    ghost Value = { List ℕ };

    ghost view = { λ k. take k.len k.cells };

    ghost invariant = { λ k. IsPadded k.cells k.len };

    ghost inverse = { λ bytes. record { cells = bytes ++ replicate (key_room - length bytes) 0; len = length bytes } };

    ghost inverse_ok = { λ k h i. record {
      cells = padded_cells k.cells k.len h i;
      len = padded_len k.cells k.len h i;
    } };
}

impl Key {
    /// The key of these bytes. None exactly where they are no key: none or more than 32, or one that is no
    /// letter, digit or `_`. Does not allocate.
    pub fn from_bytes(bytes: &[u8]) -> Option<Key>
        ensures reads { Reads itself IsKey bytes.now result }
        ensures exact { result ≡ key_of bytes.now }
    {
        if bytes.is_empty() || bytes.len() > KEY_ROOM || !has_key_bytes(bytes) {
            return None;
        }
        let mut cells = [0u8; 32];
        cells[..bytes.len()].copy_from_slice(bytes);
        Some(Key {
            cells,
            len: bytes.len() as u8,
        })
    }

    /// Its bytes.
    pub fn bytes(&self) -> &[u8]
        ensures bytes { result.now ≡ self.now }
        ensures form { IsKey self.now }
    {
        &self.cells[..self.len as usize]
    }
}

/// Whether a key stands twice. Does not allocate.
pub fn repeats(keys: &[Key]) -> bool
    ensures { result ≡ spec.repeats keys.now }
{
    let mut rest = keys;
    while let [first, others @ ..] = rest {
        if contains(others, first) {
            return true;
        }
        rest = others;
    }
    false
}

fn contains(keys: &[Key], key: &Key) -> bool
    ensures { result ≡ list_any (key_eq key.now) keys.now }
{
    keys.iter().any(|other| key == other)
}

fn has_key_bytes(bytes: &[u8]) -> bool
    ensures { result ≡ all_key_bytes bytes.now }
{
    bytes.iter().all(|b| stands_in_keys(*b))
}

fn stands_in_keys(byte: u8) -> bool
    ensures { result ≡ is_key_byte byte }
{
    (48 <= byte && byte <= 57)
        || (65 <= byte && byte <= 90)
        || byte == 95
        || (97 <= byte && byte <= 122)
}

/// Whether all cells are the same: four words of eight cells, each read at once.
fn same_cells(cells: &[u8; 32], others: &[u8; 32]) -> bool
    ensures { result ≡ pointwise nat_eq cells.now others.now }
{
    (word_at(cells, 0) == word_at(others, 0))
        & (word_at(cells, 8) == word_at(others, 8))
        & (word_at(cells, 16) == word_at(others, 16))
        & (word_at(cells, 24) == word_at(others, 24))
}

/// How the cells are ordered: the first of four words that differs decides.
fn cells_order(cells: &[u8; 32], others: &[u8; 32]) -> Ordering
    ensures { result ≡ slice_cmp nat_cmp cells.now others.now }
{
    let (first, other) = (word_at(cells, 0), word_at(others, 0));
    if first != other {
        return first.cmp(&other);
    }
    let (second, other) = (word_at(cells, 8), word_at(others, 8));
    if second != other {
        return second.cmp(&other);
    }
    let (third, other) = (word_at(cells, 16), word_at(others, 16));
    if third != other {
        return third.cmp(&other);
    }
    word_at(cells, 24).cmp(&word_at(others, 24))
}

/// The number that eight cells spell from a place on, the first cell the most significant.
fn word_at(cells: &[u8; 32], at: usize) -> u64
    requires { at + 8 ≤ 32 }
    ensures { result ≡ from_be_bytes w64 (take 8 (drop at cells.now)) }
{
    u64::from_be_bytes([
        cells[at],
        cells[at + 1],
        cells[at + 2],
        cells[at + 3],
        cells[at + 4],
        cells[at + 5],
        cells[at + 6],
        cells[at + 7],
    ])
}

impl PartialEq for Key {
    ghost eq = { key_eq };

    ghost laws = { partial_equiv_from_equiv key_eq-equiv };

    fn eq(&self, other: &Self) -> bool {
        same_cells(&self.cells, &other.cells)
    }
}

impl Eq for Key {
    ghost laws = { key_eq-equiv };
}

impl PartialOrd for Key {
    ghost partial_cmp = { λ s t. Some (slice_cmp nat_cmp s t) };

    ghost laws = { key_eq-order };

    fn partial_cmp(&self, other: &Self) -> Option<Ordering> {
        Some(self.cmp(other))
    }
}

impl Ord for Key {
    ghost cmp = { λ s t. slice_cmp nat_cmp s t };

    ghost total = { nat_list_cmp_total };

    ghost matches_partial_cmp = { λ s t. refl };

    ghost matches_eq = { key_eq-ties };

    fn cmp(&self, other: &Self) -> Ordering {
        cells_order(&self.cells, &other.cells)
    }
}

impl Plain for Key {
    ghost exact = { key_eq-exact };

    fn copy(&self) -> Result<Key, Memory> {
        Ok(*self)
    }
}
