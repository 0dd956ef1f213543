//! Places: where a letter stands in a history.
ghost use Rattle.std.specs.Prelude.{◌≡◌};
ghost use Rattle.ov_base.specs.Lemmas.{exact_tests};
ghost use Rattle.ov_base.specs.Word.{Reads, Printed};
ghost use Rattle.ov_topology.specs.Place.{IsPlace, place_text, place_at, place_of, letter_of};

use ov_base::{Memory, Plain, parse_number, print_number, split_at_byte};

/// Where a letter stands: the number of its entry in the history, from 1, and its number among the letters
/// of that entry, from 1 to 9 (docs/STORE.md, Letters).
#[derive(Clone, Copy, Debug, PartialEq, Eq)]
pub struct Place {
    pub entry: u64,
    pub letter: u32,
}

impl Place {
    /// The place that the bytes spell: an entry from 1 to `2^64 - 1`, a space, and a digit from 1 to 9. None
    /// exactly where they spell none. Does not allocate.
    pub fn parse(text: &[u8]) -> Option<Place>
        ensures exact { result ≡ place_of text.now }
        ensures reads { Reads place_text IsPlace text.now result }
    {
        place_read(text)
    }

    /// The place that the two words spell: an entry from 1 to `2^64 - 1`, and a digit from 1 to 9. None exactly
    /// where they spell none. Does not allocate.
    pub fn from_words(entry: &[u8], letter: &[u8]) -> Option<Place>
        ensures { result ≡ place_at entry.now letter.now }
    {
        let entry = parse_number(entry)?;
        let letter = letter_read(letter)?;
        if 0 < entry {
            Some(Place { entry, letter })
        } else {
            None
        }
    }

    /// Writes the one spelling at the end. On an error a prefix of it was written.
    pub fn print_to(&self, text: &mut Vec<u8>) -> Result<(), Memory>
        requires { IsPlace self.now }
        ensures { Printed result text.old.items text.new.items (place_text self.now) }
    {
        print_number(self.entry, text)?;
        text.push(b' ')?;
        print_number(u64::from(self.letter), text)
    }
}

#[tactic(auto, unfolding(crate::specs::Place::place_of))]
fn place_read(text: &[u8]) -> Option<Place>
    ensures { result ≡ place_of text.now }
{
    let (entry, letter) = split_at_byte(text, b' ')?;
    Place::from_words(entry, letter)
}

#[tactic(auto, unfolding(crate::specs::Place::letter_of))]
fn letter_read(text: &[u8]) -> Option<u32>
    ensures { result ≡ letter_of text.now }
{
    match text {
        [digit] if b'1' <= *digit && *digit <= b'9' => Some(u32::from(*digit - b'0')),
        _ => None,
    }
}

impl Plain for Place {
    ghost exact = { λ x y h. Prim.grind (exact_tests) };

    fn copy(&self) -> Result<Place, Memory> {
        Ok(*self)
    }
}
