//! The names of sessions.
ghost use Rattle.std.specs.Prelude.{◌≡◌};
ghost use Rattle.std.specs.Cmp.{partial_equiv_from_equiv};
ghost use Rattle.std.specs.Hash as fed;
ghost use Rattle.std.proofs.Common.{ap};
ghost use Rattle.ov_base.specs.Word.{Reads, itself};
ghost use Rattle.ov_base.specs.Key.{key_eq};
ghost use Rattle.ov_base.specs.Lemmas.{key_eq-equiv, key_eq-exact};
ghost use Rattle.ov_session.specs.Name.{IsName, name_of, is_name, all_name_bytes, is_name_byte, is_letter};

use ov_base::{Key, Memory, Plain};
use std::hash::{Hash, Hasher};
use std::marker::Model;

/// The most bytes of a session's name.
const NAME_ROOM: usize = 16;

/// The name of a session: 1 to 16 lower-case ASCII letters and digits, the first a letter, and not the word
/// `session` (docs/FORMATS.md, Words). Contracts see its bytes.
#[derive(Clone, Copy, Debug)]
pub struct SessionName {
    word: Key,
}

impl Model for SessionName {
    ghost use Rattle.std.specs.Prelude.{ℕ, List};
    ghost use Rattle.ov_session.specs.Name.{IsName};

    ghost Value = { List ℕ };

    ghost view = { λ n. n.word };

    ghost invariant = { λ n. IsName n.word };

    ghost inverse = { λ bytes. record { word = bytes } };
}

impl SessionName {
    /// The name of these bytes. None exactly where they are no name. Does not allocate.
    pub fn from_bytes(bytes: &[u8]) -> Option<SessionName>
        ensures exact { result ≡ name_of bytes.now }
        ensures reads { Reads itself IsName bytes.now result }
    {
        name_read(bytes)
    }

    /// Its bytes.
    pub fn bytes(&self) -> &[u8]
        ensures bytes { result.now ≡ self.now }
        ensures form { IsName self.now }
    {
        self.word.bytes()
    }
}

#[tactic(auto, unfolding(crate::specs::Name::name_of))]
fn name_read(bytes: &[u8]) -> Option<SessionName>
    ensures { result ≡ name_of bytes.now }
{
    if spells_name(bytes) {
        Some(SessionName {
            word: Key::from_bytes(bytes)?,
        })
    } else {
        None
    }
}

fn spells_name(bytes: &[u8]) -> bool
    ensures { result ≡ is_name bytes.now }
{
    !bytes.is_empty()
        && bytes.len() <= NAME_ROOM
        && has_name_bytes(bytes)
        && is_letter(bytes[0])
        && bytes != b"session".as_slice()
}

fn has_name_bytes(bytes: &[u8]) -> bool
    ensures { result ≡ all_name_bytes bytes.now }
{
    bytes.iter().all(|byte| stands_in_names(*byte))
}

fn stands_in_names(byte: u8) -> bool
    ensures { result ≡ is_name_byte byte }
{
    (48 <= byte && byte <= 57) || is_letter(byte)
}

fn is_letter(byte: u8) -> bool
    ensures { result ≡ is_letter byte }
{
    97 <= byte && byte <= 122
}

impl PartialEq for SessionName {
    ghost eq = { key_eq };

    ghost laws = { partial_equiv_from_equiv key_eq-equiv };

    fn eq(&self, other: &Self) -> bool {
        self.word == other.word
    }
}

impl Eq for SessionName {
    ghost laws = { key_eq-equiv };
}

impl Hash for SessionName {
    ghost hash_input = { fed.slice fed.u8 };

    ghost respects_eq = { λ x y h. ap (fed.slice fed.u8) (key_eq-exact x y h) };

    fn hash<H: Hasher>(&self, state: &mut H) {
        self.bytes().hash(state);
    }
}

impl Plain for SessionName {
    ghost exact = { key_eq-exact };

    fn copy(&self) -> Result<SessionName, Memory> {
        Ok(*self)
    }
}
