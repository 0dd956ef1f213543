//! The two ways in which a settler gathers answers.
ghost use Rattle.std.specs.Prelude.{◌≡◌};
ghost use Rattle.ov_base.specs.Lemmas.{exact_tests};
ghost use Rattle.ov_base.specs.Word.{Reads, Printed};
ghost use Rattle.ov_topology.specs.Mode.{IsMode, mode_text, mode_of};

use ov_base::{Memory, Plain};

/// Whom a settler asks for a window (docs/STORE.md, Rounds).
#[derive(Clone, Copy, Debug, PartialEq, Eq)]
pub enum Mode {
    /// All nodes; a read quorum of answers for each partition settles the window.
    Quorum,
    /// The nodes of the settler's own centre.
    One,
}

impl Mode {
    /// The mode that the bytes spell: `quorum` or `one`. None exactly where they spell none. Does not allocate.
    pub fn parse(text: &[u8]) -> Option<Mode>
        ensures exact { result ≡ mode_of text.now }
        ensures reads { Reads mode_text IsMode text.now result }
    {
        mode_read(text)
    }

    /// Writes the one spelling at the end. On an error a prefix of it was written.
    pub fn print_to(self, text: &mut Vec<u8>) -> Result<(), Memory>
        ensures { Printed result text.old.items text.new.items (mode_text self) }
    {
        text.extend_from_slice(mode_word(self))?;
        Ok(())
    }
}

fn mode_read(word: &[u8]) -> Option<Mode>
    ensures { result ≡ mode_of word.now }
{
    if word == b"quorum".as_slice() {
        Some(Mode::Quorum)
    } else if word == b"one".as_slice() {
        Some(Mode::One)
    } else {
        None
    }
}

fn mode_word(mode: Mode) -> &'static [u8]
    ensures { result.now ≡ mode_text mode }
{
    match mode {
        Mode::Quorum => b"quorum",
        Mode::One => b"one",
    }
}

impl Plain for Mode {
    ghost exact = { λ x y h. Prim.grind (exact_tests) };

    fn copy(&self) -> Result<Mode, Memory> {
        Ok(*self)
    }
}
