//! Replies: what a command returns.
ghost use Rattle.ov_base.specs.Lemmas.{exact_tests};
ghost use Rattle.ov_base.specs.Word.{Printed};
ghost use Rattle.ov_functor.specs.Lemmas.Items.{showns-cases};
ghost use Rattle.ov_functor.specs.Reply.{reply_text, reply_by, showns_text, shown_text};

use crate::item::Shown;
use ov_base::{Memory, Plain, Sequence, Version, print_mark};

/// What a command returns (docs/STORE.md, Replies).
#[derive(Debug, PartialEq, Eq, Drop)]
pub enum Reply {
    /// The transaction was done at this version; the gets stand in the order of its parts.
    Done {
        version: Version,
        gets: Sequence<Shown>,
    },
    /// The transaction was aborted at this version and changed nothing.
    Aborted {
        version: Version,
        gets: Sequence<Shown>,
    },
    /// The snapshot at this watermark; the keys stand in the order of the command.
    Snap {
        watermark: u64,
        shown: Sequence<Shown>,
    },
}

impl Reply {
    /// Writes the one spelling at the end (docs/FORMATS.md, Replies). On an error a prefix of it was written.
    pub fn print_to(&self, text: &mut Vec<u8>) -> Result<(), Memory>
        ensures { Printed result text.old.items text.new.items (reply_text self.now) }
    {
        match self {
            Reply::Done { version, gets } => {
                print_reply(b"done ", version.number(), gets.as_slice(), text)
            }
            Reply::Aborted { version, gets } => {
                print_reply(b"aborted ", version.number(), gets.as_slice(), text)
            }
            Reply::Snap { watermark, shown } => {
                print_reply(b"snap ", *watermark, shown.as_slice(), text)
            }
        }
    }
}

fn print_reply(word: &[u8], mark: u64, list: &[Shown], text: &mut Vec<u8>) -> Result<(), Memory>
    ensures { Printed result text.old.items text.new.items (reply_by word.now mark list.now) }
{
    text.extend_from_slice(word)?;
    print_mark(mark, text)?;
    print_showns(list, text)
}

fn print_showns(list: &[Shown], text: &mut Vec<u8>) -> Result<(), Memory>
    ensures { Printed result text.old.items text.new.items (showns_text list.now) }
{
    for shown in list {
        print_shown(shown, text)?;
    }
    Ok(())
}

fn print_shown(shown: &Shown, text: &mut Vec<u8>) -> Result<(), Memory>
    ensures { Printed result text.old.items text.new.items (shown_text shown.now) }
{
    text.push(b' ')?;
    text.extend_from_slice(shown.key.bytes())?;
    text.push(b'=')?;
    shown.value.print_to(text)
}

impl Plain for Reply {
    ghost exact = { λ x y h. Prim.grind (exact_tests, showns-cases) };

    fn copy(&self) -> Result<Reply, Memory> {
        match self {
            Reply::Done { version, gets } => Ok(Reply::Done {
                version: *version,
                gets: gets.copy()?,
            }),
            Reply::Aborted { version, gets } => Ok(Reply::Aborted {
                version: *version,
                gets: gets.copy()?,
            }),
            Reply::Snap { watermark, shown } => Ok(Reply::Snap {
                watermark: *watermark,
                shown: shown.copy()?,
            }),
        }
    }
}
