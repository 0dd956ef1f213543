//! What an actor tells others.
ghost use Rattle.std.specs.Prelude.{◌≡◌, true, IfOk};
ghost use Rattle.ov_base.specs.Lemmas.{exact_tests};
ghost use Rattle.ov_functor.specs.Lemmas.Functors.{transaction-cases};
ghost use Rattle.ov_functor.specs.Lemmas.Items.{items-cases, showns-cases};
ghost use Rattle.ov_functor.specs.Lemmas.Parts.{parts-cases};
ghost use Rattle.ov_event.specs.Makers.{from_node, from_settler};
ghost use Rattle.ov_gossip.specs.Lemmas.{vector_eq-cases};

use crate::start::Start;
use ov_base::{Memory, Plain, Shared, Version};
use ov_functor::{Item, Reply};
use ov_gossip::Vector;
use ov_topology::Mode;

/// A letter (docs/STORE.md, Letters). It may be lost, taken late, or taken more than once.
#[derive(Debug, PartialEq, Eq, Drop)]
pub enum Letter {
    /// The items of a transaction in one partition, by key.
    Write {
        version: Version,
        part: u32,
        items: Shared<Item>,
    },
    /// A command wants its reply.
    Want {
        session: u32,
        seq: u32,
        gate: u32,
        start: Start,
    },
    /// A node has stored the items of a version.
    Ack {
        version: Version,
        centre: u32,
        part: u32,
    },
    /// A gateway's marks, and what it knows of the others'.
    Gossip {
        gate: u32,
        vector: Vector,
    },
    /// A settler asks for the items of a window.
    Ask {
        settler: u32,
        round: u64,
        mode: Mode,
        from: u64,
        below: u64,
    },
    /// A node's items of the window that was asked for.
    Answer {
        settler: u32,
        round: u64,
        centre: u32,
        part: u32,
        items: Shared<Item>,
    },
    /// The reply to a command.
    Result {
        session: u32,
        seq: u32,
        gate: u32,
        reply: Reply,
    },
    /// A command is replied; the gateway is the sender.
    Told {
        session: u32,
        seq: u32,
        gate: u32,
    },
}

impl Plain for Letter {
    ghost exact = { λ x y h. Prim.grind (exact_tests, parts-cases, transaction-cases, items-cases, showns-cases, vector_eq-cases) };

    fn copy(&self) -> Result<Letter, Memory> {
        match self {
            Letter::Write {
                version,
                part,
                items,
            } => Ok(Letter::Write {
                version: *version,
                part: *part,
                items: items.copy()?,
            }),
            Letter::Want {
                session,
                seq,
                gate,
                start,
            } => Ok(Letter::Want {
                session: *session,
                seq: *seq,
                gate: *gate,
                start: start.copy()?,
            }),
            Letter::Gossip { gate, vector } => Ok(Letter::Gossip {
                gate: *gate,
                vector: *vector,
            }),
            Letter::Told { session, seq, gate } => Ok(Letter::Told {
                session: *session,
                seq: *seq,
                gate: *gate,
            }),
            Letter::Ack { .. } | Letter::Answer { .. } => copy_of_node(self),
            Letter::Ask { .. } | Letter::Result { .. } => copy_of_settler(self),
        }
    }
}

/// The copy of a letter that only nodes write.
fn copy_of_node(letter: &Letter) -> Result<Letter, Memory>
    requires { from_node letter.now ≡ true }
    ensures { IfOk result (λ copied. copied ≡ letter.now) }
{
    match letter {
        Letter::Ack {
            version,
            centre,
            part,
        } => Ok(Letter::Ack {
            version: *version,
            centre: *centre,
            part: *part,
        }),
        Letter::Answer {
            settler,
            round,
            centre,
            part,
            items,
        } => Ok(Letter::Answer {
            settler: *settler,
            round: *round,
            centre: *centre,
            part: *part,
            items: items.copy()?,
        }),
        _ => unreachable!(),
    }
}

/// The copy of a letter that only settlers write.
fn copy_of_settler(letter: &Letter) -> Result<Letter, Memory>
    requires { from_settler letter.now ≡ true }
    ensures { IfOk result (λ copied. copied ≡ letter.now) }
{
    match letter {
        Letter::Ask {
            settler,
            round,
            mode,
            from,
            below,
        } => Ok(Letter::Ask {
            settler: *settler,
            round: *round,
            mode: *mode,
            from: *from,
            below: *below,
        }),
        Letter::Result {
            session,
            seq,
            gate,
            reply,
        } => Ok(Letter::Result {
            session: *session,
            seq: *seq,
            gate: *gate,
            reply: reply.copy()?,
        }),
        _ => unreachable!(),
    }
}
