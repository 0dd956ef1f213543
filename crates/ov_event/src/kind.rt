//! What an entry says.
ghost use Rattle.std.specs.Prelude.{◌≡◌, true, IfOk};
ghost use Rattle.ov_base.specs.Lemmas.{exact_tests};
ghost use Rattle.ov_functor.specs.Lemmas.Functors.{transaction-cases};
ghost use Rattle.ov_functor.specs.Lemmas.Items.{items-cases, valueds-cases, showns-cases};
ghost use Rattle.ov_functor.specs.Lemmas.Parts.{parts-cases};
ghost use Rattle.ov_event.specs.Makers.{of_node, of_settler};
ghost use Rattle.ov_gossip.specs.Lemmas.{vector_eq-cases};

use crate::start::Start;
use ov_base::{Memory, Plain, Sequence, Shared, Version};
use ov_functor::{Item, Reply, Valued};
use ov_gossip::Vector;
use ov_topology::{Mode, Place};

/// What one step of an actor was (docs/STORE.md, Entries). A place is that of the letter that was taken.
#[derive(Debug, PartialEq, Eq, Drop)]
pub enum Kind {
    /// A gateway began a command of a session.
    Began {
        session: u32,
        seq: u32,
        start: Start,
    },
    /// A node stored the items of a `Write` letter.
    Stored {
        place: Place,
        version: Version,
        items: Shared<Item>,
    },
    /// A gateway took the acknowledgement of a node.
    Acked {
        place: Place,
        version: Version,
        centre: u32,
        part: u32,
    },
    /// A gateway published its marks and what it knows of the others'.
    Published {
        time: u64,
        vector: Vector,
    },
    /// A gateway or settler took the marks that a gateway published.
    Heard {
        place: Place,
        vector: Vector,
    },
    /// A settler opened a round for the window from one number up to another.
    Asked {
        round: u64,
        mode: Mode,
        from: u64,
        below: u64,
    },
    /// A node answered a settler's round with the items that it holds in its window.
    Answered {
        place: Place,
        settler: u32,
        round: u64,
        items: Shared<Item>,
    },
    /// A settler took the answer of a node.
    Taken {
        place: Place,
        round: u64,
        centre: u32,
        part: u32,
        items: Shared<Item>,
    },
    /// A settler settled its open round with these values.
    Settled {
        values: Sequence<Valued>,
    },
    /// A settler computed the reply to a command.
    Resulted {
        place: Place,
        session: u32,
        seq: u32,
        gate: u32,
        reply: Reply,
    },
    /// A gateway replied to a command.
    Replied {
        place: Place,
        session: u32,
        seq: u32,
        reply: Reply,
    },
    /// A gateway was told that a command is replied elsewhere.
    Told {
        place: Place,
        session: u32,
        seq: u32,
    },
    /// The actor stopped.
    Stopped,
}

impl Plain for Kind {
    ghost exact = { λ x y h. Prim.grind (exact_tests, parts-cases, transaction-cases, items-cases, valueds-cases, showns-cases, vector_eq-cases) };

    fn copy(&self) -> Result<Kind, Memory> {
        match self {
            Kind::Published { time, vector } => Ok(Kind::Published {
                time: *time,
                vector: *vector,
            }),
            Kind::Heard { place, vector } => Ok(Kind::Heard {
                place: *place,
                vector: *vector,
            }),
            Kind::Stopped => Ok(Kind::Stopped),
            Kind::Stored { .. } | Kind::Answered { .. } => copy_of_node(self),
            Kind::Asked { .. }
            | Kind::Taken { .. }
            | Kind::Settled { .. }
            | Kind::Resulted { .. } => copy_of_settler(self),
            Kind::Began {
                session,
                seq,
                start,
            } => Ok(Kind::Began {
                session: *session,
                seq: *seq,
                start: start.copy()?,
            }),
            Kind::Acked {
                place,
                version,
                centre,
                part,
            } => Ok(Kind::Acked {
                place: *place,
                version: *version,
                centre: *centre,
                part: *part,
            }),
            Kind::Replied {
                place,
                session,
                seq,
                reply,
            } => Ok(Kind::Replied {
                place: *place,
                session: *session,
                seq: *seq,
                reply: reply.copy()?,
            }),
            Kind::Told {
                place,
                session,
                seq,
            } => Ok(Kind::Told {
                place: *place,
                session: *session,
                seq: *seq,
            }),
        }
    }
}

/// The copy of a kind that only nodes make.
fn copy_of_node(kind: &Kind) -> Result<Kind, Memory>
    requires { of_node kind.now ≡ true }
    ensures { IfOk result (λ copied. copied ≡ kind.now) }
{
    match kind {
        Kind::Stored {
            place,
            version,
            items,
        } => Ok(Kind::Stored {
            place: *place,
            version: *version,
            items: items.copy()?,
        }),
        Kind::Answered {
            place,
            settler,
            round,
            items,
        } => Ok(Kind::Answered {
            place: *place,
            settler: *settler,
            round: *round,
            items: items.copy()?,
        }),
        _ => unreachable!(),
    }
}

/// The copy of a kind that only settlers make.
fn copy_of_settler(kind: &Kind) -> Result<Kind, Memory>
    requires { of_settler kind.now ≡ true }
    ensures { IfOk result (λ copied. copied ≡ kind.now) }
{
    match kind {
        Kind::Asked {
            round,
            mode,
            from,
            below,
        } => Ok(Kind::Asked {
            round: *round,
            mode: *mode,
            from: *from,
            below: *below,
        }),
        Kind::Taken {
            place,
            round,
            centre,
            part,
            items,
        } => Ok(Kind::Taken {
            place: *place,
            round: *round,
            centre: *centre,
            part: *part,
            items: items.copy()?,
        }),
        Kind::Settled { values } => Ok(Kind::Settled {
            values: values.copy()?,
        }),
        Kind::Resulted {
            place,
            session,
            seq,
            gate,
            reply,
        } => Ok(Kind::Resulted {
            place: *place,
            session: *session,
            seq: *seq,
            gate: *gate,
            reply: reply.copy()?,
        }),
        _ => unreachable!(),
    }
}
