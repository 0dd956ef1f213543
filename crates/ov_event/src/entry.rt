//! Entries of a history.
ghost use Rattle.ov_base.specs.Lemmas.{exact_tests};
ghost use Rattle.ov_event.specs.Lemmas.{kind-cases};

use crate::kind::Kind;
use ov_base::{Memory, Plain};
use ov_topology::Actor;

/// One step of one actor. Entries of a history are numbered from 1. An entry takes at most 512 bytes in place.
#[derive(Debug, PartialEq, Eq, Drop)]
pub struct Entry {
    pub actor: Actor,
    pub kind: Kind,
}

const _: () = prove!(size_of::<Entry>() <= 512);

impl Plain for Entry {
    ghost exact = { λ x y h. Prim.grind (exact_tests, kind-cases) };

    fn copy(&self) -> Result<Entry, Memory> {
        Ok(Entry {
            actor: self.actor,
            kind: self.kind.copy()?,
        })
    }
}
