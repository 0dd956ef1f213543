//! What a session is to do next, and after what.
ghost use Rattle.ov_base.specs.Lemmas.{exact_tests};
ghost use Rattle.ov_functor.specs.Lemmas.Functors.{transaction-cases};
ghost use Rattle.ov_session.specs.Lemmas.Afters.{afters-cases};

use crate::after::After;
use ov_base::{Memory, Plain, Sequence};
use ov_functor::Command;

/// A command of a session, and the commands that have to be known as replied before it begins.
#[derive(Debug, PartialEq, Eq, Drop)]
pub struct Planned {
    pub command: Command,
    pub after: Sequence<After>,
}

impl Plain for Planned {
    ghost exact = { λ x y h. Prim.grind (exact_tests, transaction-cases, afters-cases) };

    fn copy(&self) -> Result<Planned, Memory> {
        Ok(Planned {
            command: self.command.copy()?,
            after: self.after.copy()?,
        })
    }
}
