//! What one session is to do.
ghost use Rattle.ov_base.specs.Lemmas.{exact_tests};
ghost use Rattle.ov_session.specs.Lemmas.Planneds.{planneds-cases};

use crate::name::SessionName;
use crate::planned::Planned;
use ov_base::{Memory, Plain, Sequence};

/// A session: its name, its gateway, and its commands in order, numbered from 1.
#[derive(Debug, PartialEq, Eq, Drop)]
pub struct SessionPlan {
    pub name: SessionName,
    pub gate: u32,
    pub planned: Sequence<Planned>,
}

impl Plain for SessionPlan {
    ghost exact = { λ x y h. Prim.grind (exact_tests, planneds-cases) };

    fn copy(&self) -> Result<SessionPlan, Memory> {
        Ok(SessionPlan {
            name: self.name,
            gate: self.gate,
            planned: self.planned.copy()?,
        })
    }
}
