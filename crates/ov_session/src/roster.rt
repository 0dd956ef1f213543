//! The sessions of a script.
ghost use Rattle.std.specs.Prelude.{◌≡◌, IsTrue, ◌↔◌};
ghost use Rattle.std.specs.List.{list_all};
ghost use Rattle.ov_base.specs.Lemmas.{exact_tests};
ghost use Rattle.ov_session.specs.Lemmas.Plans.{plans-cases};
ghost use Rattle.ov_session.specs.Standing.{IsRoster, is_short};

use crate::plan::SessionPlan;
use ov_base::{Memory, Plain, Sequence};

/// The most sessions of a script, and of a roster.
pub const MOST_SESSIONS: usize = 64;

/// The most commands of a script, and so of a session.
pub const MOST_COMMANDS: u32 = 4000;

/// All sessions, in the order in which they are declared, numbered from 0.
#[derive(Debug, PartialEq, Eq, Drop)]
pub struct Roster {
    pub sessions: Sequence<SessionPlan>,
}

impl Roster {
    /// Whether there are at most 64 sessions, each with at most 4,000 commands. Does not allocate.
    pub fn fits(&self) -> bool
        ensures { IsTrue result ↔ IsRoster self.now }
    {
        self.sessions.len() <= MOST_SESSIONS && are_short(self.sessions.as_slice())
    }
}

/// Whether each session has at most 4,000 commands.
fn are_short(plans: &[SessionPlan]) -> bool
    ensures { result ≡ list_all is_short plans.now }
{
    plans
        .iter()
        .all(|plan| plan.planned.len() <= MOST_COMMANDS as usize)
}

impl Plain for Roster {
    ghost exact = { λ x y h. Prim.grind (exact_tests, plans-cases) };

    fn copy(&self) -> Result<Roster, Memory> {
        Ok(Roster {
            sessions: self.sessions.copy()?,
        })
    }
}
