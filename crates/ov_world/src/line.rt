//! Lines of a schedule: who is asked to do what.
ghost use Rattle.std.specs.Prelude.{◌≡◌, slice_get};
ghost use Rattle.std.specs.Option.{option_map};
ghost use Rattle.ov_script.specs.Sessions.{roster_of};
ghost use Rattle.ov_script.specs.declared.step.Step.TheVariants.{Begin};
ghost use Rattle.ov_follow.specs.Lines as lines;
ghost use Rattle.ov_world.specs.Acts.{line_in};

use crate::act::Act;
use ov_script::{Script, Step};
use ov_session::{Roster, SessionName, SessionPlan};
use ov_topology::Actor;

/// An actor, and what it is asked to do.
#[derive(Clone, Copy, Debug)]
pub struct Line {
    pub actor: Actor,
    pub act: Act,
}

/// What a step of a schedule asks. None exactly where it names a session that the script does not have. Does not allocate.
pub(crate) fn line_of(script: &Script, step: &Step) -> Option<Line>
    ensures { option_map line_in result ≡ lines.line_of (roster_of script.now.lines) step.now }
{
    match step {
        Step::Begin { session, clock } => begin_line(script, session, *clock),
        Step::Take { actor, place } => Some(Line {
            actor: *actor,
            act: Act::Take { place: *place },
        }),
        Step::Publish { gate, clock } => Some(Line {
            actor: Actor::Gate(*gate),
            act: Act::Publish { clock: *clock },
        }),
        Step::Ask { settler, mode } => Some(Line {
            actor: Actor::Settler(*settler),
            act: Act::Ask { mode: *mode },
        }),
        Step::Settle { settler } => Some(Line {
            actor: Actor::Settler(*settler),
            act: Act::Settle,
        }),
        Step::Stop { actor } => Some(Line {
            actor: *actor,
            act: Act::Stop,
        }),
    }
}

/// What a step asks by which a session's next command begins.
#[tactic(auto, using(crate::proofs::Sessions::named_is))]
fn begin_line(script: &Script, session: &SessionName, clock: u64) -> Option<Line>
    ensures { option_map line_in result ≡ lines.line_of (roster_of script.now.lines) (Begin session.now clock) }
{
    let number = script.session(session)?;
    let plan = plan_at(script.roster(), number)?;
    Some(Line {
        actor: Actor::Gate(plan.gate),
        act: Act::Begin {
            session: number,
            clock,
        },
    })
}

/// The session of a number. None exactly where there is none.
fn plan_at(roster: &Roster, number: u32) -> Option<&SessionPlan>
    ensures { option_map (λ plan. plan.now) result ≡ slice_get roster.now.sessions number }
{
    roster.sessions.as_slice().get(number as usize)
}
