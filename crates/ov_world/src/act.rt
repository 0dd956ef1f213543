//! What actors are asked to do.
ghost use Rattle.std.specs.Prelude.{◌≡◌};
ghost use Rattle.ov_history.specs.Gives as gives;
ghost use Rattle.ov_world.specs.Acts.{act_in};

use ov_event::{Kind, Start};
use ov_topology::{Mode, Place};

/// What an actor is asked to do (docs/STORE.md, What a schedule's line does).
#[derive(Clone, Copy, Debug)]
pub enum Act {
    /// To begin the next command of the session of this number, at a reading of its clock.
    Begin { session: u32, clock: u64 },
    /// To take the letter at a place.
    Take { place: Place },
    /// To publish its marks, at a reading of its clock.
    Publish { clock: u64 },
    /// To open a round.
    Ask { mode: Mode },
    /// To settle its open round.
    Settle,
    /// To stop.
    Stop,
}

/// The act for which entries of this kind are given: of an entry with a place, to take the letter there; of a command that begins or a
/// publication, at a clock that reads its time.
pub(crate) fn act_of(kind: &Kind) -> Act
    ensures { act_in result ≡ gives.act_of kind.now }
{
    match kind {
        Kind::Began { session, start, .. } => Act::Begin {
            session: *session,
            clock: clock_of(start),
        },
        Kind::Published { time, .. } => Act::Publish { clock: *time },
        Kind::Asked { mode, .. } => Act::Ask { mode: *mode },
        Kind::Settled { .. } => Act::Settle,
        Kind::Stopped => Act::Stop,
        Kind::Stored { place, .. }
        | Kind::Acked { place, .. }
        | Kind::Heard { place, .. }
        | Kind::Answered { place, .. }
        | Kind::Taken { place, .. }
        | Kind::Resulted { place, .. }
        | Kind::Replied { place, .. }
        | Kind::Told { place, .. } => Act::Take { place: *place },
    }
}

/// A reading of the clock at which a command begins so.
fn clock_of(start: &Start) -> u64
    ensures { result ≡ gives.clock_of start.now }
{
    match start {
        Start::Draw { version, .. } => version.time(),
        Start::Look { .. } => 0,
    }
}
