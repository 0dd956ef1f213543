//! How the sessions stand at one gateway.
ghost use Rattle.std.specs.Prelude.{◌≡◌, ◌<◌, ◌≤◌, ◌+◌, ℕ, List, [], ◌∷◌, length, replicate, IfOk, IfSome, IfNone, IsTrue, ◌↔◌};
ghost use Rattle.std.specs.List.{list_all};
ghost use Rattle.std.specs.Option.{option_map};
ghost use Rattle.ov_session.specs.Events.{Event, Begun, Replied, Told, begun, floor, floor_of};
ghost use Rattle.ov_session.specs.Standing.{State, StandsFor, IsRoster, MayBegin, Has, IsIdle, IsOpen, standing, fresh, next_of, knows};
ghost use Rattle.ov_session.specs.declared.roster.Roster as rosters;

use crate::after::After;
use crate::planned::Planned;
use crate::roster::Roster;
use ov_base::Memory;
use ov_functor::Reply;
use std::alloc::Global;
use std::marker::Model;

/// How one session stands at a gateway: the greatest numbers of its commands that are begun there, that are
/// replied there, and that are known as replied, and the least watermark of its snapshots; each 0 at first.
#[derive(Clone, Copy, Debug)]
pub struct Standing {
    pub begun: u32,
    pub replied: u32,
    pub known: u32,
    pub floor: u64,
}

/// How the sessions of a roster stand at one gateway (docs/STORE.md, Sessions). Contracts tie it to every
/// list of events that it stands for.
#[derive(Debug, Drop)]
pub struct Sessions {
    gate: u32,
    standings: Vec<Standing>,
}

impl Model for Sessions {
    ghost use Rattle.ov_session.specs.Standing.{State};

    ghost Value = { State };

    ghost view = { λ s. record { gate = s.gate; standings = s.standings.items } };
}

impl Sessions {
    /// The sessions of the roster at this gateway, before anything has happened. The only call that
    /// allocates. Condition, here and in [`Sessions::ready`]: the roster fits ([`Roster::fits`]).
    pub fn new(alloc: Global, roster: &Roster, gate: u32) -> Result<Sessions, Memory>
        requires { IsRoster roster.now }
        ensures { IfOk result (λ s. StandsFor roster.now gate [] s) }
    {
        Ok(Sessions {
            gate,
            standings: fresh_standings(alloc, roster.sessions.len())?,
        })
    }

    /// Whether the session is one of the roster. Does not allocate.
    pub fn has(&self, session: u32) -> bool
        ensures { IsTrue result ↔ Has self.now session }
    {
        (session as usize) < self.standings.len()
    }

    /// The number of the session's next command, where it may begin. None exactly where the session is not
    /// this gateway's, has a command that is begun and not replied, has no further command, or waits for a
    /// command that is not known as replied. Does not allocate.
    pub fn ready(&self, roster: &Roster, session: u32) -> Option<u32>
        requires { IsRoster roster.now }
        ensures some { (gate : ℕ) (events : List Event) → StandsFor roster.now gate events self.now → IfSome result (λ seq. MayBegin roster.now gate events session seq) }
        ensures none { (gate : ℕ) (events : List Event) → StandsFor roster.now gate events self.now → IfNone result ((seq : ℕ) → MayBegin roster.now gate events session seq → ⊥) }
        ensures idle { IfSome result (λ seq. IsIdle self.now session × (seq ≡ (standing self.now session).begun + 1)) }
    {
        let standing = self.standing(session)?;
        let planned = self.next_of(roster, session, standing)?;
        if self.knows_all(planned.after.as_slice()) {
            Some(standing.begun + 1)
        } else {
            None
        }
    }

    /// Notes that the session's next command began. Condition: none is begun and not replied, as where the
    /// session is ready. All else stays. Does not allocate.
    pub fn begun(&mut self, session: u32)
        requires { IsIdle self.old session }
        ensures meaning { (roster : rosters.Roster) (gate : ℕ) (events : List Event) → StandsFor roster gate events self.old → StandsFor roster gate (Begun session (begun session events + 1) ∷ events) self.new }
        ensures count { length self.new.standings ≡ length self.old.standings }
    {
        self.standings[session as usize].begun += 1;
    }

    /// Whether this command of the session is begun and not replied. Does not allocate.
    pub fn is_open(&self, session: u32, seq: u32) -> bool
        ensures { IsTrue result ↔ IsOpen self.now session seq }
    {
        match self.standing(session) {
            None => false,
            Some(standing) => standing.begun == seq
                && standing.replied < seq
                && seq - standing.replied == 1,
        }
    }

    /// Notes the reply of a command of the session. Condition: it is begun and not replied. All else stays.
    /// Does not allocate.
    pub fn replied(&mut self, session: u32, seq: u32, reply: &Reply)
        requires { IsOpen self.old session seq }
        ensures meaning { (roster : rosters.Roster) (gate : ℕ) (events : List Event) → StandsFor roster gate events self.old → StandsFor roster gate (Replied session seq reply.now ∷ events) self.new }
        ensures count { length self.new.standings ≡ length self.old.standings }
    {
        let floor = floor_after(reply);
        let standing = &mut self.standings[session as usize];
        standing.replied = seq;
        standing.known = standing.known.max(seq);
        standing.floor = standing.floor.max(floor);
    }

    /// Notes that a command of the session is replied elsewhere. Condition: the session is in the roster ([`Sessions::has`]). All
    /// else stays. Does not allocate.
    pub fn told(&mut self, session: u32, seq: u32)
        requires { Has self.old session }
        ensures meaning { (roster : rosters.Roster) (gate : ℕ) (events : List Event) → StandsFor roster gate events self.old → StandsFor roster gate (Told session seq ∷ events) self.new }
        ensures count { length self.new.standings ≡ length self.old.standings }
    {
        let told = &mut self.standings[session as usize];
        told.known = told.known.max(seq);
    }

    /// The least watermark at which a snapshot of the session may be answered. Condition: the session is in
    /// the roster. Does not allocate.
    pub fn floor(&self, session: u32) -> u64
        requires { Has self.now session }
        ensures value { result ≡ (standing self.now session).floor }
        ensures meaning { (roster : rosters.Roster) (gate : ℕ) (events : List Event) → StandsFor roster gate events self.now → result ≡ floor session events }
    {
        self.standings[session as usize].floor
    }

    /// How the session stands, where it is in the roster.
    fn standing(&self, session: u32) -> Option<Standing>
        ensures some { IfSome result (λ stands. Has self.now session × (stands ≡ standing self.now session)) }
        ensures none { IfNone result ((length self.now.standings ≤ session) × (standing self.now session ≡ fresh)) }
    {
        self.standings.as_slice().get(session as usize).copied()
    }

    /// The command of the session that comes next, where the session is this gateway's and has no command that
    /// is begun and not replied.
    fn next_of<'a>(
        &self,
        roster: &'a Roster,
        session: u32,
        standing: Standing,
    ) -> Option<&'a Planned>
        ensures { option_map (λ x. x.now) result ≡ next_of roster.now self.now.gate session standing }
    {
        let plan = roster.sessions.as_slice().get(session as usize)?;
        if plan.gate == self.gate && standing.begun == standing.replied {
            plan.planned.as_slice().get(standing.begun as usize)
        } else {
            None
        }
    }

    /// Whether all of these are known as replied.
    fn knows_all(&self, waited: &[After]) -> bool
        ensures { result ≡ list_all (knows self.now) waited.now }
    {
        waited.iter().all(|after| self.knows(after))
    }

    /// Whether this one is known as replied. Nothing is known of a session that is not in the roster.
    fn knows(&self, after: &After) -> bool
        ensures { result ≡ knows self.now after.now }
    {
        match self.standing(after.session) {
            None => after.seq == 0,
            Some(standing) => after.seq <= standing.known,
        }
    }
}

/// So many sessions to which nothing has happened.
fn fresh_standings(alloc: Global, count: usize) -> Result<Vec<Standing>, Memory>
    ensures { IfOk result (λ standings. standings.items ≡ replicate count fresh) }
{
    let fresh = Standing {
        begun: 0,
        replied: 0,
        known: 0,
        floor: 0,
    };
    Ok(vec![in alloc; fresh; count]?)
}

/// The least watermark of a snapshot that is not older than the reply.
fn floor_after(reply: &Reply) -> u64
    ensures { result ≡ floor_of reply.now }
{
    match reply {
        Reply::Done { version, .. } => version.number() + 1,
        Reply::Aborted { version, .. } => version.number() + 1,
        Reply::Snap { watermark, .. } => *watermark,
    }
}
