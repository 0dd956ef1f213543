//! What a gateway begins: the next command of a session, a transaction with its version or a snapshot with its floor.
ghost use Rattle.std.specs.Prelude.{◌≡◌, ◌+◌, ℕ, false, Some, None, IfOk, OnErr, slice_set};
ghost use Rattle.std.specs.Option.{option_map};
ghost use Rattle.ov_topology.specs.declared.actor.Actor as actors;
ghost use Rattle.ov_session.specs.Events.{begun as begun_after};
ghost use Rattle.ov_session.specs.Standing.{IsRoster, MayBegin, IsIdle};
ghost use Rattle.ov_session.specs.declared.planned.Planned as plans;
ghost use Rattle.ov_history.specs.Past.{History};
ghost use Rattle.ov_history.specs.Sessions.{events_of};
ghost use Rattle.ov_history.specs.May.{Setting};
ghost use Rattle.ov_history.specs.Gives.{Begin, time_at, ready};
ghost use Rattle.ov_history.specs.Cores.{Steps};
ghost use Rattle.ov_gate.specs.Gate.{IsGate, is_begun};
ghost use Rattle.ov_gate.specs.Calls.{command_at};

use super::GateCore;
use super::times::{time_at, version_at};
use crate::tracked::Tracked;
use ov_base::{Key, Memory, Plain, Sequence, Version};
use ov_event::{Entry, Kind, Start};
use ov_functor::{Command, Transaction};
use ov_session::Roster;

impl GateCore {
    /// Begins the session's next command at a reading of the clock, with its `Began` entry. None exactly where no such entry may
    /// follow: the gateway has stopped, the session has no command that is ready, or no time is left. After None, and on an error,
    /// nothing has changed. Condition: the roster is the one that was handed to [`GateCore::new`], and it fits. Takes memory for the
    /// copy of the command and for what is kept of its version.
    pub fn begin(
        &mut self,
        roster: &Roster,
        session: u32,
        clock: u64,
    ) -> Result<Option<Entry>, Memory>
        requires { IsRoster roster.now }
        ensures steps { IfOk result (λ answer. (t : Setting) (h : History) (actor : actors.Actor) → t.roster ≡ roster.now → IsGate t h actor self.old → Steps IsGate is_begun t h actor (Begin session clock) answer self.new) }
        ensures none { IfOk result (λ answer. answer ≡ None → self.new ≡ self.old) }
        ensures err { OnErr result (self.new ≡ self.old) }
    {
        if self.stopped {
            return Ok(None);
        }
        match self.sessions.ready(roster, session) {
            None => Ok(None),
            Some(seq) => self.begin_next(roster, session, seq, clock),
        }
    }

    /// Begins the session's next command, which may begin.
    fn begin_next(
        &mut self,
        roster: &Roster,
        session: u32,
        seq: u32,
        clock: u64,
    ) -> Result<Option<Entry>, Memory>
        requires { IsIdle self.old.sessions session }
        ensures steps { IfOk result (λ answer. (t : Setting) (h : History) (actor : actors.Actor) → t.roster ≡ roster.now → IsGate t h actor self.old → self.old.stopped ≡ false → MayBegin roster.now self.old.gate (events_of self.old.gate h) session seq → Steps IsGate is_begun t h actor (Begin session clock) answer self.new) }
        ensures none { IfOk result (λ answer. answer ≡ None → self.new ≡ self.old) }
        ensures err { OnErr result (self.new ≡ self.old) }
    {
        match command_at(roster, session, seq) {
            None => Ok(None),
            Some(Command::Transact(transaction)) => self.draw(session, seq, transaction, clock),
            Some(Command::Snap(keys)) => self.look(session, seq, keys),
        }
    }

    /// Begins the transaction, which is ready, and draws its version. None exactly where no time is left.
    fn draw(
        &mut self,
        session: u32,
        seq: u32,
        transaction: &Transaction,
        clock: u64,
    ) -> Result<Option<Entry>, Memory>
        requires { IsIdle self.old.sessions session }
        ensures steps { IfOk result (λ answer. (t : Setting) (h : History) (actor : actors.Actor) (planned : plans.Planned) → IsGate t h actor self.old → self.old.stopped ≡ false → ready t h self.old.gate session ≡ Some planned → planned.command ≡ Command.Transact transaction.now → seq ≡ begun_after session (events_of self.old.gate h) + 1 → Steps IsGate is_begun t h actor (Begin session clock) answer self.new) }
        ensures none { IfOk result (λ answer. answer ≡ None → self.new ≡ self.old) }
        ensures err { OnErr result (self.new ≡ self.old) }
    {
        let time = time_at(clock, self.last + 1);
        if time >= 1 << 47 {
            return Ok(None);
        }
        let version = version_at(time, self.gate);
        let copy = transaction.copy()?;
        let one = Tracked::new(&self.topology, version, session, seq, transaction.parts());
        self.tracked.add(one)?;
        self.last = time;
        self.sessions.begun(session);
        set_latest(&mut self.latest, session, version);
        Ok(Some(self.entry(Kind::Began {
            session,
            seq,
            start: Start::Draw {
                version,
                transaction: copy,
            },
        })))
    }

    /// Begins the snapshot, which is ready, with its session's floor.
    fn look(
        &mut self,
        session: u32,
        seq: u32,
        keys: &Sequence<Key>,
    ) -> Result<Option<Entry>, Memory>
        requires { IsIdle self.old.sessions session }
        ensures steps { IfOk result (λ answer. (t : Setting) (h : History) (actor : actors.Actor) (clock : ℕ) (planned : plans.Planned) → IsGate t h actor self.old → self.old.stopped ≡ false → ready t h self.old.gate session ≡ Some planned → planned.command ≡ Command.Snap keys.now → seq ≡ begun_after session (events_of self.old.gate h) + 1 → Steps IsGate is_begun t h actor (Begin session clock) answer self.new) }
        ensures none { IfOk result (λ answer. answer ≡ None → self.new ≡ self.old) }
        ensures err { OnErr result (self.new ≡ self.old) }
    {
        let copy = keys.copy()?;
        let floor = self.sessions.floor(session);
        self.sessions.begun(session);
        Ok(Some(self.entry(Kind::Began {
            session,
            seq,
            start: Start::Look { floor, keys: copy },
        })))
    }
}

/// The command of a session.
pub(super) fn command_at<'a>(roster: &'a Roster, session: u32, seq: u32) -> Option<&'a Command>
    ensures { option_map (λ command. command.now) result ≡ command_at roster.now session seq }
{
    let plan = roster.sessions.as_slice().get(session as usize)?;
    let planned = plan
        .planned
        .as_slice()
        .get((seq as usize).saturating_sub(1))?;
    Some(&planned.command)
}

/// Notes the version that a session drew last.
fn set_latest(latest: &mut Vec<Option<Version>>, session: u32, version: Version)
    ensures { latest.new.items ≡ slice_set latest.old.items session (Some version) }
{
    let session = session as usize;
    if session < latest.len() {
        latest[session] = Some(version);
    }
}
