//! How far the commands of the sessions are replied.
ghost use Rattle.std.specs.Prelude.{◌≡◌, ◌+◌, ◌<◌, false, []};
ghost use Rattle.ov_session.specs.Standing.{IsRoster};
ghost use Rattle.ov_history.specs.Past.{History};
ghost use Rattle.ov_history.specs.May.{Setting};
ghost use Rattle.ov_follow.specs.Calm.{all_replied};
ghost use Rattle.ov_follow.specs.Passes.{is_replied};
ghost use Rattle.ov_step.specs.Deeds.{AllDone};
ghost use Rattle.ov_step.specs.Replied.{IsReplied};

use crate::deeds::{Deed, Deeds};
use ov_session::Roster;

/// How far the commands of the sessions are replied: those of the sessions below a number, and so many first ones of that session.
#[derive(Clone, Copy, Debug)]
pub(crate) struct Replied {
    session: u32,
    seq: u32,
}

impl Replied {
    /// Of the empty history.
    pub(crate) fn new() -> Replied
        ensures { (t : Setting) → IsReplied t [] result }
    {
        Replied { session: 0, seq: 0 }
    }

    /// Whether every command is replied. Moves on over those that are, so that all calls together look at each command once. Conditions: the
    /// roster fits; and of the clauses, these are the deeds of the history. Does not allocate.
    pub(crate) fn are_all(&mut self, roster: &Roster, deeds: &Deeds) -> bool
        requires roster { IsRoster roster.now }
        ensures all { (t : Setting) (h : History) → t.roster ≡ roster.now → AllDone h deeds.now → IsReplied t h self.old → result ≡ all_replied t h }
        ensures replied { (t : Setting) (h : History) → t.roster ≡ roster.now → AllDone h deeds.now → IsReplied t h self.old → IsReplied t h self.new }
    {
        for session in self.session as usize..roster.sessions.len() {
            let commands = roster.sessions.as_slice()[session].planned.len() as u32;
            self.move_on(commands, deeds);
            if self.seq < commands {
                return false;
            }
            self.session += 1;
            self.seq = 0;
        }
        true
    }

    /// Moves on over the first commands of its session that are replied, where it has so many. Does not allocate.
    fn move_on(&mut self, commands: u32, deeds: &Deeds)
        ensures session { self.new.session ≡ self.old.session }
        ensures replied { (t : Setting) (h : History) → AllDone h deeds.now → IsReplied t h self.old → IsReplied t h self.new }
        ensures next { (h : History) → AllDone h deeds.now → self.new.seq < commands → is_replied self.new.session (self.new.seq + 1) h ≡ false }
    {
        for seq in self.seq..commands {
            if !deeds.has(Deed::Replied {
                session: self.session,
                seq: seq + 1,
            }) {
                return;
            }
            self.seq = seq + 1;
        }
    }
}
