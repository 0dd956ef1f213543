//! The rounds that a settler opens.
ghost use Rattle.std.specs.Prelude.{◌≡◌, None, IfOk, OnErr};
ghost use Rattle.ov_topology.specs.declared.actor.Actor as actors;
ghost use Rattle.ov_history.specs.Past.{History};
ghost use Rattle.ov_history.specs.May.{Setting};
ghost use Rattle.ov_history.specs.Gives.{Ask};
ghost use Rattle.ov_history.specs.Cores.{Steps};
ghost use Rattle.ov_settler.specs.Settler.{IsSettler, is_asked};
ghost use Rattle.ov_settler.specs.Calls.{upper_of};

use super::SettlerCore;
use ov_base::Memory;
use ov_event::{Entry, Kind};
use ov_topology::Mode;
use ov_window::{Harvest, Round};

impl SettlerCore {
    /// Opens the next round of this mode, with its `Asked` entry. None exactly where no such entry may follow: the settler has stopped,
    /// its watermark for the mode is not above what it has settled, or its rounds have run out of numbers. After None, and on an error,
    /// nothing has changed.
    pub fn ask(&mut self, mode: Mode) -> Result<Option<Entry>, Memory>
        ensures steps { IfOk result (λ answer. (t : Setting) (h : History) (actor : actors.Actor) → IsSettler t h actor self.old → Steps IsSettler is_asked t h actor (Ask mode) answer self.new) }
        ensures none { IfOk result (λ answer. answer ≡ None → self.new ≡ self.old) }
        ensures err { OnErr result (self.new ≡ self.old) }
    {
        let from = self.settled;
        let below = self.upper(mode);
        if self.stopped || self.rounds == u64::MAX || below <= from {
            return Ok(None);
        }
        let round = Round {
            mode,
            settler: self.centre,
            from,
            below,
        };
        self.harvest = Some(Harvest::new(self.alloc, &self.topology, round)?);
        self.rounds += 1;
        Ok(Some(self.entry(Kind::Asked {
            round: self.rounds,
            mode,
            from,
            below,
        })))
    }

    /// Up to where a round of this mode asks: its visibility watermark, or its replica watermark.
    pub(super) fn upper(&self, mode: Mode) -> u64
        ensures { result ≡ upper_of self.now.vector mode }
    {
        match mode {
            Mode::Quorum => self.visible(),
            Mode::One => self.replicated(),
        }
    }
}
