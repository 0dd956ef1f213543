//! What a gateway publishes: the marks that it knows, with its own.
ghost use Rattle.std.specs.Prelude.{◌≡◌, ◌<◌, ◌+◌, ◌^◌, ◌==◌, ℕ, length, max, None, if◌then◌else◌};
ghost use Rattle.ov_base.specs.Version.{number};
ghost use Rattle.ov_gossip.specs.Marks.{mark_at, greatest, low_time};
ghost use Rattle.ov_topology.specs.declared.actor.Actor as actors;
ghost use Rattle.ov_history.specs.Past.{History};
ghost use Rattle.ov_history.specs.May.{Setting};
ghost use Rattle.ov_history.specs.Gives.{Publish, time_at};
ghost use Rattle.ov_history.specs.Cores.{Steps};
ghost use Rattle.ov_gate.specs.Gate.{IsGate, is_published};
ghost use Rattle.ov_gate.specs.Calls.{own_kept};
ghost use Rattle.ov_gate.specs.Tracker.{Rises};

use super::GateCore;
use super::times::{time_at, version_at};
use crate::tracked::Mark;
use ov_event::{Entry, Kind};
use ov_gossip::{Marks, Vector};

impl GateCore {
    /// Publishes its marks at a reading of the clock, with its `Published` entry. None exactly where no such entry may follow: the
    /// gateway has stopped, or no time is left. After None nothing has changed. Takes no memory, and looks at three versions.
    pub fn publish(&mut self, clock: u64) -> Option<Entry>
        ensures steps { (t : Setting) (h : History) (actor : actors.Actor) → IsGate t h actor self.old → Steps IsGate is_published t h actor (Publish clock) result self.new }
        ensures none { result ≡ None → self.new ≡ self.old }
    {
        if self.stopped {
            return None;
        }
        let time = time_at(clock, self.least_time());
        if time >= 1 << 47 {
            return None;
        }
        let vector = self.vector_at(time);
        self.last = time - 1;
        self.vector.merge(&vector);
        Some(self.entry(Kind::Published { time, vector }))
    }

    /// The least time at which it may publish.
    pub(super) fn least_time(&self) -> u64
        ensures { result ≡ max (self.now.last + 1) (greatest low_time self.now.vector) }
    {
        (self.last + 1).max(self.vector.top_time())
    }

    /// The marks that it knows, with its own of this time at its place.
    pub(super) fn vector_at(&self, time: u64) -> Vector
        requires { time < 2 ^ 47 }
        ensures width { length result ≡ length self.now.vector }
        ensures marks { Rises self.now.tracked → (k : ℕ) → k < length self.now.vector → mark_at result k ≡ (if k == self.now.gate then own_kept self.now.gate time self.now.tracked else mark_at self.now.vector k) }
    {
        vector_with(&self.vector, self.gate, self.own_marks(time))
    }

    /// Its own marks at this time.
    fn own_marks(&self, time: u64) -> Marks
        requires { time < 2 ^ 47 }
        ensures { Rises self.now.tracked → result ≡ own_kept self.now.gate time self.now.tracked }
    {
        let top = version_at(time, self.gate).number();
        Marks {
            low: self.tracked.least(Mark::Low, top),
            full: self.tracked.least(Mark::Full, top),
            done: self.tracked.least(Mark::Done, top),
        }
    }
}

/// The marks of all gateways with these at one place.
fn vector_with(vector: &Vector, gate: u32, own: Marks) -> Vector
    ensures width { length result ≡ length vector.now }
    ensures marks { (k : ℕ) → k < length vector.now → mark_at result k ≡ (if k == gate then own else mark_at vector.now k) }
{
    let count = vector.count();
    let mut made = Vector::new(count);
    for other in 0..count {
        made.raise(other, mark_with(vector, gate, own, other));
    }
    made
}

fn mark_with(vector: &Vector, gate: u32, own: Marks, other: u32) -> Marks
    requires { other < length vector.now }
    ensures { result ≡ (if other == gate then own else mark_at vector.now other) }
{
    if other == gate {
        own
    } else {
        vector.mark(other)
    }
}
