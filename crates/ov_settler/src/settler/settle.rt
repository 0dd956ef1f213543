//! The rounds that a settler settles.
ghost use Rattle.std.specs.Prelude.{◌≡◌, ◌<◌, ◌≤◌, ◌+◌, None, IfOk, OnErr, length};
ghost use Rattle.ov_topology.specs.declared.actor.Actor as actors;
ghost use Rattle.ov_history.specs.Past.{History};
ghost use Rattle.ov_history.specs.May.{Setting};
ghost use Rattle.ov_history.specs.Gives.{Settle};
ghost use Rattle.ov_history.specs.Cores.{Steps};
ghost use Rattle.ov_settler.specs.Settler.{IsOwn, IsSettler, is_settled};
ghost use Rattle.ov_settler.specs.Calls.{IsDue, valued_tasks, with_value, with_values};

use super::SettlerCore;
use ov_base::{Memory, Sequence, Value};
use ov_event::{Entry, Kind};
use ov_functor::Valued;
use ov_lists::VersionLists;
use ov_window::{Plan, Task};
use std::alloc::Global;

impl SettlerCore {
    /// Settles the open round, with its `Settled` entry. None exactly where no such entry may follow: the settler has stopped, no round is
    /// open, or a partition lacks answers. After None, and on an error, nothing has changed: the memory is taken first. Condition: where
    /// a round is open and its harvest is whole, the plan is that of the round, and the values are those of the plan.
    pub fn settle(&mut self, plan: &Plan, values: &[Value]) -> Result<Option<Entry>, Memory>
        requires { IsOwn self.old plan.now values.now }
        ensures steps { IfOk result (λ answer. (t : Setting) (h : History) (actor : actors.Actor) → IsSettler t h actor self.old → Steps IsSettler is_settled t h actor Settle answer self.new) }
        ensures none { IfOk result (λ answer. answer ≡ None → self.new ≡ self.old) }
        ensures err { OnErr result (self.new ≡ self.old) }
    {
        let Some(below) = self.due() else {
            return Ok(None);
        };
        let settled = valued(self.alloc, plan.tasks(), values)?;
        self.values.reserve(settled.len())?;
        keep_all(&mut self.values, settled.as_slice());
        self.settled = below;
        self.harvest = None;
        Ok(Some(self.entry(Kind::Settled { values: settled })))
    }

    /// Up to where the open round can be settled. None exactly where the settler has stopped, no round is open, or a partition lacks
    /// answers.
    fn due(&self) -> Option<u64>
        ensures { IsDue self.now result }
    {
        let Some(harvest) = &self.harvest else {
            return None;
        };
        if self.stopped || !harvest.whole() {
            return None;
        }
        Some(harvest.round().below)
    }
}

/// The values of tasks, each at the version and key of its task.
pub(super) fn valued(
    alloc: Global,
    tasks: &[Task],
    values: &[Value],
) -> Result<Sequence<Valued>, Memory>
    ensures { IfOk result (λ all. all ≡ valued_tasks tasks.now values.now) }
{
    let mut all = Sequence::with_capacity(alloc, tasks.len())?;
    let mut rest = tasks;
    let mut left = values;
    while let [task, later @ ..] = rest {
        let [value, others @ ..] = left else {
            return Ok(all);
        };
        all.push(Valued {
            version: task.version,
            key: task.key,
            value: *value,
        })?;
        rest = later;
        left = others;
    }
    Ok(all)
}

/// Keeps these values, from the last to the first, in lists that have room for them, so that nothing is allocated.
fn keep_all(lists: &mut VersionLists<Value>, values: &[Valued])
    requires { length values.now ≤ lists.old.spare }
    ensures { lists.new.entries ≡ with_values values.now lists.old.entries }
{
    for place in (0..values.len()).rev() {
        keep(lists, values[place]);
    }
}

/// Keeps a value in lists that have room for it, so that nothing is allocated.
fn keep(lists: &mut VersionLists<Value>, value: Valued)
    requires { 0 < lists.old.spare }
    ensures entries { lists.new.entries ≡ with_value value lists.old.entries }
    ensures spare { lists.old.spare ≤ lists.new.spare + 1 }
{
    let _ = lists.insert(value.key, value.version, value.value);
}
