//! The plan of a harvest.
ghost use Rattle.std.specs.Prelude.{◌≡◌, List, ◌∷◌, map, true, IfOk, OnOk};
ghost use Rattle.ov_functor.specs.Functor.{reads};
ghost use Rattle.ov_functor.specs.Unions.{precedes, union};
ghost use Rattle.ov_functor.specs.Windows.{Among};
ghost use Rattle.ov_functor.specs.declared.item.Item as items;
ghost use Rattle.ov_window.specs.Drafts.{IsDraft, input_at};
ghost use Rattle.ov_window.specs.Plan.{IsPlan, map_below, plan_of, plan_over};

use crate::distinct::distinct_items;
use crate::harvest::Harvest;
use crate::union::united;
use ov_base::{Key, Memory, Plain, Sequence, Value, Version};
use ov_functor::{Functor, Item};
use ov_lists::VersionLists;
use std::alloc::Global;
use std::marker::Model;

/// What a task takes for a key that its functor reads.
#[derive(Clone, Copy, Debug)]
pub enum Input {
    /// The value that the key had before the window.
    Base(Value),
    /// The value of an earlier place of the plan, from 0.
    Earlier(usize),
}

/// One place of a plan: an item of the window with its inputs, one for each key that its functor reads, in their order.
#[derive(Debug, Drop)]
pub struct Task {
    /// The version of the transaction.
    pub version: Version,
    /// The key that is written.
    pub key: Key,
    /// What stands for its value.
    pub functor: Functor,
    /// Its inputs.
    pub inputs: Sequence<Input>,
}

/// The items of a window by version and then key, each with its inputs (docs/STORE.md, Windows and plans). Contracts see the list of
/// its tasks.
#[derive(Drop)]
pub struct Plan {
    tasks: Vec<Task>,
}

impl Model for Plan {
    ghost use Rattle.std.specs.Prelude.{List};
    ghost use Rattle.ov_window.specs.Plan.{IsPlan};
    ghost use Rattle.ov_window.specs.declared.plan.Task.{Task};

    ghost Value = { List Task };

    ghost view = { λ p. p.tasks.items };

    ghost invariant = { λ p. IsPlan p.tasks.items };
}

impl Plan {
    /// The plan of a harvest: the items of its answers by version and then key, each version and key once. The input of a key is the
    /// place of its greatest lower version in the plan, else the value of the base just below the window, else absent. The only error
    /// is out of memory.
    pub fn build(
        alloc: Global,
        harvest: &Harvest,
        base: &VersionLists<Value>,
    ) -> Result<Plan, Memory>
        ensures { IfOk result (λ plan. plan ≡ plan_over base.now.entries harvest.now) }
    {
        let items = distinct_items(alloc, harvest.answers())?;
        planned(alloc, items, harvest.round().from, base)
    }

    /// Its tasks, by version and then key. Does not allocate.
    pub fn tasks(&self) -> &[Task]
        ensures tasks { result.now ≡ self.now }
        ensures form { IsPlan self.now }
    {
        self.tasks.as_slice()
    }
}

/// The plan of these items over the values just below a number.
fn planned(
    alloc: Global,
    items: Vec<&Item>,
    from: u64,
    base: &VersionLists<Value>,
) -> Result<Plan, Memory>
    ensures { IfOk result (λ plan. plan ≡ plan_of (map_below from base.now.entries) (union (map (λ one. one.now) items.entry.items))) }
{
    let items = united(items)?;
    let mut tasks = Vec::with_capacity(alloc, items.len())?;
    let mut places = VersionLists::new(alloc);
    places.reserve(items.len())?;
    for item in items {
        add_task(alloc, item, from, base, &mut tasks, &mut places)?;
    }
    Ok(Plan { tasks })
}

/// Adds the task of an item, which stands behind all before it, and its place.
fn add_task(
    alloc: Global,
    item: &Item,
    from: u64,
    base: &VersionLists<Value>,
    tasks: &mut Vec<Task>,
    places: &mut VersionLists<usize>,
) -> Result<(), Memory>
    ensures { OnOk result ((older : List items.Item) → ((other : items.Item) → Among other older → precedes other item.now ≡ true) → IsDraft (map_below from base.now.entries) older tasks.old.items places.old.entries → IsDraft (map_below from base.now.entries) (item.now ∷ older) tasks.new.items places.new.entries) }
{
    let inputs = inputs_of(alloc, &item.functor, item.version, from, base, places)?;
    let functor = item.functor.copy()?;
    places.insert(item.key, item.version, tasks.len())?;
    tasks.push(Task {
        version: item.version,
        key: item.key,
        functor,
        inputs,
    })?;
    Ok(())
}

/// The inputs of the keys that a functor reads.
fn inputs_of(
    alloc: Global,
    functor: &Functor,
    version: Version,
    from: u64,
    base: &VersionLists<Value>,
    places: &VersionLists<usize>,
) -> Result<Sequence<Input>, Memory>
    ensures { IfOk result (λ inputs. inputs ≡ map (input_at (map_below from base.now.entries) places.now.entries version) (reads functor.now)) }
{
    let count = functor.read_count();
    let mut inputs = Sequence::with_capacity(alloc, count)?;
    for index in 0..count {
        let key = functor.read_key(index);
        inputs.push(input_of(key, version, from, base, places))?;
    }
    Ok(inputs)
}

fn input_of(
    key: Key,
    version: Version,
    from: u64,
    base: &VersionLists<Value>,
    places: &VersionLists<usize>,
) -> Input
    ensures { result ≡ input_at (map_below from base.now.entries) places.now.entries version key }
{
    match places.latest(key, version.number()) {
        Some((_, place)) => Input::Earlier(*place),
        None => Input::Base(value_below(key, from, base)),
    }
}

/// The value of a key just below a number.
fn value_below(key: Key, from: u64, base: &VersionLists<Value>) -> Value
    ensures { result ≡ map_below from base.now.entries key }
{
    match base.latest(key, from) {
        Some((_, value)) => *value,
        None => Value::Absent,
    }
}
