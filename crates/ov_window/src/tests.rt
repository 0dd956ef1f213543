//! Harvests, plans and their values on small windows, and a long one.
ghost use Rattle.std.specs.Prelude.{◌≡◌};
ghost use Rattle.std.specs.List.{list_all};
ghost use Rattle.ov_functor.specs.Transaction.{is_positive};

use crate::{Harvest, Plan, Round, eval_all, place_values, plan_values};
use ov_base::{Plain, Shared, Value, Version};
use ov_functor::{Item, Part, Transaction, items_of, parse_parts};
use ov_lists::VersionLists;
use ov_topology::{Mode, Topology};
use std::alloc::Global;
use std::test::Fail;

const ROUND: Round = Round {
    mode: Mode::Quorum,
    settler: 0,
    from: 0,
    below: 1 << 62,
};

fn is_positive(part: &Part) -> bool
    ensures { result ≡ is_positive part.now }
{
    match part {
        Part::Move { amount, .. } => amount.get() >= 1,
        _ => true,
    }
}

fn are_positive(parts: &[Part]) -> bool
    ensures { result ≡ list_all is_positive parts.now }
{
    parts.iter().all(|part| is_positive(part))
}

/// Adds the items of a transaction that was begun at a time.
fn add_items(alloc: Global, time: u64, text: &str, items: &mut Vec<Item>) -> Result<(), Fail> {
    let parts = parse_parts(alloc, text.as_bytes())?.ok_or("parts")?;
    let made = if are_positive(parts.as_slice()) {
        Transaction::new(parts).ok()
    } else {
        None
    };
    let transaction = made.ok_or("a transaction")?;
    let version = Version::new(time, 0).ok_or("a version")?;
    for item in items_of(alloc, version, &transaction)?.into_vec() {
        items.push(item)?;
    }
    Ok(())
}

/// The amounts of a plan's values.
fn amounts_of(alloc: Global, plan: &Plan) -> Result<Vec<i64>, Fail> {
    let mut amounts = Vec::new(alloc);
    for value in eval_all(alloc, plan)?.as_slice() {
        amounts.push(value.or_zero().get())?;
    }
    Ok(amounts)
}

#[test]
fn two_of_three_answers_complete_a_partition(rt: HostRuntime) -> Result<(), Fail> {
    let topology = Topology::of(rt.alloc(), 3, 1, &[0], 2, 2)?;
    let mut harvest = Harvest::new(rt.alloc(), &topology, ROUND)?;
    assert_eq!(rt; harvest.add(0, 0, &[])?, true);
    assert_eq!(rt; harvest.add(0, 0, &[])?, false);
    assert_eq!(rt; (harvest.complete(0), harvest.whole()), (false, false));
    assert_eq!(rt; harvest.add(2, 0, &[])?, true);
    assert_eq!(rt; (harvest.complete(0), harvest.whole()), (true, true));
    assert_eq!(rt;
        (harvest.complete(1), harvest.round().below),
        (false, 1 << 62)
    );
    Ok(())
}

#[test]
fn a_move_takes_the_values_of_earlier_places(rt: HostRuntime) -> Result<(), Fail> {
    let topology = Topology::of(rt.alloc(), 3, 1, &[0], 2, 2)?;
    let mut harvest = Harvest::new(rt.alloc(), &topology, ROUND)?;
    let base: VersionLists<Value> = VersionLists::new(rt.alloc());
    let mut items = Vec::new(rt.alloc());
    add_items(rt.alloc(), 2, "move a b 2", &mut items)?;
    assert_eq!(rt; harvest.add(0, 0, items.as_slice())?, true);
    add_items(rt.alloc(), 1, "put a 3", &mut items)?;
    assert_eq!(rt; harvest.add_shared(1, 0, Shared::of(items)?)?, true);
    let plan = Plan::build(rt.alloc(), &harvest, &base)?;
    assert_eq!(rt;
        amounts_of(rt.alloc(), &plan)?.as_slice(),
        [3, 1, 2].as_slice()
    );
    let plan = Plan::build(rt.alloc(), &harvest, &base)?;
    let mut places = Vec::new(rt.alloc());
    for task in plan.tasks() {
        places.push((task.version.time(), task.inputs.len()))?;
    }
    assert_eq!(rt; places.as_slice(), [(1, 0), (2, 2), (2, 2)].as_slice());
    plan_values();
    place_values();
    Ok(())
}

#[test]
fn equal_answers_and_empty_ones_add_nothing(rt: HostRuntime) -> Result<(), Fail> {
    let topology = Topology::of(rt.alloc(), 3, 2, &[0], 2, 2)?;
    let mut harvest = Harvest::new(rt.alloc(), &topology, ROUND)?;
    let base: VersionLists<Value> = VersionLists::new(rt.alloc());
    let mut items = Vec::new(rt.alloc());
    add_items(rt.alloc(), 1, "put a 3", &mut items)?;
    let answer = Shared::of(items)?;
    let mut others = Vec::new(rt.alloc());
    add_items(rt.alloc(), 2, "add a 4", &mut others)?;
    assert_eq!(rt; harvest.add(2, 0, &[])?, true);
    assert_eq!(rt; harvest.add_shared(0, 1, Shared::of(others)?)?, true);
    assert_eq!(rt; harvest.add_shared(0, 0, answer.copy()?)?, true);
    assert_eq!(rt; harvest.add(1, 0, answer.as_slice())?, true);
    assert_eq!(rt; harvest.add_shared(1, 0, answer)?, false);
    let plan = Plan::build(rt.alloc(), &harvest, &base)?;
    assert_eq!(rt;
        amounts_of(rt.alloc(), &plan)?.as_slice(),
        [3, 7].as_slice()
    );
    Ok(())
}

#[test]
fn five_thousand_sums_of_one_key(rt: HostRuntime) -> Result<(), Fail> {
    let topology = Topology::of(rt.alloc(), 1, 1, &[0], 1, 1)?;
    let mut harvest = Harvest::new(rt.alloc(), &topology, ROUND)?;
    let base: VersionLists<Value> = VersionLists::new(rt.alloc());
    let mut items = Vec::new(rt.alloc());
    for time in 1..5001 {
        add_items(rt.alloc(), time, "add x 1", &mut items)?;
    }
    assert_eq!(rt; harvest.add_shared(0, 0, Shared::of(items)?)?, true);
    let plan = Plan::build(rt.alloc(), &harvest, &base)?;
    let mut wanted = Vec::new(rt.alloc());
    for amount in 1..5001 {
        wanted.push(amount)?;
    }
    assert_eq!(rt;
        amounts_of(rt.alloc(), &plan)?.as_slice(),
        wanted.as_slice()
    );
    Ok(())
}
