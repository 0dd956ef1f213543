//! Cells of small plans, and of a chain of 5,000.

use crate::{Cells, Scratch, known_values};
use ov_base::{Amount, Key, Value, Version};
use ov_functor::{Effect, Functor, Item, Move};
use ov_lists::VersionLists;
use ov_topology::{Mode, Topology};
use ov_window::{Harvest, Plan, Round};
use std::alloc::Global;
use std::test::Fail;

const ROUND: Round = Round {
    mode: Mode::Quorum,
    settler: 0,
    from: 0,
    below: 1 << 62,
};

fn amount(number: i64) -> Result<Amount, Fail> {
    Ok(Amount::new(number).ok_or("an amount")?)
}

fn key(text: &str) -> Result<Key, Fail> {
    Ok(Key::from_bytes(text.as_bytes()).ok_or("a key")?)
}

fn item(time: u64, key: Key, effect: Effect, moves: Vec<Move>) -> Result<Item, Fail> {
    Ok(Item {
        version: Version::new(time, 0).ok_or("a version")?,
        key,
        functor: Functor::new(key, effect, moves).ok().ok_or("a functor")?,
    })
}

/// The plan of these items over no older values.
fn plan_of(alloc: Global, items: &[Item]) -> Result<Plan, Fail> {
    let topology = Topology::of(alloc, 1, 1, &[0], 1, 1)?;
    let mut harvest = Harvest::new(alloc, &topology, ROUND)?;
    harvest.add(0, 0, items)?;
    let base: VersionLists<Value> = VersionLists::new(alloc);
    Ok(Plan::build(alloc, &harvest, &base)?)
}

/// The plan of `add x 1` at 1.0 and on, so many times.
fn chain(alloc: Global, count: u64) -> Result<Plan, Fail> {
    let mut items = Vec::new(alloc);
    for place in 0..count {
        let one = item(
            place + 1,
            key("x")?,
            Effect::Add(amount(1)?),
            Vec::new(alloc),
        )?;
        items.push(one)?;
    }
    plan_of(alloc, items.as_slice())
}

/// The plan of `put a 3` and `put b 4` at 1.0.
fn two_puts(alloc: Global) -> Result<Plan, Fail> {
    let a = item(1, key("a")?, Effect::Put(amount(3)?), Vec::new(alloc))?;
    let b = item(1, key("b")?, Effect::Put(amount(4)?), Vec::new(alloc))?;
    plan_of(alloc, Vec::from_array(alloc, [a, b])?.as_slice())
}

/// The plan of `put a 3` at 1.0 and `move a b 2` at 2.0.
fn a_move(alloc: Global) -> Result<Plan, Fail> {
    let (from, to) = (key("a")?, key("b")?);
    let (three, amount) = (amount(3)?, amount(2)?);
    let one = Move { from, to, amount };
    let moves = Vec::from_array(alloc, [one])?;
    let out = item(2, from, Effect::Out(amount), moves)?;
    let moves = Vec::from_array(alloc, [one])?;
    let into = item(2, to, Effect::In(amount), moves)?;
    let put = item(1, from, Effect::Put(three), Vec::new(alloc))?;
    plan_of(alloc, Vec::from_array(alloc, [put, out, into])?.as_slice())
}

fn number(value: &Value) -> i64 {
    value.or_zero().get()
}

/// The numbers of values, None where there is no value.
fn numbers_of(alloc: Global, values: &[Option<Value>]) -> Result<Vec<Option<i64>>, Fail> {
    let mut numbers = Vec::with_capacity(alloc, values.len())?;
    for value in values {
        let one = match value {
            Some(value) => Some(number(value)),
            None => None,
        };
        numbers.push(one)?;
    }
    Ok(numbers)
}

/// What two seats and a third answer over the chain of 5,000, and what closing with those that are left gives.
fn of_three_seats(alloc: Global) -> Result<([i64; 4], Vec<Option<i64>>), Fail> {
    let (cells, mut first) = Cells::new(alloc, chain(alloc, 5_000)?)?;
    let mut scratch = Scratch::for_plan(alloc, cells.plan())?;
    let mut second = cells.split(&mut first)?;
    if cells.plan().tasks().len() != 5_000 {
        return Err(Fail::from("5,000 places"));
    }
    let forced = cells.force(&mut first, &mut scratch, 4_999);
    let looked = cells.look(&mut first, 4_999);
    let other = cells.force(&mut second, &mut scratch, 0);
    let mut third = cells.split(&mut first)?;
    let split = cells.look(&mut third, 4_999);
    cells.join(&mut first, second);
    let seats = Vec::from_array(alloc, [first, third])?;
    let (_, values) = cells.close(alloc, seats).ok().ok_or("memory")?;
    let answers = [
        number(&forced),
        number(&looked),
        number(&other),
        number(&split),
    ];
    Ok((answers, numbers_of(alloc, values.as_slice())?))
}

fn can_cross<T: Send>(_value: &T) {}

/// What closing gives after the first of two places was forced.
fn of_one_place(alloc: Global) -> Result<Vec<Option<i64>>, Fail> {
    let (cells, mut seat) = Cells::new(alloc, two_puts(alloc)?)?;
    let mut scratch = Scratch::for_plan(alloc, cells.plan())?;
    can_cross(&(&cells, &mut seat, &mut scratch));
    if cells.plan().tasks().len() != 2 {
        return Err(Fail::from("2 places"));
    }
    cells.force(&mut seat, &mut scratch, 0);
    let seats = Vec::from_array(alloc, [seat])?;
    let (_, values) = cells.close(alloc, seats).ok().ok_or("memory")?;
    numbers_of(alloc, values.as_slice())
}

/// What the places of a put and a move answer, the last place first.
fn of_a_move(alloc: Global) -> Result<[i64; 3], Fail> {
    let (cells, mut seat) = Cells::new(alloc, a_move(alloc)?)?;
    let mut scratch = Scratch::for_plan(alloc, cells.plan())?;
    if cells.plan().tasks().len() != 3 {
        return Err(Fail::from("3 places"));
    }
    let last = cells.force(&mut seat, &mut scratch, 2);
    let second = cells.force(&mut seat, &mut scratch, 1);
    let first = cells.force(&mut seat, &mut scratch, 0);
    Ok([number(&last), number(&second), number(&first)])
}

#[test]
fn seats_know_what_was_forced(rt: HostRuntime) -> Result<(), Fail> {
    let (answers, numbers) = of_three_seats(rt.alloc())?;
    assert_eq!(rt; answers, [5_000, 5_000, 1, 5_000]);
    let mut expected = Vec::new(rt.alloc());
    for number in 1..5_001 {
        expected.push(Some(number))?;
    }
    assert_eq!(rt; numbers.as_slice(), expected.as_slice());
    Ok(())
}

#[test]
fn a_place_that_nobody_knows_shows_none(rt: HostRuntime) -> Result<(), Fail> {
    let numbers = of_one_place(rt.alloc())?;
    assert_eq!(rt; numbers.as_slice(), [Some(3), None].as_slice());
    known_values();
    Ok(())
}

#[test]
fn a_move_is_forced_from_its_last_place(rt: HostRuntime) -> Result<(), Fail> {
    assert_eq!(rt; of_a_move(rt.alloc())?, [2, 1, 3]);
    Ok(())
}
