//! The items of answers without repeats: where nodes agree, one of their equal answers stands for all.
ghost use Rattle.std.specs.Prelude.{◌≡◌, ◌++◌, map, IfOk, IsTrue, OnOk};
ghost use Rattle.ov_functor.specs.Unions.{union};
ghost use Rattle.ov_window.specs.Harvest.{joined};

use ov_base::{Memory, Shared, same};
use ov_functor::Item;
use std::alloc::Global;

/// The items of the answers, one answer behind the other, without each answer that equals an earlier one: the union is the same. The
/// only error is out of memory.
pub fn distinct_items<'a>(
    alloc: Global,
    answers: &'a [Shared<Item>],
) -> Result<Vec<&'a Item>, Memory>
    ensures { IfOk result (λ v. union (map (λ one. one.now) v.items) ≡ union (joined answers.now)) }
{
    let kept = distinct_answers(alloc, answers)?;
    let mut items = Vec::new(alloc);
    for answer in kept.as_slice() {
        add_items(answer.as_slice(), &mut items)?;
    }
    Ok(items)
}

/// The answers without those that have no item or equal an earlier one.
fn distinct_answers<'a>(
    alloc: Global,
    answers: &'a [Shared<Item>],
) -> Result<Vec<&'a Shared<Item>>, Memory>
    ensures { IfOk result (λ v. union (joined (map (λ one. one.now) v.items)) ≡ union (joined answers.now)) }
{
    let mut kept = Vec::new(alloc);
    for answer in answers {
        if !adds_nothing(kept.as_slice(), answer) {
            kept.push(answer)?;
        }
    }
    Ok(kept)
}

/// Whether an answer has no item or equals one of these, so that it adds nothing to their union.
fn adds_nothing(kept: &[&Shared<Item>], answer: &Shared<Item>) -> bool
    ensures { IsTrue result → union (joined (map (λ one. one.now) kept.now) ++ answer.now) ≡ union (joined (map (λ one. one.now) kept.now)) }
{
    if answer.is_empty() {
        return true;
    }
    for other in kept {
        if same(*other, answer) {
            return true;
        }
    }
    false
}

/// Adds a reference to each item.
fn add_items<'a>(items: &'a [Item], found: &mut Vec<&'a Item>) -> Result<(), Memory>
    ensures { OnOk result (map (λ one. one.now) found.new.items ≡ map (λ one. one.now) found.old.items ++ items.now) }
{
    found.reserve(items.len())?;
    for item in items {
        found.push(item)?;
    }
    Ok(())
}
