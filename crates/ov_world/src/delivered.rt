//! The letter that was taken last.
ghost use Rattle.std.specs.Prelude.{◌≡◌, ◌↔◌, reverse, IfOk, IsTrue, OnOk};
ghost use Rattle.std.specs.Option.{option_map};
ghost use Rattle.ov_history.specs.Past.{at};
ghost use Rattle.ov_history.specs.Letters.{letter as letter_at};
ghost use Rattle.ov_history.specs.Cores.{letter_for};
ghost use Rattle.ov_world.specs.Acts.{act_in};
ghost use Rattle.ov_world.specs.Delivered.{IsAt, IsKept, letter_in};

use crate::act::Act;
use ov_base::Memory;
use ov_event::{Entry, Letter, letter_of};
use ov_topology::{Place, Topology};
use std::alloc::Global;

/// A letter of a history, and its place.
#[derive(Drop)]
pub(crate) struct Delivered {
    pub place: Place,
    pub letter: Letter,
}

/// Keeps the letter that an act takes, where the history has it, so that it is made once for all who take it one after another. The
/// entries are those of the history, the oldest first. The only error is out of memory, and then no letter, or the old one, is kept.
pub(crate) fn keep_letter(
    alloc: Global,
    topology: &Topology,
    entries: &[Entry],
    act: Act,
    last: &mut Option<Delivered>,
) -> Result<(), Memory>
    requires { IsKept topology.now (reverse entries.now) last.old }
    ensures kept { IsKept topology.now (reverse entries.now) last.new }
    ensures taken { OnOk result (letter_in last.new (act_in act) ≡ letter_for topology.now (reverse entries.now) (act_in act)) }
{
    let Act::Take { place } = act else {
        return Ok(());
    };
    if is_at(last, place) {
        return Ok(());
    }
    *last = None;
    if let Some(letter) = letter_at(alloc, topology, entries, place)? {
        *last = Some(Delivered { place, letter });
    }
    Ok(())
}

/// Whether a letter of this place is kept.
fn is_at(last: &Option<Delivered>, place: Place) -> bool
    ensures { IsTrue result ↔ IsAt place last.now }
{
    match last {
        None => false,
        Some(kept) => kept.place == place,
    }
}

/// The letter that an act takes, where it is kept.
pub(crate) fn kept_letter(last: &Option<Delivered>, act: Act) -> Option<&Letter>
    ensures { option_map (λ one. one.now) result ≡ letter_in last.now (act_in act) }
{
    match (last, act) {
        (Some(kept), Act::Take { place }) => {
            if kept.place == place {
                Some(&kept.letter)
            } else {
                None
            }
        }
        _ => None,
    }
}

/// The history's letter at a place. None where it has none. Looks at one entry; the only error is out of memory.
fn letter_at(
    alloc: Global,
    topology: &Topology,
    entries: &[Entry],
    place: Place,
) -> Result<Option<Letter>, Memory>
    ensures { IfOk result (λ letter. letter ≡ letter_at topology.now (reverse entries.now) place) }
{
    match entry_at(entries, place.entry) {
        None => Ok(None),
        Some(entry) => letter_of(alloc, topology, entry, place.letter),
    }
}

/// The entry of a number, from 1, the oldest. None exactly where there is none.
fn entry_at(entries: &[Entry], number: u64) -> Option<&Entry>
    ensures { option_map (λ one. one.now) result ≡ at (reverse entries.now) number }
{
    if number == 0 {
        return None;
    }
    entries.get((number - 1) as usize)
}
