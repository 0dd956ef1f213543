//! Functors: the stored placeholders of values.
ghost use Rattle.std.specs.Prelude.{◌≡◌, ◌≤◌, ◌<◌, ◌*◌, ◌&&◌, not, nat_le, length, Some, slice_get};
ghost use Rattle.std.specs.List.{list_all, list_any};
ghost use Rattle.ov_base.specs.Lemmas.{exact_tests};
ghost use Rattle.ov_functor.specs.Functor.{reads, reads_own, move_keys, apply, applied, functor_holds, inputs_hold, input_at};
ghost use Rattle.ov_functor.specs.Form.{formed, is_functor, are_apart, stands_in, is_side, moves_some, effect_form, goes_from, goes_to};
ghost use Rattle.ov_functor.specs.Lemmas.Parts.{moves-cases};

use crate::effect::Effect;
use crate::part::Move;
use ov_base::{Amount, Key, Memory, Plain, Sequence, Value};
use std::marker::Model;

/// The most moves of a functor.
const MOST_MOVES: usize = 8;

/// Why a key, an effect and moves are no functor.
#[derive(Clone, Copy, Debug, PartialEq, Eq)]
pub enum FunctorError {
    /// They are off the form (docs/STORE.md, Functors).
    Form,
}

/// The placeholder of one key's value at one version: what becomes of the previous value of the key, where
/// all moves of the transaction hold. Its value is computed from the previous values of the keys that it
/// reads (docs/STORE.md, Functors). Contracts see its key, its effect and its moves.
#[derive(Debug, PartialEq, Eq, Drop)]
pub struct Functor {
    key: Key,
    effect: Effect,
    moves: Sequence<Move>,
}

impl Model for Functor {
    ghost use Rattle.std.specs.Prelude.{length, ◌≤◌};
    ghost use Rattle.ov_functor.specs.Placeholder.{Placeholder};

    ghost Value = { Placeholder };

    ghost view = { λ f. record { key = f.key; effect = f.effect; moves = f.moves } };

    ghost invariant = { λ f. length f.moves ≤ 8 };

    ghost inverse = { λ f. record { key = f.key; effect = f.effect; moves = f.moves } };
}

impl Functor {
    /// The functor of a key, its effect and its moves. `Form` comes exactly where they are off the form
    /// (docs/STORE.md, Functors). Does not allocate.
    pub fn new(key: Key, effect: Effect, moves: Vec<Move>) -> Result<Functor, FunctorError>
        ensures { result ≡ formed (record { key = key; effect = effect; moves = moves.items }) }
    {
        if is_form(&key, &effect, moves.as_slice()) {
            Ok(Functor {
                key,
                effect,
                moves: Sequence::from_vec(moves),
            })
        } else {
            Err(FunctorError::Form)
        }
    }

    /// The functor of a key, its effect and all moves of its transaction.
    pub(crate) fn of(key: Key, effect: Effect, moves: Sequence<Move>) -> Functor
        requires { length moves ≤ 8 }
        ensures { result ≡ record { key = key; effect = effect; moves = moves } }
    {
        Functor { key, effect, moves }
    }

    /// Its key.
    pub fn key(&self) -> Key
        ensures { result ≡ self.now.key }
    {
        self.key
    }

    /// What becomes of the previous value of its key.
    pub fn effect(&self) -> Effect
        ensures { result ≡ self.now.effect }
    {
        self.effect
    }

    /// The moves of its transaction, at most 8.
    pub fn moves(&self) -> &[Move]
        ensures moves { result.now ≡ self.now.moves }
        ensures few { length self.now.moves ≤ 8 }
    {
        self.moves.as_slice()
    }

    /// Whether its key, its effect and its moves are on the form of functors (docs/STORE.md, Functors).
    pub fn has_form(&self) -> bool
        ensures { result ≡ is_functor self.now }
    {
        is_form(&self.key, &self.effect, self.moves.as_slice())
    }

    /// Whether the own key is read first.
    fn reads_own_key(&self) -> bool
        ensures { result ≡ reads_own self.now.effect self.now.moves }
    {
        match self.effect {
            Effect::Put(_) => !self.moves.is_empty(),
            Effect::Del => !self.moves.is_empty(),
            Effect::Add(_) => true,
            Effect::Least(_) => true,
            Effect::Greatest(_) => true,
            Effect::Out(_) => false,
            Effect::In(_) => false,
        }
    }

    /// How many keys it reads, at most 17.
    pub fn read_count(&self) -> usize
        ensures { result ≡ length (reads self.now) }
    {
        let sides = 2 * self.moves().len();
        if self.reads_own_key() {
            sides + 1
        } else {
            sides
        }
    }

    /// The key that it reads at this place, from 0.
    pub fn read_key(&self, place: usize) -> Key
        requires { place < length (reads self.now) }
        ensures { slice_get (reads self.now) place ≡ Some result }
    {
        if self.reads_own_key() {
            if place == 0 {
                self.key
            } else {
                side_key(self.moves(), place - 1)
            }
        } else {
            side_key(self.moves(), place)
        }
    }

    /// Its value, from the previous values of the keys that it reads, in their order. Does not allocate.
    pub fn apply(&self, inputs: &[Value]) -> Value
        requires { length inputs.now ≡ length (reads self.now) }
        ensures { result ≡ apply self.now inputs.now }
    {
        if self.reads_own_key() {
            match inputs {
                [] => Value::Absent,
                [previous, sides @ ..] => apply_where(
                    &self.effect,
                    moves_cover(self.moves(), sides),
                    *previous,
                ),
            }
        } else {
            let previous = input_of(&self.key, self.moves(), inputs);
            apply_where(&self.effect, moves_cover(self.moves(), inputs), previous)
        }
    }

    /// Whether all its moves hold on the previous values of the keys that it reads. Does not allocate.
    pub fn moves_hold(&self, inputs: &[Value]) -> bool
        requires { length inputs.now ≡ length (reads self.now) }
        ensures { result ≡ functor_holds self.now inputs.now }
    {
        if self.reads_own_key() {
            match inputs {
                [] => false,
                [_, sides @ ..] => moves_cover(self.moves(), sides),
            }
        } else {
            moves_cover(self.moves(), inputs)
        }
    }
}

impl Plain for Functor {
    ghost exact = { λ x y h. Prim.grind (exact_tests, moves-cases) };

    fn copy(&self) -> Result<Functor, Memory> {
        Ok(Functor {
            key: self.key,
            effect: self.effect,
            moves: self.moves.copy()?,
        })
    }
}

/// The key at this place among those of the moves, two for each.
fn side_key(moves: &[Move], place: usize) -> Key
    requires { place < length (move_keys moves.now) }
    ensures { slice_get (move_keys moves.now) place ≡ Some result }
{
    let one = &moves[place / 2];
    if place % 2 == 0 { one.from } else { one.to }
}

/// Whether the moves hold on these inputs, two for each.
fn moves_cover(moves: &[Move], inputs: &[Value]) -> bool
    requires { length inputs.now ≡ 2 * length moves.now }
    ensures { result ≡ inputs_hold moves.now inputs.now }
{
    for index in 0..moves.len() {
        if !moves[index].holds(inputs[2 * index], inputs[2 * index + 1]) {
            return false;
        }
    }
    true
}

/// The input of the key among those of the moves, two for each.
fn input_of(key: &Key, moves: &[Move], inputs: &[Value]) -> Value
    requires { length inputs.now ≡ 2 * length moves.now }
    ensures { result ≡ input_at key.now moves.now inputs.now }
{
    for index in 0..moves.len() {
        let one = &moves[index];
        if one.from == *key {
            return inputs[2 * index];
        }
        if one.to == *key {
            return inputs[2 * index + 1];
        }
    }
    Value::Absent
}

/// The effect on the previous value where the moves hold, else that value.
fn apply_where(effect: &Effect, holds: bool, previous: Value) -> Value
    ensures { result ≡ applied effect.now holds previous }
{
    if holds {
        effect.change(previous)
    } else {
        previous
    }
}

/// Whether these are a functor.
fn is_form(key: &Key, effect: &Effect, moves: &[Move]) -> bool
    ensures { result ≡ is_functor (record { key = key.now; effect = effect.now; moves = moves.now }) }
{
    moves.len() <= MOST_MOVES
        && are_distinct(moves)
        && all_move_some(moves)
        && fits_effect(key, effect, moves)
}

/// Whether the keys of the moves are distinct.
fn are_distinct(moves: &[Move]) -> bool
    ensures { result ≡ are_apart moves.now }
{
    for (index, one) in moves.iter().enumerate() {
        let others = &moves[index + 1..];
        if one.from == one.to || stands_among(&one.from, others) || stands_among(&one.to, others) {
            return false;
        }
    }
    true
}

/// Whether the key stands in a move.
fn stands_among(key: &Key, moves: &[Move]) -> bool
    ensures { result ≡ stands_in key.now moves.now }
{
    moves.iter().any(|one| is_side_of(key, one))
}

fn is_side_of(key: &Key, one: &Move) -> bool
    ensures { result ≡ is_side key.now one.now }
{
    one.from == *key || one.to == *key
}

/// Whether each move is of at least 1.
fn all_move_some(moves: &[Move]) -> bool
    ensures { result ≡ list_all moves_some moves.now }
{
    moves.iter().all(|one| one.amount.get() >= 1)
}

/// Whether the effect is one side of a move, or else the key stands in none and there is room for its read.
fn fits_effect(key: &Key, effect: &Effect, moves: &[Move]) -> bool
    ensures { result ≡ effect_form key.now effect.now moves.now }
{
    match effect {
        Effect::Out(amount) => goes_out(key, *amount, moves),
        Effect::In(amount) => goes_in(key, *amount, moves),
        Effect::Put(_) => leaves_out(key, moves),
        Effect::Del => leaves_out(key, moves),
        Effect::Add(_) => leaves_out(key, moves),
        Effect::Least(_) => leaves_out(key, moves),
        Effect::Greatest(_) => leaves_out(key, moves),
    }
}

fn leaves_out(key: &Key, moves: &[Move]) -> bool
    ensures { result ≡ (not (stands_in key.now moves.now) && nat_le (length moves.now) 7) }
{
    !stands_among(key, moves) && moves.len() < MOST_MOVES
}

fn goes_out(key: &Key, amount: Amount, moves: &[Move]) -> bool
    ensures { result ≡ list_any (goes_from key.now amount) moves.now }
{
    moves
        .iter()
        .any(|one| one.from == *key && one.amount == amount)
}

fn goes_in(key: &Key, amount: Amount, moves: &[Move]) -> bool
    ensures { result ≡ list_any (goes_to key.now amount) moves.now }
{
    moves
        .iter()
        .any(|one| one.to == *key && one.amount == amount)
}
