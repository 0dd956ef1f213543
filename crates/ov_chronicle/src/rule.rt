//! The rule of the lock, and what each step tells.
use crate::saga::Saga;
use atomic_table::{Join, Play, Split, TableRule};
use std::collections::LinkedList;
use std::marker::PhantomData;
use std::snapshot::Snapshot;

/// What a seat that was taken in had seen, and at which of its turns last. No value of it is made.
pub struct Past<E, T> {
    pub actor: u64,
    pub setting: T,
    pub turn: u64,
    pub seen: LinkedList<E>,
}

/// What a seat knows. No value of it is made.
pub struct View<E, T> {
    /// The seat was not taken in by another.
    pub live: bool,
    /// It is the seat that makes the others and takes them in.
    pub first: bool,
    /// How many seats the first one made, with itself.
    pub made: u64,
    /// How many of them it has not taken in.
    pub alive: u64,
    /// Those that it has taken in.
    pub joined: LinkedList<Past<E, T>>,
    /// The number of the seat's actor.
    pub actor: u64,
    /// How many actors the history is for.
    pub actors: u64,
    pub setting: T,
    pub limit: u64,
    /// The history after the seat's last turn.
    pub seen: LinkedList<E>,
    /// The number of that turn, 0 before the first.
    pub turn: u64,
    /// The seat has drawn a ticket that was not served.
    pub waits: bool,
    pub ticket: u64,
    /// It has the turn.
    pub has: bool,
}

/// What the table is told when it is made.
pub struct Terms<T> {
    pub limit: u64,
    pub actors: u64,
    pub setting: Snapshot<T>,
}

impl<T> Drop for Terms<T> {
    fn drop(self) {
        let Self {
            limit: _,
            actors: _,
            setting: _,
        } = self;
    }
}

/// The rule: one history, and tickets served in their order.
pub struct Law<S> {
    saga: PhantomData<S>,
}

impl<S: Saga> TableRule<Vec<S::Entry>, View<S::Entry, Option<S::Setting>>, Terms<S::Setting>>
    for Law<S> {
    ghost use Rattle.std.specs.Prelude.{Some};
    ghost use Rattle.std.specs.Vec.{vec_capacity};
    ghost use Rattle.ov_chronicle.specs.Rules.{IsKept, founder, lawful_in};

    ghost holds = { λ terms s. IsKept (λ v. v.items) vec_capacity S.actor_of (lawful_in S.lawful) s.words s.homes s.views };

    ghost first = { λ terms. founder (Some terms.setting.value) terms.limit terms.actors };
}

/// A ticket is drawn.
pub struct Draw;

impl<E, T> Play<Vec<E>, View<E, T>> for Draw {
    ghost use Rattle.ov_chronicle.specs.Rules.{Draws};

    ghost then = { Draws };
}

/// A look at whose turn it is.
pub struct Turn<S> {
    saga: PhantomData<S>,
}

impl<S: Saga> Play<Vec<S::Entry>, View<S::Entry, Option<S::Setting>>> for Turn<S> {
    ghost use Rattle.std.specs.Vec.{vec_capacity};
    ghost use Rattle.ov_chronicle.specs.Rules.{Turns, lawful_in};

    ghost then = { Turns (λ v. v.items) vec_capacity S.actor_of (lawful_in S.lawful) };
}

/// The turn is given up.
pub struct Serve;

impl<E, T> Play<Vec<E>, View<E, T>> for Serve {
    ghost use Rattle.ov_chronicle.specs.Rules.{Serves};

    ghost then = { Serves (λ v. v.items) };
}

/// The first seat makes another, with the next number.
pub struct Makes;

impl<E, T> Split<View<E, T>> for Makes {
    ghost use Rattle.ov_chronicle.specs.Rules.{maker, made};

    ghost left = { maker };

    ghost right = { made };
}

/// The first seat takes another in.
pub struct TakesIn;

impl<E, T> Join<View<E, Option<T>>> for TakesIn {
    ghost use Rattle.std.specs.Prelude.{None};
    ghost use Rattle.ov_chronicle.specs.Rules.{taker, gone};

    ghost both = { taker };

    ghost spent = { gone None };
}
