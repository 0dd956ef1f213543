//! The rule of the words, and what each step tells the seat that makes it.
use atomic_table::{Join, Play, Split, TableRule};
use ov_base::Value;
use ov_window::Plan;
use std::collections::LinkedList;

/// What a seat knows: the values of the plan, the places that it knows to be set, and its parts of the right to close. No value of it
/// is ever made.
pub struct View {
    /// The value of each place of the plan.
    pub values: LinkedList<Value>,
    /// The places that it knows to be set.
    pub known: LinkedList<usize>,
    /// Its parts of the right to close; a seat that was joined into another has none.
    pub parts: u64,
}

/// The rule: each word is 0 or the code of its place's value, and what a seat knows to be set is set.
pub struct Kept;

impl TableRule<(), View, Plan> for Kept {
    ghost use Rattle.ov_window.specs.Evaluation.{values_of};
    ghost use Rattle.ov_cells.specs.Rules.{IsKept, fresh};

    ghost holds = { λ plan s. IsKept (values_of plan) s.words s.views };

    ghost first = { λ plan. fresh (values_of plan) };
}

/// A load of a place's word.
pub struct Look;

impl Play<(), View> for Look {
    ghost use Rattle.ov_cells.specs.Rules.{Looks};

    ghost then = { Looks };
}

/// An exchange of a place's word from 0 to the code of its value.
pub struct Fill;

impl Play<(), View> for Fill {
    ghost use Rattle.ov_cells.specs.Rules.{Fills};

    ghost then = { Fills };
}

/// A load that tells that a seat has no more parts than there are.
pub struct Count;

impl Play<(), View> for Count {
    ghost use Rattle.ov_cells.specs.Rules.{Counts};

    ghost then = { Counts };
}

/// A seat is cut in two that know the same. The new one has half of the parts, rounded down.
pub struct Halves;

impl Split<View> for Halves {
    ghost use Rattle.ov_cells.specs.Rules.{left_half, right_half};

    ghost left = { left_half };

    ghost right = { right_half };
}

/// A seat takes in another, and what it knows.
pub struct Both;

impl Join<View> for Both {
    ghost use Rattle.ov_cells.specs.Rules.{joined, spent};

    ghost both = { joined };

    ghost spent = { spent };
}
