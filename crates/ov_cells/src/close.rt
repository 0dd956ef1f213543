//! Closing the cells.
ghost use Rattle.std.specs.Prelude.{◌≡◌, ℕ, ◌≤◌, [], length, IfOk, IfErr, vec_capacity};
ghost use Rattle.std.specs.List.{AllByRecursion};
ghost use Rattle.ov_window.specs.Evaluation.{values_of};
ghost use Rattle.ov_cells.specs.Rules.{all_parts, has};
ghost use Rattle.ov_cells.specs.Seats.{IsSeatOf, known_by, parts_of, shown_by, shown_from};

use crate::cells::{CellSeat, Cells};
use crate::scratch::push_within;
use crate::word::value_in;
use ov_base::Value;
use ov_window::Plan;
use std::alloc::Global;

/// Cells that were not closed for want of memory, with their seats, all untouched.
#[derive(Drop)]
pub struct Unclosed {
    /// The cells.
    pub cells: Cells,
    /// The seats that were handed in.
    pub seats: Vec<CellSeat>,
}

impl Cells {
    /// The plan, and the value of each of its places, None exactly where none of the seats knows the place. The only error is out of
    /// memory, and then all is handed back untouched. Condition: the seats are all that were made of these cells and not joined, so
    /// that their parts add up to all.
    pub fn close(
        self,
        alloc: Global,
        seats: Vec<CellSeat>,
    ) -> Result<(Plan, Vec<Option<Value>>), Unclosed>
        requires own { AllByRecursion (IsSeatOf self) seats.items }
        requires whole { parts_of seats.items ≡ all_parts }
        ensures ok { IfOk result (λ closed. (closed.0 ≡ self.tasks) × (closed.1.items ≡ shown_by seats.items self.tasks)) }
        ensures err { IfErr result (λ unclosed. (unclosed.cells ≡ self) × (unclosed.seats.items ≡ seats.items)) }
    {
        match Vec::with_capacity(alloc, self.plan.tasks().len()) {
            Ok(values) => {
                let seat = self.joined(seats);
                Ok(self.shown(seat, values))
            }
            Err(_) => Err(Unclosed { cells: self, seats }),
        }
    }

    /// All these seats as one.
    fn joined(&self, seats: Vec<CellSeat>) -> CellSeat
        requires own { AllByRecursion (IsSeatOf self.now) seats.items }
        requires whole { parts_of seats.items ≡ all_parts }
        ensures own { IsSeatOf self.now result }
        ensures whole { result.parts ≡ all_parts }
        ensures known { (place : ℕ) → has result.known place ≡ known_by seats.items place }
    {
        let mut others = seats;
        let Some(mut seat) = others.pop() else {
            unreachable!()
        };
        while let Some(other) = others.pop() {
            self.join(&mut seat, other);
        }
        seat
    }

    /// The plan, and the values that the one seat knows, put into a `Vec` that has room for them.
    fn shown(self, seat: CellSeat, mut values: Vec<Option<Value>>) -> (Plan, Vec<Option<Value>>)
        requires own { IsSeatOf self seat }
        requires whole { seat.parts ≡ all_parts }
        requires empty { values.items ≡ [] }
        requires room { length self.tasks ≤ vec_capacity values }
        ensures plan { result.0 ≡ self.tasks }
        ensures values { result.1.items ≡ shown_from (has seat.known) 0 (values_of self.tasks) }
    {
        let Cells { plan, table } = self;
        let CellSeat { seat, parts: _ } = seat;
        let closed = table.close_with(seat);
        for place in 0..plan.tasks().len() {
            push_within(&mut values, value_in(closed.word(place + 1)));
        }
        closed.free();
        (plan, values)
    }
}
