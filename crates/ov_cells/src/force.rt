//! Looking at places and setting them.
ghost use Rattle.std.specs.Prelude.{◌≡◌, ℕ, ◌+◌, ◌<◌, ◌≤◌, false, [], length, map, IfOk, IfErr, OnOk, IfSome, IfNone, vec_capacity};
ghost use Rattle.ov_window.specs.Evaluation.{input_value, values_of};
ghost use Rattle.ov_window.specs.Plan.{IsBefore, IsFed};
ghost use Rattle.ov_cells.specs.Rules.{has};
ghost use Rattle.ov_cells.specs.Seats.{HasLearnt, IsSeatOf, Knows, KnowsMore, value_at};

use crate::cells::{CellSeat, Cells};
use crate::rule::{Fill, Look};
use crate::scratch::{MOST_INPUTS, Scratch, has_few_inputs, push_within};
use crate::word::{value_in, value_of, word_of};
use ov_base::Value;
use ov_window::{Input, Task};

impl Cells {
    /// The value of a place, read from its word. Does not wait, and does not allocate. Condition: the seat is of these cells, and it
    /// knows the place, which is in the plan.
    pub fn look(&self, seat: &mut CellSeat, place: usize) -> Value
        requires own { IsSeatOf self.now seat.old }
        requires place { place < length self.now.tasks }
        requires known { Knows seat.old place }
        ensures value { result ≡ value_at self.now.tasks place }
        ensures seat { seat.new ≡ seat.old }
    {
        value_of(self.table.shared.load::<Look>(&mut seat.seat, place + 1))
    }

    /// The value of a place, which is then set, and known to the seat. Where its word is empty, the places that it needs are set first,
    /// each from its inputs, without recursion. Does not wait, and does not allocate. Condition: the seat is of these cells, the place
    /// is in the plan, and the scratch was made for a plan of that length or more.
    pub fn force(&self, seat: &mut CellSeat, scratch: &mut Scratch, place: usize) -> Value
        requires own { IsSeatOf self.now seat.old }
        requires place { place < length self.now.tasks }
        requires room { length self.now.tasks ≤ scratch.old }
        ensures value { result ≡ value_at self.now.tasks place }
        ensures known { Knows seat.new place }
        ensures own { IsSeatOf self.now seat.new }
        ensures more { KnowsMore seat.old seat.new }
        ensures only { (other : ℕ) → place < other → Knows seat.new other → Knows seat.old other }
        ensures parts { seat.new.parts ≡ seat.old.parts }
        ensures scratch { scratch.new ≡ scratch.old }
    {
        match self.try_set(seat, &mut scratch.inputs, place) {
            Ok(value) => value,
            Err(input) => self.set_from(
                seat,
                &mut scratch.waiting,
                &mut scratch.inputs,
                place,
                input,
            ),
        }
    }

    /// Sets a place by setting first the places that it needs, beginning with this input: each waits on the stack until those below it
    /// that it needs are set.
    fn set_from(
        &self,
        seat: &mut CellSeat,
        waiting: &mut Vec<usize>,
        inputs: &mut Vec<Value>,
        place: usize,
        input: usize,
    ) -> Value
        requires own { IsSeatOf self.now seat.old }
        requires place { place < length self.now.tasks }
        requires input { input < place }
        requires unset { (has seat.old.known place ≡ false) × (has seat.old.known input ≡ false) }
        requires empty { waiting.old.items ≡ [] }
        requires room { length self.now.tasks ≤ vec_capacity waiting.old }
        requires inputs { MOST_INPUTS ≤ vec_capacity inputs.old }
        ensures value { result ≡ value_at self.now.tasks place }
        ensures known { Knows seat.new place }
        ensures learnt { HasLearnt (place + 1) seat.old seat.new }
        ensures empty { waiting.new.items ≡ [] }
        ensures room { vec_capacity waiting.old ≤ vec_capacity waiting.new }
        ensures inputs { MOST_INPUTS ≤ vec_capacity inputs.new }
    {
        push_within(waiting, place);
        push_within(waiting, input);
        while let Some(next) = waiting.pop() {
            if let Err(needed) = self.try_set(seat, inputs, next) {
                push_within(waiting, next);
                push_within(waiting, needed);
            }
        }
        self.look(seat, place)
    }

    /// The value of a place, which is then known; or the first of its inputs whose word is empty.
    fn try_set(
        &self,
        seat: &mut CellSeat,
        inputs: &mut Vec<Value>,
        place: usize,
    ) -> Result<Value, usize>
        requires own { IsSeatOf self.now seat.old }
        requires place { place < length self.now.tasks }
        requires inputs { MOST_INPUTS ≤ vec_capacity inputs.old }
        ensures learnt { HasLearnt (place + 1) seat.old seat.new }
        ensures ok { IfOk result (λ value. (value ≡ value_at self.now.tasks place) × Knows seat.new place) }
        ensures err { IfErr result (λ input. (input < place) × (has seat.new.known input ≡ false) × (has seat.new.known place ≡ false)) }
        ensures inputs { MOST_INPUTS ≤ vec_capacity inputs.new }
    {
        if let Some(value) = self.peek(seat, place) {
            return Ok(value);
        }
        let task = &self.plan.tasks()[place];
        self.gather(seat, place, task, inputs)?;
        let value = task.functor.apply(inputs.as_slice());
        self.fill(seat, place, &value);
        Ok(value)
    }

    /// Gathers the values of the inputs of a place's task, up to the first whose word is empty, which is the answer.
    fn gather(
        &self,
        seat: &mut CellSeat,
        place: usize,
        task: &Task,
        gathered: &mut Vec<Value>,
    ) -> Result<(), usize>
        requires own { IsSeatOf self.now seat.old }
        requires place { place ≤ length self.now.tasks }
        requires fed { IsFed place task.now }
        requires inputs { MOST_INPUTS ≤ vec_capacity gathered.old }
        ensures learnt { HasLearnt place seat.old seat.new }
        ensures ok { OnOk result (gathered.new.items ≡ map (input_value (values_of self.now.tasks)) task.now.inputs) }
        ensures err { IfErr result (λ input. (input < place) × (has seat.new.known input ≡ false)) }
        ensures inputs { MOST_INPUTS ≤ vec_capacity gathered.new }
    {
        has_few_inputs(&task.functor);
        gathered.clear();
        for input in task.inputs.as_slice() {
            push_within(gathered, self.read(seat, place, input)?);
        }
        Ok(())
    }

    /// The value of an input of a place; or the input's place, where its word is empty.
    fn read(&self, seat: &mut CellSeat, place: usize, input: &Input) -> Result<Value, usize>
        requires own { IsSeatOf self.now seat.old }
        requires place { place ≤ length self.now.tasks }
        requires before { IsBefore place input.now }
        ensures learnt { HasLearnt place seat.old seat.new }
        ensures ok { IfOk result (λ value. value ≡ input_value (values_of self.now.tasks) input.now) }
        ensures err { IfErr result (λ needed. (needed < place) × (has seat.new.known needed ≡ false)) }
    {
        match input {
            Input::Base(value) => Ok(*value),
            Input::Earlier(earlier) => match self.peek(seat, *earlier) {
                Some(value) => Ok(value),
                None => Err(*earlier),
            },
        }
    }

    /// The value of a place, which is then known; None where its word is empty.
    fn peek(&self, seat: &mut CellSeat, place: usize) -> Option<Value>
        requires own { IsSeatOf self.now seat.old }
        requires place { place < length self.now.tasks }
        ensures learnt { HasLearnt (place + 1) seat.old seat.new }
        ensures some { IfSome result (λ value. (value ≡ value_at self.now.tasks place) × Knows seat.new place) }
        ensures none { IfNone result ((seat.new ≡ seat.old) × (has seat.old.known place ≡ false)) }
    {
        value_in(self.table.shared.load::<Look>(&mut seat.seat, place + 1))
    }

    /// Puts the value of a place into its word, where that is empty; the place is then known.
    fn fill(&self, seat: &mut CellSeat, place: usize, value: &Value)
        requires own { IsSeatOf self.now seat.old }
        requires place { place < length self.now.tasks }
        requires value { value.now ≡ value_at self.now.tasks place }
        ensures learnt { HasLearnt (place + 1) seat.old seat.new }
        ensures known { Knows seat.new place }
    {
        let word = word_of(*value);
        self.table
            .shared
            .compare_exchange::<Fill>(&mut seat.seat, place + 1, 0, word);
    }
}
