//! Evaluating a plan in its order.
ghost use Rattle.std.specs.Prelude.{◌≡◌, ◌++◌, map, IfOk, OnOk};
ghost use Rattle.ov_window.specs.Evaluation.{input_value, values_of};

use crate::plan::{Input, Plan};
use ov_base::{Memory, Value};
use std::alloc::Global;

/// The value of each place of the plan, each computed once, in the order of the places. The only error is out of memory.
pub fn eval_all(alloc: Global, plan: &Plan) -> Result<Vec<Value>, Memory>
    ensures { IfOk result (λ values. values.items ≡ values_of plan.now) }
{
    let mut values = Vec::with_capacity(alloc, plan.tasks().len())?;
    let mut inputs = Vec::new(alloc);
    for task in plan.tasks() {
        inputs.clear();
        gather(task.inputs.as_slice(), values.as_slice(), &mut inputs)?;
        values.push(task.functor.apply(inputs.as_slice()))?;
    }
    Ok(values)
}

/// Adds the value of each input.
fn gather(inputs: &[Input], values: &[Value], gathered: &mut Vec<Value>) -> Result<(), Memory>
    ensures { OnOk result (gathered.new.items ≡ gathered.old.items ++ map (input_value values.now) inputs.now) }
{
    for input in inputs {
        gathered.push(value_of(input, values))?;
    }
    Ok(())
}

fn value_of(input: &Input, values: &[Value]) -> Value
    ensures { result ≡ input_value values.now input.now }
{
    match input {
        Input::Base(value) => *value,
        Input::Earlier(place) => match values.get(*place) {
            Some(value) => *value,
            None => Value::Absent,
        },
    }
}
