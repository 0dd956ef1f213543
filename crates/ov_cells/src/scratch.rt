//! Room for an evaluation.
ghost use Rattle.std.specs.Prelude.{◌≡◌, ◌<◌, ◌≤◌, ◌+◌, ◌++◌, [], ◌∷◌, length, IfOk, vec_len, vec_capacity};
ghost use Rattle.ov_functor.specs.Functor.{reads};

use ov_base::{Memory, Value};
use ov_functor::Functor;
use ov_window::Plan;
use std::alloc::Global;
use std::marker::Model;

/// The most keys that a functor reads: its own, and two for each of its moves.
pub(crate) const MOST_INPUTS: usize = 17;

/// Room for the places that wait while a place is being set, and for the inputs of one of them, so that an evaluation takes no memory.
/// One evaluator uses it at a time, for cells of any plan that is no longer. Contracts see for how many places it has room.
#[derive(Drop)]
pub struct Scratch {
    room: usize,
    pub(crate) waiting: Vec<usize>,
    pub(crate) inputs: Vec<Value>,
}

impl Model for Scratch {
    ghost use Rattle.std.specs.Prelude.{◌≡◌, ℕ, ◌≤◌, [], vec_capacity};
    ghost use Rattle.ov_cells.specs.declared.scratch.TheConstants.{MOST_INPUTS};

    ghost Value = { ℕ };

    ghost view = { λ s. s.room };

    ghost invariant = { λ s. (s.waiting.items ≡ []) × (s.room ≤ vec_capacity s.waiting) × (MOST_INPUTS ≤ vec_capacity s.inputs) };
}

impl Scratch {
    /// Room for a plan's evaluation. The only error is out of memory.
    pub fn for_plan(alloc: Global, plan: &Plan) -> Result<Scratch, Memory>
        ensures { IfOk result (λ room. room ≡ length plan.now) }
    {
        let room = plan.tasks().len();
        Ok(Scratch {
            room,
            waiting: Vec::with_capacity(alloc, room)?,
            inputs: Vec::with_capacity(alloc, MOST_INPUTS)?,
        })
    }
}

/// Adds an item where there is room, so that nothing is allocated.
pub(crate) fn push_within<X: Drop>(items: &mut Vec<X>, item: X)
    requires { vec_len items.old < vec_capacity items.old }
    ensures items { items.new.items ≡ items.old.items ++ item ∷ [] }
    ensures len { vec_len items.new ≡ vec_len items.old + 1 }
    ensures capacity { vec_capacity items.old ≤ vec_capacity items.new }
{
    let _ = items.push(item);
}

/// Tells that a functor reads no more keys than there is room for.
pub(crate) fn has_few_inputs(functor: &Functor)
    ensures { length (reads functor.now) ≤ MOST_INPUTS }
{
    let _ = functor.moves();
}
