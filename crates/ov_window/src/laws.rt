//! Laws: statements about plans and their values, proved. They do nothing when they are called.
ghost use Rattle.std.specs.Prelude.{◌≡◌, ℕ, List, Some, get_or, map, slice_get};
ghost use Rattle.ov_base.specs.declared.value.Value.{Value};
ghost use Rattle.ov_functor.specs.Execution.{Map};
ghost use Rattle.ov_functor.specs.Functor.{apply};
ghost use Rattle.ov_functor.specs.Unions.{IsSorted, backwards, union};
ghost use Rattle.ov_functor.specs.Values.{evaluated};
ghost use Rattle.ov_functor.specs.declared.item.Item.{Item};
ghost use Rattle.ov_window.specs.Evaluation.{input_value, only, task_value, values_of};
ghost use Rattle.ov_window.specs.Plan.{IsPlan, plan_of};
ghost use Rattle.ov_window.specs.declared.plan.Task.{Task};

/// Evaluating the plan of items by version and then key gives the values that the items have over the base, each on the values just
/// below its version; and the union of any items is such a list.
pub fn plan_values()
    ensures values { (base : Map) (items : List Item) → IsSorted items → values_of (plan_of base items) ≡ only (backwards (evaluated base (backwards items))) }
    ensures sorted { (items : List Item) → IsSorted (union items) }
    ensures plan { (base : Map) (items : List Item) → IsPlan (plan_of base items) }
{}

/// The value of each place of a plan is that of its functor on the values of its inputs' places: the equation by which whoever has
/// these values may compute it.
pub fn place_values()
    ensures { (tasks : List Task) (place : ℕ) (task : Task) → IsPlan tasks → slice_get tasks place ≡ Some task → slice_get (values_of tasks) place ≡ Some (task_value (values_of tasks) task) }
{}
