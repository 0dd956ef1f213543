//! Set-once cells: several evaluators race to compute a plan, and each cell holds nothing or the one defined value of its place.
//!
//! The promise to the layers above: `force` answers the value of a place (`values_of` of `ov_window`), without waiting and without
//! memory, and its seat then knows the place; a seat's known places go with it through `split` and `join`; `look` at a known place
//! answers its value, and `close` gives the value of each place that one of the seats knows.
//!
//! Start with `specs/Seats.antt`, which says what contracts see, and `specs/Rules.antt`, the rule that holds between any two steps of
//! any seats; `src/laws.rt` says that a caller who forces every place gets every value.
#![tactic(auto)]

mod cells;
mod close;
mod force;
mod laws;
mod rule;
mod scratch;
#[cfg(test)]
mod tests;
mod word;

pub use cells::{CellSeat, Cells};
pub use close::Unclosed;
pub use laws::known_values;
pub use scratch::Scratch;
