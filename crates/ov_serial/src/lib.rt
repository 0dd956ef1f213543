//! The serial executor: it executes begun transactions whole, one at a time, in the order of their versions.
//!
//! The promise to the layer above, which is only the tests: what `run_serial` gives is the serial fold over
//! its list. It is the plain, slow yardstick against which the functors of single keys are compared.
//!
//! Start with `specs/Results.antt`, and with `specs/Serial.antt` and `specs/Execution.antt` of ov_functor.
#![tactic(auto)]

mod run;
mod write;

pub use run::{Serial, are_distinct, run_serial};

#[cfg(test)]
mod tests;
