//! What gateways tell each other: three marks for each gateway, and vectors of them.
//!
//! The promise to the layers above: a vector is the list of the marks of all gateways; raising and merging
//! take the greater mark at each place that they touch, and all other places stay; the watermarks are the
//! least marks. Nothing allocates.
//!
//! Start with `specs/Marks.antt`.
#![tactic(auto)]

mod marks;
#[cfg(test)]
mod tests;
mod vector;

pub use marks::Marks;
pub use vector::Vector;
