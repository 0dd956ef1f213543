//! A vector of two gateways on a worked example. Marks are numbers of versions, `time * 65536 + gateway`.
use crate::{Marks, Vector};
use ov_base::Plain;
use std::test::Fail;

/// Versions `2.0` to `6.0`.
const TWO: u64 = 131_072;

const THREE: u64 = 196_608;

const FOUR: u64 = 262_144;

const FIVE: u64 = 327_680;

const SIX: u64 = 393_216;

const fn marks(low: u64, full: u64, done: u64) -> Marks {
    Marks { low, full, done }
}

#[test]
fn hearing_takes_the_greater_marks_and_watermarks_are_the_least(
    rt: HostRuntime,
) -> Result<(), Fail> {
    let mut vector = Vector::new(2);
    vector.raise(0, marks(FIVE, FOUR, THREE));
    assert_eq!(rt; vector.visible(), 0);
    let mut other = Vector::new(2);
    other.raise(0, marks(THREE, SIX, TWO));
    other.raise(1, marks(FOUR, THREE, TWO));
    vector.merge(&other);
    assert!(rt; vector.mark(0) == marks(FIVE, SIX, THREE));
    assert!(rt; vector.mark(1) == marks(FOUR, THREE, TWO));
    assert_eq!(rt; vector.visible(), FOUR);
    assert_eq!(rt; vector.replicated(), THREE);
    assert_eq!(rt; vector.finished(), TWO);
    assert_eq!(rt; vector.top_time(), 5);
    Ok(())
}

#[test]
fn a_copy_equals_its_source(rt: HostRuntime) -> Result<(), Fail> {
    let mut vector = Vector::new(8);
    vector.raise(7, marks(FIVE, FOUR, THREE));
    assert!(rt; vector.copy()? == vector);
    assert!(rt; vector.mark(7).copy()? == vector.mark(7));
    Ok(())
}
