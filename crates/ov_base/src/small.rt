//! Small sets of numbers.
ghost use Rattle.std.specs.Prelude.{◌≡◌, ◌<◌};
ghost use Rattle.ov_base.specs.Small.{empty_set, has, with_number};

/// A set of numbers below 64, held in place.
#[derive(Clone, Copy, Debug)]
pub struct SmallSet {
    mask: u64,
}

impl SmallSet {
    /// The set without any number.
    pub fn empty() -> SmallSet
        ensures { result ≡ empty_set }
    {
        SmallSet { mask: 0 }
    }

    /// Whether the number is in the set.
    pub fn has(self, number: u32) -> bool
        requires { number < 64 }
        ensures { result ≡ has self number }
    {
        (self.mask >> number) & 1 == 1
    }

    /// Puts the number into the set.
    pub fn add(&mut self, number: u32)
        requires { number < 64 }
        ensures { self.new ≡ with_number number self.old }
    {
        self.mask |= 1 << number;
    }
}
