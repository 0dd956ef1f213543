//! Amounts: the whole numbers that keys have as values.
ghost use Rattle.std.specs.Prelude.{◌≡◌, ◌++◌, OnOk, OnErr, ◌↔◌, IsSome, IfSome};
ghost use Rattle.std.specs.Cmp.{partial_equiv_from_equiv};
ghost use Rattle.ov_base.specs.Word.{Reads};
ghost use Rattle.ov_base.specs.Amount.{IsAmount, bounded, sum_of, difference_of, least_of, greatest_of, fits_in, amount_text, amount_of, amount_eq};
ghost use Rattle.ov_base.specs.Lemmas.{amount_eq-equiv, amount_eq-exact};

use crate::memory::Memory;
use crate::number::parse_number;
use crate::plain::Plain;
use itoa::Buffer;
use std::marker::Model;

/// The greatest amount, `10^18`.
const MOST: i64 = 1_000_000_000_000_000_000;

/// A whole number from `-10^18` to `10^18`, which contracts see as that number (docs/STORE.md, Values).
#[derive(Clone, Copy, Debug)]
pub struct Amount {
    number: i64,
}

impl Model for Amount {
    ghost use Rattle.std.specs.Prelude.{ℤ};
    ghost use Rattle.ov_base.specs.Amount.{IsAmount};

    ghost Value = { ℤ };

    ghost view = { λ a. a.number };

    ghost invariant = { λ a. IsAmount a.number };

    ghost inverse = { λ z. record { number = z } };
}

impl Amount {
    /// The amount 0.
    pub const ZERO: Amount = Amount { number: 0 };

    /// The amount of this number. None exactly outside the range.
    pub fn new(number: i64) -> Option<Amount>
        ensures made { IsSome result ↔ IsAmount number }
        ensures value { IfSome result (λ a. a ≡ number) }
    {
        if -MOST <= number && number <= MOST {
            Some(Amount { number })
        } else {
            None
        }
    }

    /// Its number.
    pub fn get(self) -> i64
        ensures value { result ≡ self }
        ensures form { IsAmount self }
    {
        self.number
    }

    /// The sum, which stops at both ends of the range.
    pub fn sum(self, other: Amount) -> Amount
        ensures { result ≡ sum_of self other }
    {
        nearest(self.number + other.number)
    }

    /// The difference, which stops at both ends of the range.
    pub fn difference(self, other: Amount) -> Amount
        ensures { result ≡ difference_of self other }
    {
        nearest(self.number - other.number)
    }

    /// The lesser of the two.
    pub fn least(self, other: Amount) -> Amount
        ensures { result ≡ least_of self other }
    {
        if self.number < other.number {
            self
        } else {
            other
        }
    }

    /// The greater of the two.
    pub fn greatest(self, other: Amount) -> Amount
        ensures { result ≡ greatest_of self other }
    {
        if self.number < other.number {
            other
        } else {
            self
        }
    }

    /// Whether the plain sum is at most `10^18`.
    pub fn fits(self, other: Amount) -> bool
        ensures { result ≡ fits_in self other }
    {
        self.number + other.number <= MOST
    }

    /// The amount that the bytes spell: a number, or `-` and a number other than 0. None exactly where
    /// they spell none.
    pub fn parse(text: &[u8]) -> Option<Amount>
        ensures exact { result ≡ amount_of text.now }
        ensures reads { Reads amount_text IsAmount text.now result }
    {
        amount_read(text)
    }

    /// Writes the one spelling at the end. On an error the text is as before.
    pub fn print_to(&self, text: &mut Vec<u8>) -> Result<(), Memory>
        ensures ok { OnOk result (text.new.items ≡ text.old.items ++ amount_text self.now) }
        ensures err { OnErr result (text.new.items ≡ text.old.items) }
    {
        let mut digits = Buffer::new();
        text.extend_from_slice(digits.format(self.number).as_bytes())?;
        Ok(())
    }
}

/// The amount that is nearest to the number.
fn nearest(number: i64) -> Amount
    ensures { result ≡ bounded number }
{
    if number < -MOST {
        Amount { number: -MOST }
    } else if number > MOST {
        Amount { number: MOST }
    } else {
        Amount { number }
    }
}

#[tactic(auto, unfolding(crate::specs::Amount::amount_of))]
fn amount_read(text: &[u8]) -> Option<Amount>
    ensures { result ≡ amount_of text.now }
{
    match text {
        [] => None,
        [b'-', digits @ ..] => {
            let number = parse_number(digits)?;
            if 0 < number && number <= MOST as u64 {
                Some(Amount {
                    number: -(number as i64),
                })
            } else {
                None
            }
        }
        [_, ..] => {
            let number = parse_number(text)?;
            if number <= MOST as u64 {
                Some(Amount {
                    number: number as i64,
                })
            } else {
                None
            }
        }
    }
}

impl PartialEq for Amount {
    ghost eq = { amount_eq };

    ghost laws = { partial_equiv_from_equiv amount_eq-equiv };

    #[tactic(auto, unfolding(crate::specs::Amount::amount_eq))]
    fn eq(&self, other: &Amount) -> bool {
        self.number == other.number
    }
}

impl Eq for Amount {
    ghost laws = { amount_eq-equiv };
}

impl Plain for Amount {
    ghost exact = { amount_eq-exact };

    fn copy(&self) -> Result<Amount, Memory> {
        Ok(*self)
    }
}
