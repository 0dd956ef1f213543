//! Numbers that look random, and what each of them chooses.
ghost use Rattle.std.specs.Prelude.{◌≡◌, ◌<◌, ◌≤◌, ◌^◌, pos};
ghost use Rattle.ov_make.specs.Made as spec;
ghost use Rattle.ov_make.specs.Made.{key_name};

use crate::names::{KEYS, key_name};
use ov_base::{Amount, Key};

/// The factor of the generator.
const FACTOR: u64 = 6_364_136_223_846_793_005;

/// What the generator adds.
const STEP: u64 = 1_442_695_040_888_963_407;

/// The greatest amount that is chosen.
const MOST_CHOSEN: u64 = 100;

/// The number behind a number.
pub(crate) fn next_number(number: u64) -> u64
    ensures { result ≡ spec.next_number number }
{
    number.wrapping_mul(FACTOR).wrapping_add(STEP)
}

/// The key that a number chooses.
pub(crate) fn first_key(number: u64) -> Key
    ensures { result ≡ key_name (spec.first_key number) }
{
    key_name(first_place(number))
}

/// Another key, one to seven places behind it, all keys in a circle.
pub(crate) fn second_key(number: u64) -> Key
    ensures { result ≡ key_name (spec.second_key number) }
{
    key_name((first_place(number) + 1 + ((number >> 40) % u64::from(KEYS - 1)) as u32) % KEYS)
}

/// The number of the key that a number chooses.
fn first_place(number: u64) -> u32
    ensures value { result ≡ spec.first_key number }
    ensures few { result < 8 }
{
    ((number >> 33) % u64::from(KEYS)) as u32
}

/// The amount that a number chooses.
pub(crate) fn chosen_amount(number: u64) -> Amount
    ensures { result ≡ pos (spec.chosen_amount number) }
{
    amount_of(1 + (number >> 48) % MOST_CHOSEN)
}

/// The amount of this number.
pub(crate) fn amount_of(number: u64) -> Amount
    requires { number ≤ 10 ^ 18 }
    ensures { result ≡ pos number }
{
    match Amount::new(number as i64) {
        Some(amount) => amount,
        None => unreachable!(),
    }
}
