//! Keys by number, and sums on them.
use anyhow::{Context, Result};
use ov_base::{Amount, Key};
use ov_functor::{Effect, Functor};

/// The key of a number.
pub fn key_of(rt: &HostRuntime, number: u64) -> Result<Key> {
    let name = format!(in rt.alloc(); "k{number}")?;
    Key::from_bytes(name.as_bytes()).context("a key")
}

/// The sum of one more on a key.
pub fn sum_on(rt: &HostRuntime, key: Key) -> Result<Functor> {
    let amount = Amount::new(1).context("an amount")?;
    let functor = Functor::new(key, Effect::Add(amount), Vec::new(rt.alloc()));
    functor.ok().context("a functor")
}
