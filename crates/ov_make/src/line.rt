//! A line that is added to the script, and the lists that lines have.
ghost use Rattle.std.specs.Prelude.{◌≡◌, [], ◌∷◌, IfOk, OnOk};
ghost use Rattle.ov_script.specs.Written.{MayStand};
ghost use Rattle.ov_make.specs.Made as spec;
ghost use Rattle.ov_make.specs.Progress.{with_lines};

use crate::choices::amount_of;
use crate::names::{KEYS, key_name};
use ov_base::{Memory, Sequence};
use ov_functor::Part;
use ov_script::{AddError, Script, ScriptLine};
use std::alloc::Global;

/// What each key has at first.
const OPENING_BALANCE: u64 = 1_000_000;

/// Adds a line that has no fault. The only error is out of memory.
pub(crate) fn add_line(script: &mut Script, line: ScriptLine) -> Result<(), Memory>
    requires { MayStand script.old line }
    ensures { OnOk result (script.new ≡ with_lines script.old (line ∷ [])) }
{
    match script.add(line) {
        Ok(()) => Ok(()),
        Err(AddError::Memory) => Err(Memory),
        Err(AddError::Fault(_)) => unreachable!(),
    }
}

/// Each key gets the opening balance.
pub(crate) fn puts(alloc: Global) -> Result<Sequence<Part>, Memory>
    ensures { IfOk result (λ parts. parts ≡ spec.puts) }
{
    let mut parts = Sequence::with_capacity(alloc, KEYS as usize)?;
    for key in 0..KEYS {
        parts.push(Part::Put {
            key: key_name(key),
            amount: amount_of(OPENING_BALANCE),
        })?;
    }
    Ok(parts)
}

/// The reply shows each key.
pub(crate) fn gets(alloc: Global) -> Result<Sequence<Part>, Memory>
    ensures { IfOk result (λ parts. parts ≡ spec.gets) }
{
    let mut parts = Sequence::with_capacity(alloc, KEYS as usize)?;
    for key in 0..KEYS {
        parts.push(Part::Get { key: key_name(key) })?;
    }
    Ok(parts)
}
