//! Cutting bytes at a byte: the ground of every text that is read.
ghost use Rattle.std.specs.Prelude.{◌≡◌, map, ◌==◌, IfOk};
ghost use Rattle.std.specs.List.{slice_split};
ghost use Rattle.std.specs.Option.{option_map};
ghost use Rattle.ov_base.specs.Split.{cut_at};

use crate::memory::Memory;
use std::alloc::Global;

/// For so many parts there is room from the start.
const FEW_PARTS: usize = 32;

/// What stands before the first such byte, and what stands behind it; None exactly where the byte does
/// not occur. Does not allocate.
pub fn split_at_byte(text: &[u8], byte: u8) -> Option<(&[u8], &[u8])>
    ensures { option_map (λ p. (p.0.now, p.1.now)) result ≡ cut_at byte text.now }
{
    for (at, here) in text.iter().enumerate() {
        if *here == byte {
            return Some((&text[..at], &text[at + 1..]));
        }
    }
    None
}

/// The parts round a byte, of which there is one more than the byte occurs. The only error is out of memory.
pub fn parts_at(alloc: Global, text: &[u8], byte: u8) -> Result<Vec<&[u8]>, Memory>
    ensures { IfOk result (λ v. map (λ x. x.now) v.items ≡ slice_split (λ b. b == byte) text.now) }
{
    let mut parts = Vec::with_capacity(alloc, FEW_PARTS)?;
    let mut rest = text;
    while let Some((part, others)) = split_at_byte(rest, byte) {
        parts.push(part)?;
        rest = others;
    }
    parts.push(rest)?;
    Ok(parts)
}
