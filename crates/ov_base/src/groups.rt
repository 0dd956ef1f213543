//! Words in groups: cutting the words of a text at each word `;`.
ghost use Rattle.std.specs.Prelude.{◌≡◌, IfOk};
ghost use Rattle.std.specs.List.{slice_split};
ghost use Rattle.ov_base.specs.Groups.{is_separator, words_in, groups_in};

use crate::memory::Memory;
use std::alloc::{AllocError, Global};

/// The groups of words round the words `;`, of which there is one more than such words. The only error is out
/// of memory.
pub fn groups_at<'a, 'b>(
    alloc: Global,
    words: &'b [&'a [u8]],
) -> Result<Vec<&'b [&'a [u8]]>, Memory>
    ensures { IfOk result (λ v. groups_in v.items ≡ slice_split is_separator (words_in words.now)) }
{
    Ok(collected_groups(alloc, words)?)
}

fn collected_groups<'a, 'b>(
    alloc: Global,
    words: &'b [&'a [u8]],
) -> Result<Vec<&'b [&'a [u8]]>, AllocError>
    ensures { IfOk result (λ v. groups_in v.items ≡ slice_split is_separator (words_in words.now)) }
{
    words.split(|word| separates(word)).collect(alloc)
}

fn separates(word: &[u8]) -> bool
    ensures { result ≡ is_separator word.now }
{
    word == b";".as_slice()
}
