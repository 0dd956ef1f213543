//! Replies as text: reading one.
ghost use Rattle.std.specs.Prelude.{◌≡◌, IfOk};
ghost use Rattle.ov_base.specs.Groups.{words_in};
ghost use Rattle.ov_base.specs.Split.{all_of};
ghost use Rattle.ov_base.specs.Word.{Reads};
ghost use Rattle.ov_functor.specs.Reply.{reply_text};
ghost use Rattle.ov_functor.specs.ReplyWords.{IsReply, reply_from, reply_of, reply_named, showing_of, shown_of, few_shown};

use crate::item::Shown;
use crate::reply::Reply;
use ov_base::{Key, Memory, Sequence, Value, Version, parts_at, split_at_byte};
use std::alloc::Global;

/// The most keys that a reply shows.
const MOST_SHOWN: usize = 8;

impl Reply {
    /// The reply that the bytes spell (docs/FORMATS.md, Replies). None exactly where they spell none; the only
    /// error is out of memory.
    pub fn parse(alloc: Global, text: &[u8]) -> Result<Option<Reply>, Memory>
        ensures exact { IfOk result (λ o. o ≡ reply_from text.now) }
        ensures reads { IfOk result (λ o. Reads reply_text IsReply text.now o) }
    {
        reply_read(alloc, text)
    }

    /// The reply that the words spell. None exactly where they spell none; the only error is out of memory.
    #[tactic(auto, unfolding(crate::specs::ReplyWords::reply_of))]
    pub fn from_words(alloc: Global, words: &[&[u8]]) -> Result<Option<Reply>, Memory>
        ensures { IfOk result (λ o. o ≡ reply_of (words_in words.now)) }
    {
        match words {
            [word, mark, shown @ ..] => showing_read(alloc, word, mark, shown),
            _ => Ok(None),
        }
    }
}

fn reply_read(alloc: Global, text: &[u8]) -> Result<Option<Reply>, Memory>
    ensures { IfOk result (λ o. o ≡ reply_from text.now) }
{
    let words = parts_at(alloc, text, b' ')?;
    Reply::from_words(alloc, words.as_slice())
}

/// The reply of a first word, a version or watermark, and shown keys.
fn showing_read(
    alloc: Global,
    word: &[u8],
    mark: &[u8],
    shown: &[&[u8]],
) -> Result<Option<Reply>, Memory>
    ensures { IfOk result (λ o. o ≡ showing_of word.now mark.now (words_in shown.now)) }
{
    let mark = match Version::parse(mark) {
        None => return Ok(None),
        Some(mark) => mark,
    };
    let list = match showns_read(alloc, shown)? {
        None => return Ok(None),
        Some(list) => list,
    };
    match few_read(list) {
        None => Ok(None),
        Some(few) => Ok(reply_by(word, mark, few)),
    }
}

fn showns_read(alloc: Global, words: &[&[u8]]) -> Result<Option<Sequence<Shown>>, Memory>
    ensures { IfOk result (λ o. o ≡ all_of shown_of (words_in words.now)) }
{
    let mut list = Sequence::with_capacity(alloc, words.len())?;
    for word in words {
        match shown_read(word) {
            None => return Ok(None),
            Some(Shown { key, value }) => list.push(Shown { key, value })?,
        }
    }
    Ok(Some(list))
}

fn shown_read(word: &[u8]) -> Option<Shown>
    ensures { result ≡ shown_of word.now }
{
    let (key, value) = split_at_byte(word, b'=')?;
    let key = Key::from_bytes(key)?;
    let value = Value::parse(value)?;
    Some(Shown { key, value })
}

/// The list, where it is short enough.
fn few_read(list: Sequence<Shown>) -> Option<Sequence<Shown>>
    ensures { result ≡ few_shown list }
{
    if list.len() <= MOST_SHOWN {
        Some(list)
    } else {
        None
    }
}

/// The reply of this first word.
fn reply_by(word: &[u8], mark: Version, shown: Sequence<Shown>) -> Option<Reply>
    ensures { result ≡ reply_named word.now mark shown }
{
    if word == b"done".as_slice() {
        Some(Reply::Done {
            version: mark,
            gets: shown,
        })
    } else if word == b"aborted".as_slice() {
        Some(Reply::Aborted {
            version: mark,
            gets: shown,
        })
    } else if word == b"snap".as_slice() {
        Some(Reply::Snap {
            watermark: mark.number(),
            shown,
        })
    } else {
        None
    }
}
