//! Reading how a command begins.
ghost use Rattle.std.specs.Prelude.{◌≡◌, [], ◌∷◌, IfOk};
ghost use Rattle.std.specs.List.{list_all};
ghost use Rattle.ov_base.specs.Groups.{groups_in, words_in};
ghost use Rattle.ov_functor.specs.Transaction.{is_positive, made_by, transaction_error};
ghost use Rattle.ov_functor.specs.Words.{parts_in};
ghost use Rattle.ov_journal.specs.Read as spec;

use crate::list::parse_keys;
use crate::word::parse_mark;
use ov_base::{Memory, Version};
use ov_event::Start;
use ov_functor::{Part, Transaction, TxnError, parts_in_groups};
use std::alloc::Global;

/// How a command begins: `do VERSION PARTS` or `snap VERSION KEYS`.
pub(crate) fn parse_start(
    alloc: Global,
    word: &[u8],
    version: &[u8],
    words: &[&[u8]],
    groups: &[&[&[u8]]],
) -> Result<Option<Start>, Memory>
    ensures { IfOk result (λ start. start ≡ spec.start_of word.now version.now (words_in words.now) (groups_in groups.now)) }
{
    if word == b"do".as_slice() {
        parse_draw(alloc, version, words, groups)
    } else if word == b"snap".as_slice() {
        parse_look(alloc, version, words, groups)
    } else {
        Ok(None)
    }
}

/// The beginning of a transaction, whose first part stands in these words and each other in a group.
fn parse_draw(
    alloc: Global,
    version: &[u8],
    words: &[&[u8]],
    groups: &[&[&[u8]]],
) -> Result<Option<Start>, Memory>
    ensures { IfOk result (λ start. start ≡ spec.draw_of version.now (words_in words.now ∷ groups_in groups.now)) }
{
    let Some(version) = Version::parse(version) else {
        return Ok(None);
    };
    let groups = with_first(alloc, words, groups)?;
    match parts_in_groups(alloc, groups.as_slice())? {
        None => Ok(None),
        Some(parts) => Ok(start_with(version, Transaction::new(parts))),
    }
}

/// The group, and the others behind it.
fn with_first<'a, 'b>(
    alloc: Global,
    first: &'b [&'a [u8]],
    others: &[&'b [&'a [u8]]],
) -> Result<Vec<&'b [&'a [u8]]>, Memory>
    ensures { IfOk result (λ groups. groups_in groups.items ≡ words_in first.now ∷ groups_in others.now) }
{
    let mut groups = Vec::with_capacity(alloc, others.len() + 1)?;
    groups.push(first)?;
    groups.extend_from_slice(others)?;
    Ok(groups)
}

/// The beginning, where the parts are a transaction.
fn start_with(version: Version, made: Result<Transaction, TxnError>) -> Option<Start>
    ensures { result ≡ spec.start_with version made }
{
    match made {
        Ok(transaction) => Some(Start::Draw {
            version,
            transaction,
        }),
        Err(_) => None,
    }
}

/// The beginning of a snapshot, behind which no group stands.
fn parse_look(
    alloc: Global,
    floor: &[u8],
    keys: &[&[u8]],
    groups: &[&[&[u8]]],
) -> Result<Option<Start>, Memory>
    ensures { IfOk result (λ start. start ≡ spec.look_of floor.now (words_in keys.now) (groups_in groups.now)) }
{
    match groups {
        [_, ..] => Ok(None),
        [] => look_read(alloc, floor, keys),
    }
}

fn look_read(alloc: Global, floor: &[u8], keys: &[&[u8]]) -> Result<Option<Start>, Memory>
    ensures { IfOk result (λ start. start ≡ spec.look_of floor.now (words_in keys.now) []) }
{
    let Some(floor) = parse_mark(floor) else {
        return Ok(None);
    };
    match parse_keys(alloc, keys)? {
        None => Ok(None),
        Some(keys) => Ok(Some(Start::Look { floor, keys })),
    }
}
