//! Items as text: writing them, each behind ` ; `, and reading them.
ghost use Rattle.std.specs.Prelude.{◌≡◌, ◌∷◌, ◌++◌, [], IfOk, IsTrue, ◌↔◌, ◌&&◌};
ghost use Rattle.std.specs.List.{All, flat_map};
ghost use Rattle.std.specs.Option.{option_map};
ghost use Rattle.ov_base.specs.Amount.{IsAmount, amount_text};
ghost use Rattle.ov_base.specs.Groups.{words_in, groups_in};
ghost use Rattle.ov_base.specs.Key.{key_eq};
ghost use Rattle.ov_functor.specs.Form.{is_functor};
ghost use Rattle.ov_base.specs.Split.{joined, all_of};
ghost use Rattle.ov_base.specs.Version.{version_text};
ghost use Rattle.ov_base.specs.Word.{Reads, Printed};
ghost use Rattle.std.specs.List.{AllByRecursion};
ghost use Rattle.ov_event.specs.ItemWords as spec;
ghost use Rattle.ov_event.specs.ItemWords.{IsItem, IsEffect, IsMove, HasFields, item_text, items_text, item_words, effect_text, move_text, item_of, items_of, items_behind, functor_item_of, effect_of, amount_effect_of, amount_effect, moves_of, move_of, move_between};

use ov_base::{Amount, Key, Memory, Version, groups_at, parts_at};
use ov_functor::{Effect, Functor, Item, Move};
use std::alloc::Global;

/// The items that the bytes spell, each behind ` ; `. None exactly where they spell none; the only error is
/// out of memory.
pub fn parse_items(alloc: Global, text: &[u8]) -> Result<Option<Vec<Item>>, Memory>
    ensures exact { IfOk result (λ o. option_map (λ v. v.items) o ≡ items_of text.now) }
    ensures reads { IfOk result (λ o. Reads items_text (AllByRecursion IsItem) text.now (option_map (λ v. v.items) o)) }
{
    items_read(alloc, text)
}

fn items_read(alloc: Global, text: &[u8]) -> Result<Option<Vec<Item>>, Memory>
    ensures { IfOk result (λ o. option_map (λ v. v.items) o ≡ items_of text.now) }
{
    let words = parts_at(alloc, text, b' ')?;
    let groups = groups_at(alloc, words.as_slice())?;
    behind_read(alloc, groups.as_slice())
}

/// The items of the groups behind the first, which has to be one empty word.
fn behind_read(alloc: Global, groups: &[&[&[u8]]]) -> Result<Option<Vec<Item>>, Memory>
    ensures { IfOk result (λ o. option_map (λ v. v.items) o ≡ items_behind (groups_in groups.now)) }
{
    match groups {
        [] => Ok(None),
        [first, others @ ..] => {
            if is_blank(first) {
                items_in_groups(alloc, others)
            } else {
                Ok(None)
            }
        }
    }
}

fn is_blank(words: &[&[u8]]) -> bool
    ensures { result ≡ spec.is_blank (words_in words.now) }
{
    match words {
        [word] => word.is_empty(),
        _ => false,
    }
}

/// The items that the groups of words spell, an item for each group. None exactly where one spells none; the
/// only error is out of memory.
pub fn items_in_groups(alloc: Global, groups: &[&[&[u8]]]) -> Result<Option<Vec<Item>>, Memory>
    ensures { IfOk result (λ o. option_map (λ v. v.items) o ≡ all_of item_of (groups_in groups.now)) }
{
    let mut items = Vec::with_capacity(alloc, groups.len())?;
    for group in groups {
        match item_read(alloc, group)? {
            None => return Ok(None),
            Some(item) => items.push(item)?,
        }
    }
    Ok(Some(items))
}

#[tactic(auto, unfolding(crate::specs::ItemWords::item_of))]
fn item_read(alloc: Global, words: &[&[u8]]) -> Result<Option<Item>, Memory>
    ensures { IfOk result (λ o. o ≡ item_of (words_in words.now)) }
{
    match words {
        [version, key, others @ ..] => functor_item_read(alloc, version, key, others),
        _ => Ok(None),
    }
}

/// The item of a version, a key, and the words of an effect and moves.
fn functor_item_read(
    alloc: Global,
    version: &[u8],
    key: &[u8],
    words: &[&[u8]],
) -> Result<Option<Item>, Memory>
    ensures { IfOk result (λ o. o ≡ functor_item_of version.now key.now (words_in words.now)) }
{
    let version = match Version::parse(version) {
        None => return Ok(None),
        Some(version) => version,
    };
    let key = match Key::from_bytes(key) {
        None => return Ok(None),
        Some(key) => key,
    };
    let (effect, others) = match effect_read(words) {
        None => return Ok(None),
        Some(read) => read,
    };
    match moves_read(alloc, others)? {
        None => Ok(None),
        Some(moves) => Ok(item_with(version, key, Functor::new(key, effect, moves).ok())),
    }
}

/// The item of a functor, where there is one.
fn item_with(version: Version, key: Key, functor: Option<Functor>) -> Option<Item>
    ensures { result ≡ spec.item_by version key functor }
{
    let functor = functor?;
    Some(Item {
        version,
        key,
        functor,
    })
}

/// An effect, and the words behind it.
fn effect_read<'a, 'b>(words: &'b [&'a [u8]]) -> Option<(Effect, &'b [&'a [u8]])>
    ensures { option_map (λ p. (p.0, words_in p.1.now)) result ≡ effect_of (words_in words.now) }
{
    match words {
        [] => None,
        [word, others @ ..] => {
            if *word == b"del".as_slice() {
                Some((Effect::Del, others))
            } else {
                amount_effect_read(word, others)
            }
        }
    }
}

/// The effect of this word and of the amount behind it, and the words behind that.
fn amount_effect_read<'a, 'b>(
    word: &[u8],
    words: &'b [&'a [u8]],
) -> Option<(Effect, &'b [&'a [u8]])>
    ensures { option_map (λ p. (p.0, words_in p.1.now)) result ≡ amount_effect_of word.now (words_in words.now) }
{
    match words {
        [] => None,
        [amount, others @ ..] => {
            let amount = Amount::parse(amount)?;
            let effect = effect_with(word, amount)?;
            Some((effect, others))
        }
    }
}

/// The effect of this word with an amount.
fn effect_with(word: &[u8], amount: Amount) -> Option<Effect>
    ensures { result ≡ amount_effect word.now amount }
{
    if word == b"put".as_slice() {
        Some(Effect::Put(amount))
    } else if word == b"add".as_slice() {
        Some(Effect::Add(amount))
    } else if word == b"least".as_slice() {
        Some(Effect::Least(amount))
    } else if word == b"greatest".as_slice() {
        Some(Effect::Greatest(amount))
    } else if word == b"out".as_slice() {
        Some(Effect::Out(amount))
    } else if word == b"in".as_slice() {
        Some(Effect::In(amount))
    } else {
        None
    }
}

/// The moves of these words, four words each.
fn moves_read(alloc: Global, words: &[&[u8]]) -> Result<Option<Vec<Move>>, Memory>
    ensures { IfOk result (λ o. option_map (λ v. v.items) o ≡ moves_of (words_in words.now)) }
{
    if words.len() % 4 != 0 {
        return Ok(None);
    }
    let mut moves = Vec::with_capacity(alloc, words.len() / 4)?;
    for index in 0..words.len() / 4 {
        let at = 4 * index;
        match move_read(words[at], words[at + 1], words[at + 2], words[at + 3]) {
            None => return Ok(None),
            Some(one) => moves.push(one)?,
        }
    }
    Ok(Some(moves))
}

fn move_read(word: &[u8], from: &[u8], to: &[u8], amount: &[u8]) -> Option<Move>
    ensures { result ≡ move_of word.now from.now to.now amount.now }
{
    if word == b"if".as_slice() {
        sides_read(from, to, amount)
    } else {
        None
    }
}

fn sides_read(from: &[u8], to: &[u8], amount: &[u8]) -> Option<Move>
    ensures { result ≡ move_between from.now to.now amount.now }
{
    let from = Key::from_bytes(from)?;
    let to = Key::from_bytes(to)?;
    let amount = Amount::parse(amount)?;
    Some(Move { from, to, amount })
}

/// Writes the items at the end, each behind ` ; `. On an error a prefix of that text was written.
pub fn print_items(items: &[Item], text: &mut Vec<u8>) -> Result<(), Memory>
    ensures { Printed result text.old.items text.new.items (items_text items.now) }
{
    for item in items {
        print_item(item, text)?;
    }
    Ok(())
}

fn print_item(item: &Item, text: &mut Vec<u8>) -> Result<(), Memory>
    ensures { Printed result text.old.items text.new.items (item_text item.now) }
{
    text.extend_from_slice(b" ; ")?;
    print_words(item, text)
}

fn print_words(item: &Item, text: &mut Vec<u8>) -> Result<(), Memory>
    ensures { Printed result text.old.items text.new.items (joined 32 (item_words item.now)) }
{
    print_fields(item.version, &item.key, item.functor.effect(), text)?;
    print_moves(item.functor.moves(), text)
}

/// Writes a version, a key and an effect.
fn print_fields(
    version: Version,
    key: &Key,
    effect: Effect,
    text: &mut Vec<u8>,
) -> Result<(), Memory>
    ensures { Printed result text.old.items text.new.items (spec.fields_text version key.now effect) }
{
    version.print_to(text)?;
    print_behind(key, effect, text)
}

/// Writes a key and an effect, each behind a space.
fn print_behind(key: &Key, effect: Effect, text: &mut Vec<u8>) -> Result<(), Memory>
    ensures { Printed result text.old.items text.new.items (32 ∷ key.now ++ 32 ∷ effect_text effect) }
{
    text.push(b' ')?;
    text.extend_from_slice(key.bytes())?;
    text.push(b' ')?;
    print_effect(effect, text)
}

fn print_effect(effect: Effect, text: &mut Vec<u8>) -> Result<(), Memory>
    ensures { Printed result text.old.items text.new.items (effect_text effect) }
{
    match effect {
        Effect::Put(amount) => print_named(b"put ", amount, text),
        Effect::Del => Ok(text.extend_from_slice(b"del")?),
        Effect::Add(amount) => print_named(b"add ", amount, text),
        Effect::Least(amount) => print_named(b"least ", amount, text),
        Effect::Greatest(amount) => print_named(b"greatest ", amount, text),
        Effect::Out(amount) => print_named(b"out ", amount, text),
        Effect::In(amount) => print_named(b"in ", amount, text),
    }
}

fn print_named(word: &[u8], amount: Amount, text: &mut Vec<u8>) -> Result<(), Memory>
    ensures { Printed result text.old.items text.new.items (word.now ++ amount_text amount) }
{
    text.extend_from_slice(word)?;
    amount.print_to(text)
}

fn print_moves(moves: &[Move], text: &mut Vec<u8>) -> Result<(), Memory>
    ensures { Printed result text.old.items text.new.items (flat_map move_text moves.now) }
{
    for one in moves {
        print_move(one, text)?;
    }
    Ok(())
}

fn print_move(one: &Move, text: &mut Vec<u8>) -> Result<(), Memory>
    ensures { Printed result text.old.items text.new.items (move_text one.now) }
{
    text.extend_from_slice(b" if ")?;
    print_sides(one, text)
}

fn print_sides(one: &Move, text: &mut Vec<u8>) -> Result<(), Memory>
    ensures { Printed result text.old.items text.new.items (joined 32 (one.now.from ∷ one.now.to ∷ amount_text one.now.amount ∷ [])) }
{
    text.extend_from_slice(one.from.bytes())?;
    print_getter(one, text)
}

/// Writes the key that gets, and the amount, each behind a space.
fn print_getter(one: &Move, text: &mut Vec<u8>) -> Result<(), Memory>
    ensures { Printed result text.old.items text.new.items (32 ∷ one.now.to ++ 32 ∷ amount_text one.now.amount) }
{
    text.push(b' ')?;
    text.extend_from_slice(one.to.bytes())?;
    text.push(b' ')?;
    one.amount.print_to(text)
}

/// Whether the item has a text: its functor is one of its key, and on the form of functors.
pub fn has_text(item: &Item) -> bool
    ensures { IsTrue result ↔ IsItem item.now }
{
    fields_fit(item);
    is_formed(item)
}

fn is_formed(item: &Item) -> bool
    ensures { result ≡ (key_eq item.now.functor.key item.now.key && is_functor item.now.functor) }
{
    item.functor.key() == item.key && item.functor.has_form()
}

/// The fields of each item are in form.
fn fields_fit(item: &Item)
    ensures { HasFields item.now }
{
    let _number = item.version.number();
    let _bytes = item.key.bytes();
    effect_fits(item.functor.effect());
    moves_fit(item.functor.moves());
}

fn effect_fits(effect: Effect)
    ensures { IsEffect effect }
{
    match effect {
        Effect::Put(amount) => amount_fits(amount),
        Effect::Del => {}
        Effect::Add(amount) => amount_fits(amount),
        Effect::Least(amount) => amount_fits(amount),
        Effect::Greatest(amount) => amount_fits(amount),
        Effect::Out(amount) => amount_fits(amount),
        Effect::In(amount) => amount_fits(amount),
    }
}

fn amount_fits(amount: Amount)
    ensures { IsAmount amount }
{
    let _number = amount.get();
}

fn moves_fit(moves: &[Move])
    ensures { All IsMove moves.now }
{
    for one in moves {
        move_fits(one);
    }
}

fn move_fits(one: &Move)
    ensures { IsMove one.now }
{
    let _from = one.from.bytes();
    let _to = one.to.bytes();
    amount_fits(one.amount);
}
