//! The commands: the reading half, what is done with the texts, and the writing half; and `make`, which reads nothing.
ghost use Rattle.std.specs.Prelude.{◌≡◌, ◌≢◌, ◌⊎◌, map, string_bytes, Some};
ghost use Rattle.ov_io.specs.Causes.{Rose, NoneRoseTwice, SameCounts};
ghost use Rattle.ov_top.specs.Causes.{Ends, Meant, MeantBy, MeantWith};
ghost use Rattle.ov_top.specs.Ending.{nothing};
ghost use Rattle.ov_top.specs.Headline.{AllOnce, Did, InForm, InLawfulForm, IsRight, IsShort, IsWholeAtEnd, JournalRefused, NoneRose, ReadFault, Waits};
ghost use Rattle.ov_top.specs.Names.{IsAudit, IsJudge, IsMake, file_words, names_in, names_seen};
ghost use Rattle.ov_top.specs.Words.{AreFormed, IsFormed, order_of};

use crate::make::make;
use crate::names::{FileNames, Task};
use crate::perform::perform;
use crate::prepare::prepare;
use crate::words::{Order, command_of};
use crate::write::{put_refusal, put_usage};
use ov_io::{Shelf, Sink};
use ov_world::Story;
use std::alloc::Global;

/// Does what the words ask for. `step` follows a schedule over a world of the topology and the script, calms the world, and writes the report, or with
/// `--journal` the history. `audit` judges a journal over a topology and a script. `make` runs a made script over the empty schedule and writes the
/// summary. All other words are usage. It returns the status (docs/STORE.md, Statuses), and the story says what was read, made and done. Condition: the
/// story is empty.
///
/// - `right`: whatever the status of `step` and `make`, and at 0 of `audit`, the story's history is lawful, each reply in it is the expected one, what begins after a
///   reply has the greater version, each value is that of executing all begun transactions one at a time in version order, at every centre, and each
///   snapshot is at a published watermark.
/// - `done`: at 0 and 1 the topology and the script are those whose texts the files are. `step` has followed the schedule whose text the third file is,
///   and calmed it, and its report or its history was written. `audit` has read the journal of the story's entries, which are lawful, and `lawful N` was
///   written. `make` has run the made script, and its summary was written.
/// - `all`: at 0 of `step` and `make` each command of the script began in exactly one entry and was replied in exactly one. `waits`: at 1 some command is not
///   replied, and the world is not whole.
/// - `refused`: at 6 the journal's first line off the grammar is the one whose number was written, or its first entry that may not follow.
/// - `read`: 7 comes only where the read of a file word failed and was counted; `write`: 8 only where the sink has counted a fault.
/// - `ends`: the status, the text and the story are those of the order of work; at 8 and 9 a prefix of the text that was meant was written, and
///   at 9 the story has first entries of those that were meant.
/// - `complete`: with words and files in form, no risen count, and a world that is whole at its end, the status of `step` is 0 or, out of memory, 9.
///   `accepts`: so it is of `audit` with a journal of lawful entries. `makes`: so it is of `make`, whatever its numbers.
/// - `quiet`, `once`, `sink`: no count rises in a call that meets no fault, and none by more than one.
pub fn stepped_top<F: Shelf, K: Sink>(
    alloc: Global,
    words: &[String],
    shelf: &mut F,
    out: &mut K,
    story: &mut Story,
) -> u8
    requires { story.old ≡ nothing }
    ensures right { (IsAudit (file_words (map string_bytes words.now)) → result ≡ 0) → IsRight story.new }
    ensures done { (result ≡ 0) ⊎ (result ≡ 1) → Did (F.told shelf.old) (order_of (map string_bytes words.now)) story.new (K.written out.old) (K.written out.new) }
    ensures all { result ≡ 0 → ¬ IsAudit (file_words (map string_bytes words.now)) → AllOnce story.new }
    ensures waits { result ≡ 1 → Waits story.new }
    ensures refused { result ≡ 6 → JournalRefused (F.told shelf.old) (file_words (map string_bytes words.now)) story.new (K.written out.old) (K.written out.new) }
    ensures read { result ≡ 7 → ReadFault (F.faults shelf.old) (F.faults shelf.new) (file_words (map string_bytes words.now)) (K.written out.old) (K.written out.new) }
    ensures write { result ≡ 8 → Rose (K.faults out.old) (K.faults out.new) }
    ensures ends { Ends (MeantBy (F.told shelf.old) (F.faults shelf.old) (F.faults shelf.new) (order_of (map string_bytes words.now))) result story.new (K.written out.old) (K.written out.new) }
    ensures complete { InForm (F.told shelf.old) (file_words (map string_bytes words.now)) → NoneRose (F.faults shelf.old) (F.faults shelf.new) (file_words (map string_bytes words.now))
        → ¬ Rose (K.faults out.old) (K.faults out.new) → IsWholeAtEnd story.new → (result ≡ 0) ⊎ (result ≡ 9) }
    ensures makes { IsMake (order_of (map string_bytes words.now)) → ¬ Rose (K.faults out.old) (K.faults out.new) → (result ≡ 0) ⊎ (result ≡ 9) }
    ensures accepts { InLawfulForm (F.told shelf.old) (file_words (map string_bytes words.now)) → NoneRose (F.faults shelf.old) (F.faults shelf.new) (file_words (map string_bytes words.now))
        → ¬ Rose (K.faults out.old) (K.faults out.new) → (result ≡ 0) ⊎ (result ≡ 9) }
    ensures quiet { result ≢ 7 → result ≢ 8 → result ≢ 9 → SameCounts (F.faults shelf.old) (F.faults shelf.new) }
    ensures once { NoneRoseTwice (F.faults shelf.old) (F.faults shelf.new) }
    ensures sink { result ≢ 8 → K.faults out.new ≡ K.faults out.old }
{
    step_by(alloc, words, shelf, out, story)
}

/// Does what the words ask for.
fn step_by<F: Shelf, K: Sink>(
    alloc: Global,
    words: &[String],
    shelf: &mut F,
    out: &mut K,
    story: &mut Story,
) -> u8
    requires { story.old ≡ nothing }
    ensures right { (IsAudit (file_words (map string_bytes words.now)) → result ≡ 0) → IsRight story.new }
    ensures short { IsShort story.new }
    ensures form { result ≢ 9 → AreFormed (order_of (map string_bytes words.now)) }
    ensures ends { Ends (MeantBy (F.told shelf.old) (F.faults shelf.old) (F.faults shelf.new) (order_of (map string_bytes words.now))) result story.new (K.written out.old) (K.written out.new) }
    ensures write { result ≡ 8 → Rose (K.faults out.old) (K.faults out.new) }
    ensures quiet { result ≢ 7 → result ≢ 8 → result ≢ 9 → SameCounts (F.faults shelf.old) (F.faults shelf.new) }
    ensures once { NoneRoseTwice (F.faults shelf.old) (F.faults shelf.new) }
    ensures sink { result ≢ 8 → K.faults out.new ≡ K.faults out.old }
{
    match command_of(alloc, words) {
        Err(_) => 9,
        Ok(None) => put_usage(alloc, out),
        Ok(Some(order)) => by_order(alloc, &order, shelf, out, story),
    }
}

/// Does what an order asks for. Conditions: the story is empty, and the order is in form.
fn by_order<F: Shelf, K: Sink>(
    alloc: Global,
    order: &Order,
    shelf: &mut F,
    out: &mut K,
    story: &mut Story,
) -> u8
    requires empty { story.old ≡ nothing }
    requires form { IsFormed order.now }
    ensures right { (IsAudit (names_in order.now) → result ≡ 0) → IsRight story.new }
    ensures short { IsShort story.new }
    ensures ends { Ends (MeantWith (F.told shelf.old) (F.faults shelf.old) (F.faults shelf.new) order.now) result story.new (K.written out.old) (K.written out.new) }
    ensures write { result ≡ 8 → Rose (K.faults out.old) (K.faults out.new) }
    ensures quiet { result ≢ 7 → result ≢ 8 → result ≢ 9 → SameCounts (F.faults shelf.old) (F.faults shelf.new) }
    ensures once { NoneRoseTwice (F.faults shelf.old) (F.faults shelf.new) }
    ensures sink { result ≢ 8 → K.faults out.new ≡ K.faults out.old }
{
    match order {
        Order::Make { number, commands } => make(alloc, *number, *commands, out, story),
        Order::Step {
            journal,
            topology,
            script,
            schedule,
        } => {
            let task = Task::Follow { journal: *journal };
            let names = FileNames::new(task, topology, script, schedule);
            step(alloc, &names, shelf, out, story)
        }
        Order::Audit {
            topology,
            script,
            journal,
        } => {
            let names = FileNames::new(Task::Judge, topology, script, journal);
            step(alloc, &names, shelf, out, story)
        }
    }
}

/// Does what is asked for with these files.
fn step<F: Shelf, K: Sink>(
    alloc: Global,
    names: &FileNames<'_>,
    shelf: &mut F,
    out: &mut K,
    story: &mut Story,
) -> u8
    requires { story.old ≡ nothing }
    ensures right { (IsJudge names.now.task → result ≡ 0) → IsRight story.new }
    ensures short { IsShort story.new }
    ensures ends { Ends (Meant (F.told shelf.old) (F.faults shelf.old) (F.faults shelf.new) (names_seen names.now)) result story.new (K.written out.old) (K.written out.new) }
    ensures write { result ≡ 8 → Rose (K.faults out.old) (K.faults out.new) }
    ensures quiet { result ≢ 7 → result ≢ 8 → result ≢ 9 → SameCounts (F.faults shelf.old) (F.faults shelf.new) }
    ensures once { NoneRoseTwice (F.faults shelf.old) (F.faults shelf.new) }
    ensures sink { result ≢ 8 → K.faults out.new ≡ K.faults out.old }
{
    match prepare(alloc, names, shelf, story) {
        Err(refusal) => put_refusal(alloc, names, refusal, out),
        Ok(accepted) => perform(alloc, names.task, accepted, out, story),
    }
}
