//! What a history consists of.
ghost use Rattle.std.specs.Prelude.{◌≡◌, ℕ, List, [], ◌∷◌, ◌++◌, IfOk};
ghost use Rattle.ov_chronicle.specs.Lists.{entries_by};

use ov_base::Memory;
use std::alloc::Global;

/// Entries, each of an actor, with their meanings: which lists of them are lawful, and whether an entry may follow
/// a list. Both speak of a setting, which is the same at every seat of a history.
pub trait Saga {
    /// What a history lists.
    type Entry: Drop + Send;

    /// What the meanings speak of; a history keeps it in its contracts alone.
    type Setting;

    ghost actor_of: { Self.Entry → ℕ };

    ghost lawful: { Self.Setting → List Self.Entry → Type 0 };

    ghost may_follow: { Self.Setting → List Self.Entry → Self.Entry → Type 0 };

    /// The number of the entry's actor.
    fn actor(entry: &Self::Entry) -> u32
        ensures { result ≡ actor_of entry.now };

    /// An entry equal to the given one. Memory leaves nothing behind.
    fn copy(alloc: Global, entry: &Self::Entry) -> Result<Self::Entry, Memory>
        ensures { IfOk result (λ e. e ≡ entry.now) };

    // the empty list is lawful
    ghost begins: { (s : Self.Setting) → lawful s [] };

    // a lawful list with an entry that may follow is lawful
    ghost goes_on: { (s : Self.Setting) (h : List Self.Entry) (e : Self.Entry) → lawful s h → may_follow s h e → lawful s (h ++ e ∷ []) };

    // an entry that may follow may still follow after a lawful continuation without entries of its own actor
    ghost stays: { (s : Self.Setting) (h more : List Self.Entry) (e : Self.Entry) → may_follow s h e → lawful s (h ++ more) → entries_by actor_of (actor_of e) more ≡ [] → may_follow s (h ++ more) e };
}
