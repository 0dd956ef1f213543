//! What is added to the parts of a script by one line.
ghost use Rattle.std.specs.Prelude.{◌≡◌, ◌<◌, ◌≤◌, ◌+◌, ◌++◌, ◌∷◌, [], List, Some, None, length, get_or, slice_set, vec_len, vec_capacity, OnOk, OnErr, IfOk, IfSome, IfNone};
ghost use Rattle.ov_session.specs.Standing.{most_commands};
ghost use Rattle.ov_script.specs.Faults as spec;
ghost use Rattle.ov_script.specs.declared.line.ScriptLine.{ScriptLine};
ghost use Rattle.ov_script.specs.Sessions.{place_in};
ghost use Rattle.ov_script.specs.Written.{answered, plan_at, with_command};
ghost use Rattle.indexmap.specs.IndexSet.{spare};

use crate::fault::{AddError, ScriptFault};
use crate::written::Written;
use indexmap::IndexSet;
use ov_base::{Key, Memory, Plain, Sequence, push_within, repeats};
use ov_functor::{Command, TxnError};
use ov_session::{After, Planned, Roster, SessionName};
use std::alloc::Global;

/// The most keys of a snapshot.
const MOST_KEYS: usize = 8;

/// All that may go wrong with a line that has no fault is that memory runs out.
pub(crate) fn or_memory(inserted: Result<(), Memory>) -> Result<(), AddError>
    ensures { result ≡ answered inserted }
{
    match inserted {
        Ok(()) => Ok(()),
        Err(_) => Err(AddError::Memory),
    }
}

/// Why parts are no transaction.
pub(crate) fn txn_fault(error: TxnError) -> ScriptFault
    ensures { result ≡ spec.txn_fault error }
{
    match error {
        TxnError::Empty => ScriptFault::Form,
        TxnError::TooMany => ScriptFault::TooManyParts,
        TxnError::SameKey(_) => ScriptFault::SameKey,
    }
}

/// Why keys are not those of a snapshot.
pub(crate) fn keys_fault(keys: &[Key]) -> Option<ScriptFault>
    ensures some { IfSome result (λ fault. (lines : List ScriptLine) → spec.keys_fault lines keys.now ≡ Some fault) }
    ensures none { IfNone result ((lines : List ScriptLine) → spec.keys_fault lines keys.now ≡ spec.commands_fault lines) }
{
    if keys.len() > MOST_KEYS {
        Some(ScriptFault::TooManyKeys)
    } else if repeats(keys) {
        Some(ScriptFault::SameKey)
    } else {
        None
    }
}

/// The place of the session of this name.
pub(crate) fn find(names: &IndexSet<SessionName>, name: &SessionName) -> Option<usize>
    ensures { result ≡ place_in name.now names.now.keys }
{
    names.get_index_of(name)
}

/// Makes room for one session more.
pub(crate) fn session_room(
    names: &mut IndexSet<SessionName>,
    waiting: &mut Vec<Sequence<After>>,
    written: &mut Vec<Written>,
) -> Result<(), Memory>
    ensures names { names.new.keys ≡ names.old.keys }
    ensures waiting { waiting.new.items ≡ waiting.old.items }
    ensures written { written.new.items ≡ written.old.items }
    ensures room { OnOk result ((0 < spare names.new) × (vec_len waiting.new < vec_capacity waiting.new) × (vec_len written.new < vec_capacity written.new)) }
{
    names.reserve(1)?;
    waiting.reserve(1)?;
    written.reserve(1)?;
    Ok(())
}

/// Adds a name for which there is room, and which is not there yet.
pub(crate) fn push_name(names: &mut IndexSet<SessionName>, name: SessionName)
    requires { (0 < spare names.old) × (place_in name names.old.keys ≡ None) }
    ensures { names.new.keys ≡ names.old.keys ++ name ∷ [] }
{
    let _ = names.insert(name);
}

/// Takes all items out of a sequence, which is empty then.
fn taken<T>(sequence: &mut Sequence<T>) -> Vec<T>
    ensures items { result.items ≡ sequence.old }
    ensures left { sequence.new ≡ [] }
{
    let empty = sequence.empty();
    std::mem::replace(sequence, empty).into_vec()
}

/// Adds a command of a session, which waits for what was waited for, to the session's plan, and gives its
/// number. On an error nothing has changed.
pub(crate) fn push_command(
    roster: &mut Roster,
    waiting: &mut Vec<Sequence<After>>,
    at: usize,
    command: Command,
) -> Result<u32, Memory>
    requires { (at < length roster.old.sessions) × (at < length waiting.old.items) × (length (plan_at roster.old at).planned < most_commands) }
    ensures number { IfOk result (λ seq. seq ≡ length (plan_at roster.old at).planned + 1) }
    ensures roster { OnOk result (roster.new ≡ with_command roster.old at (record { command = command; after = get_or waiting.old.items at [] })) }
    ensures waiting { OnOk result (waiting.new.items ≡ slice_set waiting.old.items at []) }
    ensures same { OnErr result ((roster.new ≡ roster.old) × (waiting.new.items ≡ waiting.old.items)) }
{
    let mut sessions = taken(&mut roster.sessions);
    let pushed = push_planned(&mut sessions[at].planned, command, &mut waiting[at]);
    roster.sessions = Sequence::from_vec(sessions);
    pushed
}

fn push_planned(
    planned: &mut Sequence<Planned>,
    command: Command,
    waiting: &mut Sequence<After>,
) -> Result<u32, Memory>
    requires { length planned.old < most_commands }
    ensures number { IfOk result (λ seq. seq ≡ length planned.old + 1) }
    ensures planned { OnOk result (planned.new ≡ planned.old ++ record { command = command; after = waiting.old } ∷ []) }
    ensures waiting { OnOk result (waiting.new ≡ []) }
    ensures same { OnErr result ((planned.new ≡ planned.old) × (waiting.new ≡ waiting.old)) }
{
    let mut items = taken(planned);
    let room = items.reserve(1);
    let number = items.len() as u32 + 1;
    if room.is_ok() {
        let after = Sequence::from_vec(taken(waiting));
        push_within(&mut items, Planned { command, after });
    }
    *planned = Sequence::from_vec(items);
    match room {
        Ok(()) => Ok(number),
        Err(_) => Err(Memory),
    }
}

/// Adds a command for which the session's next one waits. On an error nothing has changed.
pub(crate) fn push_after(
    waiting: &mut Vec<Sequence<After>>,
    at: usize,
    after: After,
) -> Result<(), Memory>
    requires { at < length waiting.old.items }
    ensures ok { OnOk result (waiting.new.items ≡ slice_set waiting.old.items at (get_or waiting.old.items at [] ++ after ∷ [])) }
    ensures err { OnErr result (waiting.new.items ≡ waiting.old.items) }
{
    waiting[at].push(after)
}

/// A copy of the items. The only error is out of memory.
pub(crate) fn copied(
    alloc: Global,
    items: &[Sequence<After>],
) -> Result<Vec<Sequence<After>>, Memory>
    ensures { IfOk result (λ copied. copied.items ≡ items.now) }
{
    let mut copied = Vec::new(alloc);
    for item in items {
        copied.push(item.copy()?)?;
    }
    Ok(copied)
}
