//! The replies of a history, by their commands.
ghost use Rattle.std.specs.Prelude.{◌≡◌, ◌∷◌, [], reverse, ℕ, IfOk, OnOk};
ghost use Rattle.std.specs.Option.{option_map};
ghost use Rattle.ov_history.specs.Past.{History};
ghost use Rattle.ov_report.specs.Report.{reply_to};
ghost use Rattle.ov_report.specs.Replies.{AreReplies};

use indexmap::IndexMap;
use ov_base::Memory;
use ov_event::{Entry, Kind};
use ov_functor::Reply;
use ov_script::CommandAt;
use std::alloc::Global;

/// The replies of a history, by their commands.
#[derive(Drop)]
pub(crate) struct Replies<'a> {
    known: IndexMap<CommandAt, &'a Reply>,
}

impl<'a> Replies<'a> {
    /// The reply to the command, where it has one. Does not allocate.
    pub(crate) fn to(&self, at: &CommandAt) -> Option<&'a Reply>
        ensures { (h : History) → AreReplies h self.now → option_map (λ r. r.now) result ≡ reply_to at.now.session at.now.seq h }
    {
        self.known.get(at).copied()
    }

    /// Notes one entry more. The only error is out of memory.
    fn note(&mut self, entry: &'a Entry) -> Result<(), Memory>
        ensures { OnOk result ((h : History) → AreReplies h self.old → AreReplies (entry.now ∷ h) self.new) }
    {
        if let Kind::Replied {
            session,
            seq,
            reply,
            ..
        } = &entry.kind
        {
            let at = CommandAt {
                session: *session,
                seq: *seq,
            };
            self.known.insert(at, reply)?;
        }
        Ok(())
    }
}

/// The replies of these entries, the oldest first. The only error is out of memory.
pub(crate) fn replies_of<'a>(alloc: Global, entries: &'a [Entry]) -> Result<Replies<'a>, Memory>
    ensures { IfOk result (λ replies. AreReplies (reverse entries.now) replies) }
{
    let mut replies = Replies {
        known: IndexMap::new(alloc),
    };
    for entry in entries {
        replies.note(entry)?;
    }
    Ok(replies)
}
