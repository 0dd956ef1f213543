//! Summaries.
ghost use Rattle.std.specs.Prelude.{◌≡◌, ◌≤◌, decimal, reverse, OnOk, OnErr, IsErrOf};
ghost use Rattle.std.specs.Option.{option_map};
ghost use Rattle.ov_base.specs.Amount.{amount_text};
ghost use Rattle.ov_io.specs.Causes.{Rose, Wrote, WroteFront};
ghost use Rattle.ov_report.specs.Report as report;
ghost use Rattle.ov_report.specs.Summary as spec;
ghost use Rattle.ov_report.specs.Summary.{number_line, script_summary, summary_of, summary_text};

use ov_event::{Entry, Kind};
use ov_functor::{Reply, Shown};
use ov_io::{ReportError, Sink, put_text};
use ov_script::{CommandAt, Script};
use ov_world::Story;
use std::alloc::Global;

/// What became of a script, in numbers (docs/FORMATS.md, Summary).
#[derive(Clone, Copy, Debug, PartialEq, Eq)]
pub struct Summary {
    /// How many commands the script has.
    pub commands: u64,
    /// How many transactions were done.
    pub done: u64,
    /// How many transactions were aborted.
    pub aborted: u64,
    /// How many snapshots were read.
    pub snapshots: u64,
    /// The sum of the gets in the reply to the script's last command, absent as 0; 0 where it has none.
    pub sum: i128,
}

impl Summary {
    /// The summary of a story; without a script it is zeros. Does not allocate.
    pub fn of(story: &Story) -> Summary
        ensures { result ≡ summary_of story.now.script story.now.entries }
    {
        match &story.script {
            None => Summary {
                commands: 0,
                done: 0,
                aborted: 0,
                snapshots: 0,
                sum: 0,
            },
            Some(script) => of_script(script, story.entries.as_slice()),
        }
    }

    /// Writes the summary, a put for each of its five lines. After an error a prefix of it was written. `WriteFault` comes only where the sink's
    /// count of faults rose in this call, and it rises in no other; out of memory may always come.
    pub fn put_to<K: Sink>(&self, alloc: Global, out: &mut K) -> Result<(), ReportError>
        ensures ok { OnOk result (Wrote (K.written out.old) (K.written out.new) (summary_text self.now)) }
        ensures err { OnErr result (WroteFront (K.written out.old) (K.written out.new) (summary_text self.now)) }
        ensures failed { IsErrOf result ReportError.WriteFault → Rose (K.faults out.old) (K.faults out.new) }
        ensures later { K.faults out.old ≤ K.faults out.new }
        ensures quiet { ¬ IsErrOf result ReportError.WriteFault → K.faults out.new ≡ K.faults out.old }
    {
        put_count(alloc, "commands", self.commands, out)?;
        put_count(alloc, "done", self.done, out)?;
        put_count(alloc, "aborted", self.aborted, out)?;
        put_count(alloc, "snapshots", self.snapshots, out)?;
        put_number(alloc, "sum", self.sum, out)
    }
}

/// Writes the summary of a story (docs/FORMATS.md, Summary), a put for each of its five lines; that of a story without a script is zeros. After an
/// error a prefix of it was written. `WriteFault` comes only where the sink's count of faults rose in this call, and it rises in no other; out of
/// memory may always come.
pub fn summary_to<K: Sink>(alloc: Global, story: &Story, out: &mut K) -> Result<(), ReportError>
    ensures ok { OnOk result (Wrote (K.written out.old) (K.written out.new) (summary_text (summary_of story.now.script story.now.entries))) }
    ensures err { OnErr result (WroteFront (K.written out.old) (K.written out.new) (summary_text (summary_of story.now.script story.now.entries))) }
    ensures failed { IsErrOf result ReportError.WriteFault → Rose (K.faults out.old) (K.faults out.new) }
    ensures later { K.faults out.old ≤ K.faults out.new }
    ensures quiet { ¬ IsErrOf result ReportError.WriteFault → K.faults out.new ≡ K.faults out.old }
{
    Summary::of(story).put_to(alloc, out)
}

/// Writes a line: a word and a count.
fn put_count<K: Sink>(alloc: Global, word: &str, count: u64, out: &mut K) -> Result<(), ReportError>
    ensures ok { OnOk result (Wrote (K.written out.old) (K.written out.new) (number_line word.now (decimal count))) }
    ensures err { OnErr result (WroteFront (K.written out.old) (K.written out.new) (number_line word.now (decimal count))) }
    ensures failed { IsErrOf result ReportError.WriteFault → Rose (K.faults out.old) (K.faults out.new) }
    ensures later { K.faults out.old ≤ K.faults out.new }
    ensures quiet { ¬ IsErrOf result ReportError.WriteFault → K.faults out.new ≡ K.faults out.old }
{
    put_number(alloc, word, i128::from(count), out)
}

/// Writes a line: a word and a number, which may be negative.
fn put_number<K: Sink>(
    alloc: Global,
    word: &str,
    number: i128,
    out: &mut K,
) -> Result<(), ReportError>
    ensures ok { OnOk result (Wrote (K.written out.old) (K.written out.new) (number_line word.now (amount_text number))) }
    ensures err { OnErr result (WroteFront (K.written out.old) (K.written out.new) (number_line word.now (amount_text number))) }
    ensures failed { IsErrOf result ReportError.WriteFault → Rose (K.faults out.old) (K.faults out.new) }
    ensures later { K.faults out.old ≤ K.faults out.new }
    ensures quiet { ¬ IsErrOf result ReportError.WriteFault → K.faults out.new ≡ K.faults out.old }
{
    match format!(in alloc; "{word} {number}\n") {
        Err(_) => Err(ReportError::Memory),
        Ok(line) => put_text(alloc, line.as_bytes(), out),
    }
}

/// The summary of a script with these entries, the oldest first. Does not allocate.
fn of_script(script: &Script, entries: &[Entry]) -> Summary
    ensures { result ≡ script_summary script.now entries.now }
{
    let mut summary = Summary {
        commands: script.order().len() as u64,
        done: 0,
        aborted: 0,
        snapshots: 0,
        sum: sum_in(last_reply(script.order(), entries)),
    };
    for entry in entries {
        if let Kind::Replied { reply, .. } = &entry.kind {
            match reply {
                Reply::Done { .. } => summary.done += 1,
                Reply::Aborted { .. } => summary.aborted += 1,
                Reply::Snap { .. } => summary.snapshots += 1,
            }
        }
    }
    summary
}

/// The reply to the last of these commands, where there is one and it has a reply. The entries stand the oldest first. Does not allocate.
fn last_reply<'a>(order: &[CommandAt], entries: &'a [Entry]) -> Option<&'a Reply>
    ensures { option_map (λ r. r.now) result ≡ spec.last_reply order.now (reverse entries.now) }
{
    let at = order.last()?;
    reply_to(at, entries)
}

/// The reply to the command, where it has one. The entries stand the oldest first, and are looked through from the newest. Does not allocate.
fn reply_to<'a>(at: &CommandAt, entries: &'a [Entry]) -> Option<&'a Reply>
    ensures { option_map (λ r. r.now) result ≡ report.reply_to at.now.session at.now.seq (reverse entries.now) }
{
    for place in (0..entries.len()).rev() {
        let reply = reply_in(at, &entries[place]);
        if reply.is_some() {
            return reply;
        }
    }
    None
}

/// The reply to the command in this entry, where it is there. Does not allocate.
fn reply_in<'a>(at: &CommandAt, entry: &'a Entry) -> Option<&'a Reply>
    ensures { option_map (λ r. r.now) result ≡ report.reply_in at.now.session at.now.seq entry.now.kind }
{
    match &entry.kind {
        Kind::Replied {
            session,
            seq,
            reply,
            ..
        } if at.session == *session && at.seq == *seq => Some(reply),
        _ => None,
    }
}

/// The sum of the gets of a reply, and 0 where there is none. Does not allocate.
fn sum_in(reply: Option<&Reply>) -> i128
    ensures { result ≡ spec.sum_in (option_map (λ r. r.now) reply.entry) }
{
    match reply {
        Some(Reply::Done { gets, .. } | Reply::Aborted { gets, .. }) => sum_of(gets.as_slice()),
        Some(Reply::Snap { .. }) | None => 0,
    }
}

/// The sum of the shown values, absent as 0. It is far from the ends of its range, whatever their number. Does not allocate.
fn sum_of(list: &[Shown]) -> i128
    ensures { result ≡ spec.sum_of list.now }
{
    let mut sum = 0;
    for shown in list {
        sum += i128::from(shown.value.or_zero().get());
    }
    sum
}
