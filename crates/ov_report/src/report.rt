//! Reports.
ghost use Rattle.std.specs.Prelude.{◌≡◌, ◌≤◌, reverse, IfOk, OnOk, OnErr, IsErrOf};
ghost use Rattle.std.specs.List.{list_all};
ghost use Rattle.ov_io.specs.Causes.{Rose, Wrote, WroteFront};
ghost use Rattle.ov_session.specs.declared.plan.SessionPlan.{SessionPlan};
ghost use Rattle.ov_script.specs.Sessions.{roster_of};
ghost use Rattle.ov_history.specs.Past.{History};
ghost use Rattle.ov_report.specs.Replies.{AreReplies};
ghost use Rattle.ov_report.specs.Report.{is_answered, line_of, lines_text, name_of, report_lines, story_lines};
ghost use Rattle.ov_report.specs.Seen.{line_seen, lines_seen};

use crate::print::put_lines;
use crate::replies::{Replies, replies_of};
use ov_base::Memory;
use ov_event::Entry;
use ov_functor::Reply;
use ov_io::{ReportError, Sink};
use ov_script::{CommandAt, Script};
use ov_session::Roster;
use ov_world::Story;
use std::alloc::Global;
use std::marker::Model;

/// A line of a report: a command, and its reply, where it has one.
#[derive(Clone, Copy, Debug)]
pub(crate) struct ReportLine<'a> {
    /// The name of its session.
    pub(crate) session: &'a [u8],
    /// Its number in the session.
    pub(crate) seq: u32,
    pub(crate) reply: Option<&'a Reply>,
}

/// What a story says of each command of its script, in the order of the script's lines (docs/FORMATS.md, Report). Contracts see its lines.
#[derive(Drop)]
pub struct Report<'a> {
    lines: Vec<ReportLine<'a>>,
}

impl<'a> Model for Report<'a> {
    ghost use Rattle.std.specs.Prelude.{List};
    ghost use Rattle.ov_report.specs.Report.{Line};
    ghost use Rattle.ov_report.specs.Seen.{lines_seen};

    ghost Value = { List Line };

    ghost view = { λ report. lines_seen report.lines.items };
}

impl<'a> Report<'a> {
    /// The report of a story; without a script it is empty. The only error is out of memory.
    pub fn of(alloc: Global, story: &'a Story) -> Result<Report<'a>, Memory>
        ensures { IfOk result (λ report. report ≡ story_lines story.now.script story.now.entries) }
    {
        match &story.script {
            None => Ok(Report {
                lines: Vec::new(alloc),
            }),
            Some(script) => Ok(Report {
                lines: lines_of(alloc, script, story.entries.as_slice())?,
            }),
        }
    }

    /// Whether every command is replied. Does not allocate.
    pub fn is_whole(&self) -> bool
        ensures { result ≡ list_all is_answered self.now }
    {
        self.lines.iter().all(|line| line.reply.is_some())
    }

    /// Writes the report, a put for each line. After an error a prefix of it was written. `WriteFault` comes only where the sink's count of faults
    /// rose in this call, and it rises in no other; out of memory may always come.
    pub fn put_to<K: Sink>(&self, alloc: Global, out: &mut K) -> Result<(), ReportError>
        ensures ok { OnOk result (Wrote (K.written out.old) (K.written out.new) (lines_text self.now)) }
        ensures err { OnErr result (WroteFront (K.written out.old) (K.written out.new) (lines_text self.now)) }
        ensures failed { IsErrOf result ReportError.WriteFault → Rose (K.faults out.old) (K.faults out.new) }
        ensures later { K.faults out.old ≤ K.faults out.new }
        ensures quiet { ¬ IsErrOf result ReportError.WriteFault → K.faults out.new ≡ K.faults out.old }
    {
        put_lines(alloc, self.lines.as_slice(), out)
    }
}

/// Writes the report of a story (docs/FORMATS.md, Report), a put for each line; a story without a script has the empty one. After an error a prefix
/// of it was written. `WriteFault` comes only where the sink's count of faults rose in this call, and it rises in no other; out of memory may always
/// come.
pub fn report_to<K: Sink>(alloc: Global, story: &Story, out: &mut K) -> Result<(), ReportError>
    ensures ok { OnOk result (Wrote (K.written out.old) (K.written out.new) (lines_text (story_lines story.now.script story.now.entries))) }
    ensures err { OnErr result (WroteFront (K.written out.old) (K.written out.new) (lines_text (story_lines story.now.script story.now.entries))) }
    ensures failed { IsErrOf result ReportError.WriteFault → Rose (K.faults out.old) (K.faults out.new) }
    ensures later { K.faults out.old ≤ K.faults out.new }
    ensures quiet { ¬ IsErrOf result ReportError.WriteFault → K.faults out.new ≡ K.faults out.old }
{
    match Report::of(alloc, story) {
        Err(_) => Err(ReportError::Memory),
        Ok(report) => report.put_to(alloc, out),
    }
}

/// The lines of a script with these entries, the oldest first. The only error is out of memory.
fn lines_of<'a>(
    alloc: Global,
    script: &'a Script,
    entries: &'a [Entry],
) -> Result<Vec<ReportLine<'a>>, Memory>
    ensures { IfOk result (λ lines. lines_seen lines.items ≡ report_lines script.now (reverse entries.now)) }
{
    let replies = replies_of(alloc, entries)?;
    let mut lines = Vec::with_capacity(alloc, script.order().len())?;
    for at in script.order() {
        lines.push(line_of(script.roster(), &replies, at))?;
    }
    Ok(lines)
}

/// The line of a command. Does not allocate.
fn line_of<'a>(roster: &'a Roster, replies: &Replies<'a>, at: &CommandAt) -> ReportLine<'a>
    ensures { (h : History) → AreReplies h replies.now → line_seen result ≡ line_of roster.now h at.now }
{
    ReportLine {
        session: name_of(roster, at.session),
        seq: at.seq,
        reply: replies.to(at),
    }
}

/// The name of a session. Does not allocate.
fn name_of(roster: &Roster, session: u32) -> &[u8]
    ensures { result.now ≡ name_of roster.now session }
{
    match roster.sessions.as_slice().get(session as usize) {
        None => b"",
        Some(plan) => plan.name.bytes(),
    }
}
