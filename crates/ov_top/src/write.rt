//! The writing half: it writes the text that is meant, and reads nothing.
ghost use Rattle.std.specs.Prelude.{◌≡◌, ◌++◌, codes, decimal, if◌then◌else◌, IfOk};
ghost use Rattle.std.specs.List.{AllByRecursion};
ghost use Rattle.ov_journal.specs.Journal.{journal_text};
ghost use Rattle.ov_journal.specs.Line.{HasLine};
ghost use Rattle.ov_report.specs.Report.{lines_text, story_lines};
ghost use Rattle.ov_report.specs.Summary.{summary_of, summary_text};
ghost use Rattle.ov_top.specs.Causes.{Puts};
ghost use Rattle.ov_top.specs.Ending.{report_status, usage_text, verdict_status, verdict_text};
ghost use Rattle.ov_top.specs.Form.{form_status, form_text};
ghost use Rattle.ov_top.specs.Names.{names_seen};
ghost use Rattle.ov_top.specs.Reading.{refusal_status, refusal_text};

use crate::names::{FileNames, name_of};
use crate::refusal::{FormFault, Refusal};
use ov_base::{Memory, print_number};
use ov_event::Entry;
use ov_io::{ReportError, Sink, put_text};
use ov_journal::{Verdict, write_journal};
use ov_report::{Report, summary_to};
use ov_world::Story;
use std::alloc::Global;

/// The usage text, a line for each command.
const USAGE: &[u8] = b"usage: oceanvista step [--journal] TOPOLOGY SCRIPT SCHEDULE
       oceanvista run [--journal] TOPOLOGY SCRIPT WORKERS
       oceanvista audit TOPOLOGY SCRIPT JOURNAL
       oceanvista make NUMBER COMMANDS
";

/// Writes the usage text. The status is 2, or that of the sink's fault or of `Memory`.
pub(crate) fn put_usage<K: Sink>(alloc: Global, out: &mut K) -> u8
    ensures { Puts 2 usage_text result (K.faults out.old) (K.faults out.new) (K.written out.old) (K.written out.new) }
{
    put(alloc, 2, USAGE, out)
}

/// Writes why nothing was executed. The status is that of the refusal, or that of the sink's fault or of
/// `Memory`.
pub(crate) fn put_refusal<K: Sink>(
    alloc: Global,
    names: &FileNames<'_>,
    refusal: Refusal,
    out: &mut K,
) -> u8
    ensures puts { Puts (refusal_status refusal) (refusal_text (names_seen names.now) refusal) result (K.faults out.old) (K.faults out.new) (K.written out.old) (K.written out.new) }
    ensures memory { refusal ≡ Refusal.Memory → result ≡ 9 }
{
    match refusal {
        Refusal::Memory => 9,
        Refusal::Failed(word) => put_named(alloc, 7, b"read fault: ", name_of(names, word), out),
        Refusal::TooLong(word) => put_named(alloc, 10, b"too long: ", name_of(names, word), out),
        Refusal::Form(fault) => put_fault(alloc, &fault, out),
    }
}

fn put_fault<K: Sink>(alloc: Global, fault: &FormFault, out: &mut K) -> u8
    ensures { Puts (form_status fault.now) (form_text fault.now) result (K.faults out.old) (K.faults out.new) (K.written out.old) (K.written out.new) }
{
    match fault_line(alloc, fault) {
        Err(_) => 9,
        Ok(line) => put(alloc, fault.status(), line.as_slice(), out),
    }
}

fn fault_line(alloc: Global, fault: &FormFault) -> Result<Vec<u8>, Memory>
    ensures { IfOk result (λ v. v.items ≡ form_text fault.now) }
{
    let mut line = Vec::new(alloc);
    fault.print_to(&mut line)?;
    line.push(b'\n')?;
    Ok(line)
}

fn put_named<K: Sink>(alloc: Global, status: u8, front: &[u8], name: &str, out: &mut K) -> u8
    ensures { Puts status (front.now ++ name.now ++ codes "\n") result (K.faults out.old) (K.faults out.new) (K.written out.old) (K.written out.new) }
{
    match named(alloc, front, name) {
        Err(_) => 9,
        Ok(text) => put(alloc, status, text.as_slice(), out),
    }
}

fn named(alloc: Global, front: &[u8], name: &str) -> Result<Vec<u8>, Memory>
    ensures { IfOk result (λ v. v.items ≡ front.now ++ name.now ++ codes "\n") }
{
    let mut text = Vec::from_slice(alloc, front)?;
    text.extend_from_slice(name.as_bytes())?;
    text.extend_from_slice(b"\n")?;
    Ok(text)
}

fn put<K: Sink>(alloc: Global, status: u8, text: &[u8], out: &mut K) -> u8
    ensures { Puts status text.now result (K.faults out.old) (K.faults out.new) (K.written out.old) (K.written out.new) }
{
    match put_text(alloc, text, out) {
        Ok(()) => status,
        Err(error) => status_of(error),
    }
}

fn status_of(error: ReportError) -> u8
    ensures memory { error ≡ ReportError.Memory → result ≡ 9 }
    ensures failed { error ≡ ReportError.WriteFault → result ≡ 8 }
{
    match error {
        ReportError::Memory => 9,
        ReportError::WriteFault => 8,
    }
}

/// Writes the report of the story, or where `journal` its journal, a put for each line. The status is 0 where each command of its script is replied and
/// else 1, or that of the sink's fault or of `Memory`. Condition: each entry has a line.
pub(crate) fn put_history<K: Sink>(alloc: Global, journal: bool, story: &Story, out: &mut K) -> u8
    requires { AllByRecursion HasLine story.now.entries }
    ensures { Puts (report_status (story_lines story.now.script story.now.entries))
        (if journal then journal_text story.now.entries else lines_text (story_lines story.now.script story.now.entries))
        result (K.faults out.old) (K.faults out.new) (K.written out.old) (K.written out.new) }
{
    match Report::of(alloc, story) {
        Err(_) => 9,
        Ok(report) => {
            if journal {
                put_journal(alloc, &report, story.entries.as_slice(), out)
            } else {
                put_report(alloc, &report, out)
            }
        }
    }
}

/// Writes the report. The status is its own, or that of the sink's fault or of `Memory`.
fn put_report<K: Sink>(alloc: Global, report: &Report<'_>, out: &mut K) -> u8
    ensures { Puts (report_status report.now) (lines_text report.now) result (K.faults out.old) (K.faults out.new) (K.written out.old) (K.written out.new) }
{
    match report.put_to(alloc, out) {
        Err(error) => status_of(error),
        Ok(()) => status_of_lines(report),
    }
}

/// Writes the journal of these entries. The status is that of the report, or that of the sink's fault or of `Memory`. Condition: each entry has a line.
fn put_journal<K: Sink>(alloc: Global, report: &Report<'_>, entries: &[Entry], out: &mut K) -> u8
    requires { AllByRecursion HasLine entries.now }
    ensures { Puts (report_status report.now) (journal_text entries.now) result (K.faults out.old) (K.faults out.new) (K.written out.old) (K.written out.new) }
{
    match write_journal(alloc, entries, out) {
        Err(error) => status_of(error),
        Ok(()) => status_of_lines(report),
    }
}

/// Writes the summary of the story, a put for each line. The status is 0, or that of the sink's fault or of `Memory`.
pub(crate) fn put_summary<K: Sink>(alloc: Global, story: &Story, out: &mut K) -> u8
    ensures { Puts 0 (summary_text (summary_of story.now.script story.now.entries)) result (K.faults out.old) (K.faults out.new) (K.written out.old) (K.written out.new) }
{
    match summary_to(alloc, story, out) {
        Ok(()) => 0,
        Err(error) => status_of(error),
    }
}

/// The status of a report that was written.
fn status_of_lines(report: &Report<'_>) -> u8
    ensures { result ≡ report_status report.now }
{
    if report.is_whole() { 0 } else { 1 }
}

/// Writes the verdict on so many entries. The status is that of the verdict, or that of the sink's fault or of `Memory`.
pub(crate) fn put_verdict<K: Sink>(alloc: Global, count: u64, verdict: Verdict, out: &mut K) -> u8
    ensures { Puts (verdict_status verdict) (verdict_text count verdict) result (K.faults out.old) (K.faults out.new) (K.written out.old) (K.written out.new) }
{
    match verdict {
        Verdict::Lawful => put_numbered(alloc, 0, b"lawful ", count, out),
        Verdict::Refused { entry } => put_numbered(alloc, 6, b"journal: entry ", entry, out),
    }
}

fn put_numbered<K: Sink>(alloc: Global, status: u8, front: &[u8], number: u64, out: &mut K) -> u8
    ensures { Puts status (front.now ++ decimal number ++ codes "\n") result (K.faults out.old) (K.faults out.new) (K.written out.old) (K.written out.new) }
{
    match numbered(alloc, front, number) {
        Err(_) => 9,
        Ok(text) => put(alloc, status, text.as_slice(), out),
    }
}

fn numbered(alloc: Global, front: &[u8], number: u64) -> Result<Vec<u8>, Memory>
    ensures { IfOk result (λ v. v.items ≡ front.now ++ decimal number ++ codes "\n") }
{
    let mut text = Vec::from_slice(alloc, front)?;
    print_number(number, &mut text)?;
    text.extend_from_slice(b"\n")?;
    Ok(text)
}
