//! The text of a report.
ghost use Rattle.std.specs.Prelude.{◌≡◌, ◌≤◌, OnOk, OnErr, IsErrOf};
ghost use Rattle.std.specs.Option.{option_map};
ghost use Rattle.ov_base.specs.Word.{Printed};
ghost use Rattle.ov_io.specs.Causes.{Rose, Wrote, WroteFront};
ghost use Rattle.ov_report.specs.Report.{line_text, lines_text, reply_or_waiting};
ghost use Rattle.ov_report.specs.Seen.{line_seen, lines_seen};

use crate::report::ReportLine;
use ov_base::{Memory, print_number};
use ov_functor::Reply;
use ov_io::{ReportError, Sink, put_text};
use std::alloc::Global;

/// Writes the lines, a put for each. After an error a prefix of their text was written.
pub(crate) fn put_lines<K: Sink>(
    alloc: Global,
    lines: &[ReportLine<'_>],
    out: &mut K,
) -> Result<(), ReportError>
    ensures ok { OnOk result (Wrote (K.written out.old) (K.written out.new) (lines_text (lines_seen lines.now))) }
    ensures err { OnErr result (WroteFront (K.written out.old) (K.written out.new) (lines_text (lines_seen lines.now))) }
    ensures failed { IsErrOf result ReportError.WriteFault → Rose (K.faults out.old) (K.faults out.new) }
    ensures later { K.faults out.old ≤ K.faults out.new }
    ensures quiet { ¬ IsErrOf result ReportError.WriteFault → K.faults out.new ≡ K.faults out.old }
{
    let mut text = Vec::new(alloc);
    for line in lines {
        put_line(alloc, line, &mut text, out)?;
    }
    Ok(())
}

/// Writes a line by way of this buffer.
fn put_line<K: Sink>(
    alloc: Global,
    line: &ReportLine<'_>,
    text: &mut Vec<u8>,
    out: &mut K,
) -> Result<(), ReportError>
    ensures ok { OnOk result (Wrote (K.written out.old) (K.written out.new) (line_text (line_seen line.now))) }
    ensures err { OnErr result (WroteFront (K.written out.old) (K.written out.new) (line_text (line_seen line.now))) }
    ensures failed { IsErrOf result ReportError.WriteFault → Rose (K.faults out.old) (K.faults out.new) }
    ensures later { K.faults out.old ≤ K.faults out.new }
    ensures quiet { ¬ IsErrOf result ReportError.WriteFault → K.faults out.new ≡ K.faults out.old }
{
    match print_into(line, text) {
        Err(_) => Err(ReportError::Memory),
        Ok(()) => put_text(alloc, text.as_slice(), out),
    }
}

/// Makes the text that of the line. The only error is out of memory.
fn print_into(line: &ReportLine<'_>, text: &mut Vec<u8>) -> Result<(), Memory>
    ensures { OnOk result (text.new.items ≡ line_text (line_seen line.now)) }
{
    text.clear();
    text.extend_from_slice(line.session)?;
    text.push(b' ')?;
    print_number(u64::from(line.seq), text)?;
    text.push(b' ')?;
    print_reply(line.reply, text)?;
    text.push(b'\n')?;
    Ok(())
}

/// Writes the reply, or `waiting`, at the end. On an error a prefix of it was written.
fn print_reply(reply: Option<&Reply>, text: &mut Vec<u8>) -> Result<(), Memory>
    ensures { Printed result text.old.items text.new.items (reply_or_waiting (option_map (λ r. r.now) reply.entry)) }
{
    match reply {
        None => Ok(text.extend_from_slice(b"waiting")?),
        Some(reply) => reply.print_to(text),
    }
}
