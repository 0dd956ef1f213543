//! Cases of texts: a topology, a script, a schedule or a journal, through its own reader and printer.
ghost use Rattle.std.specs.List.{AllByRecursion};
ghost use Rattle.ov_journal.specs.Line.{HasLine};

use crate::case::Case;
use crate::fault::CaseFault;
use crate::line::bytes_of;
use ov_base::{Memory, print_number};
use ov_event::{Entry, parse_items, print_items};
use ov_functor::Reply;
use ov_io::{ReportError, SureSink};
use ov_journal::{JournalError, parse_entry, print_entry, read_journal, write_journal};
use ov_script::{Schedule, Script};
use ov_topology::Topology;
use std::alloc::Global;

/// `same` where the text is printed again byte for byte, else what is printed, or the fault line.
pub fn outcome(alloc: Global, kind: &str, case: &Case) -> Result<Vec<u8>, CaseFault> {
    let text = bytes_of(alloc, case.input.as_slice())?;
    let mut printed = Vec::new(alloc);
    match (kind, kind.strip_prefix("script ")) {
        ("topology", None) => print_topology(alloc, text.as_slice(), &mut printed)?,
        ("schedule", None) => print_schedule(alloc, text.as_slice(), &mut printed)?,
        ("journal", None) => print_journal(alloc, text.as_slice(), &mut printed)?,
        ("words", None) => print_words(alloc, text.as_slice(), &mut printed)?,
        (_, Some(gateways)) => match gateways.parse::<u32>() {
            Ok(gateways) => print_script(alloc, text.as_slice(), gateways, &mut printed)?,
            Err(_) => return Err(case.head_fault()),
        },
        _ => return Err(case.head_fault()),
    }
    if printed.as_slice() == text.as_slice() {
        Ok(Vec::from_slice(alloc, b"same\n")?)
    } else {
        Ok(printed)
    }
}

/// Prints the topology of a document, or its fault line.
fn print_topology(alloc: Global, text: &[u8], printed: &mut Vec<u8>) -> Result<(), Memory> {
    match Topology::read(alloc, text) {
        Ok(topology) => print_values(&topology, printed),
        Err(fault) => {
            fault.print_to(printed)?;
            end_line(printed)
        }
    }
}

/// Prints the five lines of a topology.
fn print_values(topology: &Topology, printed: &mut Vec<u8>) -> Result<(), Memory> {
    print_value("centres", topology.centres(), printed)?;
    print_value("partitions", topology.partitions(), printed)?;
    print_gateways(topology, printed)?;
    print_value("write", topology.write(), printed)?;
    print_value("read", topology.read_quorum(), printed)
}

fn print_value(name: &str, value: u32, printed: &mut Vec<u8>) -> Result<(), Memory> {
    printed.extend_from_slice(name.as_bytes())?;
    printed.extend_from_slice(b" = ")?;
    print_number(u64::from(value), printed)?;
    end_line(printed)
}

fn print_gateways(topology: &Topology, printed: &mut Vec<u8>) -> Result<(), Memory> {
    printed.extend_from_slice(b"gateways = [")?;
    for gate in 0..topology.gateways() {
        if gate > 0 {
            printed.extend_from_slice(b", ")?;
        }
        print_number(u64::from(topology.centre_of(gate)), printed)?;
    }
    printed.push(b']')?;
    end_line(printed)
}

/// Prints the script of a text, or its fault line.
fn print_script(
    alloc: Global,
    text: &[u8],
    gateways: u32,
    printed: &mut Vec<u8>,
) -> Result<(), Memory> {
    match Script::read(alloc, text, gateways) {
        Ok(script) => script.print_to(printed),
        Err(fault) => {
            fault.print_to(printed)?;
            end_line(printed)
        }
    }
}

/// Prints the schedule of a text, or its fault line.
fn print_schedule(alloc: Global, text: &[u8], printed: &mut Vec<u8>) -> Result<(), Memory> {
    match Schedule::read(alloc, text) {
        Ok(schedule) => schedule.print_to(printed),
        Err(fault) => {
            fault.print_to(printed)?;
            end_line(printed)
        }
    }
}

/// Prints the journal of a text, or its fault line.
fn print_journal(alloc: Global, text: &[u8], printed: &mut Vec<u8>) -> Result<(), Memory> {
    match read_journal(alloc, text) {
        Ok(entries) => write_entries(alloc, entries.as_slice(), printed),
        Err(JournalError::Memory) => Err(Memory),
        Err(JournalError::Line(line)) => {
            printed.extend_from_slice(b"journal: line ")?;
            print_number(line, printed)?;
            end_line(printed)
        }
    }
}

/// Prints entries that were read, which have lines.
fn write_entries(alloc: Global, entries: &[Entry], printed: &mut Vec<u8>) -> Result<(), Memory>
    requires { AllByRecursion HasLine entries.now }
{
    let mut sink = SureSink::new(alloc);
    match write_journal(alloc, entries, &mut sink) {
        Ok(()) => Ok(printed.extend_from_slice(sink.written())?),
        Err(ReportError::Memory | ReportError::WriteFault) => Err(Memory),
    }
}

/// Prints the one line of the text by the reader of lines, of items or of replies that takes it, or `none`.
fn print_words(alloc: Global, text: &[u8], printed: &mut Vec<u8>) -> Result<(), Memory> {
    let line = text.strip_suffix(b"\n".as_slice()).unwrap_or(text);
    if let Some(entry) = parse_entry(alloc, line)? {
        print_entry(alloc, &entry, printed)?;
    } else if let Some(items) = parse_items(alloc, line)? {
        print_items(items.as_slice(), printed)?;
    } else if let Some(reply) = Reply::parse(alloc, line)? {
        reply.print_to(printed)?;
    } else {
        printed.extend_from_slice(b"none")?;
    }
    end_line(printed)
}

fn end_line(printed: &mut Vec<u8>) -> Result<(), Memory> {
    Ok(printed.push(b'\n')?)
}
