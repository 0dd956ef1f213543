//! Reading the text of a script.
ghost use Rattle.std.specs.Prelude.{◌≡◌};
ghost use Rattle.ov_script.specs.Reading as spec;
ghost use Rattle.ov_script.specs.Reading.{line_taken};
ghost use Rattle.ov_script.specs.Script.{Gives, script_of};
ghost use Rattle.ov_script.specs.declared.fault.ScriptFault.TheVariants.{Form};

use crate::fault::{AddError, ScriptError, ScriptFault};
use crate::line::ScriptLine;
use crate::script::Script;
use ov_base::{FromLines, LineError, read_lines};
use std::alloc::Global;
use std::marker::Model;

/// The script of a text, or its first fault.
pub(crate) fn read_text(alloc: Global, bytes: &[u8], gateways: u32) -> Result<Script, ScriptError>
    ensures { Gives gateways result (script_of gateways bytes.now) }
{
    let empty = Reading {
        script: Script::empty(alloc, gateways),
    };
    match read_lines(alloc, empty, bytes) {
        Ok(read) => Ok(read.script),
        Err(LineError::Memory) => Err(ScriptError::Memory),
        Err(LineError::Line { line, fault }) => Err(fault_at(line, fault)),
    }
}

fn fault_at(line: u64, fault: ScriptFault) -> ScriptError
    ensures { result ≡ ScriptError.Line line fault }
{
    ScriptError::Line { line, fault }
}

/// The script of the lines that were read. Contracts see it.
#[derive(Drop)]
pub struct Reading {
    script: Script,
}

impl Model for Reading {
    ghost use Rattle.ov_script.specs.Script.{Content};

    ghost Value = { Content };

    ghost view = { λ r. r.script };
}

impl FromLines for Reading {
    type Fault = ScriptFault;

    ghost taken = { line_taken };

    ghost unended = { λ k. Form };

    fn take_line(
        &mut self,
        alloc: Global,
        line: u64,
        text: &[u8],
    ) -> Result<(), LineError<ScriptFault>> {
        let parsed = match ScriptLine::parse(alloc, text) {
            Ok(parsed) => parsed,
            Err(_) => return Err(LineError::Memory),
        };
        match parsed {
            Some(parsed) => error_at(line, self.script.add_in_form(parsed)),
            None => Err(LineError::Line {
                line,
                fault: ScriptFault::Form,
            }),
        }
    }

    fn unended(_line: u64) -> ScriptFault {
        ScriptFault::Form
    }
}

fn error_at(line: u64, added: Result<(), AddError>) -> Result<(), LineError<ScriptFault>>
    ensures { result ≡ spec.error_at line added }
{
    match added {
        Ok(()) => Ok(()),
        Err(AddError::Memory) => Err(LineError::Memory),
        Err(AddError::Fault(fault)) => Err(LineError::Line { line, fault }),
    }
}
