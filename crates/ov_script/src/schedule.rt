//! Schedules: lists of steps.
ghost use Rattle.std.specs.Prelude.{◌≡◌, ◌∷◌, ◌++◌, [], IfOk, IfErr, OnOk, Ok};
ghost use Rattle.std.specs.List.{AllByRecursion};
ghost use Rattle.ov_base.specs.Word.{Printed};
ghost use Rattle.ov_script.specs.Step.{IsStep, step_text};
ghost use Rattle.ov_script.specs.Schedule as spec;
ghost use Rattle.ov_script.specs.Schedule.{Gives, IsSchedule, line_read, schedule_of, schedule_text};

use crate::fault::{ScheduleError, ScheduleFault};
use crate::step::Step;
use ov_base::{FromLines, LineError, Memory, Plain, Sequence, read_lines};
use std::alloc::Global;
use std::marker::Model;

/// The most lines of a schedule.
const MOST_STEPS: u64 = 100_000;

/// A schedule: at most 100,000 steps, each in form (docs/FORMATS.md, Schedule). Contracts see the list.
#[derive(Debug, Drop)]
pub struct Schedule {
    steps: Sequence<Step>,
}

impl Model for Schedule {
    ghost use Rattle.std.specs.Prelude.{List};
    ghost use Rattle.ov_script.specs.declared.step.Step.{Step};
    ghost use Rattle.ov_script.specs.Schedule.{IsSchedule};

    ghost Value = { List Step };

    ghost view = { λ s. s.steps };

    ghost invariant = { λ s. IsSchedule s.steps };
}

impl Schedule {
    /// The schedule of a text, or its first line with a fault and the first fault of that line.
    pub fn read(alloc: Global, bytes: &[u8]) -> Result<Schedule, ScheduleError>
        ensures exact { Gives result (schedule_of bytes.now) }
        ensures spelled { IfOk result (λ s. bytes.now ≡ schedule_text s) }
    {
        match steps_read(alloc, bytes) {
            Ok(steps) => Ok(Schedule { steps }),
            Err(error) => Err(error),
        }
    }

    /// The steps, in their order.
    pub fn steps(&self) -> &[Step]
        ensures steps { result.now ≡ self.now }
        ensures form { IsSchedule self.now }
    {
        self.steps.as_slice()
    }

    /// Writes the text that was read at the end. It is read back as the same schedule. On an error a prefix of
    /// it was written.
    pub fn print_to(&self, text: &mut Vec<u8>) -> Result<(), Memory>
        ensures text { Printed result text.old.items text.new.items (schedule_text self.now) }
        ensures again { schedule_of (schedule_text self.now) ≡ Ok self.now }
    {
        print_steps(self.steps.as_slice(), text)
    }

    /// A copy, which equals its source. The only error is out of memory.
    pub fn copy(&self) -> Result<Schedule, Memory>
        ensures { IfOk result (λ copied. copied ≡ self.now) }
    {
        Ok(Schedule {
            steps: self.steps.copy()?,
        })
    }
}

fn steps_read(alloc: Global, bytes: &[u8]) -> Result<Sequence<Step>, ScheduleError>
    ensures { Gives result (schedule_of bytes.now) }
{
    let empty = Steps {
        steps: Sequence::new(alloc),
    };
    match read_lines(alloc, empty, bytes) {
        Ok(read) => Ok(read.steps),
        Err(LineError::Memory) => Err(ScheduleError::Memory),
        Err(LineError::Line { line, fault }) => Err(fault_at(line, fault)),
    }
}

fn fault_at(line: u64, fault: ScheduleFault) -> ScheduleError
    ensures { result ≡ ScheduleError.Line line fault }
{
    ScheduleError::Line { line, fault }
}

/// The steps of the lines that were read. Contracts see the list.
#[derive(Drop)]
pub struct Steps {
    steps: Sequence<Step>,
}

impl Model for Steps {
    ghost use Rattle.std.specs.Prelude.{List};
    ghost use Rattle.ov_script.specs.declared.step.Step.{Step};

    ghost Value = { List Step };

    ghost view = { λ s. s.steps };
}

impl FromLines for Steps {
    type Fault = ScheduleFault;

    ghost taken = { line_read };

    ghost unended = { spec.unended };

    fn take_line(
        &mut self,
        _alloc: Global,
        line: u64,
        text: &[u8],
    ) -> Result<(), LineError<ScheduleFault>> {
        if line > MOST_STEPS {
            return Err(LineError::Line {
                line,
                fault: ScheduleFault::Lines,
            });
        }
        match Step::parse(text) {
            Some(step) => push_step(&mut self.steps, step),
            None => Err(LineError::Line {
                line,
                fault: ScheduleFault::Form,
            }),
        }
    }

    fn unended(line: u64) -> ScheduleFault {
        if MOST_STEPS < line {
            ScheduleFault::Lines
        } else {
            ScheduleFault::Form
        }
    }
}

fn push_step(steps: &mut Sequence<Step>, step: Step) -> Result<(), LineError<ScheduleFault>>
    ensures added { OnOk result (steps.new ≡ steps.old ++ step ∷ []) }
    ensures memory { IfErr result (λ error. error ≡ LineError.Memory) }
{
    match steps.push(step) {
        Ok(()) => Ok(()),
        Err(_) => Err(LineError::Memory),
    }
}

fn print_steps(steps: &[Step], text: &mut Vec<u8>) -> Result<(), Memory>
    requires { AllByRecursion IsStep steps.now }
    ensures { Printed result text.old.items text.new.items (schedule_text steps.now) }
{
    for step in steps {
        print_line(step, text)?;
    }
    Ok(())
}

/// Writes the step and a line feed.
fn print_line(step: &Step, text: &mut Vec<u8>) -> Result<(), Memory>
    requires { IsStep step.now }
    ensures { Printed result text.old.items text.new.items (step_text step.now ++ 10 ∷ []) }
{
    step.print_to(text)?;
    text.push(b'\n')?;
    Ok(())
}
