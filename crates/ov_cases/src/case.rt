//! The form of a case file: what one case is, and how the lines of a file are read as cases.
use crate::fault::CaseFault;
use crate::line::Line;
use std::alloc::Global;

/// A case, as it stands in its file.
#[derive(Drop)]
pub struct Case<'a> {
    /// The number of the line with its title.
    pub number: u64,
    /// What it shows.
    pub title: &'a str,
    /// Its kind, and the words of the kind.
    pub head: Line<'a>,
    /// What it is done with.
    pub input: Vec<Line<'a>>,
    /// What has to come of it.
    pub wanted: Vec<Line<'a>>,
}

impl Case<'_> {
    /// The fault of a case whose head names no kind.
    pub fn head_fault(&self) -> CaseFault {
        self.head.fault("there is no such kind of case")
    }
}

/// The cases of a file, in their order, or the first line off the form.
pub fn cases_of<'a>(alloc: Global, text: &'a str) -> Result<Vec<Case<'a>>, CaseFault> {
    let mut reader = Reader {
        alloc,
        cases: Vec::new(alloc),
        place: Place::Between,
    };
    let mut number = 0u64;
    for text in text.lines() {
        number = number.saturating_add(1);
        reader.take(Line { number, text })?;
    }
    reader.finish(number)
}

/// Where the next line stands.
#[derive(Clone, Copy)]
enum Place<'a> {
    /// Between cases.
    Between,
    /// Behind this title.
    Head(Line<'a>),
    /// In the input of the last case.
    Input,
    /// In what the last case wants.
    Wanted,
}

/// Reads a file line by line.
#[derive(Drop)]
struct Reader<'a> {
    alloc: Global,
    cases: Vec<Case<'a>>,
    place: Place<'a>,
}

impl<'a> Reader<'a> {
    fn take(&mut self, line: Line<'a>) -> Result<(), CaseFault> {
        match self.place {
            Place::Between => self.take_between(line),
            Place::Head(title) => self.take_head(title, line),
            Place::Input => self.take_input(line),
            Place::Wanted => self.take_wanted(line),
        }
    }

    fn take_between(&mut self, line: Line<'a>) -> Result<(), CaseFault> {
        if line.text.is_empty() || line.text.starts_with('#') {
            return Ok(());
        }
        match line.text.strip_prefix("case ") {
            None => Err(line.fault("a comment or a case is wanted")),
            Some(title) => {
                self.place = Place::Head(Line {
                    number: line.number,
                    text: title,
                });
                Ok(())
            }
        }
    }

    fn take_head(&mut self, title: Line<'a>, head: Line<'a>) -> Result<(), CaseFault> {
        self.cases.push(Case {
            number: title.number,
            title: title.text,
            head,
            input: Vec::new(self.alloc),
            wanted: Vec::new(self.alloc),
        })?;
        self.place = Place::Input;
        Ok(())
    }

    fn take_input(&mut self, line: Line<'a>) -> Result<(), CaseFault> {
        if line.text == "----" {
            self.place = Place::Wanted;
        } else if let Some(case) = self.cases.last_mut() {
            case.input.push(line)?;
        }
        Ok(())
    }

    fn take_wanted(&mut self, line: Line<'a>) -> Result<(), CaseFault> {
        if line.text.is_empty() {
            self.place = Place::Between;
        } else if let Some(case) = self.cases.last_mut() {
            case.wanted.push(line)?;
        }
        Ok(())
    }

    /// The cases, where the file does not end before a case has its `----`.
    fn finish(self, number: u64) -> Result<Vec<Case<'a>>, CaseFault> {
        match self.place {
            Place::Between | Place::Wanted => Ok(self.cases),
            Place::Head(_) | Place::Input => Err(CaseFault::Form {
                number,
                what: "the last case has no line ----",
            }),
        }
    }
}
