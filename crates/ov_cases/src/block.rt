//! The files that stand in a case, each behind its name.
use crate::fault::CaseFault;
use crate::line::Line;
use std::alloc::Global;

/// A file that stands in a case.
#[derive(Drop)]
pub struct Block<'a> {
    pub name: &'a str,
    pub lines: Vec<Line<'a>>,
}

/// The blocks of an input, each behind its line `-- NAME --`.
pub fn blocks_of<'a>(alloc: Global, lines: &[Line<'a>]) -> Result<Vec<Block<'a>>, CaseFault> {
    let mut blocks = Vec::new(alloc);
    for line in lines {
        match name_of(line.text) {
            Some(name) => blocks.push(Block {
                name,
                lines: Vec::new(alloc),
            })?,
            None => push_line(*line, &mut blocks)?,
        }
    }
    Ok(blocks)
}

/// Adds a line to the last block.
fn push_line<'a>(line: Line<'a>, blocks: &mut Vec<Block<'a>>) -> Result<(), CaseFault> {
    match blocks.last_mut() {
        None => Err(line.fault("the name of a file is wanted")),
        Some(block) => {
            block.lines.push(line)?;
            Ok(())
        }
    }
}

/// The name in a line `-- NAME --`.
fn name_of(line: &str) -> Option<&str> {
    line.strip_prefix("-- ")?.strip_suffix(" --")
}
