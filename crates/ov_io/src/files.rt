//! A file in memory.
use ov_base::Sequence;

/// A file of a shelf in memory. Of two files with one name the first is read.
#[derive(Debug, Drop)]
pub struct NamedFile {
    /// Its name.
    pub name: Sequence<u8>,
    /// Its bytes.
    pub bytes: Sequence<u8>,
    /// How many reads of it have failed, at first 0.
    pub failed: u64,
}
