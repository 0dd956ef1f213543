//! What may be wrong with the document of a topology.
ghost use Rattle.std.specs.Prelude.{◌≡◌, ◌∷◌, ◌++◌, decimal};
ghost use Rattle.ov_base.specs.Word.{Printed};
ghost use Rattle.ov_topology.specs.Fault.{name_text, fault_text};

use ov_base::{Memory, print_number};
use thiserror::Error;

/// The keys of the document, in the order in which their values are tested (docs/FORMATS.md, Topology).
#[derive(Clone, Copy, Debug, PartialEq, Eq)]
pub enum Name {
    /// `centres`: how many data centres there are.
    Centres,
    /// `partitions`: how many partitions there are.
    Partitions,
    /// `gateways`: the centre of each gateway.
    Gateways,
    /// `write`: how many copies a write has to reach.
    Write,
    /// `read`: how many copies a read asks.
    Read,
}

impl Name {
    /// The key's name in the document, which is its name in a fault line too.
    pub fn word(self) -> &'static str
        ensures { result.now ≡ name_text self }
    {
        match self {
            Name::Centres => "centres",
            Name::Partitions => "partitions",
            Name::Gateways => "gateways",
            Name::Write => "write",
            Name::Read => "read",
        }
    }
}

/// Why there is no topology: out of memory at any moment, else the first that holds, in this order
/// (docs/FORMATS.md, Topology).
#[derive(Debug, Drop, Error)]
pub enum TopologyError {
    /// Memory ran out.
    #[error("out of memory")]
    Memory,
    /// The bytes are no TOML document.
    #[error("not toml")]
    NotToml,
    /// The first key that is not there.
    #[error("missing {0:?}")]
    Missing(Name),
    /// There is a key beside the five.
    #[error("unknown key")]
    Unknown,
    /// The first key whose value is no whole number, or for `gateways` no list of whole numbers.
    #[error("kind {0:?}")]
    Kind(Name),
    /// The first key whose value is out of its range.
    #[error("range {0:?}")]
    Range(Name),
    /// The two quorums may miss each other: `w + r` is not above `d`, the number of centres.
    #[error("quorum {w} {r} {d}")]
    Quorum { w: u32, r: u32, d: u32 },
}

impl TopologyError {
    /// Writes the fault line without its line feed (docs/FORMATS.md, Fault lines); `Memory` has the
    /// empty line. On an error a prefix of it was written.
    pub fn print_to(&self, text: &mut Vec<u8>) -> Result<(), Memory>
        ensures { Printed result text.old.items text.new.items (fault_text self.now) }
    {
        match self {
            TopologyError::Memory => Ok(()),
            TopologyError::NotToml => print_words(b"topology: not toml", text),
            TopologyError::Missing(name) => print_named(b"topology: missing ", *name, text),
            TopologyError::Unknown => print_words(b"topology: unknown key", text),
            TopologyError::Kind(name) => print_named(b"topology: kind ", *name, text),
            TopologyError::Range(name) => print_named(b"topology: range ", *name, text),
            TopologyError::Quorum { w, r, d } => {
                print_quorum(b"topology: quorum ", *w, *r, *d, text)
            }
        }
    }
}

fn print_words(words: &[u8], text: &mut Vec<u8>) -> Result<(), Memory>
    ensures { Printed result text.old.items text.new.items words.now }
{
    Ok(text.extend_from_slice(words)?)
}

fn print_named(words: &[u8], name: Name, text: &mut Vec<u8>) -> Result<(), Memory>
    ensures { Printed result text.old.items text.new.items (words.now ++ name_text name) }
{
    text.extend_from_slice(words)?;
    text.extend_from_slice(name.word().as_bytes())?;
    Ok(())
}

fn print_quorum(
    words: &[u8],
    write: u32,
    read: u32,
    centres: u32,
    text: &mut Vec<u8>,
) -> Result<(), Memory>
    ensures { Printed result text.old.items text.new.items (words.now ++ (decimal write ++ 32 ∷ (decimal read ++ 32 ∷ decimal centres))) }
{
    text.extend_from_slice(words)?;
    print_numbers(write, read, centres, text)
}

/// Writes the three numbers with a space between them.
fn print_numbers(write: u32, read: u32, centres: u32, text: &mut Vec<u8>) -> Result<(), Memory>
    ensures { Printed result text.old.items text.new.items (decimal write ++ 32 ∷ (decimal read ++ 32 ∷ decimal centres)) }
{
    print_number(u64::from(write), text)?;
    text.push(b' ')?;
    print_pair(read, centres, text)
}

fn print_pair(read: u32, centres: u32, text: &mut Vec<u8>) -> Result<(), Memory>
    ensures { Printed result text.old.items text.new.items (decimal read ++ 32 ∷ decimal centres) }
{
    print_number(u64::from(read), text)?;
    text.push(b' ')?;
    print_number(u64::from(centres), text)
}
