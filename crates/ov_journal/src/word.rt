//! The numbers of a line.
ghost use Rattle.std.specs.Prelude.{◌≡◌};
ghost use Rattle.ov_base.specs.Version.{version_of};
ghost use Rattle.ov_journal.specs.Read as spec;

use ov_base::{TIME_LIMIT, Version, parse_number_within};

/// The greatest number of a session.
pub(crate) const LAST_SESSION: u64 = 63;

/// The most commands of a script.
pub(crate) const MOST_COMMANDS: u64 = 4000;

/// The number of a session, from 0.
pub(crate) fn parse_session(word: &[u8]) -> Option<u32>
    ensures { result ≡ spec.session_of word.now }
{
    let session = parse_number_within(0, LAST_SESSION, word)?;
    Some(session as u32)
}

/// The number of a command, from 1.
pub(crate) fn parse_seq(word: &[u8]) -> Option<u32>
    ensures { result ≡ spec.seq_of word.now }
{
    let seq = parse_number_within(1, MOST_COMMANDS, word)?;
    Some(seq as u32)
}

/// The number of a round, from 1.
pub(crate) fn parse_round(word: &[u8]) -> Option<u64>
    ensures { result ≡ spec.round_of word.now }
{
    parse_number_within(1, u64::MAX, word)
}

/// A time of a version.
pub(crate) fn parse_time(word: &[u8]) -> Option<u64>
    ensures { result ≡ spec.time_of word.now }
{
    parse_number_within(0, TIME_LIMIT - 1, word)
}

/// A mark, which is written as a version.
pub(crate) fn parse_mark(word: &[u8]) -> Option<u64>
    ensures { result ≡ version_of word.now }
{
    let version = Version::parse(word)?;
    Some(version.number())
}
