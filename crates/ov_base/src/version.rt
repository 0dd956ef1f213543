//! Versions: when and at which gateway a transaction was begun.
ghost use Rattle.std.specs.Prelude.{◌≡◌, ◌<◌, ◌++◌, ◌↔◌, IsSome, IfSome, OnOk, OnErr, Some, refl};
ghost use Rattle.std.specs.Ordering.{nat_cmp};
ghost use Rattle.std.specs.Cmp.{partial_equiv_from_equiv, nat_cmp_total};
ghost use Rattle.ov_base.specs.Lemmas.{number_eq-equiv, number_eq-order, number_eq-ties, number_eq-exact};
ghost use Rattle.ov_base.specs.Number.{number_eq};
ghost use Rattle.ov_base.specs.Version.{number, time_of, gate_of, time_limit, gate_limit, version_text, version_of, IsVersion};
ghost use Rattle.ov_base.specs.Word.{Reads, Printed};

use crate::memory::Memory;
use crate::number::{parse_number, print_number};
use crate::plain::Plain;
use crate::split::split_at_byte;
use std::cmp::Ordering;
use std::marker::Model;

/// The times of versions are below this number.
pub const TIME_LIMIT: u64 = 1 << 47;

/// The gates of versions are below this number.
pub const GATE_LIMIT: u64 = 65_536;

/// When a transaction was begun, below `2^47`, and at which gateway, up to 65535. It is kept as its number,
/// `time * 65536 + gate`, which contracts see and by which versions are ordered (docs/STORE.md, Versions).
#[derive(Clone, Copy, Debug)]
pub struct Version {
    number: u64,
}

impl Model for Version {
    ghost use Rattle.std.specs.Prelude.{ℕ};
    ghost use Rattle.ov_base.specs.Version.{IsVersion};

    ghost Value = { ℕ };

    ghost view = { λ v. v.number };

    ghost invariant = { λ v. IsVersion v.number };

    ghost inverse = { λ n. record { number = n } };
}

impl Version {
    /// The version of this time and gate. None exactly where a bound fails.
    pub fn new(time: u64, gate: u32) -> Option<Version>
        ensures made { IsSome result ↔ ((time < time_limit) × (gate < gate_limit)) }
        ensures value { IfSome result (λ v. v ≡ number time gate) }
    {
        if time < TIME_LIMIT && u64::from(gate) < GATE_LIMIT {
            Some(Version {
                number: time * GATE_LIMIT + u64::from(gate),
            })
        } else {
            None
        }
    }

    /// The version of this number. None exactly from `2^63` on.
    pub fn from_number(number: u64) -> Option<Version>
        ensures made { IsSome result ↔ IsVersion number }
        ensures value { IfSome result (λ v. v ≡ number) }
    {
        if number < (1 << 63) {
            Some(Version { number })
        } else {
            None
        }
    }

    /// Its number, which is below `2^63`.
    pub fn number(self) -> u64
        ensures value { result ≡ self }
        ensures form { IsVersion self }
    {
        self.number
    }

    /// Its time.
    pub fn time(self) -> u64
        ensures { result ≡ time_of self }
    {
        self.number / GATE_LIMIT
    }

    /// Its gate.
    pub fn gate(self) -> u32
        ensures { result ≡ gate_of self }
    {
        (self.number % GATE_LIMIT) as u32
    }

    /// The version that the bytes spell, as `TIME.GATE`. None exactly where they spell none. Does not allocate.
    pub fn parse(text: &[u8]) -> Option<Version>
        ensures exact { result ≡ version_of text.now }
        ensures reads { Reads version_text IsVersion text.now result }
    {
        version_read(text)
    }

    /// Writes the one spelling, `TIME.GATE`, at the end. On an error the text is as before.
    pub fn print_to(self, text: &mut Vec<u8>) -> Result<(), Memory>
        ensures ok { OnOk result (text.new.items ≡ text.old.items ++ version_text self) }
        ensures err { OnErr result (text.new.items ≡ text.old.items) }
    {
        print_mark(self.number(), text)
    }
}

/// Writes a mark or a watermark, which are numbers of versions, in the spelling of versions at the end. On
/// an error the text is as before.
pub fn print_mark(mark: u64, text: &mut Vec<u8>) -> Result<(), Memory>
    ensures ok { OnOk result (text.new.items ≡ text.old.items ++ version_text mark) }
    ensures err { OnErr result (text.new.items ≡ text.old.items) }
{
    let before = text.len();
    let printed = print_parts(mark, text);
    if printed.is_err() {
        text.truncate(before);
    }
    printed
}

/// The same, where on an error a prefix of the spelling was written.
fn print_parts(mark: u64, text: &mut Vec<u8>) -> Result<(), Memory>
    ensures { Printed result text.old.items text.new.items (version_text mark) }
{
    print_number(mark / GATE_LIMIT, text)?;
    text.push(b'.')?;
    print_number(mark % GATE_LIMIT, text)
}

#[tactic(auto, unfolding(crate::specs::Version::version_of))]
fn version_read(text: &[u8]) -> Option<Version>
    ensures { result ≡ version_of text.now }
{
    let (time, gate) = split_at_byte(text, b'.')?;
    let time = parse_number(time)?;
    let gate = parse_number(gate)?;
    if time < TIME_LIMIT && gate < GATE_LIMIT {
        Some(Version {
            number: time * GATE_LIMIT + gate,
        })
    } else {
        None
    }
}

impl PartialEq for Version {
    ghost eq = { number_eq };

    ghost laws = { partial_equiv_from_equiv number_eq-equiv };

    #[tactic(auto, unfolding(crate::specs::Number::number_eq))]
    fn eq(&self, other: &Self) -> bool {
        self.number() == other.number()
    }
}

impl Eq for Version {
    ghost laws = { number_eq-equiv };
}

impl PartialOrd for Version {
    ghost partial_cmp = { λ v w. Some (nat_cmp v w) };

    ghost laws = { number_eq-order };

    fn partial_cmp(&self, other: &Self) -> Option<Ordering> {
        Some(self.cmp(other))
    }
}

impl Ord for Version {
    ghost cmp = { nat_cmp };

    ghost total = { nat_cmp_total };

    ghost matches_partial_cmp = { λ v w. refl };

    ghost matches_eq = { number_eq-ties };

    fn cmp(&self, other: &Self) -> Ordering {
        self.number().cmp(&other.number())
    }
}

impl Plain for Version {
    ghost exact = { number_eq-exact };

    fn copy(&self) -> Result<Version, Memory> {
        Ok(*self)
    }
}
