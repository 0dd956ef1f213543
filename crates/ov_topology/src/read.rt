//! Reading a topology: the tests of a document in their order.
ghost use Rattle.std.specs.Prelude.{◌≡◌, IfOk};
ghost use Rattle.std.specs.Option.{option_map};
ghost use Rattle.toml.specs.View.{view, table_view};
ghost use Rattle.ov_base.specs.Split.{all_of};
ghost use Rattle.ov_topology.specs.Shape.{Shape, IsRanged};
ghost use Rattle.ov_topology.specs.Read as spec;
ghost use Rattle.ov_topology.specs.Read.{Gives, topology_of};

use crate::fault::{Name, TopologyError};
use crate::topology::Topology;
use ov_base::Memory;
use std::alloc::Global;
use std::str;
use toml::{Table, Value};

/// The five values of a document, of the right kinds.
#[derive(Drop)]
struct Values {
    centres: i64,
    partitions: i64,
    gateways: Vec<i64>,
    write: i64,
    read: i64,
}

/// The topology of a document, or its first fault.
#[tactic(auto, unfolding(crate::specs::Read::topology_of))]
pub(crate) fn read_document(alloc: Global, bytes: &[u8]) -> Result<Topology, TopologyError>
    ensures { Gives (λ (t : Shape). t) result (topology_of bytes.now) }
{
    match parse_table(alloc, bytes) {
        Ok(table) => from_table(alloc, &table),
        Err(error) => Err(error),
    }
}

/// The table of the document.
fn parse_table(alloc: Global, bytes: &[u8]) -> Result<Table, TopologyError>
    ensures { Gives table_view result (spec.table_of bytes.now) }
{
    match str::from_utf8(bytes) {
        Err(_) => Err(TopologyError::NotToml),
        Ok(text) => match toml::table_from_str(alloc, text) {
            Ok(table) => Ok(table),
            Err(error) => Err(cause_of(&error)),
        },
    }
}

fn cause_of(error: &toml::de::Error) -> TopologyError
    ensures { spec.IsCause error.now result }
{
    if error.is_memory() {
        TopologyError::Memory
    } else {
        TopologyError::NotToml
    }
}

/// The value of a key.
fn named<'a>(table: &'a Table, name: Name) -> Option<&'a Value>
    ensures { option_map (λ v. view v.now) result ≡ spec.named name (table_view table.now) }
{
    table.get(name.word())
}

/// The five keys, in the order of their names, and no other.
fn from_table(alloc: Global, table: &Table) -> Result<Topology, TopologyError>
    ensures { Gives (λ (t : Shape). t) result (spec.of_members (table_view table.now)) }
{
    let Some(centres) = named(table, Name::Centres) else {
        return Err(TopologyError::Missing(Name::Centres));
    };
    let Some(partitions) = named(table, Name::Partitions) else {
        return Err(TopologyError::Missing(Name::Partitions));
    };
    let Some(gateways) = named(table, Name::Gateways) else {
        return Err(TopologyError::Missing(Name::Gateways));
    };
    let Some(write) = named(table, Name::Write) else {
        return Err(TopologyError::Missing(Name::Write));
    };
    let Some(read) = named(table, Name::Read) else {
        return Err(TopologyError::Missing(Name::Read));
    };
    if table.len() != 5 {
        return Err(TopologyError::Unknown);
    }
    from_kinds(alloc, centres, partitions, gateways, write, read)
}

/// The kinds of the values, in the order of their names.
fn from_kinds(
    alloc: Global,
    centres: &Value,
    partitions: &Value,
    gateways: &Value,
    write: &Value,
    read: &Value,
) -> Result<Topology, TopologyError>
    ensures { Gives (λ (t : Shape). t) result (spec.of_kinds (view centres.now) (view partitions.now) (view gateways.now) (view write.now) (view read.now)) }
{
    let Some(centres) = centres.as_integer() else {
        return Err(TopologyError::Kind(Name::Centres));
    };
    let Some(partitions) = partitions.as_integer() else {
        return Err(TopologyError::Kind(Name::Partitions));
    };
    let gateways = match integers_of(alloc, gateways) {
        Err(_) => return Err(TopologyError::Memory),
        Ok(None) => return Err(TopologyError::Kind(Name::Gateways)),
        Ok(Some(gateways)) => gateways,
    };
    let Some(write) = write.as_integer() else {
        return Err(TopologyError::Kind(Name::Write));
    };
    let Some(read) = read.as_integer() else {
        return Err(TopologyError::Kind(Name::Read));
    };
    let values = Values {
        centres,
        partitions,
        gateways,
        write,
        read,
    };
    in_ranges(alloc, &values)
}

fn integers_of(alloc: Global, value: &Value) -> Result<Option<Vec<i64>>, Memory>
    ensures { IfOk result (λ o. option_map (λ v. v.items) o ≡ spec.integers_of (view value.now)) }
{
    match value.as_array() {
        None => Ok(None),
        Some(array) => integers(alloc, array.as_slice()),
    }
}

fn integers(alloc: Global, values: &[Value]) -> Result<Option<Vec<i64>>, Memory>
    ensures { IfOk result (λ o. option_map (λ v. v.items) o ≡ all_of spec.integer_at values.now) }
{
    let mut numbers = Vec::new(alloc);
    for value in values {
        match value.as_integer() {
            None => return Ok(None),
            Some(number) => numbers.push(number)?,
        }
    }
    Ok(Some(numbers))
}

/// The ranges of the values, in the order of their names.
fn in_ranges(alloc: Global, values: &Values) -> Result<Topology, TopologyError>
    ensures { Gives (λ (t : Shape). t) result (spec.in_ranges (record { centres = values.now.centres; partitions = values.now.partitions; gateways = values.now.gateways.items; write = values.now.write; read = values.now.read })) }
{
    let Some(centres) = within(1, 5, values.centres) else {
        return Err(TopologyError::Range(Name::Centres));
    };
    let Some(partitions) = within(1, 8, values.partitions) else {
        return Err(TopologyError::Range(Name::Partitions));
    };
    let gateways = match gates_within(alloc, centres, values.gateways.as_slice()) {
        Err(_) => return Err(TopologyError::Memory),
        Ok(None) => return Err(TopologyError::Range(Name::Gateways)),
        Ok(Some(gateways)) => gateways,
    };
    let Some(write) = within(1, centres, values.write) else {
        return Err(TopologyError::Range(Name::Write));
    };
    let Some(read) = within(1, centres, values.read) else {
        return Err(TopologyError::Range(Name::Read));
    };
    meeting(centres, partitions, gateways, write, read)
}

/// 1 to 8 gateways, each in one of the centres.
fn gates_within(alloc: Global, centres: u32, gateways: &[i64]) -> Result<Option<Vec<u32>>, Memory>
    ensures value { IfOk result (λ o. option_map (λ v. v.items) o ≡ spec.gates_within centres gateways.now) }
{
    if gateways.is_empty() || gateways.len() > 8 {
        return Ok(None);
    }
    all_below(alloc, centres, gateways)
}

fn all_below(alloc: Global, limit: u32, numbers: &[i64]) -> Result<Option<Vec<u32>>, Memory>
    ensures { IfOk result (λ o. option_map (λ v. v.items) o ≡ all_of (spec.below limit) numbers.now) }
{
    let mut found = Vec::new(alloc);
    for number in numbers {
        match below(limit, *number) {
            None => return Ok(None),
            Some(number) => found.push(number)?,
        }
    }
    Ok(Some(found))
}

fn within(low: u32, high: u32, number: i64) -> Option<u32>
    ensures { result ≡ spec.within low high number }
{
    if i64::from(low) <= number && number <= i64::from(high) {
        Some(number as u32)
    } else {
        None
    }
}

fn below(limit: u32, number: i64) -> Option<u32>
    ensures { result ≡ spec.below limit number }
{
    if 0 <= number && number < i64::from(limit) {
        Some(number as u32)
    } else {
        None
    }
}

/// The topology of values that are in their ranges, where its quorums meet.
fn meeting(
    centres: u32,
    partitions: u32,
    gateways: Vec<u32>,
    write: u32,
    read: u32,
) -> Result<Topology, TopologyError>
    requires { IsRanged (record { centres = centres; partitions = partitions; gateways = gateways.items; write = write; read = read }) }
    ensures { Gives (λ (t : Shape). t) result (spec.meeting (record { centres = centres; partitions = partitions; gateways = gateways.items; write = write; read = read })) }
{
    if write + read <= centres {
        return Err(TopologyError::Quorum {
            w: write,
            r: read,
            d: centres,
        });
    }
    Ok(Topology::from_parts(centres, partitions, gateways, write, read))
}
