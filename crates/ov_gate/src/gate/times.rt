//! Readings of clocks, and the times and versions that come of them.
ghost use Rattle.std.specs.Prelude.{◌≡◌, ◌<◌, ◌^◌, IsTrue, ◌↔◌};
ghost use Rattle.ov_base.specs.Version.{number};
ghost use Rattle.ov_history.specs.May.{IsTime};
ghost use Rattle.ov_history.specs.Gives.{time_at};

use ov_base::Version;

/// The time of a reading of the clock: not below the least that is allowed.
pub(super) fn time_at(clock: u64, least: u64) -> u64
    ensures { result ≡ time_at clock least }
{
    clock.min(1 << 46).max(least)
}

/// Whether a time is the least that is allowed, or within the range of clocks, and has a version.
pub(super) fn is_time(least: u64, time: u64) -> bool
    ensures { IsTrue result ↔ IsTime least time }
{
    least <= time && time < (1 << 47) && (time == least || time <= (1 << 46))
}

/// The version of this time and gateway.
pub(super) fn version_at(time: u64, gate: u32) -> Version
    requires { (time < 2 ^ 47) × (gate < 2 ^ 16) }
    ensures { result ≡ number time gate }
{
    match Version::new(time, gate) {
        Some(version) => version,
        None => unreachable!(),
    }
}
