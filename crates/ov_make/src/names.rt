//! The names of sessions and keys.
ghost use Rattle.std.specs.Prelude.{◌≡◌, ◌<◌};
ghost use Rattle.ov_session.specs.Name.{IsName};
ghost use Rattle.ov_make.specs.Made as spec;
ghost use Rattle.ov_make.specs.Made.{sessions, keys};

use ov_base::Key;
use ov_session::SessionName;

/// How many sessions there are.
pub(crate) const SESSIONS: u32 = 19;

/// How many keys there are.
pub(crate) const KEYS: u32 = 8;

/// The name of a session: `s` and its number.
pub(crate) fn session_name(session: u32) -> SessionName
    requires { session < sessions }
    ensures { result ≡ spec.session_name session }
{
    let digit = b'0' + (session % 10) as u8;
    if session < 10 {
        name_of(&[b's', digit])
    } else {
        name_of(&[b's', b'1', digit])
    }
}

/// The name of these bytes. Condition: they are one.
fn name_of(bytes: &[u8]) -> SessionName
    requires { IsName bytes.now }
    ensures { result ≡ bytes.now }
{
    match SessionName::from_bytes(bytes) {
        Some(name) => name,
        None => unreachable!(),
    }
}

/// The name of a key: `k` and its number.
pub(crate) fn key_name(key: u32) -> Key
    requires { key < keys }
    ensures { result ≡ spec.key_name key }
{
    match Key::from_bytes(&[b'k', b'0' + key as u8]) {
        Some(key) => key,
        None => unreachable!(),
    }
}
