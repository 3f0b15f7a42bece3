// The numbers and events in a file's bytes. Each is asked for by its place, which the record's length, tested once, keeps inside: a type of such
// places would say what the clauses say, and be made anew for each field.
ghost use Rattle.std.specs.Prelude.{◌+◌, ◌<◌, ◌≤◌, ◌≡◌, length, take, drop};
ghost use Rattle.file_rules.specs.File.{byte_at, word_at, quad_at, length_of, settings_at, event_at};
ghost use Rattle.kinds.specs.Numbers.{kind_number};

use kinds::Kind;
use rules::{Event, Settings};

pub(crate) fn byte_at(s: &[u8], at: usize) -> u32
    requires { at < length s.now }
    ensures { (result ≡ byte_at s.now at) × (result < 256) }
{
    u32::from(s[at])
}

// The N bytes from a place on.
fn bytes_at<const N: usize>(s: &[u8], at: usize) -> [u8; N]
    requires { at + N ≤ length s.now }
    ensures { result ≡ take N (drop at s.now) }
{
    let mut bytes = [0; N];
    bytes.copy_from_slice(&s[at..at + N]);
    bytes
}

pub(crate) fn word_at(s: &[u8], at: usize) -> u16
    requires { at + 2 ≤ length s.now }
    ensures { result ≡ word_at s.now at }
{
    u16::from_be_bytes(bytes_at(s, at))
}

pub(crate) fn quad_at(s: &[u8], at: usize) -> u32
    requires { at + 4 ≤ length s.now }
    ensures { result ≡ quad_at s.now at }
{
    u32::from_be_bytes(bytes_at(s, at))
}

pub(crate) fn settings_at(s: &[u8], at: usize) -> Settings
    requires { at + 6 ≤ length s.now }
    ensures { result ≡ settings_at s.now at }
{
    Settings {
        fitted: byte_at(s, at),
        range: byte_at(s, at + 1),
        filter: byte_at(s, at + 2),
        kit: byte_at(s, at + 3),
        firmware: u32::from(word_at(s, at + 4)),
    }
}

// The event whose kind stands at a place.
pub(crate) fn event_at(s: &[u8], at: usize, kind: Kind) -> Event
    requires { (kind_number kind ≡ byte_at s.now at) × (at + length_of (kind_number kind) ≤ length s.now) }
    ensures { result ≡ event_at s.now at }
{
    match kind {
        Kind::PowerUp => Event::PowerUp(settings_at(s, at + 1)),
        Kind::Write => Event::Write {
            offset: byte_at(s, at + 1),
            value: quad_at(s, at + 2),
        },
        Kind::Read => Event::Read {
            offset: byte_at(s, at + 1),
        },
        Kind::Signal(signal) => Event::Signal(signal),
    }
}
