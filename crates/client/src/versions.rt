//! The version of the wire that a request needs.

ghost use Rattle.std.specs.Prelude.{◌≡◌};
ghost use Rattle.wire.specs.Ranges.{IsEventOf};
ghost use Rattle.client.specs.Versions.{sheet_version};

use formats::Event;
use wire::Version;

/// The first version of the wire that has a frame for the sheets of an event.
pub fn sheet_version(event: Event) -> Version
    ensures version { result ≡ sheet_version event }
    ensures fits { IsEventOf result event }
{
    if event.number() <= Version::One.last_event() {
        Version::One
    } else {
        Version::Two
    }
}
