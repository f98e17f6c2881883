//! What a desk asks of its clients: nothing, or a key.

ghost use Rattle.std.specs.Prelude.{◌≡◌, IfErr, IfOk};
ghost use Rattle.serve.specs.Keys.{AreDoors, IsKey, IsOfKeyFile, IsOfKeys, IsOfSecond};
ghost use Rattle.serve.specs.Keys.{IsSecond, hall_key, old_key, second_file};

use crate::fault::ServeFault;
use hall_file::service::Service;
use keys::key_file::read_key_at;
use sealed::{Access, DeskKeys};

/// The key that the file at this path has.
fn key_at(rt: &HostRuntime, path: &str) -> Result<[u8; 32], ServeFault>
    ensures ok { IfOk result IsKey }
    ensures err { IfErr result IsOfKeyFile }
{
    match read_key_at(rt, path) {
        Ok(key) => Ok(key),
        Err(fault) => Err(ServeFault::KeyFile(fault)),
    }
}

/// The path of the file of a second key, if one is named: that of the key that was the hall's, or
/// else that of the entry key.
pub(crate) fn second_file<'a>(service: Service<'a>) -> Option<&'a str>
    ensures { result ≡ second_file service.entry }
{
    service.options.old_key.or(service.options.entry_key)
}

/// The second key, where one is asked for. It is not the hall's.
fn second_of(
    rt: &HostRuntime,
    service: Service<'_>,
    hall: &[u8; 32],
) -> Result<Option<[u8; 32]>, ServeFault>
    ensures ok { IfOk result (IsSecond service.entry hall.now) }
    ensures err { IfErr result (λ f. IsOfSecond f service.entry) }
{
    let Some(path) = second_file(service) else {
        return Ok(None);
    };
    let key = match key_at(rt, path) {
        Ok(key) => key,
        Err(fault) => return Err(fault),
    };
    if key == *hall {
        return Err(ServeFault::SameKeys);
    }
    Ok(Some(key))
}

/// What a desk asks of its clients: nothing, where it has no key, and else one of its keys.
///
/// # Errors
///
/// - `KeyFile` where the file of the hall's key gives no key, and then where that of the second key
///   gives none.
/// - `SameKeys` where the two keys are one.
pub fn doors_of(rt: &HostRuntime, service: Service<'_>) -> Result<Access, ServeFault>
    ensures ok { IfOk result (AreDoors service.entry) }
    ensures err { IfErr result (λ f. IsOfKeys f service.entry) }
{
    let Some(path) = service.options.key else {
        return Ok(Access::Open);
    };
    let hall = match key_at(rt, path) {
        Ok(hall) => hall,
        Err(fault) => return Err(fault),
    };
    let entry = match second_of(rt, service, &hall) {
        Ok(entry) => entry,
        Err(fault) => return Err(fault),
    };
    Ok(Access::Locked {
        locks: DeskKeys {
            hall,
            entry,
            old: service.options.old_key.is_some(),
            sheets: service.options.open_sheets,
        },
    })
}

/// The hall's key, where the desk has one.
pub fn hall_key(doors: Access) -> Option<[u8; 32]>
    ensures { result ≡ hall_key doors }
{
    match doors {
        Access::Open => None,
        Access::Locked { locks } => Some(locks.hall),
    }
}

/// The key that was the hall's, while it is changed.
pub fn old_key(doors: Access) -> Option<[u8; 32]>
    ensures { result ≡ old_key doors }
{
    match doors {
        Access::Open => None,
        Access::Locked { locks } => { if locks.old { locks.entry } else { None } }
    }
}
