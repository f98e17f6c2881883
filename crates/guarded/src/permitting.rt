//! What the caller may ask of a desk.

ghost use Rattle.std.specs.Prelude.{◌≡◌};
ghost use Rattle.guarded.specs.Permitting.{permission_of, second_permission};

use sealed::{Access, Caller, Holder};
use serving::Permission;

/// What may be asked under the second key of a desk: everything, where it was the hall's, and else
/// what clients ask, but for a Stop.
fn second_permission(doors: Access) -> Permission
    ensures { result ≡ second_permission doors }
{
    match doors {
        Access::Open => Permission::Entries,
        Access::Locked { locks } => {
            if locks.old {
                Permission::All
            } else {
                Permission::Entries
            }
        }
    }
}

/// What the caller may ask of a desk behind these doors: everything, where it asks for no key and
/// under the hall's key; what is said above, under the second key; and what changes nothing,
/// without a key, or as long as nobody is let in.
pub fn permission_of(doors: Access, caller: Option<Caller>) -> Permission
    ensures { result ≡ permission_of doors caller }
{
    match caller {
        Some(Caller::Anyone) => Permission::All,
        Some(Caller::Visitor) => Permission::Sheets,
        Some(Caller::Holder { key: Holder::Hall }) => Permission::All,
        Some(Caller::Holder { key: Holder::Entry }) => second_permission(doors),
        None => Permission::Sheets,
    }
}
