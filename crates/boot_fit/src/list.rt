//! Whether each member may be in a list, and no two are one deployment.
ghost use Rattle.std.specs.Prelude.{◌≡◌, ◌≢◌, ◌<◌, ◌↔◌, IsTrue, length, All};
ghost use Rattle.boot_model.specs.Items.{AreItems};
ghost use Rattle.boot_fit.specs.Fitting.{FitsAt};

use crate::item::is_item;
use boot_model::{BootItem, DepId};

/// Whether the list may boot: there are at most 8 members, each may be in a list, and no two are one deployment.
pub fn may_boot(items: &[BootItem]) -> bool
    ensures { IsTrue result ↔ AreItems items.now }
{
    let mut at = items.len();
    if at > 8 {
        return false;
    }
    while at > 0 {
        at -= 1;
        if !fits_at(items, at) {
            return false;
        }
    }
    true
}

/// Whether this member may be in a list, and none before it is the same deployment.
fn fits_at(items: &[BootItem], at: usize) -> bool
    requires { at < length items.now }
    ensures { IsTrue result ↔ FitsAt items.now at }
{
    is_item(&items[at]) && is_new(&items[..at], &items[at].id)
}

fn is_new(others: &[BootItem], id: &DepId) -> bool
    ensures { IsTrue result ↔ All (λ other. other.id ≢ id.now) others.now }
{
    others.iter().all(|other| is_other(id, &other.id))
}

fn is_other(id: &DepId, other: &DepId) -> bool
    ensures { IsTrue result ↔ (other.now ≢ id.now) }
{
    !is_same(id, other)
}

fn is_same(id: &DepId, other: &DepId) -> bool
    ensures { IsTrue result ↔ (other.now ≡ id.now) }
{
    other.os == id.os && other.commit == id.commit && other.serial == id.serial
}
