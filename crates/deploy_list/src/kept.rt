//! What stays behind a new deployment.
ghost use Rattle.std.specs.Prelude.{◌≡◌, ◌||◌, ◌++◌, ◌∷◌, [], not, if◌then◌else◌, IfOk, OnOk};
ghost use Rattle.ost_types.specs.Path.{same_name};
ghost use Rattle.deploy_list.specs.Lists.{is_used, places_kept};

use crate::dep::Dep;
use crate::serial::is_id;
use boot_model::DepId;
use ost_types::NoMemory;
use repo_layout::OsName;
use std::alloc::Global;

/// The places, in their order, of the deployments that stay listed behind a new one of this stateroot: all of other stateroots,
/// those that are in use, and the first of this stateroot.
pub fn kept_behind(
    alloc: Global,
    list: &[Dep],
    os: &OsName,
    used: &[DepId],
) -> Result<Vec<usize>, NoMemory>
    ensures { IfOk result (λ places. places.items ≡ places_kept list.now os.now used.now) }
{
    let mut places = Vec::new(alloc);
    let mut has_source = false;
    for place in 0..list.len() {
        let id = &list[place].id;
        let is_of = is_of(id, os);
        let stays = stays(is_of, is_used(used, id), has_source);
        push_if(&mut places, place, stays)?;
        has_source = is_either(has_source, is_of);
    }
    Ok(places)
}

fn push_if(places: &mut Vec<usize>, place: usize, stays: bool) -> Result<(), NoMemory>
    ensures { OnOk result (places.new.items ≡ places.old.items ++ (if stays then place ∷ [] else [])) }
{
    if stays {
        places.push(place)?;
    }
    Ok(())
}

fn is_either(one: bool, other: bool) -> bool
    ensures { result ≡ (one || other) }
{
    one || other
}

fn stays(is_of: bool, is_used: bool, has_source: bool) -> bool
    ensures { result ≡ (not is_of || is_used || not has_source) }
{
    !is_of || is_used || !has_source
}

fn is_of(id: &DepId, os: &OsName) -> bool
    ensures { result ≡ same_name id.now.os os.now }
{
    id.os == *os
}

fn is_used(used: &[DepId], id: &DepId) -> bool
    ensures { result ≡ is_used used.now id.now }
{
    used.iter()
        .any(|other| is_id(other, &id.os, &id.commit, id.serial))
}
