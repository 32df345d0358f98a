ghost use Rattle.etc_merge.specs.Merging.{AreTrees};

use crate::tree::{add_shown, tree_of};
use etc_merge::{MergeFault, conflict, merge};
use ost_types::{FsPath, PathMap};
use sheet::{Bench, Fields, Stop};
use std::alloc::Global;

/// Merges the three trees of a call.
#[derive(Drop)]
pub struct MergeBench;

impl Bench for MergeBench {
    fn answer(&mut self, name: &str, fields: Fields) -> Result<Vec<u8>, Stop> {
        let mut fields = fields;
        let alloc = fields.alloc();
        let base = tree_of(alloc, fields.text()?)?;
        let current = tree_of(alloc, fields.text()?)?;
        let new = tree_of(alloc, fields.text()?)?;
        match name {
            "merge" => merged(alloc, &base, &current, &new),
            "conflict" => conflicting(alloc, &base, &current, &new),
            _ => Err(Stop::Unknown),
        }
    }
}

fn merged(alloc: Global, base: &PathMap, current: &PathMap, new: &PathMap) -> Result<Vec<u8>, Stop>
    requires { AreTrees base.now current.now new.now }
{
    let mut text = Vec::new(alloc);
    match merge(alloc, base, current, new) {
        Ok(merged) => add_shown(&mut text, &merged)?,
        Err(MergeFault::EtcConflict(path)) => add_conflict(&mut text, &path)?,
        Err(MergeFault::NoMemory) => return Err(Stop::NoMemory),
    }
    Ok(text)
}

fn conflicting(
    alloc: Global,
    base: &PathMap,
    current: &PathMap,
    new: &PathMap,
) -> Result<Vec<u8>, Stop>
    requires { AreTrees base.now current.now new.now }
{
    let mut text = Vec::new(alloc);
    match conflict(base, current, new) {
        Some(at) => match current.as_slice().get(at) {
            Some((path, _)) => add_conflict(&mut text, path)?,
            None => return Err(Stop::Unknown),
        },
        None => text.extend_from_slice(b"none")?,
    }
    Ok(text)
}

fn add_conflict(text: &mut Vec<u8>, path: &FsPath) -> Result<(), Stop> {
    text.extend_from_slice(b"conflict ")?;
    text.extend_from_slice(path.text()?.as_slice())?;
    Ok(())
}
