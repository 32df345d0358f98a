//! What stands at the places of the layout that have one path each.
ghost use Rattle.std.specs.Prelude.{◌≡◌, [], Some};
ghost use Rattle.fs_trait.specs.View.{View};
ghost use Rattle.fs_trait.specs.Effect.{IsQuiet};
ghost use Rattle.sys_open.specs.declared.fault.Why.TheVariants.{WrongKind};
ghost use Rattle.layout_rules.specs.declared.rule.Rule.TheVariants.{FileOrNothing, FolderOrNothing, NoFolder};
ghost use Rattle.sys_open.specs.Faults.{HasReason};
ghost use Rattle.layout_rules.specs.Checks.{AsksFixed, Suits};
ghost use Rattle.layout_rules.specs.Spots.{rule_of, spot_path};
ghost use Rattle.sys_open.specs.Walk.{Looked, Walked};

use crate::fault::{OpenFault, Why, damaged, refused};
use crate::refs::node_at;
use fs_trait::{Fs, Node};
use layout_rules::{Rule, Spot, rule_of, spot_path, spots};
use ost_types::FsPath;
use ref_room::{Stands, look_at};
use std::alloc::Global;

/// Looks at each of these places. The least one is told at which something stands that it doesn't allow.
pub fn check_kinds<F: Fs>(alloc: Global, fs: &mut F) -> Result<(), OpenFault>
    ensures told { (v : View) → F.view fs.old ≡ Some v → Walked (AsksFixed v.now) WrongKind [] result }
    ensures quiet { IsQuiet (F.clock fs.old) (F.clock fs.new) (F.was fs.old) (F.was fs.new) (F.view fs.old) (F.view fs.new) }
    ensures reason { HasReason (F.faults fs.old) (F.faults fs.new) result }
{
    for spot in spots() {
        check_kind(alloc, fs, *spot)?;
    }
    Ok(())
}

fn check_kind<F: Fs>(alloc: Global, fs: &mut F, spot: Spot) -> Result<(), OpenFault>
    ensures told { (v : View) → F.view fs.old ≡ Some v → Looked (Suits (rule_of spot) (v.now.at (spot_path spot))) WrongKind (spot_path spot) result }
    ensures quiet { IsQuiet (F.clock fs.old) (F.clock fs.new) (F.was fs.old) (F.was fs.new) (F.view fs.old) (F.view fs.new) }
    ensures reason { HasReason (F.faults fs.old) (F.faults fs.new) result }
{
    let at = spot_path(alloc, spot)?;
    check_rule(fs, &at, rule_of(spot))
}

/// Looks whether what stands at a path is what the rule allows.
pub fn check_rule<F: Fs>(fs: &mut F, at: &FsPath, rule: Rule) -> Result<(), OpenFault>
    ensures told { (v : View) → F.view fs.old ≡ Some v → Looked (Suits rule (v.now.at at.now)) WrongKind at.now result }
    ensures quiet { IsQuiet (F.clock fs.old) (F.clock fs.new) (F.was fs.old) (F.was fs.new) (F.view fs.old) (F.view fs.new) }
    ensures reason { HasReason (F.faults fs.old) (F.faults fs.new) result }
{
    match rule {
        Rule::FolderOrNothing => check_folder(fs, at),
        Rule::NoFolder => check_no_folder(fs, at),
        Rule::FileOrNothing => check_file(fs, at),
    }
}

fn check_folder<F: Fs>(fs: &mut F, at: &FsPath) -> Result<(), OpenFault>
    ensures told { (v : View) → F.view fs.old ≡ Some v → Looked (Suits FolderOrNothing (v.now.at at.now)) WrongKind at.now result }
    ensures quiet { IsQuiet (F.clock fs.old) (F.clock fs.new) (F.was fs.old) (F.was fs.new) (F.view fs.old) (F.view fs.new) }
    ensures reason { HasReason (F.faults fs.old) (F.faults fs.new) result }
{
    match look_at(fs, at) {
        Ok(Stands::Nothing) => Ok(()),
        Ok(Stands::Folder) => Ok(()),
        Ok(Stands::Leaf) => Err(damaged(at, Why::WrongKind)),
        Err(error) => Err(refused(at, error)),
    }
}

fn check_no_folder<F: Fs>(fs: &mut F, at: &FsPath) -> Result<(), OpenFault>
    ensures told { (v : View) → F.view fs.old ≡ Some v → Looked (Suits NoFolder (v.now.at at.now)) WrongKind at.now result }
    ensures quiet { IsQuiet (F.clock fs.old) (F.clock fs.new) (F.was fs.old) (F.was fs.new) (F.view fs.old) (F.view fs.new) }
    ensures reason { HasReason (F.faults fs.old) (F.faults fs.new) result }
{
    match look_at(fs, at) {
        Ok(Stands::Nothing) => Ok(()),
        Ok(Stands::Folder) => Err(damaged(at, Why::WrongKind)),
        Ok(Stands::Leaf) => Ok(()),
        Err(error) => Err(refused(at, error)),
    }
}

fn check_file<F: Fs>(fs: &mut F, at: &FsPath) -> Result<(), OpenFault>
    ensures told { (v : View) → F.view fs.old ≡ Some v → Looked (Suits FileOrNothing (v.now.at at.now)) WrongKind at.now result }
    ensures quiet { IsQuiet (F.clock fs.old) (F.clock fs.new) (F.was fs.old) (F.was fs.new) (F.view fs.old) (F.view fs.new) }
    ensures reason { HasReason (F.faults fs.old) (F.faults fs.new) result }
{
    match node_at(fs, at)? {
        None => Ok(()),
        Some(Node::File { .. }) => Ok(()),
        Some(Node::Folder(_)) => Err(damaged(at, Why::WrongKind)),
        Some(Node::Link { .. }) => Err(damaged(at, Why::WrongKind)),
    }
}
