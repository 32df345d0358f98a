ghost use Rattle.std.specs.Prelude.{◌≡◌, ◌≤◌, Some, None, is_some, IfOk, IfErr};
ghost use Rattle.fs_trait.specs.View.{View};
ghost use Rattle.fs_trait.specs.Image.{IsTree, reads};
ghost use Rattle.fs_trait.specs.Effect.{HasCause, IsQuiet, OfNone};
ghost use Rattle.ref_command.specs.Commands.{parse_answer, reset_answer};
ghost use Rattle.ref_command.specs.Found.{IsFound, commit_name, is_regular};

use crate::RefAnswer;
use fs_trait::{Fs, FsErr, Node};
use ost_types::{Csum, FsPath, Kind, ObjName};
use repo_layout::{mark_path, object_path};
use std::alloc::Global;

/// What stands where a commit's object would, and where its mark would. Only a regular file counts: a folder or a link there
/// is no object and no mark.
#[derive(Clone, Copy, Debug, PartialEq, Eq)]
pub enum Found {
    /// There is no such commit.
    Missing,
    /// It is there with its mark: objects of it may be missing.
    Partial,
    /// It is there without a mark.
    Whole,
}

/// A commit that is looked up, and what was found.
#[derive(Drop, Debug)]
pub struct LookUp {
    alloc: Global,
    commit: Csum,
    found: Option<Found>,
}

impl LookUp {
    pub(crate) fn new(alloc: Global, commit: Csum) -> LookUp
        ensures { result ≡ record { alloc = alloc; commit = commit; found = None } }
    {
        LookUp {
            alloc,
            commit,
            found: None,
        }
    }

    pub(crate) fn commit(&self) -> &Csum
        ensures { result.now ≡ self.now.commit }
    {
        &self.commit
    }

    pub(crate) fn found(&self) -> Option<Found>
        ensures { result ≡ self.now.found }
    {
        self.found
    }

    /// What `rev-parse` answers.
    pub(crate) fn into_parsed(self) -> Option<RefAnswer>
        ensures { result ≡ parse_answer self.found self.commit }
    {
        match self.found {
            None => None,
            Some(Found::Missing) => Some(RefAnswer::NoCommit(self.commit)),
            Some(Found::Partial) => Some(RefAnswer::Partial(self.commit)),
            Some(Found::Whole) => Some(RefAnswer::Commit(self.commit)),
        }
    }

    /// What `reset` answers where it ends with the look-up.
    pub(crate) fn into_stopped(self) -> Option<RefAnswer>
        ensures { result ≡ reset_answer self.found self.commit }
    {
        match self.found {
            Some(Found::Missing) => Some(RefAnswer::NoCommit(self.commit)),
            Some(Found::Partial) => Some(RefAnswer::Partial(self.commit)),
            Some(Found::Whole) | None => None,
        }
    }

    /// Looks it up by at most two calls that read.
    pub(crate) fn look<F: Fs>(&mut self, fs: &mut F) -> Result<Found, FsErr>
        ensures found { IfOk result (λ f. self.new ≡ record self.old { found = Some f }) }
        ensures told { (v : View) → F.view fs.old ≡ Some v → IfOk result (IsFound v.now self.old.commit) }
        ensures tree { (v : View) → F.view fs.old ≡ Some v → IsTree v.now }
        ensures named { IfErr result OfNone }
        ensures quiet { IsQuiet (F.clock fs.old) (F.clock fs.new) (F.was fs.old) (F.was fs.new) (F.view fs.old) (F.view fs.new) }
        ensures keeps_room { F.spare fs.old ≤ F.spare fs.new }
        ensures cause { HasCause (F.faults fs.old) (F.faults fs.new) result }
    {
        let found = look_up(self.alloc, fs, &self.commit)?;
        self.found = Some(found);
        Ok(found)
    }
}

fn look_up<F: Fs>(alloc: Global, fs: &mut F, commit: &Csum) -> Result<Found, FsErr>
    ensures told { (v : View) → F.view fs.old ≡ Some v → IfOk result (IsFound v.now commit.now) }
    ensures named { IfErr result OfNone }
    ensures quiet { IsQuiet (F.clock fs.old) (F.clock fs.new) (F.was fs.old) (F.was fs.new) (F.view fs.old) (F.view fs.new) }
    ensures keeps_room { F.spare fs.old ≤ F.spare fs.new }
    ensures cause { HasCause (F.faults fs.old) (F.faults fs.new) result }
{
    let object = object_path(alloc, &commit_name(commit))?;
    let mark = mark_path(alloc, commit)?;
    if !is_file(fs, &object)? {
        return Ok(Found::Missing);
    }
    if is_file(fs, &mark)? {
        return Ok(Found::Partial);
    }
    Ok(Found::Whole)
}

/// The name of the commit's object.
pub(crate) fn commit_name(commit: &Csum) -> ObjName
    ensures { result ≡ commit_name commit.now }
{
    ObjName {
        csum: *commit,
        kind: Kind::Commit,
    }
}

fn is_file<F: Fs>(fs: &mut F, at: &FsPath) -> Result<bool, FsErr>
    ensures told { (v : View) → F.view fs.old ≡ Some v → IfOk result (λ b. b ≡ is_some (reads v.now at.now)) }
    ensures named { IfErr result OfNone }
    ensures quiet { IsQuiet (F.clock fs.old) (F.clock fs.new) (F.was fs.old) (F.was fs.new) (F.view fs.old) (F.view fs.new) }
    ensures keeps_room { F.spare fs.old ≤ F.spare fs.new }
    ensures cause { HasCause (F.faults fs.old) (F.faults fs.new) result }
{
    let node = fs.stat(at)?;
    Ok(is_regular(&node))
}

fn is_regular(node: &Option<Node>) -> bool
    ensures { result ≡ is_regular node.now }
{
    matches!(node, Some(Node::File { .. }))
}
