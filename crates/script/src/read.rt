//! The fields of each command.
ghost use Rattle.std.specs.Prelude.{◌≡◌, ℕ, List, IfOk, MatchOption, map};
ghost use Rattle.ost_types.specs.Path.{Path};
ghost use Rattle.script.specs.Words.{AreRevName, AreRevPath, HasFields, IsCommitLine, IsCommitLineAt};
ghost use Rattle.script.specs.declared.command.CommitLine.{CommitLine};
ghost use Rattle.script.specs.declared.command.Rev.{Rev};
ghost use Rattle.script.specs.declared.command.Command.TheVariants as command;
ghost use Rattle.script.specs.declared.command.Written.TheVariants as written;

use crate::command::{Command, CommitLine, Rev, Written};
use crate::name::read_name;
use crate::number::{read_text, read_u32, read_u64};
use crate::path::read_path;
use crate::value::{read_branch, read_commit, read_rev};
use ost_types::{FsPath, Name, NoMemory};
use std::alloc::Global;

pub fn read_refs(fields: &[&[u8]]) -> Option<Written>
    ensures { MatchOption result (¬ (HasFields command.Refs (map (λ f. f.now) fields.now))) (λ c. (c ≡ written.Command command.Refs) × HasFields command.Refs (map (λ f. f.now) fields.now)) }
{
    match fields {
        [] => Some(Written::Command(Command::Refs)),
        _ => None,
    }
}

pub fn read_status(fields: &[&[u8]]) -> Option<Written>
    ensures { MatchOption result (¬ (HasFields command.Status (map (λ f. f.now) fields.now))) (λ c. (c ≡ written.Command command.Status) × HasFields command.Status (map (λ f. f.now) fields.now)) }
{
    match fields {
        [] => Some(Written::Command(Command::Status)),
        _ => None,
    }
}

pub fn read_cleanup(fields: &[&[u8]]) -> Option<Written>
    ensures { MatchOption result (¬ (HasFields command.Cleanup (map (λ f. f.now) fields.now))) (λ c. (c ≡ written.Command command.Cleanup) × HasFields command.Cleanup (map (λ f. f.now) fields.now)) }
{
    match fields {
        [] => Some(Written::Command(Command::Cleanup)),
        _ => None,
    }
}

pub fn read_rev_parse(alloc: Global, fields: &[&[u8]]) -> Result<Option<Written>, NoMemory>
    ensures { IfOk result (λ o. MatchOption o ((rev : Rev) → ¬ (HasFields (command.RevParse rev) (map (λ f. f.now) fields.now))) (λ c. (rev : Rev) × (c ≡ written.Command (command.RevParse rev)) × HasFields (command.RevParse rev) (map (λ f. f.now) fields.now))) }
{
    let [rev] = fields else {
        return Ok(None);
    };
    match read_rev(alloc, rev)? {
        Some(rev) => Ok(Some(Written::Command(Command::RevParse { rev }))),
        None => Ok(None),
    }
}

pub fn read_log(alloc: Global, fields: &[&[u8]]) -> Result<Option<Written>, NoMemory>
    ensures { IfOk result (λ o. MatchOption o ((rev : Rev) → ¬ (HasFields (command.Log rev) (map (λ f. f.now) fields.now))) (λ c. (rev : Rev) × (c ≡ written.Command (command.Log rev)) × HasFields (command.Log rev) (map (λ f. f.now) fields.now))) }
{
    let [rev] = fields else {
        return Ok(None);
    };
    match read_rev(alloc, rev)? {
        Some(rev) => Ok(Some(Written::Command(Command::Log { rev }))),
        None => Ok(None),
    }
}

pub fn read_ls(alloc: Global, fields: &[&[u8]]) -> Result<Option<Written>, NoMemory>
    ensures { IfOk result (λ o. MatchOption o ((rev : Rev) (path : Path) → ¬ (HasFields (command.Ls rev path) (map (λ f. f.now) fields.now))) (λ c. (rev : Rev) × (path : Path) × (c ≡ written.Command (command.Ls rev path)) × HasFields (command.Ls rev path) (map (λ f. f.now) fields.now))) }
{
    match read_rev_path(alloc, fields)? {
        Some((rev, path)) => Ok(Some(Written::Command(Command::Ls { rev, path }))),
        None => Ok(None),
    }
}

pub fn read_cat(alloc: Global, fields: &[&[u8]]) -> Result<Option<Written>, NoMemory>
    ensures { IfOk result (λ o. MatchOption o ((rev : Rev) (path : Path) → ¬ (HasFields (command.Cat rev path) (map (λ f. f.now) fields.now))) (λ c. (rev : Rev) × (path : Path) × (c ≡ written.Command (command.Cat rev path)) × HasFields (command.Cat rev path) (map (λ f. f.now) fields.now))) }
{
    match read_rev_path(alloc, fields)? {
        Some((rev, path)) => Ok(Some(Written::Command(Command::Cat { rev, path }))),
        None => Ok(None),
    }
}

pub fn read_checkout(alloc: Global, fields: &[&[u8]]) -> Result<Option<Written>, NoMemory>
    ensures { IfOk result (λ o. MatchOption o ((rev : Rev) (name : List ℕ) → ¬ (HasFields (command.Checkout rev name) (map (λ f. f.now) fields.now))) (λ c. (rev : Rev) × (name : List ℕ) × (c ≡ written.Command (command.Checkout rev name)) × HasFields (command.Checkout rev name) (map (λ f. f.now) fields.now))) }
{
    match read_rev_name(alloc, fields)? {
        Some((rev, name)) => Ok(Some(Written::Command(Command::Checkout { rev, name }))),
        None => Ok(None),
    }
}

fn read_rev_name(alloc: Global, fields: &[&[u8]]) -> Result<Option<(Rev, Name)>, NoMemory>
    ensures { IfOk result (λ o. MatchOption o ((rev : Rev) (name : List ℕ) → ¬ (AreRevName (map (λ f. f.now) fields.now) rev name)) (λ p. AreRevName (map (λ f. f.now) fields.now) p.0 p.1)) }
{
    let [rev, name] = fields else {
        return Ok(None);
    };
    let Some(rev) = read_rev(alloc, rev)? else {
        return Ok(None);
    };
    match read_name(alloc, name)? {
        Some(name) => Ok(Some((rev, name))),
        None => Ok(None),
    }
}

fn read_rev_path(alloc: Global, fields: &[&[u8]]) -> Result<Option<(Rev, FsPath)>, NoMemory>
    ensures { IfOk result (λ o. MatchOption o ((rev : Rev) (path : Path) → ¬ (AreRevPath (map (λ f. f.now) fields.now) rev path)) (λ p. AreRevPath (map (λ f. f.now) fields.now) p.0 p.1)) }
{
    let [rev, path] = fields else {
        return Ok(None);
    };
    let Some(rev) = read_rev(alloc, rev)? else {
        return Ok(None);
    };
    match read_path(alloc, path)? {
        Some(path) => Ok(Some((rev, path))),
        None => Ok(None),
    }
}

pub fn read_reset(alloc: Global, fields: &[&[u8]]) -> Result<Option<Written>, NoMemory>
    ensures { IfOk result (λ o. MatchOption o ((branch commit : List ℕ) → ¬ (HasFields (command.Reset branch commit) (map (λ f. f.now) fields.now))) (λ c. (branch commit : List ℕ) × (c ≡ written.Command (command.Reset branch commit)) × HasFields (command.Reset branch commit) (map (λ f. f.now) fields.now))) }
{
    let [branch, commit] = fields else {
        return Ok(None);
    };
    let Some(branch) = read_branch(alloc, branch)? else {
        return Ok(None);
    };
    match read_commit(alloc, commit)? {
        Some(commit) => Ok(Some(Written::Command(Command::Reset { branch, commit }))),
        None => Ok(None),
    }
}

pub fn read_drop(alloc: Global, fields: &[&[u8]]) -> Result<Option<Written>, NoMemory>
    ensures { IfOk result (λ o. MatchOption o ((branch : List ℕ) → ¬ (HasFields (command.DropRef branch) (map (λ f. f.now) fields.now))) (λ c. (branch : List ℕ) × (c ≡ written.Command (command.DropRef branch)) × HasFields (command.DropRef branch) (map (λ f. f.now) fields.now))) }
{
    let [branch] = fields else {
        return Ok(None);
    };
    match read_branch(alloc, branch)? {
        Some(branch) => Ok(Some(Written::Command(Command::DropRef { branch }))),
        None => Ok(None),
    }
}

pub fn read_prune(alloc: Global, fields: &[&[u8]]) -> Result<Option<Written>, NoMemory>
    ensures { IfOk result (λ o. MatchOption o ((depth : ℕ) → ¬ (HasFields (command.Prune depth) (map (λ f. f.now) fields.now))) (λ c. (depth : ℕ) × (c ≡ written.Command (command.Prune depth)) × HasFields (command.Prune depth) (map (λ f. f.now) fields.now))) }
{
    let [depth] = fields else {
        return Ok(None);
    };
    match read_u32(alloc, depth)? {
        Some(depth) => Ok(Some(Written::Command(Command::Prune { depth }))),
        None => Ok(None),
    }
}

pub fn read_commit_words(alloc: Global, fields: &[&[u8]]) -> Result<Option<Written>, NoMemory>
    ensures { IfOk result (λ o. MatchOption o ((line : CommitLine) → ¬ (IsCommitLine (map (λ f. f.now) fields.now) line)) (λ c. (line : CommitLine) × (c ≡ written.Commit line) × IsCommitLine (map (λ f. f.now) fields.now) line)) }
{
    match read_commit_line(alloc, fields)? {
        Some(line) => Ok(Some(Written::Commit(line))),
        None => Ok(None),
    }
}

fn read_commit_line(alloc: Global, fields: &[&[u8]]) -> Result<Option<CommitLine>, NoMemory>
    ensures { IfOk result (λ o. MatchOption o ((line : CommitLine) → ¬ (IsCommitLine (map (λ f. f.now) fields.now) line)) (IsCommitLine (map (λ f. f.now) fields.now))) }
{
    match fields {
        [branch, tree, subject, body, time] => {
            commit_line_of(alloc, branch, tree, subject, body, time)
        }
        _ => Ok(None),
    }
}

fn commit_line_of(
    alloc: Global,
    branch: &[u8],
    tree: &[u8],
    subject: &[u8],
    body: &[u8],
    time: &[u8],
) -> Result<Option<CommitLine>, NoMemory>
    ensures { IfOk result (λ o. MatchOption o ((line : CommitLine) → ¬ (IsCommitLineAt branch.now tree.now subject.now body.now time.now line)) (IsCommitLineAt branch.now tree.now subject.now body.now time.now)) }
{
    let Some(branch) = read_branch(alloc, branch)? else {
        return Ok(None);
    };
    let Some(tree) = read_u32(alloc, tree)? else {
        return Ok(None);
    };
    let Some(subject) = read_text(alloc, subject)? else {
        return Ok(None);
    };
    let Some(body) = read_text(alloc, body)? else {
        return Ok(None);
    };
    match read_u64(alloc, time)? {
        Some(time) => Ok(Some(CommitLine {
            branch,
            tree,
            subject,
            body,
            time,
        })),
        None => Ok(None),
    }
}
