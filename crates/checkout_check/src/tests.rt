//! What no words of the program ask for so far: a checkout that is removed. What a checkout leaves is told by the cases of `case_runner`.
ghost use Rattle.std.specs.Prelude.{◌≡◌, ◌≢◌, [], Some};
ghost use Rattle.ost_types.specs.Mode.{IsFileMode, IsFolderMode};
ghost use Rattle.ost_types.specs.PathMap.{IsNode};
ghost use Rattle.fs_trait.specs.View.{View};
ghost use Rattle.checkout.specs.CheckoutSteps.{Needs};

use crate::Sketch;
use checkout::{CheckoutTask, DestExists, RemoveTask};
use fs_memory::MemFs;
use fs_trait::{Fs, FsErr, Node, StepResult};
use ost_types::{Csum, FsPath, Kind, Meta, Name, NodeName, ObjName, Text, Xattrs, is_link_mode};
use repo_layout::object_path;
use std::alloc::Global;
use std::process::Abort;
use std::test::Fail;

/// The name of a file's object, and that of a link's, as ostree made them.
const FILE: &[u8] = b"44f778e59f0a4748d6b0c90a47347212a231c4ad1e8f7ea5c5dffc7749153a6b";

const LINK: &[u8] = b"389846c2702216e1367c8dfb68326a6b93ccf5703c89c93979052a9bf359608e";

fn folder_meta(alloc: Global, uid: u32) -> Meta
    ensures { IsFolderMode result.mode }
{
    Meta {
        uid,
        gid: 0,
        mode: 0o040755,
        xattrs: Xattrs::new(alloc),
    }
}

fn file_meta(alloc: Global) -> Meta
    ensures { IsFileMode result.mode }
{
    Meta {
        uid: 0,
        gid: 0,
        mode: 0o100644,
        xattrs: Xattrs::new(alloc),
    }
}

fn laid_out(alloc: Global) -> Result<MemFs, Fail> {
    let mut fs = MemFs::new(alloc)?;
    let folders: [&[u8]; 6] = [
        b"/ostree",
        b"/ostree/repo",
        b"/ostree/repo/objects",
        b"/ostree/repo/objects/38",
        b"/ostree/repo/objects/44",
        b"/checkout",
    ];
    for folder in folders {
        fs.mkdir(&FsPath::parse(alloc, folder)?, &folder_meta(alloc, 0))?;
    }
    Ok(fs)
}

fn sum(digits: &[u8]) -> Result<Csum, Fail> {
    Ok(Csum::from_hex(digits).ok_or("no sum")?)
}

fn object_at(alloc: Global, digits: &[u8]) -> Result<FsPath, Fail> {
    let csum = sum(digits)?;
    let kind = Kind::File;
    Ok(object_path(alloc, &ObjName { csum, kind })?)
}

fn put_file(fs: &mut MemFs, alloc: Global) -> Result<(), Fail> {
    let at = object_at(alloc, FILE)?;
    fs.create(&at, &file_meta(alloc))?;
    fs.append(&at, b"hello\n")?;
    Ok(())
}

fn put_link(rt: &impl Abort, fs: &mut MemFs, alloc: Global) -> Result<(), Fail> {
    let mut meta = file_meta(alloc);
    meta.mode = 0o120777;
    assert!(rt; is_link_mode(meta.mode));
    match Text::parse(alloc, b"usr/bin".as_slice())? {
        Some(target) => Ok(fs.symlink(&object_at(alloc, LINK)?, &target, &meta)?),
        None => Err("no text")?,
    }
}

fn name(alloc: Global, text: &[u8]) -> Result<Name, Fail> {
    Ok(Name::parse(alloc, text)?.ok_or("no name")?)
}

fn path(alloc: Global, text: &[u8]) -> Result<FsPath, Fail> {
    Ok(FsPath::parse(alloc, text)?)
}

fn add(
    alloc: Global,
    tree: &mut Sketch,
    folder: &[u8],
    text: &[u8],
    node: NodeName,
) -> Result<(), Fail>
    requires { IsNode node }
{
    let folder = path(alloc, folder)?;
    let text = name(alloc, text)?;
    if tree.add(&folder, &text, node)? {
        Ok(())
    } else {
        Err("not added")?
    }
}

/// A link, a folder, and a file in it.
fn small_tree(alloc: Global) -> Result<Sketch, Fail> {
    let home = path(alloc, b"/checkout")?;
    let into = name(alloc, b"a")?;
    let mut tree = Sketch::new(alloc, home, into, folder_meta(alloc, 7))?.ok_or("no room")?;
    add(alloc, &mut tree, b"/", b"bin", NodeName::Leaf(sum(LINK)?))?;
    add(
        alloc,
        &mut tree,
        b"/",
        b"usr",
        NodeName::Folder(folder_meta(alloc, 9)),
    )?;
    add(
        alloc,
        &mut tree,
        b"/usr",
        b"hello",
        NodeName::Leaf(sum(FILE)?),
    )?;
    Ok(tree)
}

fn is_link(fs: &mut MemFs, at: &FsPath) -> Result<bool, Fail> {
    match fs.stat(at)? {
        Some(Node::Link { target, .. }) => Ok(target.as_slice() == b"usr/bin".as_slice()),
        _ => Ok(false),
    }
}

fn remove<F: Fs>(alloc: Global, fs: &mut F, at: FsPath) -> Result<(), FsErr>
    requires { at ≢ [] }
{
    let mut task = RemoveTask::new(alloc, at);
    'steps: loop {
        match task.step(fs)? {
            StepResult::More => {}
            StepResult::Done(()) => return Ok(()),
        }
    }
}

/// Removes what stands under a name of a folder.
#[tactic(auto, using(crate::proofs::Named::not_root))]
fn removed(fs: &mut MemFs, alloc: Global, home: &FsPath, name: &Name) -> Result<(), Fail> {
    if !home.can_hold(name) {
        return Err("no room")?;
    }
    let at = home.child(name)?;
    Ok(remove(alloc, fs, at)?)
}

// A folder for checkouts, and the objects of the tree.
fn disk(rt: &impl Abort, alloc: Global) -> Result<MemFs, Fail> {
    let mut fs = laid_out(alloc)?;
    put_file(&mut fs, alloc)?;
    put_link(rt, &mut fs, alloc)?;
    Ok(fs)
}

fn check_out<F: Fs>(fs: &mut F, task: CheckoutTask) -> Result<Result<(), DestExists>, FsErr>
    requires { (v : View) → F.view fs.old ≡ Some v → Needs task v.now }
{
    let mut task = task;
    'steps: loop {
        match task.step(fs)? {
            StepResult::More => {}
            StepResult::Done(answer) => return Ok(answer),
        }
    }
}

fn is_checked_out(fs: &mut MemFs, alloc: Global) -> Result<bool, Fail> {
    match small_tree(alloc)?.begin(alloc, fs)? {
        Some(task) => Ok(check_out(fs, task)? == Ok(())),
        None => Ok(false),
    }
}

// Whether nothing is left of the checkout, once it was removed.
fn is_removed(fs: &mut MemFs, alloc: Global) -> Result<bool, Fail> {
    let home = path(alloc, b"/checkout")?;
    let into = name(alloc, b"a")?;
    removed(fs, alloc, &home, &into)?;
    Ok(fs.list(&home)?.as_slice().is_empty())
}

fn are_objects_there(fs: &mut MemFs, alloc: Global) -> Result<bool, Fail> {
    if !is_link(fs, &object_at(alloc, LINK)?)? {
        return Ok(false);
    }
    Ok(fs.stat(&object_at(alloc, FILE)?)?.is_some())
}

#[test]
fn removed_again(rt: HostRuntime) -> Result<(), Fail> {
    let alloc = rt.alloc();
    let mut fs = disk(&rt, alloc)?;
    assert!(rt; is_checked_out(&mut fs, alloc)?);
    assert!(rt; is_removed(&mut fs, alloc)?);
    assert!(rt; are_objects_there(&mut fs, alloc)?);
    // what isn't there is removed at once
    assert!(rt; is_removed(&mut fs, alloc)?);
    assert!(rt; is_checked_out(&mut fs, alloc)?);
    Ok(())
}
