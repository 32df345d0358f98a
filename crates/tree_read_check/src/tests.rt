//! What no words of the program ask for: a tree under other limits. What else is read of trees is told by the cases of `case_runner`.
use crate::{Wrong, first_wrong};
use disk_fixtures::{laid_out, put_named, put_root};
use fs_memory::MemFs;
use ost_types::{Bytes, Csum, Kind, Limits, ObjName};
use std::alloc::Global;
use std::process::Abort;
use std::test::Fail;
use tree_read::tree_of;

/// A commit of the subject `first` at the second 1,700,000,000, without a parent.
fn put_commit(fs: &mut MemFs, alloc: Global, root: &(Csum, Csum)) -> Result<Csum, Fail> {
    let mut bytes = Bytes::from_slice(alloc, b"first\0\0\0")?;
    bytes.append(&[0, 0, 0, 0, 0x65, 0x53, 0xf1, 0])?;
    bytes.append(root.0.bytes())?;
    bytes.append(root.1.bytes())?;
    bytes.append(&[0x30, 0x07, 0x06, 0, 0, 0])?;
    Ok(put_named(fs, alloc, Kind::Commit, bytes.as_slice())?)
}

/// What `ostree commit` names a tree of one empty folder.
const SMALLEST: &[u8] = b"92103022c2d63325076cf02c4f967ea58e4356e6fb35bfb73ff241757bfb198d";

#[test]
fn as_many_paths_as_the_limit(rt: HostRuntime) -> Result<(), Fail> {
    let alloc = rt.alloc();
    let mut fs = laid_out(alloc)?;
    let root = put_root(&mut fs, alloc)?;
    let commit = put_commit(&mut fs, alloc, &root)?;
    assert!(rt; Some(commit) == Csum::from_hex(SMALLEST));
    let mut limits = Limits::standard();
    limits.paths = 2;
    assert_eq!(rt; tree_of(alloc, &mut fs, &commit, &limits)?.len(), 2);
    limits.paths = 1;
    let csum = root.0;
    let kind = Kind::DirTree;
    let found = first_wrong(alloc, &mut fs, &commit, &limits)?;
    assert_eq!(rt; found, Some(Wrong::Damaged(ObjName { csum, kind })));
    Ok(())
}
