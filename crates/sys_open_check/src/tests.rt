//! What no words of the program ask for: an opening under other limits. What else an opening tells is told by the cases of `case_runner`.
use crate::open_again;
use disk_fixtures::{laid_out, put_named};
use fs_memory::MemFs;
use ost_types::{Csum, FsPath, Kind, Limits, ObjName};
use std::alloc::Global;
use std::process::Abort;
use std::test::Fail;
use sys_open::{OpenFault, Why};

const COMMIT: &[u8] =
    b"/ostree/repo/objects/b3/0605ed9370a39846c77ee0fc427b9e07ef40432f45037c89db106f36e49623.commit";

const COMMIT_BYTES: &[u8] =
    b"first\x00\x00\x00\x00\x00\x00\x00eS\xf1\x00n4\x0b\x9c\xff\xb3z\x98\x9c\xa5D\xe6\xbbx\x0a,x\x90\x1d?\xb378v\x85\x11\xa3\x06\x17\xaf\xa0\x1dDj\x0e\xf1\x1b|\xc1g\xf3\xb6\x03\xe5\x85\xc7\xee\xee\xb6u\xfa\xa4\x12\xd5\xecs\xf6)\x88\xeb\x0blT\x880\x07\x06\x00\x00\x00";

// A commit of an empty folder, with its entries and its attributes.
fn with_commit(alloc: Global) -> Result<MemFs, Fail> {
    let mut fs = laid_out(alloc)?;
    put_named(&mut fs, alloc, Kind::Commit, COMMIT_BYTES)?;
    put_named(&mut fs, alloc, Kind::DirTree, b"\0")?;
    put_named(
        &mut fs,
        alloc,
        Kind::DirMeta,
        b"\x00\x00\x00\x00\x00\x00\x00\x00\x00\x00A\xed",
    )?;
    Ok(fs)
}

const EMPTY_SUM: &[u8] = b"6e340b9cffb37a989ca544e6bb780a2c78901d3fb33738768511a30617afa01d";

fn with_paths(paths: u32) -> Limits {
    Limits {
        objects: 100,
        paths,
        content: 1000,
    }
}

// The root is a path, too.
#[test]
fn tells_a_commit_of_more_paths_than_the_limit(rt: HostRuntime) -> Result<(), Fail> {
    let alloc = rt.alloc();
    assert!(rt; open_again(&rt, alloc, with_commit(alloc)?, with_paths(1)).is_ok());
    let at = FsPath::parse(alloc, COMMIT)?;
    let csum = Csum::from_hex(EMPTY_SUM).ok_or("no sum")?;
    let kind = Kind::DirTree;
    let wanted = Why::Incomplete(ObjName { csum, kind });
    match &open_again(&rt, alloc, with_commit(alloc)?, with_paths(0)) {
        Err((_, OpenFault::Damaged(found, why))) => assert!(rt; *found == at && *why == wanted),
        _ => return Err("another end")?,
    }
    Ok(())
}
