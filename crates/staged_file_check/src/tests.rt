ghost use Rattle.std.specs.Prelude.{◌≡◌};

use crate::put;
use fs_memory::{Choice, FailAt, MemFs};
use fs_trait::Fs;
use ost_types::FsPath;
use std::alloc::Global;
use std::process::Abort;
use std::test::Fail;

fn check_bytes<F: Fs>(
    rt: &impl Abort,
    alloc: Global,
    fs: &mut F,
    wanted: &[&[u8]],
) -> Result<(), Fail>
    ensures { F.view fs.new ≡ F.view fs.old }
{
    let bytes = fs.read(&FsPath::parse(alloc, b"/a")?)?;
    assert!(rt; wanted.contains(&bytes.as_slice()));
    Ok(())
}

#[test]
fn puts_files(rt: HostRuntime) -> Result<(), Fail> {
    let alloc = rt.alloc();
    let mut fs = MemFs::new(alloc)?;
    put(&mut fs, alloc, b"old")?;
    check_bytes(&rt, alloc, &mut fs, &[b"old"])?;
    put(&mut fs, alloc, b"new")?;
    check_bytes(&rt, alloc, &mut fs, &[b"new"])?;
    assert_eq!(rt; fs.list(&FsPath::root(alloc))?.as_slice().len(), 1);
    Ok(())
}

// The calls of the second file are the 9th to the 16th.
fn check_failing(rt: &impl Abort, alloc: Global, call: u64, done: bool) -> Result<(), Fail> {
    let mut fs = MemFs::new(alloc)?;
    put(&mut fs, alloc, b"old")?;
    fs.fail_at(vec![in alloc; FailAt { call, done }]?);
    let answer = put(&mut fs, alloc, b"new");
    assert_eq!(rt; answer.is_ok(), call > 16);
    for picks in [vec![in alloc; 0]?, Vec::new(alloc)] {
        let mut left = fs.image(fs.moments(), &Choice { picks, fill: 1 })?;
        let wanted: &[&[u8]] = if answer.is_ok() {
            &[b"new"]
        } else {
            &[b"old", b"new"]
        };
        check_bytes(rt, alloc, &mut left, wanted)?;
    }
    Ok(())
}

#[test]
fn fails_at_each_call(rt: HostRuntime) -> Result<(), Fail> {
    let alloc = rt.alloc();
    for call in 9..=17 {
        check_failing(&rt, alloc, call, false)?;
        check_failing(&rt, alloc, call, true)?;
    }
    Ok(())
}
