//! Objects that are put, and trees that are read.
use crate::bench::Bench;
use crate::stop::Stop;
use fs_trait::Fs;
use obj_store::PutTask;
use ost_objects::{Body, Checked, Content, DirMeta};
use ost_types::{Csum, Limits, Meta, Text, Xattrs, is_folder_mode, is_link_mode};
use std::alloc::Global;
use tree_read::TreeTask;
use tree_walk::WalkTask;

fn meta(alloc: Global, mode: u32) -> Meta {
    Meta {
        uid: 0,
        gid: 7,
        mode,
        xattrs: Xattrs::new(alloc),
    }
}

// The attributes of a folder: an object that is put by way of a staged file.
fn attributes(alloc: Global) -> Result<Checked, Stop> {
    let meta = meta(alloc, 0o040755);
    if !is_folder_mode(meta.mode) {
        return Err(Stop::Unmade);
    }
    let value = DirMeta { meta };
    Checked::of_dirmeta(alloc, &value, &Limits::standard()).map_err(|_| Stop::Unmade)
}

// A symbolic link.
fn link(alloc: Global) -> Result<Checked, Stop> {
    let meta = meta(alloc, 0o120777);
    let target = Text::parse(alloc, b"usr/bin")?.ok_or(Stop::Unmade)?;
    if !is_link_mode(meta.mode) || target.as_slice().is_empty() {
        return Err(Stop::Unmade);
    }
    let body = Body::Symlink(target);
    let value = Content { meta, body };
    Checked::of_content(alloc, &value, &Limits::standard()).map_err(|_| Stop::Unmade)
}

fn put<F: Fs>(bench: &mut Bench<F>, name: &str, object: Checked) -> Result<(), Stop> {
    let limits = Limits::standard();
    if object.limit() != limits.content {
        return Err(Stop::Unmade);
    }
    let mut task = PutTask::new(bench.alloc, 0, object, &limits)?;
    bench.measure(name, &mut task)
}

/// Objects of both ways to be put, where nothing stands and where they are there.
pub fn put_all<F: Fs>(bench: &mut Bench<F>) -> Result<(), Stop> {
    let alloc = bench.alloc;
    put(bench, "an object by a staged file", attributes(alloc)?)?;
    put(bench, "the same that is there", attributes(alloc)?)?;
    put(bench, "an object of a link", link(alloc)?)?;
    put(bench, "the same that is there", link(alloc)?)
}

/// The tree of a commit is read, and walked.
pub fn read_tree<F: Fs>(bench: &mut Bench<F>, commit: Csum) -> Result<(), Stop> {
    let mut task = TreeTask::new(bench.alloc, commit, Limits::standard());
    bench.measure("a tree that is read", &mut task)
}

pub fn walk_tree<F: Fs>(bench: &mut Bench<F>, commit: Csum) -> Result<(), Stop> {
    let mut task = WalkTask::new(bench.alloc, commit, Limits::standard());
    bench.measure("a tree whose files are looked for", &mut task)
}
