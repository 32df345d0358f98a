//! Files that are staged, and what is removed.
use crate::bench::Bench;
use crate::stop::Stop;
use checkout::RemoveTask;
use disk_fixtures::file_meta;
use fs_trait::{Fs, Need};
use ost_types::{Bytes, FsPath};
use staged_file::{Plan, StagedFile};

/// A file that comes where nothing stands, and then one that takes the place of it.
pub fn put_files<F: Fs>(bench: &mut Bench<F>) -> Result<(), Stop> {
    put_file(bench, "a file where nothing stands")?;
    put_file(bench, "a file that takes another's place")
}

fn put_file<F: Fs>(bench: &mut Bench<F>, name: &str) -> Result<(), Stop> {
    let plan = Plan {
        stage: bench.path(b"/ostree/repo/s")?,
        folder: bench.path(b"/ostree/repo")?,
        at: bench.path(b"/ostree/repo/summary")?,
        meta: file_meta(bench.alloc),
        bytes: Bytes::from_slice(bench.alloc, b"three lines\nof a\nfile\n")?,
        lock: Need::RefLock,
    };
    let mut task = StagedFile::new(plan);
    bench.measure(name, &mut task)
}

/// A folder with folders and files in it is removed.
pub fn remove_folder<F: Fs>(bench: &mut Bench<F>) -> Result<(), Stop> {
    bench.make_folder(b"/checkout")?;
    bench.make_folder(b"/checkout/a")?;
    bench.make_folder(b"/checkout/a/b")?;
    bench.make_folder(b"/checkout/a/b/c")?;
    bench.make_file(b"/checkout/a/b/d")?;
    bench.make_file(b"/checkout/a/e")?;
    let at = bench.path(b"/checkout/a")?;
    remove(bench, at)
}

fn remove<F: Fs>(bench: &mut Bench<F>, at: FsPath) -> Result<(), Stop> {
    if at.names().is_empty() {
        return Err(Stop::Unmade);
    }
    let mut task = RemoveTask::new(bench.alloc, at);
    bench.measure("a tree that is removed", &mut task)
}
