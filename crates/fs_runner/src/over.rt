//! File systems over a machine's folder.
use fs_host::HostFs;
use fs_native::NativeFs;
use fs_trait::{Fs, FsErr};
use host_files::{InTurn, Machine};
use ost_types::{FsPath, NoMemory};

/// A file system over the current folder of a machine, of which it tells nothing.
pub trait OverMachine<R>: Fs + Sized {
    fn over(host: R) -> Result<Self, NoMemory>;

    /// A `rename` that may also be asked for two names of one file.
    fn rename_any(&mut self, from: &FsPath, to: &FsPath) -> Result<(), FsErr>;
}

impl<R: Machine> OverMachine<R> for HostFs<R, InTurn<R>> {
    fn over(host: R) -> Result<Self, NoMemory> {
        let syncer = InTurn::new(host.clone()?);
        HostFs::new(host, syncer)
    }

    fn rename_any(&mut self, from: &FsPath, to: &FsPath) -> Result<(), FsErr> {
        self.rename(from, to)
    }
}

impl<R: Machine> OverMachine<R> for NativeFs<R, InTurn<R>> {
    fn over(host: R) -> Result<Self, NoMemory> {
        let syncer = InTurn::new(host.clone()?);
        NativeFs::new(host, syncer)
    }

    fn rename_any(&mut self, from: &FsPath, to: &FsPath) -> Result<(), FsErr> {
        self.rename(from, to)
    }
}
