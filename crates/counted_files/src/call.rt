ghost use Rattle.std.specs.Prelude.{◌≡◌};
ghost use Rattle.counted_files.specs.Counting.{is_reading};

/// A call of a file system.
#[derive(Clone, Copy, Debug, PartialEq, Eq)]
pub enum Call {
    Stat,
    Read,
    ReadPart,
    List,
    Same,
    Mkdir,
    Create,
    Append,
    Symlink,
    Link,
    Unlink,
    Rmdir,
    Rename,
    SyncFile,
    SyncDir,
    SyncAll,
}

impl Call {
    /// Whether it changes nothing.
    pub fn is_reading(self) -> bool
        ensures { result ≡ is_reading self }
    {
        match self {
            Call::Stat | Call::Read | Call::ReadPart | Call::List | Call::Same => true,
            _ => false,
        }
    }

    pub fn name(self) -> &'static str {
        match self {
            Call::Stat => "stat",
            Call::Read => "read",
            Call::ReadPart => "read_part",
            Call::List => "list",
            Call::Same => "same",
            Call::Mkdir => "mkdir",
            Call::Create => "create",
            Call::Append => "append",
            Call::Symlink => "symlink",
            Call::Link => "link",
            Call::Unlink => "unlink",
            Call::Rmdir => "rmdir",
            Call::Rename => "rename",
            Call::SyncFile => "sync_file",
            Call::SyncDir => "sync_dir",
            Call::SyncAll => "sync_all",
        }
    }
}
