//! Scripts of calls: commits, changes of refs, checkouts, and calls of any kind.
use crate::call::{Call, Kind};
use crate::random::Random;
use crate::stop::Stop;
use std::alloc::Global;

/// Calls that are made one after the other.
#[derive(Drop)]
pub struct Script {
    alloc: Global,
    random: Random,
    calls: Vec<Call>,
    // How many names were made that no other has.
    made: u64,
}

impl Script {
    /// The script of this number, which goes on where another ended.
    pub fn new(alloc: Global, number: u64, made: u64) -> Script {
        Script {
            alloc,
            random: Random::new(number),
            calls: Vec::new(alloc),
            made,
        }
    }

    pub fn made(&self) -> u64 {
        self.made
    }

    pub fn into_calls(self) -> Vec<Call> {
        self.calls
    }

    fn add(&mut self, kind: Kind, at: &str, second: &str) -> Result<(), Stop> {
        let at = String::from_str(self.alloc, at)?;
        let second = String::from_str(self.alloc, second)?;
        self.calls.push(Call { kind, at, second })?;
        Ok(())
    }

    // A call on a name in a folder.
    fn add_in(&mut self, kind: Kind, folder: &str, name: &str, second: &str) -> Result<(), Stop> {
        let at = format!(in self.alloc; "{folder}{name}")?;
        self.add(kind, at.as_str(), second)
    }

    // A text with a number of its own behind it.
    fn fresh(&mut self, text: &str) -> Result<String, Stop> {
        self.made = self.made.saturating_add(1);
        Ok(format!(in self.alloc; "{text}{}", self.made)?)
    }

    // A name in a folder, with a number below this one behind it.
    fn numbered(&mut self, folder: &str, name: &str, count: u64) -> Result<String, Stop> {
        let number = self.random.below(count);
        Ok(format!(in self.alloc; "{folder}{name}{number}")?)
    }

    /// The folders that the others stand in.
    pub fn add_layout(&mut self) -> Result<(), Stop> {
        for at in ["/objects", "/tmp", "/refs"] {
            self.add(Kind::Mkdir, at, "")?;
        }
        self.add(Kind::SyncDir, "/", "")
    }

    /// A few blocks of calls, by chance none.
    pub fn add_blocks(&mut self) -> Result<(), Stop> {
        for _ in 0..self.random.below(4) {
            self.add_block()?;
        }
        Ok(())
    }

    fn add_block(&mut self) -> Result<(), Stop> {
        match self.random.below(5) {
            0 => self.add_commit(),
            1 => self.add_ref(),
            2 => self.add_checkout(),
            3 => self.add_removal(),
            _ => self.add_any(),
        }
    }

    // Objects that are staged, synced, shown and synced again, and a ref.
    fn add_commit(&mut self) -> Result<(), Stop> {
        for _ in 0..1 + self.random.below(3) {
            self.add_object()?;
        }
        self.add_ref()
    }

    fn add_object(&mut self) -> Result<(), Stop> {
        let staged = self.fresh("/tmp/t")?;
        let folder = self.numbered("/objects", "/", 3)?;
        let shown = self.numbered(folder.as_str(), "/o", 6)?;
        self.add_staged_object(staged.as_str())?;
        self.add_shown_object(staged.as_str(), folder.as_str(), shown.as_str())
    }

    fn add_staged_object(&mut self, staged: &str) -> Result<(), Stop> {
        let kind = if self.random.below(4) == 0 {
            Kind::CreateOwned
        } else {
            Kind::Create
        };
        self.add(kind, staged, "")?;
        self.add(Kind::Append, staged, "object ")?;
        self.add(Kind::Append, staged, staged)?;
        self.add(Kind::SyncFile, staged, "")
    }

    fn add_shown_object(&mut self, staged: &str, folder: &str, shown: &str) -> Result<(), Stop> {
        self.add(Kind::Mkdir, folder, "")?;
        self.add(Kind::SyncDir, "/objects", "")?;
        self.add(Kind::Link, staged, shown)?;
        self.add(Kind::Unlink, staged, "")?;
        if self.random.below(2) == 0 {
            return self.add(Kind::SyncDir, folder, "");
        }
        Ok(())
    }

    // A ref's file that is put in the place of another, or removed.
    fn add_ref(&mut self) -> Result<(), Stop> {
        let shown = self.numbered("/refs", "/r", 2)?;
        if self.random.below(4) == 0 {
            self.add(Kind::Unlink, shown.as_str(), "")?;
        } else {
            self.add_put_ref(shown.as_str())?;
        }
        self.add_sync_of_refs()
    }

    fn add_put_ref(&mut self, shown: &str) -> Result<(), Stop> {
        let staged = self.fresh("/tmp/t")?;
        self.add_staged_ref(staged.as_str())?;
        self.add(Kind::Rename, staged.as_str(), shown)
    }

    fn add_staged_ref(&mut self, staged: &str) -> Result<(), Stop> {
        self.add(Kind::Create, staged, "")?;
        self.add(Kind::Append, staged, staged)?;
        self.add(Kind::SyncFile, staged, "")
    }

    fn add_sync_of_refs(&mut self) -> Result<(), Stop> {
        if self.random.below(4) == 0 {
            self.add(Kind::SyncAll, "/", "")
        } else {
            self.add(Kind::SyncDir, "/refs", "")
        }
    }

    // A folder with attributes, links to objects in it, a file, and a symbolic link.
    fn add_checkout(&mut self) -> Result<(), Stop> {
        let folder = self.fresh("/c")?;
        self.add(Kind::MkdirOwned, folder.as_str(), "")?;
        self.add_links(folder.as_str())?;
        self.add_inner(folder.as_str())?;
        self.add(Kind::SyncDir, folder.as_str(), "")?;
        self.add(Kind::SyncDir, "/", "")
    }

    fn add_links(&mut self, folder: &str) -> Result<(), Stop> {
        for name in ["/a", "/b"] {
            let objects = self.numbered("/objects", "/", 3)?;
            let object = self.numbered(objects.as_str(), "/o", 6)?;
            let shown = format!(in self.alloc; "{folder}{name}")?;
            self.add(Kind::Link, object.as_str(), shown.as_str())?;
        }
        Ok(())
    }

    fn add_inner(&mut self, folder: &str) -> Result<(), Stop> {
        self.add_in(Kind::Mkdir, folder, "/d", "")?;
        self.add_in(Kind::Symlink, folder, "/d/l", "target")?;
        self.add_in(Kind::SyncDir, folder, "/d", "")
    }

    // A checkout that is removed, if it is there.
    fn add_removal(&mut self) -> Result<(), Stop> {
        let count = self.made.saturating_add(1);
        let folder = self.numbered("", "/c", count)?;
        self.add_removal_of(folder.as_str())?;
        self.add(Kind::SyncDir, "/", "")
    }

    fn add_removal_of(&mut self, folder: &str) -> Result<(), Stop> {
        for name in ["/d/l", "/a", "/b"] {
            self.add_in(Kind::Unlink, folder, name, "")?;
        }
        self.add_in(Kind::Rmdir, folder, "/d", "")?;
        self.add(Kind::Rmdir, folder, "")
    }

    // A call of any kind, a few times, most on the same few paths.
    fn add_any(&mut self) -> Result<(), Stop> {
        for _ in 0..3 + self.random.below(6) {
            self.add_any_call()?;
        }
        Ok(())
    }

    fn add_any_call(&mut self) -> Result<(), Stop> {
        let kind = self.any_kind();
        let at = self.any_path();
        let second = self.any_path();
        self.add(kind, at, second)
    }

    fn any_kind(&mut self) -> Kind {
        match self.random.below(13) {
            0 => Kind::Mkdir,
            1 => Kind::MkdirOwned,
            2 => Kind::Create,
            3 => Kind::CreateOwned,
            4 | 5 => Kind::Append,
            6 => Kind::Symlink,
            7 => Kind::Link,
            8 => Kind::Unlink,
            9 => Kind::Rmdir,
            10 => Kind::Rename,
            11 => Kind::SyncFile,
            _ => Kind::SyncDir,
        }
    }

    fn any_path(&mut self) -> &'static str {
        match self.random.below(9) {
            0 => "/x",
            1 => "/y",
            2 => "/x/a",
            3 => "/x/b",
            4 => "/y/a",
            5 => "/refs/r0",
            6 => "/objects/0/o0",
            7 => "/x/.ost-new",
            _ => "/z",
        }
    }
}
