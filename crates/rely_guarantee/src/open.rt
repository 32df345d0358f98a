ghost use Rattle.std.specs.Prelude.{◌≡◌, ◌≤◌, Some, None, []};
ghost use Rattle.fs_trait.specs.View.{View};
ghost use Rattle.rely_guarantee.specs.State.{first};
ghost use Rattle.rely_guarantee.specs.SystemInvariant.{SystemInvariant};
ghost use Rattle.rely_guarantee.specs.Opening.{IsOpening, HasSince};
ghost use Rattle.fs_trait.specs.Change.{Left};

use crate::{Base, Books, Start};
use fs_trait::Fs;
use std::alloc::Global;

impl Books {
    /// The books at the opening: nobody holds anything, and nothing has changed.
    fn new(alloc: Global, opened: u64, start: Start) -> Books
        ensures fresh { result ≡ record { shared = result.shared; exclusive = None; turn = None; sysroot = None; holds = result.holds; wants = result.wants; pins = result.pins; gone = 0; claims = result.claims; uses = result.uses; history = result.history; pending = None; replies = 0; owed = 0; halted = None; opened = opened; start = start } }
        ensures history { result.history.items ≡ [] }
        ensures shared { result.shared.items ≡ [] }
        ensures pins { result.pins.items ≡ [] }
        ensures claims { result.claims.items ≡ [] }
    {
        Books {
            shared: Vec::new(alloc),
            exclusive: None,
            turn: None,
            sysroot: None,
            holds: Vec::new(alloc),
            wants: Vec::new(alloc),
            pins: Vec::new(alloc),
            gone: 0,
            claims: Vec::new(alloc),
            uses: Vec::new(alloc),
            history: Vec::new(alloc),
            pending: None,
            replies: 0,
            owed: 0,
            halted: None,
            opened,
            start,
        }
    }
}

impl<F: Fs> Base<F> {
    /// The file system at the opening, on which everything is synced, with these refs. `opened` is a moment since which each
    /// crash left a sane disk with them.
    pub fn new(alloc: Global, fs: F, opened: u64, start: Start) -> Base<F>
        requires opening { (v : View) → F.view fs ≡ Some v → IsOpening (first start.refs.items) v }
        requires since { (v : View) → F.view fs ≡ Some v → HasSince (Left (F.was fs)) opened (first start.refs.items) }
        requires past { opened ≤ F.clock fs }
        ensures fs { result.fs ≡ fs }
        ensures start { result.books.start ≡ start }
        ensures history { result.books.history.items ≡ [] }
        ensures pending { result.books.pending ≡ None }
        ensures live { result.books.halted ≡ None }
        ensures pins { result.books.pins.items ≡ [] }
        ensures claims { result.books.claims.items ≡ [] }
        ensures free { (result.books.turn ≡ None) × (result.books.exclusive ≡ None) × (result.books.shared.items ≡ []) × (result.books.sysroot ≡ None) }
        ensures opened { result.books.opened ≡ opened }
        ensures sound { SystemInvariant F.view F.clock F.spare F.was result }
    {
        Base {
            fs,
            books: Books::new(alloc, opened, start),
        }
    }
}
