//! A script run over the machine's file system and over the one in memory, and the power cut after each call of the machine.
use crate::call::Call;
use crate::moment::Moment;
use crate::names::NameValues;
use crate::random::Random;
use crate::script::Script;
use crate::stop::Stop;
use crate::tree::{Tree, read_tree};
use fs_host::HostFs;
use fs_memory::MemFs;
use fs_trait::{Fs, FsErr};
use host_files::InTurn;
use host_memory::{Disk, Drive, Loss, MemoryHost};
use std::alloc::Global;
use std::cell::RefCell;

// The file system on a disk in memory.
type DiskFs<'a> = HostFs<MemoryHost<'a>, InTurn<MemoryHost<'a>>>;

/// How much was tried.
#[derive(Clone, Copy, Debug, PartialEq, Eq)]
pub struct Counts {
    pub calls: u64,
    pub cuts: u64,
    /// How often a run went on with what another had left.
    pub starts: u64,
}

impl Counts {
    pub fn none() -> Counts {
        Counts {
            calls: 0,
            cuts: 0,
            starts: 0,
        }
    }

    pub fn add(&mut self, other: Counts) {
        self.calls = self.calls.saturating_add(other.calls);
        self.cuts = self.cuts.saturating_add(other.cuts);
        self.starts = self.starts.saturating_add(other.starts);
    }
}

/// A script that is being run.
#[derive(Drop)]
pub struct Run {
    alloc: Global,
    number: u64,
    random: Random,
    mem: MemFs,
    counts: Counts,
}

/// Runs the script of a number, and two more, each on what the one before left once it was ended, or killed, or its power cut.
pub fn run_script(alloc: Global, number: u64) -> Result<Counts, Stop> {
    let mut run = Run::new(alloc, number)?;
    let mut at = Moment::new(alloc, 0, NameValues::new(alloc));
    let mut disk = Disk::new(alloc)?;
    let mut made = 0;
    for part in 0..3u64 {
        let script = script_of(alloc, number, part, made)?;
        made = script.made();
        let (left, last) = run.run_part(disk, at, script.into_calls())?;
        let Some(next) = run.goes_on(&left, last)? else {
            return Ok(run.counts);
        };
        at = next;
        disk = left;
    }
    Ok(run.counts)
}

// The script of a part of a run.
fn script_of(alloc: Global, number: u64, part: u64, made: u64) -> Result<Script, Stop> {
    let mut script = Script::new(alloc, number.wrapping_mul(4).wrapping_add(part), made);
    if part == 0 {
        script.add_layout()?;
    }
    script.add_blocks()?;
    Ok(script)
}

fn start_on<'a>(alloc: Global, drive: &'a RefCell<Drive>) -> Result<DiskFs<'a>, Stop> {
    let syncer = InTurn::new(MemoryHost::new(alloc, drive));
    Ok(HostFs::new(MemoryHost::new(alloc, drive), syncer)?)
}

// All that a file system shows on a disk.
fn tree_on(alloc: Global, disk: Disk) -> Result<Tree, Stop> {
    let drive = RefCell::new(Drive::new(alloc, disk, false));
    let mut fs = start_on(alloc, &drive)?;
    read_tree(alloc, &mut fs)
}

// What stands on a disk after each call of the machine by which a file system starts there.
fn images_at_start(alloc: Global, disk: Disk) -> Result<Vec<Disk>, Stop> {
    let drive = RefCell::new(Drive::new(alloc, disk, true));
    let fs = start_on(alloc, &drive)?;
    let images = images_of(&drive, alloc);
    drop(fs);
    Ok(images)
}

fn images_of(drive: &RefCell<Drive>, alloc: Global) -> Vec<Disk> {
    match drive.try_borrow_mut() {
        Ok(mut drive) => drive.take_images(),
        Err(_) => Vec::new(alloc),
    }
}

fn stop_after(drive: &RefCell<Drive>, calls: u64) {
    if let Ok(mut drive) = drive.try_borrow_mut() {
        drive.stop_after(calls);
    }
}

fn is_stopped(drive: &RefCell<Drive>) -> bool {
    match drive.try_borrow() {
        Ok(drive) => drive.is_stopped(),
        Err(_) => true,
    }
}

fn disk_of(alloc: Global, drive: &RefCell<Drive>) -> Result<Disk, Stop> {
    match drive.try_borrow() {
        Ok(drive) => Ok(drive.disk().copy()?),
        Err(_) => Err(Stop::Wrong(String::from_str(alloc, "the disk is in use")?)),
    }
}

impl Run {
    fn new(alloc: Global, number: u64) -> Result<Run, Stop> {
        let mem = MemFs::new(alloc)?;
        Ok(Run {
            alloc,
            number,
            random: Random::new(!number),
            mem,
            counts: Counts::none(),
        })
    }

    // Makes the calls on what a run before left. Gives the disk then, of which nothing is lost or what wasn't synced, and what
    // the file system may show on it.
    fn run_part(
        &mut self,
        disk: Disk,
        at: Moment,
        calls: Vec<Call>,
    ) -> Result<(Disk, (Moment, Moment)), Stop> {
        let drive = RefCell::new(Drive::new(self.alloc, disk, true));
        let last = self.run_calls(&drive, at, calls)?;
        let disk = disk_of(self.alloc, &drive)?;
        Ok((self.left_of(disk)?, last))
    }

    // Makes the calls on a drive, unless it is stopped before. Gives what the file system may show then.
    fn run_calls(
        &mut self,
        drive: &RefCell<Drive>,
        at: Moment,
        calls: Vec<Call>,
    ) -> Result<(Moment, Moment), Stop> {
        let mut fs = start_on(self.alloc, drive)?;
        let (mut before, mut after) = self.begin(drive, at)?;
        for call in calls {
            if is_stopped(drive) {
                break;
            }
            (before, after) = self.step(&mut fs, drive, &call, after)?;
        }
        drop(fs);
        self.check(&images_of(drive, self.alloc), &mut before, &mut after)?;
        Ok((before, after))
    }

    // What may be shown before the first call. By chance the drive stops at some call of the machine.
    fn begin(&mut self, drive: &RefCell<Drive>, at: Moment) -> Result<(Moment, Moment), Stop> {
        let mut before = Moment::new(self.alloc, 0, at.names().copy()?);
        let mut after = at;
        let begun = disk_of(self.alloc, drive)?;
        self.check(&[begun], &mut before, &mut after)?;
        drop(images_of(drive, self.alloc));
        if self.random.below(2) == 0 {
            stop_after(drive, 1 + self.random.below(90));
        }
        Ok((before, after))
    }

    // By chance what wasn't synced is lost.
    fn left_of(&mut self, disk: Disk) -> Result<Disk, Stop> {
        match self.random.below(3) {
            0 => Ok(disk.after_loss(Loss::Some(self.random.number()))?),
            _ => Ok(disk),
        }
    }

    // Makes one call on both file systems, and cuts the power after each call of the machine that it made.
    fn step<'a>(
        &mut self,
        fs: &mut DiskFs<'a>,
        drive: &'a RefCell<Drive>,
        call: &Call,
        at: Moment,
    ) -> Result<(Moment, Moment), Stop> {
        let mut names = at.names().copy()?;
        if call.is_made(self.alloc, &mut self.mem)? && call.is_made(self.alloc, fs)? {
            self.make(fs, drive, call, &mut names)?;
        }
        let mut before = at;
        let mut after = Moment::new(self.alloc, self.mem.clock(), names);
        self.check(&images_of(drive, self.alloc), &mut before, &mut after)?;
        Ok((before, after))
    }

    fn make<'a>(
        &mut self,
        fs: &mut DiskFs<'a>,
        drive: &'a RefCell<Drive>,
        call: &Call,
        names: &mut NameValues,
    ) -> Result<(), Stop> {
        let wanted = call.perform(self.alloc, &mut self.mem)?;
        let found = call.perform(self.alloc, fs)?;
        if !is_stopped(drive) {
            self.check_answer(call, wanted, found)?;
        }
        if wanted.is_ok() {
            names.note(call, &mut self.mem)?;
        }
        self.counts.calls = self.counts.calls.saturating_add(1);
        Ok(())
    }

    fn check_answer(
        &self,
        call: &Call,
        wanted: Result<(), FsErr>,
        found: Result<(), FsErr>,
    ) -> Result<(), Stop> {
        if wanted == found {
            return Ok(());
        }
        let text = format!(in self.alloc;
            "script {}: {:?} {} {} answers {:?} and not {:?}",
            self.number,
            call.kind,
            call.at.as_str(),
            call.second.as_str(),
            found,
            wanted
        )?;
        Err(Stop::Wrong(text))
    }

    // Whether what each loss of power leaves is an image of one of the two moments.
    fn check(
        &mut self,
        images: &[Disk],
        before: &mut Moment,
        after: &mut Moment,
    ) -> Result<(), Stop> {
        for image in images {
            for loss in self.losses() {
                self.check_loss(image, loss, before, after)?;
            }
        }
        Ok(())
    }

    fn check_loss(
        &mut self,
        image: &Disk,
        loss: Loss,
        before: &mut Moment,
        after: &mut Moment,
    ) -> Result<(), Stop> {
        let tree = tree_on(self.alloc, image.after_loss(loss)?)?;
        self.counts.cuts = self.counts.cuts.saturating_add(1);
        if after.may_leave(&self.mem, &tree)? || before.may_leave(&self.mem, &tree)? {
            return Ok(());
        }
        Err(self.lost(loss)?)
    }

    fn losses(&mut self) -> [Loss; 3] {
        let (one, two) = (self.random.number(), self.random.number());
        let third = if two % 4 == 0 {
            Loss::Nothing
        } else {
            Loss::Some(two)
        };
        [Loss::All, Loss::Some(one), third]
    }

    fn lost(&self, loss: Loss) -> Result<Stop, Stop> {
        let text = format!(in self.alloc;
            "script {}: after {} calls a loss of {:?} leaves no image",
            self.number,
            self.mem.clock(),
            loss
        )?;
        Ok(Stop::Wrong(text))
    }

    // What the next run begins with: the image that the disk shows. None where it shows a file with bytes that weren't synced.
    fn goes_on(&mut self, disk: &Disk, last: (Moment, Moment)) -> Result<Option<Moment>, Stop> {
        let (mut before, mut after) = last;
        let images = images_at_start(self.alloc, disk.copy()?)?;
        self.check(&images, &mut before, &mut after)?;
        let tree = tree_on(self.alloc, disk.copy()?)?;
        self.counts.starts = self.counts.starts.saturating_add(1);
        match self.begun_with(&after, &tree)? {
            Some(next) => Ok(Some(next)),
            None => self.begun_with(&before, &tree),
        }
    }

    // Begins with the image of this moment that is this tree, if there is one.
    fn begun_with(&mut self, moment: &Moment, tree: &Tree) -> Result<Option<Moment>, Stop> {
        let Some(mem) = moment.image_of(&self.mem, tree)? else {
            return Ok(None);
        };
        let names = moment.names().left(tree)?;
        drop(std::mem::replace(&mut self.mem, mem));
        Ok(Some(Moment::new(self.alloc, 0, names)))
    }
}
