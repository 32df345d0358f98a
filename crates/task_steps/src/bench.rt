//! A disk that work is stepped on.
use crate::report::Report;
use crate::stop::Stop;
use crate::work::Work;
use counted_files::{Counted, Most, Tally};
use disk_fixtures::{file_meta, folder_meta};
use fs_trait::{Fs, FsErr};
use ost_types::FsPath;
use std::alloc::Global;

/// More steps than any work here takes.
const STEPS: u32 = 100_000;

/// A disk, and what was counted on it.
#[derive(Drop)]
pub struct Bench<'a, F: Fs> {
    pub alloc: Global,
    pub fs: Counted<'a, F>,
    tally: &'a Tally,
    report: Report,
}

impl<'a, F: Fs> Bench<'a, F> {
    pub fn new(alloc: Global, fs: F, tally: &'a Tally) -> Bench<'a, F> {
        Bench {
            alloc,
            fs: Counted::new(fs, tally),
            tally,
            report: Report::new(alloc),
        }
    }

    /// The report, in which a stop is wrong.
    pub fn ended(self, ended: Result<(), Stop>) -> Result<Report, Stop> {
        let mut report = self.report;
        if let Err(stop) = ended {
            report.add_stop("the tasks", stop)?;
        }
        Ok(report)
    }

    /// Does all the work, and adds the most calls of a step of it to the report.
    pub fn measure<W: Work>(&mut self, name: &str, work: &mut W) -> Result<(), Stop> {
        let most = self.most_of(work)?;
        self.report.add(name, most)
    }

    fn most_of<W: Work>(&mut self, work: &mut W) -> Result<Most, Stop> {
        let _before = self.tally.take();
        let mut most = Most::none();
        for _ in 0..STEPS {
            let is_over = work.advance(&mut self.fs)?;
            most = most.with(self.tally.take());
            if is_over {
                return Ok(most);
            }
        }
        Err(Stop::Endless)
    }

    /// The path that a text is.
    pub fn path(&self, text: &[u8]) -> Result<FsPath, Stop> {
        FsPath::parse(self.alloc, text).map_err(|_| Stop::Unmade)
    }

    /// Makes a folder. One that is there already stays.
    pub fn make_folder(&mut self, at: &[u8]) -> Result<(), Stop> {
        let at = self.path(at)?;
        match self.fs.mkdir(&at, &folder_meta(self.alloc, 0)) {
            Ok(()) | Err(FsErr::Exists) => Ok(()),
            Err(fault) => Err(Stop::Disk(fault)),
        }
    }

    /// Makes a regular file of one byte.
    pub fn make_file(&mut self, at: &[u8]) -> Result<(), Stop> {
        let at = self.path(at)?;
        self.fs.create(&at, &file_meta(self.alloc))?;
        Ok(self.fs.append(&at, b"d")?)
    }
}
