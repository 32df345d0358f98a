//! Sheets over the machine's file system.
use crate::call::call;
use crate::machine::{Watch, Watched};
use crate::meta::{Owner, path};
use crate::on_host::on_host;
use crate::over::OverMachine;
use crate::word::word;
use host_files::Machine;
use sheet::{Bench, Fields, Stop, number, text};
use std::alloc::Global;
use std::io::ErrorKind;

/// The machine, and up to two file systems over its folder.
#[derive(Drop)]
pub struct HostBench<'a, R: Machine, F: OverMachine<Watched<'a, R>>> {
    rt: R,
    watch: &'a Watch,
    owner: Owner,
    first: Option<F>,
    second: Option<F>,
}

impl<'a, R: Machine, F: OverMachine<Watched<'a, R>>> HostBench<'a, R, F> {
    pub fn new(rt: R, watch: &'a Watch, owner: Owner) -> HostBench<'a, R, F> {
        HostBench {
            rt,
            watch,
            owner,
            first: None,
            second: None,
        }
    }

    fn opened(&self) -> Result<F, Stop> {
        let host = Watched {
            rt: self.rt.clone()?,
            watch: self.watch,
        };
        Ok(F::over(host)?)
    }

    // The one before ends first.
    fn open(&mut self) -> Result<(), Stop> {
        drop(self.first.take());
        self.watch.opens.set(0);
        let fs = self.opened()?;
        self.watch.looks.set(0);
        drop(self.first.replace(fs));
        Ok(())
    }

    fn open_second(&mut self) -> Result<(), Stop> {
        drop(self.second.take());
        let fs = self.opened()?;
        drop(self.second.replace(fs));
        Ok(())
    }

    fn close(&mut self) -> Result<(), Stop> {
        drop(self.first.take());
        drop(self.second.take());
        Ok(())
    }

    // Whether a sync fails.
    fn set_loses(&self, fields: &mut Fields) -> Result<(), Stop> {
        let what = fields.text()?;
        self.watch.loses.set(what == "syncs");
        Ok(())
    }

    // The error of each link.
    fn set_links(&self, fields: &mut Fields) -> Result<(), Stop> {
        let error = link_error(fields.text()?)?;
        self.watch.link.set(error);
        Ok(())
    }

    // The call that stands behind it, on the second file system.
    fn answer_second(&mut self, fields: &mut Fields) -> Result<Vec<u8>, Stop> {
        let name = fields.text()?;
        answer_of(self.second.as_mut(), self.owner, name, fields)
    }

    // What opens and closes, and what the machine is to answer; else a call of the first file system.
    fn set_or_answer(&mut self, name: &str, fields: &mut Fields) -> Result<Vec<u8>, Stop> {
        match name {
            "open" | "new" => done(fields.alloc(), self.open()),
            "open_second" => done(fields.alloc(), self.open_second()),
            "close" => done(fields.alloc(), self.close()),
            "loses" => done(fields.alloc(), self.set_loses(fields)),
            "links" => done(fields.alloc(), self.set_links(fields)),
            _ => answer_of(self.first.as_mut(), self.owner, name, fields),
        }
    }
}

impl<'a, R: Machine, F: OverMachine<Watched<'a, R>>> Bench for HostBench<'a, R, F> {
    fn answer(&mut self, name: &str, fields: Fields) -> Result<Vec<u8>, Stop> {
        let mut fields = fields;
        match name {
            "opens" => number(fields.alloc(), self.watch.opens.get() as u64),
            "looks" => number(fields.alloc(), self.watch.looks.replace(0) as u64),
            "second" => self.answer_second(&mut fields),
            _ if name.starts_with("host_") => on_host(&self.rt, name, &mut fields),
            _ => self.set_or_answer(name, &mut fields),
        }
    }
}

fn done(alloc: Global, answer: Result<(), Stop>) -> Result<Vec<u8>, Stop> {
    answer?;
    text(alloc, "ok")
}

fn answer_of<R, F: OverMachine<R>>(
    fs: Option<&mut F>,
    owner: Owner,
    name: &str,
    fields: &mut Fields,
) -> Result<Vec<u8>, Stop> {
    let fs = fs.ok_or(Stop::Unknown)?;
    if name == "rename" {
        return rename_any(fs, fields);
    }
    call(fs, owner, name, fields)
}

fn rename_any<R, F: OverMachine<R>>(fs: &mut F, fields: &mut Fields) -> Result<Vec<u8>, Stop> {
    let from = path(fields)?;
    let to = path(fields)?;
    let answer = fs.rename_any(&from, &to);
    text(fields.alloc(), word(answer))
}

// `work` where they don't fail.
fn link_error(name: &str) -> Result<Option<ErrorKind>, Stop> {
    match name {
        "work" => Ok(None),
        "crosses_devices" => Ok(Some(ErrorKind::CrossesDevices)),
        "too_many_links" => Ok(Some(ErrorKind::TooManyLinks)),
        "permission_denied" => Ok(Some(ErrorKind::PermissionDenied)),
        "unsupported" => Ok(Some(ErrorKind::Unsupported)),
        "storage_full" => Ok(Some(ErrorKind::StorageFull)),
        "read_only_filesystem" => Ok(Some(ErrorKind::ReadOnlyFilesystem)),
        "not_found" => Ok(Some(ErrorKind::NotFound)),
        "other" => Ok(Some(ErrorKind::Other)),
        _ => Err(Stop::Unknown),
    }
}
