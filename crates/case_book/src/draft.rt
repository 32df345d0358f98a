//! A book while it is read.
use crate::block::Block;
use crate::book::{
    Asked, Book, Call, Case, Disk, FailingCalls, Family, NamedText, Outcome, Plan, Printed,
    Removals, Schedules, Step, Ways,
};
use crate::check::{or_crash, read_check};
use crate::fault::LineFault;
use crate::fields::{names, number, numbers, path, ranges, status};
use crate::keyword::Keyword;
use crate::nodes::read_nodes;
use crate::second_name::read_second_names;
use ost_types::{Bytes, TryCopy, copy_all};
use std::alloc::Global;

/// What was read so far, and what was said of the call that comes next.
#[derive(Drop)]
pub(crate) struct Draft {
    alloc: Global,
    book: Book,
    plan: Plan,
    family: Family,
    // what was opened last is a disk, and no case
    is_disk: bool,
}

impl Draft {
    pub fn new(alloc: Global) -> Draft {
        Draft {
            alloc,
            book: Book {
                texts: Vec::new(alloc),
                disks: Vec::new(alloc),
                cases: Vec::new(alloc),
            },
            plan: no_plan(alloc),
            family: Family::Once,
            is_disk: false,
        }
    }

    pub fn into_book(self) -> Book {
        self.book
    }

    pub fn take(
        &mut self,
        keyword: Keyword,
        fields: &[&[u8]],
        block: &Block,
    ) -> Result<(), LineFault> {
        match keyword {
            Keyword::Text => self.take_text(fields, block),
            Keyword::Disk => self.take_disk(fields, block),
            Keyword::Case => self.take_case(fields),
            Keyword::On => self.take_on(fields),
            Keyword::Host => {
                self.last_case()?.is_host = true;
                Ok(())
            }
            Keyword::Add => self.take_add(block),
            Keyword::Remove => self.take_remove(fields),
            Keyword::Names => self.take_names(block),
            Keyword::Call => self.take_call(fields, block),
            Keyword::Or => self.take_or(fields, block),
            Keyword::Check(word) => {
                let check = read_check(self.alloc, word, fields, block)?;
                Ok(self.last_outcome()?.checks.push(check)?)
            }
            Keyword::OrCrash => {
                let printed = printed(fields, block)?;
                or_crash(self.last_outcome()?, printed)
            }
            _ => self.take_plan(keyword, fields),
        }
    }

    // What is said of the next call.
    fn take_plan(&mut self, keyword: Keyword, fields: &[&[u8]]) -> Result<(), LineFault> {
        match keyword {
            Keyword::SourceFails => {
                self.plan.source = numbers(self.alloc, fields)?;
                Ok(())
            }
            Keyword::Sink => self.take_sink(fields),
            Keyword::Objects => self.take_objects(fields),
            Keyword::EachCall => {
                self.family = Family::Calls(failing(self.alloc, fields)?);
                Ok(())
            }
            Keyword::EachLine => {
                self.family = Family::Lines(only_name(self.alloc, fields)?);
                Ok(())
            }
            Keyword::EachByte => self.take_each_byte(fields),
            Keyword::EachSchedule => {
                self.family = Family::Schedules(schedules(fields)?);
                Ok(())
            }
            Keyword::EachRemoval => {
                self.family = Family::Removals(removals(self.alloc, fields)?);
                Ok(())
            }
            _ => Err(LineFault::Bad),
        }
    }

    fn take_text(&mut self, fields: &[&[u8]], block: &Block) -> Result<(), LineFault> {
        let named = NamedText {
            name: only_name(self.alloc, fields)?,
            text: block.text.copy()?,
        };
        Ok(self.book.texts.push(named)?)
    }

    fn take_disk(&mut self, fields: &[&[u8]], block: &Block) -> Result<(), LineFault> {
        let mut disk = match fields {
            [name] => empty_disk(self.alloc, name)?,
            [name, b"of", base] => self.disk_of(name, base)?,
            _ => return Err(LineFault::Bad),
        };
        for node in read_nodes(self.alloc, block.text.as_slice())? {
            disk.nodes.push(node)?;
        }
        self.is_disk = true;
        Ok(self.book.disks.push(disk)?)
    }

    // With all that the base has.
    fn disk_of(&self, name: &[u8], base: &[u8]) -> Result<Disk, LineFault> {
        for disk in &self.book.disks {
            if disk.name.as_slice() == base {
                return Ok(Disk {
                    name: Bytes::from_slice(self.alloc, name)?,
                    nodes: copy_all(self.alloc, &disk.nodes)?,
                    names: copy_all(self.alloc, &disk.names)?,
                });
            }
        }
        Err(LineFault::Bad)
    }

    fn take_case(&mut self, fields: &[&[u8]]) -> Result<(), LineFault> {
        let case = Case {
            name: only_name(self.alloc, fields)?,
            disk: None,
            is_host: false,
            steps: Vec::new(self.alloc),
        };
        self.is_disk = false;
        Ok(self.book.cases.push(case)?)
    }

    fn take_on(&mut self, fields: &[&[u8]]) -> Result<(), LineFault> {
        let name = only_name(self.alloc, fields)?;
        self.last_case()?.disk = Some(name);
        Ok(())
    }

    fn take_add(&mut self, block: &Block) -> Result<(), LineFault> {
        let nodes = read_nodes(self.alloc, block.text.as_slice())?;
        Ok(self.last_case()?.steps.push(Step::Add(nodes))?)
    }

    fn take_remove(&mut self, fields: &[&[u8]]) -> Result<(), LineFault> {
        let [field] = fields else {
            return Err(LineFault::Bad);
        };
        let at = path(self.alloc, field)?;
        Ok(self.last_case()?.steps.push(Step::Remove(at))?)
    }

    // Of the disk or the case, whichever was opened last.
    fn take_names(&mut self, block: &Block) -> Result<(), LineFault> {
        let names = read_second_names(self.alloc, block.text.as_slice())?;
        if !self.is_disk {
            return Ok(self.last_case()?.steps.push(Step::Names(names))?);
        }
        let disk = self.last_disk()?;
        for name in names {
            disk.names.push(name)?;
        }
        Ok(())
    }

    fn take_sink(&mut self, fields: &[&[u8]]) -> Result<(), LineFault> {
        let [room, fails @ ..] = fields else {
            return Err(LineFault::Bad);
        };
        self.plan.room = Some(number(room)? as usize);
        self.plan.sink = numbers(self.alloc, fails)?;
        Ok(())
    }

    fn take_objects(&mut self, fields: &[&[u8]]) -> Result<(), LineFault> {
        let [count] = fields else {
            return Err(LineFault::Bad);
        };
        let count = u32::try_from(number(count)?).map_err(|_| LineFault::Bad)?;
        self.plan.objects = Some(count);
        Ok(())
    }

    fn take_each_byte(&mut self, fields: &[&[u8]]) -> Result<(), LineFault> {
        let map = match fields {
            [] => None,
            _ => Some(only_name(self.alloc, fields)?),
        };
        self.family = Family::Bytes(map);
        Ok(())
    }

    fn take_call(&mut self, fields: &[&[u8]], block: &Block) -> Result<(), LineFault> {
        let [_, words @ ..] = fields else {
            return Err(LineFault::Bad);
        };
        let first = Outcome {
            printed: printed(fields, block)?,
            checks: Vec::new(self.alloc),
        };
        let call = Call {
            line: block.line,
            asked: asked(self.alloc, words)?,
            plan: std::mem::replace(&mut self.plan, no_plan(self.alloc)),
            family: std::mem::replace(&mut self.family, Family::Once),
            outcomes: vec![in self.alloc; first]?,
        };
        Ok(self.last_case()?.steps.push(Step::Call(call))?)
    }

    fn take_or(&mut self, fields: &[&[u8]], block: &Block) -> Result<(), LineFault> {
        let outcome = Outcome {
            printed: printed(fields, block)?,
            checks: Vec::new(self.alloc),
        };
        Ok(self.last_call()?.outcomes.push(outcome)?)
    }

    fn last_disk(&mut self) -> Result<&mut Disk, LineFault> {
        self.book.disks.last_mut().ok_or(LineFault::Bad)
    }

    fn last_case(&mut self) -> Result<&mut Case, LineFault> {
        self.book.cases.last_mut().ok_or(LineFault::Bad)
    }

    fn last_call(&mut self) -> Result<&mut Call, LineFault> {
        match self.last_case()?.steps.last_mut() {
            Some(Step::Call(call)) => Ok(call),
            _ => Err(LineFault::Bad),
        }
    }

    fn last_outcome(&mut self) -> Result<&mut Outcome, LineFault> {
        self.last_call()?.outcomes.last_mut().ok_or(LineFault::Bad)
    }
}

fn no_plan(alloc: Global) -> Plan {
    Plan {
        source: Vec::new(alloc),
        sink: Vec::new(alloc),
        room: None,
        objects: None,
    }
}

fn empty_disk(alloc: Global, name: &[u8]) -> Result<Disk, LineFault> {
    Ok(Disk {
        name: Bytes::from_slice(alloc, name)?,
        nodes: Vec::new(alloc),
        names: Vec::new(alloc),
    })
}

fn only_name(alloc: Global, fields: &[&[u8]]) -> Result<Bytes, LineFault> {
    match fields {
        [name] => Ok(Bytes::from_slice(alloc, name)?),
        _ => Err(LineFault::Bad),
    }
}

fn failing(alloc: Global, fields: &[&[u8]]) -> Result<FailingCalls, LineFault> {
    let [way, fields @ ..] = fields else {
        return Err(LineFault::Bad);
    };
    Ok(FailingCalls {
        ways: ways(way)?,
        ranges: ranges(alloc, fields)?,
    })
}

fn removals(alloc: Global, fields: &[&[u8]]) -> Result<Removals, LineFault> {
    let [at, fields @ ..] = fields else {
        return Err(LineFault::Bad);
    };
    Ok(Removals {
        at: path(alloc, at)?,
        ranges: ranges(alloc, fields)?,
    })
}

fn ways(word: &[u8]) -> Result<Ways, LineFault> {
    match word {
        b"done" => Ok(Ways::Done),
        b"undone" => Ok(Ways::Undone),
        b"both" => Ok(Ways::Both),
        _ => Err(LineFault::Bad),
    }
}

fn schedules(fields: &[&[u8]]) -> Result<Schedules, LineFault> {
    match fields {
        [lanes, acts] => Ok(Schedules {
            lanes: status(lanes)?,
            acts: number(acts)?,
        }),
        _ => Err(LineFault::Bad),
    }
}

/// The words of a call. The last one may name its input, behind `<`.
pub(crate) fn asked(alloc: Global, fields: &[&[u8]]) -> Result<Asked, LineFault> {
    let mut words = Vec::new(alloc);
    let mut input = None;
    for field in fields {
        match field {
            [b'<', name @ ..] => input = Some(Bytes::from_slice(alloc, name)?),
            word => words.push(Bytes::from_slice(alloc, word)?)?,
        }
    }
    Ok(Asked { words, input })
}

/// What is printed with the status of the first field.
pub(crate) fn printed(fields: &[&[u8]], block: &Block) -> Result<Printed, LineFault> {
    match fields {
        [field, ..] => Ok(Printed {
            status: status(field)?,
            text: block.text.copy()?,
            is_front: block.is_front,
        }),
        [] => Err(LineFault::Bad),
    }
}
