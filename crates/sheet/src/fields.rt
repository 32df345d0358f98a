use crate::bytes::bytes_of;
use crate::stop::Stop;
use std::alloc::Global;

/// The fields of a call, one after the other, with spaces between them.
#[derive(Drop)]
pub struct Fields<'a> {
    alloc: Global,
    rest: Option<&'a str>,
}

impl<'a> Fields<'a> {
    pub fn new(alloc: Global, rest: Option<&'a str>) -> Fields<'a> {
        Fields { alloc, rest }
    }

    pub fn alloc(&self) -> Global {
        self.alloc
    }

    pub fn has_more(&self) -> bool {
        self.rest.is_some()
    }

    /// The next field as it stands.
    pub fn text(&mut self) -> Result<&'a str, Stop> {
        let rest = self.rest.ok_or(Stop::Unknown)?;
        let (first, more) = match rest.split_once(' ') {
            Some((first, more)) => (first, Some(more)),
            None => (rest, None),
        };
        self.rest = more;
        Ok(first)
    }

    /// The bytes that the next field stands for.
    pub fn bytes(&mut self) -> Result<Vec<u8>, Stop> {
        bytes_of(self.alloc, self.text()?)
    }

    pub fn number(&mut self) -> Result<u64, Stop> {
        self.text()?.parse::<u64>().map_err(|_| Stop::Unknown)
    }

    pub fn small(&mut self) -> Result<u32, Stop> {
        self.text()?.parse::<u32>().map_err(|_| Stop::Unknown)
    }

    /// All fields that are left, as they stand.
    pub fn others(&mut self) -> Option<&'a str> {
        let rest = self.rest;
        self.rest = None;
        rest
    }
}
