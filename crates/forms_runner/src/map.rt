//! A map of paths.
use crate::known::known;
use crate::types::path;
use ost_types::{Csum, Meta, NodeName, PathMap, TryCopy, Xattrs, is_folder_mode};
use sheet::{Fields, Stop, number, text, yes_or_no};
use std::alloc::Global;

#[derive(Drop)]
pub struct MapBench {
    map: PathMap,
}

impl MapBench {
    pub fn new(alloc: Global) -> MapBench {
        MapBench {
            map: PathMap::new(alloc),
        }
    }

    pub fn answer(&mut self, name: &str, fields: &mut Fields) -> Result<Vec<u8>, Stop> {
        match name {
            "new_map" => self.set(PathMap::new(fields.alloc()), fields),
            "copy_map" => {
                let copy = self.copied()?;
                self.set(copy, fields)
            }
            "put_leaf" => self.put_leaf(fields),
            "put_folder" => self.put_folder(fields),
            "count" => number(fields.alloc(), self.map.len() as u64),
            "entries" => number(fields.alloc(), self.map.as_slice().len() as u64),
            "at" => self.at(fields),
            _ => Err(Stop::Unknown),
        }
    }

    fn set(&mut self, map: PathMap, fields: &Fields) -> Result<Vec<u8>, Stop> {
        drop(std::mem::replace(&mut self.map, map));
        text(fields.alloc(), "ok")
    }

    fn copied(&self) -> Result<PathMap, Stop> {
        Ok(self.map.copy()?)
    }

    // A path, and the byte that the sum has 32 times. Tells whether it fits.
    fn put_leaf(&mut self, fields: &mut Fields) -> Result<Vec<u8>, Stop> {
        let path = path(fields)?;
        let byte = known(u8::try_from(fields.small()?))?;
        if !self.map.fits(&path) {
            return yes_or_no(fields.alloc(), false);
        }
        self.map
            .push(path, NodeName::Leaf(Csum::from_bytes([byte; 32])))?;
        yes_or_no(fields.alloc(), true)
    }

    // A path and a group.
    fn put_folder(&mut self, fields: &mut Fields) -> Result<Vec<u8>, Stop> {
        let (path, gid, mode) = (path(fields)?, fields.small()?, 0o040755);
        let meta = Meta {
            uid: 0,
            gid,
            mode,
            xattrs: Xattrs::new(fields.alloc()),
        };
        if !is_folder_mode(mode) || !self.map.fits(&path) {
            return yes_or_no(fields.alloc(), false);
        }
        self.map.push(path.copy()?, NodeName::Folder(meta.copy()?))?;
        yes_or_no(fields.alloc(), true)
    }

    // A leaf by the first byte of its sum, a folder by its group.
    fn at(&self, fields: &mut Fields) -> Result<Vec<u8>, Stop> {
        let path = path(fields)?;
        match self.map.get(&path) {
            Some(NodeName::Leaf(csum)) => number(fields.alloc(), csum.bytes()[0] as u64),
            Some(NodeName::Folder(meta)) => {
                let told = format!(in fields.alloc(); "folder {}", meta.gid)?;
                text(fields.alloc(), told.as_str())
            }
            None => text(fields.alloc(), "none"),
        }
    }
}
