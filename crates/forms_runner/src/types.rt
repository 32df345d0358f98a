//! Calls of `ost_types`.
use crate::known::known;
use crate::map::MapBench;
use crate::texts::{bytes_made, name_read, names_made, text_read};
use ost_types::{
    Csum, FsPath, Kind, Limits, Name, ObjName, PathFault, TryCopy, is_file_mode, is_folder_mode,
    is_link_mode,
};
use sheet::{Bench, Fields, Stop, number, text, yes_or_no};
use std::alloc::Global;

/// The types, and a map of paths that is made call by call.
#[derive(Drop)]
pub struct TypeBench {
    map: MapBench,
}

impl TypeBench {
    pub fn new(alloc: Global) -> TypeBench {
        TypeBench {
            map: MapBench::new(alloc),
        }
    }
}

impl Bench for TypeBench {
    fn answer(&mut self, name: &str, fields: Fields) -> Result<Vec<u8>, Stop> {
        let mut fields = fields;
        match name {
            "path" | "child" | "join" | "path_before" => of_paths(name, &mut fields),
            "sum" | "raw_sum" | "object_before" => of_sums(name, &mut fields),
            "bytes" => bytes_made(&mut fields),
            "text" => text_read(&mut fields),
            "name" => name_read(&mut fields),
            "names" => names_made(&mut fields),
            "mode" => mode_kind(&mut fields),
            "limit_of_objects" => number(fields.alloc(), Limits::standard().objects as u64),
            _ => self.map.answer(name, &mut fields),
        }
    }
}

/// The path of the next field.
pub fn path(fields: &mut Fields) -> Result<FsPath, Stop> {
    let text = fields.bytes()?;
    known(FsPath::parse(fields.alloc(), &text))
}

/// The sum of the next field, which has its digits.
pub fn sum(fields: &mut Fields) -> Result<Csum, Stop> {
    Csum::from_hex(&fields.bytes()?).ok_or(Stop::Unknown)
}

/// The kind and the sum of the next fields.
pub fn object_name(fields: &mut Fields) -> Result<ObjName, Stop> {
    let kind = kind(fields.text()?)?;
    let csum = sum(fields)?;
    Ok(ObjName { csum, kind })
}

pub fn kind(word: &str) -> Result<Kind, Stop> {
    match word {
        "commit" => Ok(Kind::Commit),
        "dirtree" => Ok(Kind::DirTree),
        "dirmeta" => Ok(Kind::DirMeta),
        "file" => Ok(Kind::File),
        _ => Err(Stop::Unknown),
    }
}

pub fn told_path(path: &FsPath) -> Result<Vec<u8>, Stop> {
    Ok(path.text()?.into_vec())
}

fn of_paths(name: &str, fields: &mut Fields) -> Result<Vec<u8>, Stop> {
    match name {
        "path" => path_read(fields),
        "child" => child(fields),
        "join" => joined(fields),
        _ => {
            let (one, other) = (path(fields)?, path(fields)?);
            yes_or_no(fields.alloc(), one.copy()? < other)
        }
    }
}

fn path_read(fields: &mut Fields) -> Result<Vec<u8>, Stop> {
    let text_of_path = fields.bytes()?;
    match FsPath::parse(fields.alloc(), &text_of_path) {
        Ok(path) => told_path(&path),
        Err(fault) => text(fields.alloc(), path_fault(fault)),
    }
}

fn path_fault(fault: PathFault) -> &'static str {
    match fault {
        PathFault::Empty => "empty",
        PathFault::BadName => "bad_name",
        PathFault::TooLong => "too_long",
        PathFault::TooDeep => "too_deep",
        PathFault::NoMemory => "no_memory",
    }
}

fn child(fields: &mut Fields) -> Result<Vec<u8>, Stop> {
    let folder = path(fields)?;
    let name = fields.bytes()?;
    let name = Name::parse(fields.alloc(), &name)?.ok_or(Stop::Unknown)?;
    if !folder.can_hold(&name) {
        return text(fields.alloc(), "no room");
    }
    told_path(&folder.child(&name)?)
}

fn joined(fields: &mut Fields) -> Result<Vec<u8>, Stop> {
    let (folder, rest) = (path(fields)?, path(fields)?);
    if !folder.can_join(&rest) {
        return text(fields.alloc(), "no room");
    }
    told_path(&folder.join(&rest)?)
}

fn of_sums(name: &str, fields: &mut Fields) -> Result<Vec<u8>, Stop> {
    if name == "object_before" {
        let (one, other) = (object_name(fields)?, object_name(fields)?);
        return yes_or_no(fields.alloc(), one < other);
    }
    match Csum::from_hex(&fields.bytes()?) {
        Some(sum) if name == "sum" => {
            Ok(Vec::from_slice(fields.alloc(), sum.to_hex().as_slice())?)
        }
        Some(sum) => Ok(Vec::from_slice(fields.alloc(), sum.as_slice())?),
        None => text(fields.alloc(), "none"),
    }
}

// Of which type a mode in octal digits is.
fn mode_kind(fields: &mut Fields) -> Result<Vec<u8>, Stop> {
    let mode = known(u32::from_str_radix(fields.text()?, 8))?;
    text(
        fields.alloc(),
        match (is_folder_mode(mode), is_file_mode(mode), is_link_mode(mode)) {
            (true, false, false) => "folder",
            (false, true, false) => "file",
            (false, false, true) => "link",
            (false, false, false) => "none",
            _ => "more than one",
        },
    )
}
