//! Calls of `repo_layout`.
use crate::known::known;
use crate::types::{object_name, sum, told_path};
use ost_types::{FsPath, NoMemory, TryCopy};
use repo_layout::{
    Folder, OsName, RefName, config_path, deploy_path, folder_path, mark_path, object_path,
    objects_folder_path, read_ref, ref_path, ref_text, stage_path,
};
use sheet::{Bench, Fields, Stop, text, yes_or_no};
use std::alloc::Global;

#[derive(Drop)]
pub struct LayoutBench;

impl Bench for LayoutBench {
    fn answer(&mut self, name: &str, fields: Fields) -> Result<Vec<u8>, Stop> {
        let mut fields = fields;
        match name {
            "ref" => ref_read(&mut fields),
            "stateroot" => os_read(&mut fields),
            "ref_before" => {
                let (one, other) = (ref_name(&mut fields)?, ref_name(&mut fields)?);
                yes_or_no(fields.alloc(), one < other)
            }
            "stateroot_before" => {
                let (one, other) = (os_name(&mut fields)?, os_name(&mut fields)?);
                yes_or_no(fields.alloc(), one < other)
            }
            "ref_file" => Ok(Vec::from_slice(fields.alloc(), &ref_text(&sum(&mut fields)?))?),
            "commit_of_ref_file" => ref_file_read(&mut fields),
            _ => told_path(&place(name, &mut fields)??),
        }
    }
}

fn ref_name(fields: &mut Fields) -> Result<RefName, Stop> {
    let bytes = fields.bytes()?;
    RefName::parse(fields.alloc(), &bytes)?.ok_or(Stop::Unknown)
}

fn os_name(fields: &mut Fields) -> Result<OsName, Stop> {
    let bytes = fields.bytes()?;
    OsName::parse(fields.alloc(), &bytes)?.ok_or(Stop::Unknown)
}

fn ref_read(fields: &mut Fields) -> Result<Vec<u8>, Stop> {
    let bytes = fields.bytes()?;
    let name = RefName::parse(fields.alloc(), &bytes)?;
    let word = match &name {
        Some(name) if name.copy()? == *name && name.as_slice() == bytes.as_slice() => "yes",
        Some(_) => "another name",
        None => "no",
    };
    text(fields.alloc(), word)
}

fn os_read(fields: &mut Fields) -> Result<Vec<u8>, Stop> {
    let bytes = fields.bytes()?;
    let name = OsName::parse(fields.alloc(), &bytes)?;
    let word = match &name {
        Some(name) if name.copy()? == *name && name.as_slice() == bytes.as_slice() => "yes",
        Some(_) => "another name",
        None => "no",
    };
    text(fields.alloc(), word)
}

fn ref_file_read(fields: &mut Fields) -> Result<Vec<u8>, Stop> {
    match read_ref(&fields.bytes()?) {
        Some(commit) => Ok(Vec::from_slice(fields.alloc(), commit.to_hex().as_slice())?),
        None => text(fields.alloc(), "none"),
    }
}

fn place(name: &str, fields: &mut Fields) -> Result<Result<FsPath, NoMemory>, Stop> {
    let alloc = fields.alloc();
    Ok(match name {
        "folder" => folder_path(alloc, folder(fields.text()?)?),
        "object" => object_path(alloc, &object_name(fields)?),
        "objects" => objects_folder_path(alloc, &sum(fields)?),
        "mark" => mark_path(alloc, &sum(fields)?),
        "config" => config_path(alloc),
        "ref_place" => ref_path(alloc, &ref_name(fields)?),
        "deployment" => {
            let (os, csum, serial) = (os_name(fields)?, sum(fields)?, fields.small()?);
            deploy_path(alloc, &os, &csum, serial)
        }
        "stage" => stage(alloc, fields.small()?)?,
        _ => return Err(Stop::Unknown),
    })
}

fn stage(alloc: Global, actor: u32) -> Result<Result<FsPath, NoMemory>, Stop> {
    let actor = known(u8::try_from(actor))?;
    if actor >= 16 {
        return Err(Stop::Unknown);
    }
    Ok(stage_path(alloc, actor))
}

fn folder(name: &str) -> Result<Folder, Stop> {
    Ok(match name {
        "ostree" => Folder::Ostree,
        "repo" => Folder::Repo,
        "objects" => Folder::Objects,
        "refs" => Folder::Refs,
        "heads" => Folder::Heads,
        "state" => Folder::State,
        "tmp" => Folder::Tmp,
        "deploy" => Folder::Deploy,
        "boot" => Folder::Boot,
        "kernels" => Folder::Kernels,
        "checkouts" => Folder::Checkouts,
        _ => return Err(Stop::Unknown),
    })
}
