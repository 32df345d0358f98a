//! Calls of `deploy_list`.
use crate::members::{commit_of, id_of, os_of};
use boot_model::DepId;
use deploy_list::{BootSum, Dep, KernelFault, bootcsum, kept_behind, kver_of, serial_for};
use ost_types::{Csum, FsPath, Meta, NodeName, PathMap, Texts, Xattrs, is_folder_mode};
use sheet::{Bench, Fields, Stop, bytes_of, number, text};
use std::alloc::Global;

#[derive(Drop)]
pub struct DeploymentBench;

impl Bench for DeploymentBench {
    fn answer(&mut self, name: &str, fields: Fields) -> Result<Vec<u8>, Stop> {
        let mut fields = fields;
        match name {
            "kernel" => kernel(&mut fields),
            "sum" => summed(&mut fields, None),
            "sum_of_ones" => summed(&mut fields, Some(1)),
            "sum_of_threes" => summed(&mut fields, Some(3)),
            "serial" => serial(&mut fields),
            "kept" => kept(&mut fields),
            _ => Err(Stop::Unknown),
        }
    }
}

// ---- the kernel of a tree

// The paths of the tree; one that ends with `/` is a folder.
fn kernel(fields: &mut Fields) -> Result<Vec<u8>, Stop> {
    let tree = tree_of(fields.alloc(), fields.others().unwrap_or(""))?;
    match kver_of(&tree)? {
        Ok(kver) => Ok(Vec::from_slice(fields.alloc(), kver.as_slice())?),
        Err(fault) => text(fields.alloc(), fault_word(&fault)),
    }
}

fn fault_word(fault: &KernelFault) -> &'static str {
    match fault {
        KernelFault::EtcInTree => "etc_in_tree",
        KernelFault::NoDefaults => "no_defaults",
        KernelFault::NoKernel => "no_kernel",
        KernelFault::TwoKernels => "two_kernels",
    }
}

fn tree_of(alloc: Global, paths: &str) -> Result<PathMap, Stop> {
    let mut tree = PathMap::new(alloc);
    for word in paths.split(' ') {
        add_node(alloc, &mut tree, word)?;
    }
    Ok(tree)
}

fn add_node(alloc: Global, tree: &mut PathMap, word: &str) -> Result<(), Stop> {
    match word.strip_suffix('/') {
        Some(folder) => add_folder(alloc, tree, path(alloc, folder)?),
        None => add_leaf(tree, path(alloc, word)?),
    }
}

fn path(alloc: Global, text: &str) -> Result<FsPath, Stop> {
    FsPath::parse(alloc, &bytes_of(alloc, text)?).map_err(|_| Stop::Unknown)
}

fn add_folder(alloc: Global, tree: &mut PathMap, path: FsPath) -> Result<(), Stop> {
    let mode = 0o040755;
    if !is_folder_mode(mode) || !tree.fits(&path) {
        return Err(Stop::Unknown);
    }
    let folder = NodeName::Folder(Meta {
        uid: 0,
        gid: 0,
        mode,
        xattrs: Xattrs::new(alloc),
    });
    tree.push(path, folder)?;
    Ok(())
}

fn add_leaf(tree: &mut PathMap, path: FsPath) -> Result<(), Stop> {
    if !tree.fits(&path) {
        return Err(Stop::Unknown);
    }
    tree.push(path, NodeName::Leaf(Csum::from_bytes([0; 32])))?;
    Ok(())
}

// ---- sums of kernels

// Of the kernel and the initramfs, whole or in pieces of this size.
fn summed(fields: &mut Fields, size: Option<usize>) -> Result<Vec<u8>, Stop> {
    let kernel = fields.bytes()?;
    let initramfs = fields.bytes()?;
    let sum = sum_of(&kernel, &initramfs, size);
    Ok(Vec::from_slice(fields.alloc(), sum.to_hex().as_slice())?)
}

fn sum_of(kernel: &[u8], initramfs: &[u8], size: Option<usize>) -> Csum {
    match size {
        None => bootcsum(kernel, initramfs),
        Some(1) => of_ones(kernel, initramfs),
        Some(_) => of_threes(kernel, initramfs),
    }
}

fn of_ones(kernel: &[u8], initramfs: &[u8]) -> Csum {
    let mut sum = BootSum::begin(kernel.len() as u64);
    for byte in kernel {
        sum.append(&[*byte]);
    }
    for byte in initramfs {
        sum.append(&[*byte]);
    }
    sum.finish()
}

fn of_threes(kernel: &[u8], initramfs: &[u8]) -> Csum {
    let mut sum = BootSum::begin(kernel.len() as u64);
    for piece in kernel.chunks(3) {
        sum.append(piece);
    }
    for piece in initramfs.chunks(3) {
        sum.append(piece);
    }
    sum.finish()
}

// ---- lists

// Deployments with `,` between them; `-` is none.
fn ids_of(alloc: Global, list: &str) -> Result<Vec<DepId>, Stop> {
    let mut ids = Vec::new(alloc);
    if list != "-" {
        for member in list.split(',') {
            ids.push(id_of(alloc, member)?)?;
        }
    }
    Ok(ids)
}

fn deps_of(alloc: Global, list: &str) -> Result<Vec<Dep>, Stop> {
    let mut deps = Vec::new(alloc);
    let ids = ids_of(alloc, list)?;
    for id in ids {
        deps.push(Dep {
            id,
            kargs: Texts::new(alloc),
            defaults: PathMap::new(alloc),
            etc: PathMap::new(alloc),
        })?;
    }
    Ok(deps)
}

// Of the list, for a stateroot and a commit.
fn serial(fields: &mut Fields) -> Result<Vec<u8>, Stop> {
    let alloc = fields.alloc();
    let list = deps_of(alloc, fields.text()?)?;
    let os = os_of(alloc, fields.text()?)?;
    let commit = commit_of(fields.text()?)?;
    if list.len() > 100 {
        return Err(Stop::Unknown);
    }
    number(alloc, serial_for(&list, &os, &commit) as u64)
}

// Of the list, for a stateroot and the deployments that are in use: the places, each behind a space.
fn kept(fields: &mut Fields) -> Result<Vec<u8>, Stop> {
    let alloc = fields.alloc();
    let list = deps_of(alloc, fields.text()?)?;
    let os = os_of(alloc, fields.text()?)?;
    let used = ids_of(alloc, fields.text()?)?;
    let places = kept_behind(alloc, &list, &os, &used)?;
    told_places(alloc, &places)
}

fn told_places(alloc: Global, places: &[usize]) -> Result<Vec<u8>, Stop> {
    let mut told = text(alloc, "places")?;
    for place in places {
        let place = format!(in alloc; " {place}")?;
        told.extend_from_slice(place.as_bytes())?;
    }
    Ok(told)
}
