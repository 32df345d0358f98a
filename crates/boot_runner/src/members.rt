//! Members of lists as text: `STATEROOT:COMMIT.SERIAL:VERSION:KERNEL`, then `+INITRAMFS` where there is one, and each word of the
//! kernel's command line behind a `:`. COMMIT is the byte, in hexadecimal digits, that the commit's sum has 32 times; KERNEL and
//! INITRAMFS are the bytes of the files.
use boot_model::{BootItem, DepId, Kernel};
use deploy_list::bootcsum;
use ost_types::{Csum, Name, Text, Texts};
use repo_layout::OsName;
use sheet::{Stop, bytes_of, text};
use std::alloc::Global;

/// The members with `,` between them; `-` is no members.
pub fn items_of(alloc: Global, list: &str) -> Result<Vec<BootItem>, Stop> {
    let mut items = Vec::new(alloc);
    if list != "-" {
        for member in list.split(',') {
            items.push(item_of(alloc, member)?)?;
        }
    }
    Ok(items)
}

fn item_of(alloc: Global, member: &str) -> Result<BootItem, Stop> {
    let (os, rest) = cut(member)?;
    let (named, rest) = cut(rest)?;
    let (kver, rest) = cut(rest)?;
    let (kernel, words) = kernel_and_words(rest);
    let id = named_id(alloc, os, named)?;
    let kargs = words_of(alloc, words)?;
    let kernel = kernel_of(alloc, kver, kernel)?;
    Ok(BootItem { id, kargs, kernel })
}

fn kernel_and_words(rest: &str) -> (&str, Option<&str>) {
    match rest.split_once(':') {
        Some((kernel, words)) => (kernel, Some(words)),
        None => (rest, None),
    }
}

fn cut(rest: &str) -> Result<(&str, &str), Stop> {
    rest.split_once(':').ok_or(Stop::Unknown)
}

/// The name of a deployment: `STATEROOT:COMMIT.SERIAL`.
pub fn id_of(alloc: Global, member: &str) -> Result<DepId, Stop> {
    let (os, named) = cut(member)?;
    named_id(alloc, os, named)
}

fn named_id(alloc: Global, os: &str, named: &str) -> Result<DepId, Stop> {
    let (commit, serial) = named.split_once('.').ok_or(Stop::Unknown)?;
    Ok(DepId {
        os: os_of(alloc, os)?,
        commit: commit_of(commit)?,
        serial: serial.parse::<u32>().map_err(|_| Stop::Unknown)?,
    })
}

pub fn os_of(alloc: Global, os: &str) -> Result<OsName, Stop> {
    OsName::parse(alloc, os.as_bytes())?.ok_or(Stop::Unknown)
}

pub fn commit_of(digits: &str) -> Result<Csum, Stop> {
    let byte = u8::from_str_radix(digits, 16).map_err(|_| Stop::Unknown)?;
    Ok(Csum::from_bytes([byte; 32]))
}

fn kernel_of(alloc: Global, kver: &str, files: &str) -> Result<Kernel, Stop> {
    let kver = Name::parse(alloc, kver.as_bytes())?.ok_or(Stop::Unknown)?;
    let (kernel, initramfs) = match files.split_once('+') {
        Some((kernel, initramfs)) => (kernel, Some(initramfs)),
        None => (files, None),
    };
    Ok(Kernel {
        kver,
        bootcsum: bootcsum(kernel.as_bytes(), initramfs.unwrap_or("").as_bytes()),
        initramfs: initramfs.is_some(),
    })
}

fn words_of(alloc: Global, words: Option<&str>) -> Result<Texts, Stop> {
    let mut texts = Texts::new(alloc);
    if let Some(words) = words {
        for word in words.split(':') {
            texts.push(word_of(alloc, word)?)?;
        }
    }
    Ok(texts)
}

fn word_of(alloc: Global, word: &str) -> Result<Text, Stop> {
    let bytes = bytes_of(alloc, word)?;
    Text::parse(alloc, &bytes)?.ok_or(Stop::Unknown)
}

/// The list as `listing` tells it: of each member the name of the deployment, and each word behind a `:`.
pub fn told_items(alloc: Global, items: &[BootItem]) -> Result<Vec<u8>, Stop> {
    if items.is_empty() {
        return text(alloc, "-");
    }
    let mut told = Vec::new(alloc);
    for item in items {
        if !told.is_empty() {
            told.push(b',')?;
        }
        add_item(alloc, &mut told, item)?;
    }
    Ok(told)
}

fn add_item(alloc: Global, told: &mut Vec<u8>, item: &BootItem) -> Result<(), Stop> {
    add_deployment(alloc, told, &item.id, &item.kargs)
}

/// The name of a deployment, and each of these words behind a `:`.
pub fn add_deployment(
    alloc: Global,
    told: &mut Vec<u8>,
    id: &DepId,
    words: &Texts,
) -> Result<(), Stop> {
    add_id(alloc, told, id)?;
    for word in words.as_slice() {
        told.push(b':')?;
        told.extend_from_slice(word.as_slice())?;
    }
    Ok(())
}

fn add_id(alloc: Global, told: &mut Vec<u8>, id: &DepId) -> Result<(), Stop> {
    let commit = id.commit.bytes()[0];
    let named = format!(in alloc; ":{commit:02x}.{}", id.serial)?;
    told.extend_from_slice(id.os.as_slice())?;
    told.extend_from_slice(named.as_bytes())?;
    Ok(())
}
