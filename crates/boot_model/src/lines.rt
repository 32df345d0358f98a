//! The text of a boot entry.
ghost use Rattle.std.specs.Prelude.{◌≡◌, ◌++◌, ◌-◌, ◌<◌, ◌≤◌, List, ℕ, [], ◌∷◌, IfOk, OnOk, length, slice_index_or};
ghost use Rattle.repo_layout.specs.Fixed.{number};
ghost use Rattle.boot_model.specs.Entries.{entry_text, initrd_front, initrd_line, initrd_lines, kernel_text, linux_line, named_link, named_version, options_line, spaced, title_line, version_line};
ghost use Rattle.boot_model.specs.Items.{IsAt, is_like, link_number};
ghost use Rattle.boot_model.specs.declared.item.BootItem.{BootItem as Item};

use crate::BootItem;
use ost_types::{Bytes, NoMemory};
use repo_layout::Version;
use std::alloc::Global;

fn is_like(a: &BootItem, b: &BootItem) -> bool
    ensures { result ≡ is_like a.now b.now }
{
    a.id.os == b.id.os && a.kernel.bootcsum == b.kernel.bootcsum
}

/// The number of a member's link among those of its stateroot and its kernel's sum.
pub fn link_number(items: &[BootItem], index: usize) -> usize
    requires { index < length items.now }
    ensures value { (item : Item) → IsAt items.now index item → result ≡ link_number items.now index item }
    ensures small { result ≤ index }
{
    let item = &items[index];
    items[..index]
        .iter()
        .filter(|other| is_like(item, other))
        .count()
}

fn title_line(alloc: Global, item: &BootItem, index: usize) -> Result<Bytes, NoMemory>
    ensures { IfOk result (λ t. t ≡ title_line item.now.id.os index) }
{
    let mut text = Bytes::from_slice(alloc, b"title ")?;
    text.append(item.id.os.as_slice())?;
    text.append(b" (ostree:")?;
    text.append(index.to_string(alloc)?.as_bytes())?;
    text.append(b")\n")?;
    Ok(text)
}

fn version_line(alloc: Global, version: usize) -> Result<Bytes, NoMemory>
    ensures { IfOk result (λ t. t ≡ version_line version) }
{
    let mut text = Bytes::from_slice(alloc, b"version ")?;
    text.append(version.to_string(alloc)?.as_bytes())?;
    text.push(b'\n')?;
    Ok(text)
}

fn spaced(alloc: Global, item: &BootItem) -> Result<Bytes, NoMemory>
    ensures { IfOk result (λ t. t ≡ spaced item.now.kargs) }
{
    let mut text = Bytes::new(alloc);
    for word in item.kargs.as_slice() {
        text.append(word.as_slice())?;
        text.push(b' ')?;
    }
    Ok(text)
}

// the folder in which a version's links are named
fn named_version(version: Version) -> &'static [u8]
    ensures { result.now ≡ named_version (number version) }
{
    match version {
        Version::Zero => b"/ostree/boot.0/",
        Version::One => b"/ostree/boot.1/",
    }
}

fn named_link(
    alloc: Global,
    version: Version,
    item: &BootItem,
    place: usize,
) -> Result<Bytes, NoMemory>
    ensures { IfOk result (λ t. t ≡ named_link (number version) item.now.id.os item.now.kernel.bootcsum place) }
{
    let mut text = Bytes::from_slice(alloc, named_version(version))?;
    text.append(item.id.os.as_slice())?;
    text.push(b'/')?;
    text.append(&item.kernel.bootcsum.to_hex())?;
    text.push(b'/')?;
    text.append(place.to_string(alloc)?.as_bytes())?;
    Ok(text)
}

fn options_line(
    alloc: Global,
    version: Version,
    item: &BootItem,
    place: usize,
) -> Result<Bytes, NoMemory>
    ensures { IfOk result (λ t. t ≡ options_line (number version) item.now place) }
{
    let mut text = Bytes::from_slice(alloc, b"options ")?;
    text.append(spaced(alloc, item)?.as_slice())?;
    text.append(b"ostree=")?;
    text.append(named_link(alloc, version, item, place)?.as_slice())?;
    text.push(b'\n')?;
    Ok(text)
}

fn kernel_text(alloc: Global, item: &BootItem) -> Result<Bytes, NoMemory>
    ensures { IfOk result (λ t. t ≡ kernel_text item.now) }
{
    let mut text = Bytes::from_slice(alloc, b"/ostree/")?;
    text.append(item.id.os.as_slice())?;
    text.push(b'-')?;
    text.append(&item.kernel.bootcsum.to_hex())?;
    Ok(text)
}

fn linux_line(alloc: Global, item: &BootItem) -> Result<Bytes, NoMemory>
    ensures { IfOk result (λ t. t ≡ linux_line item.now) }
{
    let mut text = Bytes::from_slice(alloc, b"linux ")?;
    text.append(kernel_text(alloc, item)?.as_slice())?;
    text.append(b"/vmlinuz-")?;
    text.append(item.kernel.kver.as_slice())?;
    text.push(b'\n')?;
    Ok(text)
}

fn initrd_front(alloc: Global, item: &BootItem) -> Result<Bytes, NoMemory>
    ensures { IfOk result (λ t. t ≡ initrd_front item.now) }
{
    let mut text = Bytes::from_slice(alloc, b"initrd ")?;
    text.append(kernel_text(alloc, item)?.as_slice())?;
    text.append(b"/initramfs-")?;
    Ok(text)
}

fn initrd_line(alloc: Global, item: &BootItem) -> Result<Bytes, NoMemory>
    ensures { IfOk result (λ t. t ≡ initrd_line item.now) }
{
    let mut text = initrd_front(alloc, item)?;
    text.append(item.kernel.kver.as_slice())?;
    text.append(b".img")?;
    text.push(b'\n')?;
    Ok(text)
}

fn initrd_lines(alloc: Global, item: &BootItem) -> Result<Bytes, NoMemory>
    ensures { IfOk result (λ t. t ≡ initrd_lines item.now.kernel.initramfs item.now) }
{
    if item.kernel.initramfs {
        initrd_line(alloc, item)
    } else {
        Ok(Bytes::new(alloc))
    }
}

#[tactic(auto, unfolding(crate::specs::Entries::entry_text))]
/// The text of the entry of the member with this index, in the folder of a version of the boot loader.
pub fn entry_text(
    alloc: Global,
    version: Version,
    items: &[BootItem],
    index: usize,
) -> Result<Bytes, NoMemory>
    requires { index < length items.now }
    ensures { (item : Item) → IsAt items.now index item → IfOk result (λ t. t ≡ entry_text (number version) items.now index item) }
{
    let item = &items[index];
    let place = link_number(items, index);
    let mut text = title_line(alloc, item, index)?;
    text.append(version_line(alloc, items.len() - index)?.as_slice())?;
    text.append(options_line(alloc, version, item, place)?.as_slice())?;
    text.append(linux_line(alloc, item)?.as_slice())?;
    text.append(initrd_lines(alloc, item)?.as_slice())?;
    Ok(text)
}
