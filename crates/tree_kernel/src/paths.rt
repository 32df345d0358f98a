//! Where the files of a kernel stand in a tree, and their objects.
ghost use Rattle.std.specs.Prelude.{◌≡◌, IfOk};
ghost use Rattle.ost_types.specs.Text.{IsName};
ghost use Rattle.ost_types.specs.declared.object.Kind.TheVariants.{File};
ghost use Rattle.repo_layout.specs.Paths.{object_path};
ghost use Rattle.deploy_list.specs.Kernels.{kernel_path};
ghost use Rattle.tree_kernel.specs.Boots.{initramfs_path, modules_path, version_path};

use ost_types::{Csum, FsPath, Kind, Name, NoMemory, ObjName};
use repo_layout::object_path;
use std::alloc::Global;

/// `/usr/lib/modules/<version>/vmlinuz`.
pub(crate) fn kernel_path(alloc: Global, kver: &Name) -> Result<FsPath, NoMemory>
    ensures { IfOk result (λ p. p ≡ kernel_path kver.now) }
{
    version_path(alloc, kver, b"vmlinuz")
}

/// `/usr/lib/modules/<version>/initramfs.img`.
pub(crate) fn initramfs_path(alloc: Global, kver: &Name) -> Result<FsPath, NoMemory>
    ensures { IfOk result (λ p. p ≡ initramfs_path kver.now) }
{
    version_path(alloc, kver, b"initramfs.img")
}

fn version_path(alloc: Global, kver: &Name, file: &[u8]) -> Result<FsPath, NoMemory>
    requires { IsName file.now }
    ensures { IfOk result (λ p. p ≡ version_path kver.now file.now) }
{
    // known by this: a name may stand in the folder
    let _kver = kver.as_slice();
    let modules = modules_path(alloc)?;
    let name = known_name(alloc, file)?;
    let folder = modules.child(kver)?;
    folder.child(&name)
}

fn modules_path(alloc: Global) -> Result<FsPath, NoMemory>
    ensures { IfOk result (λ p. p ≡ modules_path) }
{
    let usr = known_name(alloc, b"usr")?;
    let lib = known_name(alloc, b"lib")?;
    let modules = known_name(alloc, b"modules")?;
    let usr_path = FsPath::root(alloc).child(&usr)?;
    let lib_path = usr_path.child(&lib)?;
    lib_path.child(&modules)
}

// the name that these bytes are known to be
fn known_name(alloc: Global, bytes: &[u8]) -> Result<Name, NoMemory>
    requires { IsName bytes.now }
    ensures { IfOk result (λ n. n ≡ bytes.now) }
{
    match Name::parse(alloc, bytes)? {
        Some(name) => Ok(name),
        None => unreachable!(),
    }
}

/// Where the object of a file stands.
pub(crate) fn file_path(alloc: Global, file: &Csum) -> Result<FsPath, NoMemory>
    ensures { IfOk result (λ p. p ≡ object_path File file.now) }
{
    let name = ObjName {
        csum: *file,
        kind: Kind::File,
    };
    object_path(alloc, &name)
}
