//! Which nodes of a tree matter to a deployment.
ghost use Rattle.std.specs.Prelude.{◌≡◌, ◌&&◌, codes};
ghost use Rattle.std.specs.Option.{option_copied};
ghost use Rattle.ost_types.specs.Path.{same_name};
ghost use Rattle.deploy_list.specs.Kernels.{is_defaults, is_etc, is_kver, is_modules, is_usr_etc, kernel_at, kernel_named};

use crate::kver::is_kver;
use ost_types::{FsPath, Name, NodeName};

/// Whether this is `/etc`.
pub fn is_etc(path: &FsPath) -> bool
    ensures { result ≡ is_etc path.now }
{
    is_etc_alone(path.names())
}

fn is_etc_alone(names: &[Name]) -> bool
    ensures { result ≡ is_etc names.now }
{
    let [etc] = names else {
        return false;
    };
    is(etc, b"etc")
}

/// Whether this is a folder at `/usr/etc`.
pub fn is_defaults(path: &FsPath, node: &NodeName) -> bool
    ensures { result ≡ is_defaults path.now node.now }
{
    match node {
        NodeName::Folder(_) => is_usr_etc(path.names()),
        NodeName::Leaf(_) => false,
    }
}

fn is_usr_etc(names: &[Name]) -> bool
    ensures { result ≡ is_usr_etc names.now }
{
    let [usr, etc] = names else {
        return false;
    };
    are_usr_etc(usr, etc)
}

fn are_usr_etc(usr: &Name, etc: &Name) -> bool
    ensures { result ≡ (same_name usr.now (codes "usr") && same_name etc.now (codes "etc")) }
{
    is(usr, b"usr") && is(etc, b"etc")
}

/// The version of the kernel that this is: a leaf at `/usr/lib/modules/<version>/vmlinuz`.
pub fn kernel_at<'a>(path: &'a FsPath, node: &NodeName) -> Option<&'a Name>
    ensures { option_copied result ≡ kernel_at path.now node.now }
{
    match node {
        NodeName::Folder(_) => None,
        NodeName::Leaf(_) => kernel_named(path.names()),
    }
}

fn kernel_named(names: &[Name]) -> Option<&Name>
    ensures { option_copied result ≡ kernel_named names.now }
{
    let [usr, lib, modules, version, file] = names else {
        return None;
    };
    is_kernel(usr, lib, modules, version, file).then_some(version)
}

fn is_kernel(usr: &Name, lib: &Name, modules: &Name, version: &Name, file: &Name) -> bool
    ensures { result ≡ (is_modules usr.now lib.now modules.now && same_name file.now (codes "vmlinuz") && is_kver version.now) }
{
    is_modules(usr, lib, modules) && is(file, b"vmlinuz") && is_kver(version.as_slice())
}

fn is_modules(usr: &Name, lib: &Name, modules: &Name) -> bool
    ensures { result ≡ is_modules usr.now lib.now modules.now }
{
    is(usr, b"usr") && is(lib, b"lib") && is(modules, b"modules")
}

fn is(name: &Name, text: &[u8]) -> bool
    ensures { result ≡ same_name name.now text.now }
{
    name.as_slice() == text
}
