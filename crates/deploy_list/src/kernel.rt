//! The kernel of a tree.
ghost use Rattle.std.specs.Prelude.{◌≡◌, ◌≤◌, ◌∷◌, [], length, IfOk, IfErr, MatchResult, Ok, Err};
ghost use Rattle.std.specs.Option.{option_copied};
ghost use Rattle.ost_types.specs.Path.{Name};
ghost use Rattle.boot_model.specs.Items.{IsKver};
ghost use Rattle.deploy_list.specs.Kernels.{Finds, IsNotOne, as_list, has_defaults, has_etc, kernels_of, with_node};

use crate::fault::KernelFault;
use crate::place::{is_defaults, is_etc, kernel_at};
use ost_types::{FsPath, Name, NoMemory, NodeName, PathMap, TryCopy};

/// The version of the tree's kernel: the one folder `/usr/lib/modules/<version>` of which `vmlinuz` is a leaf, where the version is 1
/// to 241 bytes of `A-Z a-z 0-9 - _ . + ~`.
///
/// A tree names its leaves by their sums, so whether this one is a symbolic link is for the caller to see.
pub fn kver_of(tree: &PathMap) -> Result<Result<Name, KernelFault>, NoMemory>
    ensures kernel { IfOk result (Finds tree.now) }
    ensures version { IfOk result (λ found. IfOk found IsKver) }
    ensures memory { IfErr result (λ _. (kver : Name) × Finds tree.now (Ok kver)) }
{
    match find_kernel(tree.as_slice()) {
        Ok(kver) => Ok(Ok(kver.copy()?)),
        Err(fault) => Ok(Err(fault)),
    }
}

fn find_kernel(nodes: &[(FsPath, NodeName)]) -> Result<&Name, KernelFault>
    ensures { MatchResult result (λ kver. Finds nodes.now (Ok kver.now)) (λ fault. Finds nodes.now (Err fault)) }
{
    if has_etc(nodes) {
        return Err(KernelFault::EtcInTree);
    }
    if !has_defaults(nodes) {
        return Err(KernelFault::NoDefaults);
    }
    only_kernel(nodes)
}

fn has_etc(nodes: &[(FsPath, NodeName)]) -> bool
    ensures { result ≡ has_etc nodes.now }
{
    nodes.iter().any(|node| is_etc(&node.0))
}

fn has_defaults(nodes: &[(FsPath, NodeName)]) -> bool
    ensures { result ≡ has_defaults nodes.now }
{
    nodes.iter().any(|node| is_defaults(&node.0, &node.1))
}

fn only_kernel(nodes: &[(FsPath, NodeName)]) -> Result<&Name, KernelFault>
    ensures { MatchResult result (λ kver. kernels_of nodes.now ≡ kver.now ∷ []) (IsNotOne (kernels_of nodes.now)) }
{
    let mut found = None;
    for node in nodes {
        found = with_node(found, &node.0, &node.1)?;
    }
    found.ok_or(KernelFault::NoKernel)
}

/// The kernel that was found, or that this node is, and a fault where both are.
fn with_node<'a>(
    found: Option<&'a Name>,
    path: &'a FsPath,
    node: &NodeName,
) -> Result<Option<&'a Name>, KernelFault>
    ensures ok { IfOk result (λ new. as_list (option_copied new) ≡ with_node (option_copied found.entry) path.now node.now) }
    ensures err { IfErr result (λ fault. (fault ≡ KernelFault.TwoKernels) × (2 ≤ length (with_node (option_copied found.entry) path.now node.now))) }
{
    let Some(kver) = kernel_at(path, node) else {
        return Ok(found);
    };
    match found {
        None => Ok(Some(kver)),
        Some(_) => Err(KernelFault::TwoKernels),
    }
}
