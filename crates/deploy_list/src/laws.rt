//! Laws of lists, each as a function whose contract is the law.
ghost use Rattle.std.specs.Prelude.{◌↔◌, Contains};
ghost use Rattle.ost_types.specs.Path.{Name};
ghost use Rattle.ost_types.specs.PathMap.{Nodes};
ghost use Rattle.deploy_list.specs.EntryReads.{EntriesAreRead, ReadOnce};
ghost use Rattle.deploy_list.specs.Kernels.{HasKernel, kernels_of};

/// The boot entry of each member of a list that may boot is read as one of its version, with the words of its kernel and the one that
/// names its link, and in no other way.
pub fn entries_are_read()
    ensures read { EntriesAreRead }
    ensures once { ReadOnce }
{}

/// The versions that are found of a tree are those of which it has a kernel.
pub fn kernels_are_found()
    ensures { (tree : Nodes) (kver : Name) → Contains (kernels_of tree) kver ↔ HasKernel tree kver }
{}
