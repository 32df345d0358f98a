//! A commit.

ghost use Rattle.std.specs.Prelude.{◌≡◌, true, IfOk};
ghost use Rattle.std.specs.Option.{is_some};
ghost use Rattle.gv_core.specs.Tree.{view, array, no_trees};
ghost use Rattle.ost_forms.specs.Commit.{commit_form, parts_from};

use gv_core::Value;
use ost_types::{Csum, Text};

/// A commit of a tree (OSTree manual, "Anatomy of an OSTree repository"). Metadata and related objects are kept as they
/// stand.
#[derive(Drop, Debug)]
pub struct Commit {
    /// A value of the type `a{sv}`, in which containers nest at most 63 deep.
    pub metadata: Value,
    pub parent: Option<Csum>,
    /// A value of the type `a(say)`.
    pub related: Value,
    pub subject: Text,
    pub body: Text,
    /// Seconds since 1970.
    pub time: u64,
    /// The name of the root's entries.
    pub tree: Csum,
    /// The name of the root's attributes.
    pub meta: Csum,
    pub ghost fits: { is_some (commit_form (parts_from (view metadata) parent (view related) subject body time tree meta)) ≡ true },
}
