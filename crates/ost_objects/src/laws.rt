//! Laws of the objects, each as a function whose contract is the law.

ghost use Rattle.std.specs.Prelude.{◌≡◌, ℕ, List, Some, Result};
ghost use Rattle.ost_forms.specs.declared.commit.Commit.{Commit as CommitValue};
ghost use Rattle.ost_forms.specs.declared.dirtree.DirTree.{DirTree as DirTreeValue};
ghost use Rattle.ost_forms.specs.declared.dirmeta.DirMeta.{DirMeta as DirMetaValue};
ghost use Rattle.ost_forms.specs.declared.content.Content.{Content as ContentValue};
ghost use Rattle.ost_forms.specs.declared.fault.ObjFault.{ObjFault as Fault};
ghost use Rattle.ost_forms.specs.Commit.{commit_form, ReadsCommit};
ghost use Rattle.ost_forms.specs.CommitRow.{parts_of};
ghost use Rattle.ost_forms.specs.DirTree.{tree_form, ReadsDirTree};
ghost use Rattle.ost_forms.specs.DirMeta.{dirmeta_form, ReadsDirMeta};
ghost use Rattle.ost_forms.specs.Stream.{content_form, ReadsContent};
ghost use Rattle.ost_objects.specs.Again.{ReadsBack};

use crate::make::{commit_sums, meta_numbers, tree_rules};
use ost_forms::{Commit, Content, DirMeta, DirTree};

/// Whatever `read_commit` may answer of the bytes of a commit is the commit, unless they are too many or memory lacks.
pub fn commit_again(value: &Commit)
    ensures { (bytes : List ℕ) (answer : Result CommitValue Fault) → commit_form (parts_of value.now) ≡ Some bytes → ReadsCommit parts_of bytes answer → ReadsBack (λ c. parts_of c ≡ parts_of value.now) answer }
{
    commit_sums(value);
}

/// The same of the entries of a folder.
pub fn dirtree_again(value: &DirTree)
    ensures { (bytes : List ℕ) (answer : Result DirTreeValue Fault) → tree_form (record { files = value.now.files; folders = value.now.folders }) ≡ Some bytes → ReadsDirTree (λ t. record { files = t.files; folders = t.folders }) bytes answer → ReadsBack (λ t. (t.files ≡ value.now.files) × (t.folders ≡ value.now.folders)) answer }
{
    tree_rules(value);
}

/// The same of the attributes of a folder.
pub fn dirmeta_again(value: &DirMeta)
    ensures { (bytes : List ℕ) (answer : Result DirMetaValue Fault) → dirmeta_form value.now.meta ≡ Some bytes → ReadsDirMeta (λ d. d.meta) bytes answer → ReadsBack (λ d. d.meta ≡ value.now.meta) answer }
{
    meta_numbers(&value.meta);
}

/// The same of a file, under any limit of content.
pub fn content_again(value: &Content)
    ensures { (limit : ℕ) (bytes : List ℕ) (answer : Result ContentValue Fault) → content_form value.now.meta value.now.body ≡ Some bytes → ReadsContent (λ c. c.meta) (λ c. c.body) limit bytes answer → ReadsBack (λ c. (c.meta ≡ value.now.meta) × (c.body ≡ value.now.body)) answer }
{
    meta_numbers(&value.meta);
}

/// Different commits have different bytes.
pub fn one_commit(left: &Commit, right: &Commit)
    ensures { (bytes : List ℕ) → commit_form (parts_of left.now) ≡ Some bytes → commit_form (parts_of right.now) ≡ Some bytes → parts_of left.now ≡ parts_of right.now }
{
    commit_sums(left);
    commit_sums(right);
}

/// Different entries have different bytes.
pub fn one_dirtree(left: &DirTree, right: &DirTree)
    ensures { (bytes : List ℕ) → tree_form (record { files = left.now.files; folders = left.now.folders }) ≡ Some bytes → tree_form (record { files = right.now.files; folders = right.now.folders }) ≡ Some bytes → (left.now.files ≡ right.now.files) × (left.now.folders ≡ right.now.folders) }
{}

/// Different attributes have different bytes.
pub fn one_dirmeta(left: &DirMeta, right: &DirMeta)
    ensures { (bytes : List ℕ) → dirmeta_form left.now.meta ≡ Some bytes → dirmeta_form right.now.meta ≡ Some bytes → left.now.meta ≡ right.now.meta }
{
    meta_numbers(&left.meta);
    meta_numbers(&right.meta);
}

/// Different files have different content streams.
pub fn one_content(left: &Content, right: &Content)
    ensures { (bytes : List ℕ) → content_form left.now.meta left.now.body ≡ Some bytes → content_form right.now.meta right.now.body ≡ Some bytes → (left.now.meta ≡ right.now.meta) × (left.now.body ≡ right.now.body) }
{
    meta_numbers(&left.meta);
    meta_numbers(&right.meta);
}
