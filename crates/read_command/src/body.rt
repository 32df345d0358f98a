//! What a file's object holds is read.
ghost use Rattle.std.specs.Prelude.{◌≡◌, ◌≤◌, Some, Ok};
ghost use Rattle.ost_types.specs.declared.object.Kind.TheVariants as kinds;
ghost use Rattle.ost_types.specs.declared.meta.Meta.{Meta};
ghost use Rattle.ost_forms.specs.Stream.{ReadsFile};
ghost use Rattle.fs_trait.specs.View.{View};
ghost use Rattle.fs_trait.specs.Effect.{HasCause, IsQuiet};
ghost use Rattle.repo_model.specs.Objects.{Stores};
ghost use Rattle.repo_model.specs.Trees.{name_of};
ghost use Rattle.tree_read.specs.Looks.{Looks, Reads};
ghost use Rattle.read_command.specs.Files.{HasBody};

use fs_trait::{Fs, FsErr};
use ost_forms::{Body, ObjFault, read_content};
use ost_objects::Checked;
use ost_types::{Csum, Kind, Limits, ObjName};
use std::alloc::Global;
use tree_read::{Looked, look_at_object};

/// What a file holds, or where a link leads.
pub(crate) fn look_at_body<F: Fs>(
    alloc: Global,
    fs: &mut F,
    file: &Csum,
    limits: &Limits,
) -> Result<Looked<Body>, FsErr>
    ensures told { (v : View) → F.view fs.old ≡ Some v → Looks v.now limits.now.content (name_of kinds.File file.now) (HasBody (Stores v.now) limits.now.content file.now) result }
    ensures quiet { IsQuiet (F.clock fs.old) (F.clock fs.new) (F.was fs.old) (F.was fs.new) (F.view fs.old) (F.view fs.new) }
    ensures keeps_room { F.spare fs.old ≤ F.spare fs.new }
    ensures cause { HasCause (F.faults fs.old) (F.faults fs.new) result }
{
    let name = ObjName {
        csum: *file,
        kind: Kind::File,
    };
    match look_at_object(alloc, fs, &name, limits)? {
        Looked::Here(object) => body_of(alloc, &object, limits),
        Looked::Absent => Ok(Looked::Absent),
        Looked::Damaged => Ok(Looked::Damaged),
    }
}

fn body_of(alloc: Global, object: &Checked, limits: &Limits) -> Result<Looked<Body>, FsErr>
    ensures { Reads kinds.File limits.now.content object.now.bytes (λ b. (m : Meta) × ReadsFile limits.now.content object.now.bytes (Ok (record { meta = m; body = b }))) result }
{
    match read_content(alloc, object.bytes(), limits) {
        Ok(content) => Ok(Looked::Here(content.body)),
        Err(ObjFault::NoMemory) => Err(FsErr::NoMemory),
        Err(_) => Ok(Looked::Damaged),
    }
}
