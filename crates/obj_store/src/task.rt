ghost use Rattle.std.specs.Prelude.{◌≡◌, ◌≢◌, ◌<◌, ◌+◌, ◌^◌, Some, IfOk, MatchResult};
ghost use Rattle.ost_types.specs.declared.object.Kind.TheVariants as kinds;
ghost use Rattle.ost_forms.specs.declared.fault.ObjFault.TheVariants as faults;
ghost use Rattle.ost_forms.specs.Stream.{content_form, FitsMode};
ghost use Rattle.repo_layout.specs.Paths.{objects_folder_path, stage_path};
ghost use Rattle.repo_model.specs.Objects.{path_of};
ghost use Rattle.obj_store.specs.Putting.{Putting, IsNew, IsSourceOf, IsShapeOf, left, left_of, need_in, plain_meta};

mod looks;
mod steps;

use crate::phase::Phase;
use crate::source::Source;
use fs_trait::Need;
use ost_forms::{Body, Content, ObjFault, read_content};
use ost_objects::Checked;
use ost_types::{FsPath, Kind, Limits, Meta, NoMemory, ObjName, Xattrs};
use repo_layout::{object_path, objects_folder_path, stage_path};
use staging::{Plan, Staging};
use std::alloc::Global;
use std::marker::Model;

/// The task that puts one object at its path, a step at a time. A file is staged, synced, and then linked, so that after a crash
/// the path has nothing, or what stood there, or the whole object. What stands there already stays as it is.
#[derive(Drop, Debug)]
pub struct PutTask {
    alloc: Global,
    actor: u8,
    name: ObjName,
    at: FsPath,
    folder: FsPath,
    source: Source,
    phase: Phase,
}

impl Model for PutTask {
    ghost use Rattle.std.specs.Prelude.{◌≡◌};
    ghost use Rattle.repo_layout.specs.Paths.{objects_folder_path};
    ghost use Rattle.repo_model.specs.Objects.{path_of};
    ghost use Rattle.obj_store.specs.Putting.{Putting, IsMade};

    ghost Value = { Putting };

    ghost view = { λ a. record { actor = a.actor; name = a.name; source = a.source; phase = a.phase } };

    ghost invariant = { λ a. (a.at ≡ path_of a.name) × (a.folder ≡ objects_folder_path a.name.csum) × IsMade (record { actor = a.actor; name = a.name; source = a.source; phase = a.phase }) };
}

impl PutTask {
    /// Puts this object, which was read under these limits. It is made ready here, and no step takes memory for it.
    pub fn new(
        alloc: Global,
        actor: u8,
        object: Checked,
        limits: &Limits,
    ) -> Result<PutTask, NoMemory>
        requires actor { actor < 16 }
        requires limit { object.limit ≡ limits.now.content }
        ensures { IfOk result (IsNew actor object.name object.bytes) }
    {
        match PutTask::new_or_back(alloc, actor, object, limits) {
            Ok(task) => Ok(task),
            Err(_back) => Err(NoMemory),
        }
    }

    /// The same, and where memory lacks the object comes back.
    pub fn new_or_back(
        alloc: Global,
        actor: u8,
        object: Checked,
        limits: &Limits,
    ) -> Result<PutTask, Checked>
        requires actor { actor < 16 }
        requires limit { object.limit ≡ limits.now.content }
        ensures { MatchResult result (IsNew actor object.name object.bytes) (λ back. back ≡ object) }
    {
        match made_ready(alloc, actor, &object, limits) {
            Ok(ready) => Ok(filled(alloc, actor, ready, object)),
            Err(NoMemory) => Err(object),
        }
    }

    /// The lock under which the next step must stand.
    pub fn needs(&self) -> Need
        ensures { result ≡ need_in self.now.phase }
    {
        match self.phase {
            Phase::Unlink(_) | Phase::Ended(_) => Need::Nothing,
            _ => Need::Shared,
        }
    }

    /// At most so many steps are left; each byte of a file that isn't staged counts as one.
    pub fn left(&self) -> u128
        ensures value { result ≡ left self.now }
        ensures small { result < 2 ^ 63 + 8 }
    {
        match self.phase {
            Phase::Look | Phase::Stage => self.source.left() + 3,
            Phase::Folder => 3,
            Phase::Link => 2,
            Phase::Unlink(_) => 1,
            Phase::Ended(_) => 0,
        }
    }
}

impl Source {
    fn left(&self) -> u128
        ensures value { result ≡ left_of self.now }
        ensures small { result < 2 ^ 63 + 5 }
    {
        match self {
            Source::File(staging) => staging.left(),
            Source::Link { .. } => 1,
        }
    }
}

/// What takes memory of a new task.
#[derive(Drop)]
struct Ready {
    at: FsPath,
    folder: FsPath,
    shape: Shape,
}

#[derive(Drop)]
enum Shape {
    /// A file whose bytes are the object's, at this staging path.
    Plain(FsPath),
    Read(Source),
}

fn made_ready(
    alloc: Global,
    actor: u8,
    object: &Checked,
    limits: &Limits,
) -> Result<Ready, NoMemory>
    requires actor { actor < 16 }
    requires limit { object.now.limit ≡ limits.now.content }
    ensures at { IfOk result (λ r. r.at ≡ path_of object.now.name) }
    ensures folder { IfOk result (λ r. r.folder ≡ objects_folder_path object.now.name.csum) }
    ensures shape { IfOk result (λ r. IsShapeOf actor object.now.name object.now.bytes r.shape) }
{
    let at = object_path(alloc, &object.name)?;
    let folder = objects_folder_path(alloc, &object.name.csum)?;
    let shape = shape_of(alloc, actor, object, limits)?;
    Ok(Ready { at, folder, shape })
}

/// What is to stand at the object's path, as far as it takes memory.
fn shape_of(alloc: Global, actor: u8, object: &Checked, limits: &Limits) -> Result<Shape, NoMemory>
    requires actor { actor < 16 }
    requires limit { object.now.limit ≡ limits.now.content }
    ensures { IfOk result (IsShapeOf actor object.now.name object.now.bytes) }
{
    if object.name.kind == Kind::File {
        Ok(Shape::Read(file_source(alloc, actor, object, limits)?))
    } else {
        Ok(Shape::Plain(stage_path(alloc, actor)?))
    }
}

fn filled(alloc: Global, actor: u8, ready: Ready, object: Checked) -> PutTask
    requires actor { actor < 16 }
    requires at { ready.at ≡ path_of object.name }
    requires folder { ready.folder ≡ objects_folder_path object.name.csum }
    requires shape { IsShapeOf actor object.name object.bytes ready.shape }
    ensures { IsNew actor object.name object.bytes result }
{
    let name = object.name;
    let source = source_of(alloc, actor, ready.shape, object);
    PutTask {
        alloc,
        actor,
        name,
        at: ready.at,
        folder: ready.folder,
        source,
        phase: Phase::Look,
    }
}

/// What stands at the object's path once the object is there.
fn source_of(alloc: Global, _actor: u8, shape: Shape, object: Checked) -> Source
    requires shape { IsShapeOf _actor object.name object.bytes shape }
    ensures { IsSourceOf _actor object.name object.bytes result }
{
    match shape {
        Shape::Read(source) => source,
        Shape::Plain(stage) => plain_source(alloc, _actor, stage, object),
    }
}

fn plain_source(alloc: Global, _actor: u8, stage: FsPath, object: Checked) -> Source
    requires kind { object.name.kind ≢ kinds.File }
    requires stage { stage ≡ stage_path _actor }
    ensures { IsSourceOf _actor object.name object.bytes result }
{
    let meta = plain_meta(alloc);
    let bytes = object.bytes;
    Source::File(Staging::new(Plan { stage, meta, bytes }))
}

fn file_source(
    alloc: Global,
    actor: u8,
    object: &Checked,
    limits: &Limits,
) -> Result<Source, NoMemory>
    requires actor { actor < 16 }
    requires kind { object.now.name.kind ≡ kinds.File }
    requires limit { object.now.limit ≡ limits.now.content }
    ensures { IfOk result (IsSourceOf actor object.now.name object.now.bytes) }
{
    let stage = stage_path(alloc, actor)?;
    let Content { meta, body } = content_of(alloc, object, limits)?;
    Ok(match body {
        Body::Regular(bytes) => Source::File(Staging::new(Plan { stage, meta, bytes })),
        Body::Symlink(target) => Source::Link { meta, target },
    })
}

/// A file's attributes and what it holds, from its content stream.
fn content_of(alloc: Global, object: &Checked, limits: &Limits) -> Result<Content, NoMemory>
    requires kind { object.now.name.kind ≡ kinds.File }
    requires limit { object.now.limit ≡ limits.now.content }
    ensures form { IfOk result (λ c. content_form c.meta c.body ≡ Some object.now.bytes) }
    ensures fits { IfOk result (λ c. FitsMode c.meta.mode c.body) }
{
    match read_content(alloc, object.bytes(), limits) {
        Ok(content) => Ok(content),
        Err(fault) => Err(no_memory(fault)),
    }
}

// the only fault of bytes that were read already
fn no_memory(_fault: ObjFault) -> NoMemory
    requires { _fault ≡ faults.NoMemory }
{
    NoMemory
}

// owner 0, group 0, mode 0o100644
fn plain_meta(alloc: Global) -> Meta
    ensures { result ≡ plain_meta }
{
    Meta {
        uid: 0,
        gid: 0,
        mode: 0o100644,
        xattrs: Xattrs::new(alloc),
    }
}
