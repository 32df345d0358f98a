//! The sum of a file or a link.
ghost use Rattle.std.specs.Prelude.{IfOk};
ghost use Rattle.ost_forms.specs.Stream.{FitsMode};
ghost use Rattle.tree_scan.specs.Looking.{IsSumOf};

use ost_forms::{Body, Content, sum_of, write_content};
use ost_types::{Csum, Meta, NoMemory};
use std::alloc::Global;

/// The sum of the object that a file or a link with these attributes would have: the SHA-256 of its content stream.
pub(crate) fn content_sum(alloc: Global, meta: Meta, body: Body) -> Result<Csum, NoMemory>
    requires { FitsMode meta.mode body }
    ensures { IfOk result (IsSumOf meta body) }
{
    let stream = write_content(alloc, &Content { meta, body })?;
    Ok(sum_of(stream.as_slice()))
}
