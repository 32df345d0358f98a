ghost use Rattle.script_trees.specs.Fit.{IsWide};

use ost_types::Limits;

/// The program's limits, but for the number of objects, where it is told.
pub fn limits_of(objects: Option<u32>) -> Limits
    ensures { IsWide result }
{
    let mut limits = Limits::standard();
    if let Some(objects) = objects {
        limits.objects = objects;
    }
    limits
}
