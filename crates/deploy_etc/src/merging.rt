//! The merge of a deployment's configuration into a new one's.
ghost use Rattle.std.specs.Prelude.{IfOk, IfSome};
ghost use Rattle.std.specs.Option.{option_copied};
ghost use Rattle.checkout.specs.CheckoutFolder.{IsTreeMap};
ghost use Rattle.deploy_etc.specs.NewEtc.{AreTrees, Gives};

use etc_merge::{MergeFault, merge};
use ost_types::PathMap;
use std::alloc::Global;

/// The deployment from which the configuration is taken over.
#[derive(Drop, Debug)]
pub struct MergeSource {
    /// The defaults that it began with.
    pub defaults: PathMap,
    /// Its `etc` now.
    pub etc: PathMap,
}

/// What the `etc` of a new deployment is to be: the defaults of its tree, merged with what the source changed of its own. Where there is
/// no source, nothing but the defaults.
pub fn new_etc(
    alloc: Global,
    source: Option<&MergeSource>,
    defaults: PathMap,
) -> Result<PathMap, MergeFault>
    requires { IfSome (option_copied source) (λ from. AreTrees from defaults) }
    ensures etc { Gives (option_copied source.entry) defaults result }
    ensures tree { IfOk result (λ etc. IsTreeMap defaults → IsTreeMap etc) }
{
    match source {
        Some(source) => merge(alloc, &source.defaults, &source.etc, &defaults),
        None => Ok(defaults),
    }
}
