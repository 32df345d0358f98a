//! What the grammar of scripts gives of the trees that they commit, as a function whose contract is that law.
#![tactic(auto)]

ghost use Rattle.script_trees.specs.Fit.{ScriptsAreFit};

/// The lanes of a script are few and short, and each object of each tree that they commit can be made, and so can each commit.
pub fn scripts_are_fit()
    ensures { ScriptsAreFit }
{}
