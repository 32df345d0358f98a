//! Laws of the rules, each as a function whose contract is the law.
ghost use Rattle.std.specs.Prelude.{◌≢◌, ◌↔◌, List, ℕ};
ghost use Rattle.ost_types.specs.Path.{Path};
ghost use Rattle.fs_trait.specs.View.{Disk};
ghost use Rattle.fs_trait.specs.Seen.{shows};
ghost use Rattle.repo_layout.specs.Place.{place, Ref, Stage};
ghost use Rattle.layout_rules.specs.Checks.{IsFor, Suits};
ghost use Rattle.layout_rules.specs.InLayout.{SuitsSeen};
ghost use Rattle.layout_rules.specs.declared.rule.Rule as rules;

/// Whether what stands at a path suits a rule is to be seen by what the path shows.
pub fn rules_by_seen()
    ensures { (rule : rules.Rule) (d : Disk) (p : Path) → Suits rule (d.at p) ↔ SuitsSeen rule (shows d p) }
{}

/// No rule is for a ref's path, or for what an actor stages.
pub fn rules_of_places()
    ensures refs { (rule : rules.Rule) (p : Path) (name : List ℕ) → IsFor rule p → place p ≢ Ref name }
    ensures stages { (rule : rules.Rule) (p : Path) (actor : ℕ) → IsFor rule p → place p ≢ Stage actor }
{}
