//! Laws of what a prune keeps and removes, each as a function whose contract is the law.
ghost use Rattle.std.specs.Prelude.{◌≡◌, ◌⊎◌, ◌↔◌, ◌≤◌, ℕ, List, [], ◌∷◌, ◌++◌, Contains};
ghost use Rattle.ost_types.specs.declared.object.Kind.TheVariants.{Commit};
ghost use Rattle.ost_types.specs.declared.object.ObjName.{ObjName};
ghost use Rattle.fs_trait.specs.View.{Disk};
ghost use Rattle.repo_model.specs.Objects.{Stores};
ghost use Rattle.repo_model.specs.Trees.{name_of};
ghost use Rattle.reach.specs.Reach.{IsIn, Reach, Refers};
ghost use Rattle.reach.specs.Lines.{Line, Reachable};
ghost use Rattle.reach.specs.Removed.{IsPruned, IsSplit};
ghost use Rattle.reach.specs.Marking.{AreDoomed, Listed, LooksInto, LooksUp, Marks, Nears};

/// A line is no longer than the depth; the commits that are reachable are those in line; at depth zero only what the roots reach is;
/// and more is reachable from more roots, to a greater depth, and in a store that has more.
pub fn lines_of_commits()
    ensures near { (d : Disk) (roots : List ObjName) (depth k : ℕ) (commit : List ℕ) → Line (Stores d) (Contains roots) depth k commit → k ≤ depth }
    ensures commits { (d : Disk) (roots : List ObjName) (depth : ℕ) (commit : List ℕ) → Reachable (Stores d) (Contains roots) depth (name_of Commit commit) ↔ ((k : ℕ) × Line (Stores d) (Contains roots) depth k commit) }
    ensures zero { (d : Disk) (roots : List ObjName) (o : ObjName) → Reachable (Stores d) (Contains roots) 0 o ↔ Reach (Stores d) (Contains roots) o }
    ensures more { (d e : Disk) (roots more : List ObjName) (depth deeper : ℕ) → ((o : ObjName) → Contains roots o → Contains more o) → ((o : ObjName) (b : List ℕ) → Stores d o b → Stores e o b) → depth ≤ deeper → (o : ObjName) → Reachable (Stores d) (Contains roots) depth o → Reachable (Stores e) (Contains more) deeper o }
{}

/// A store is split into what is left and what was removed: at the beginning nothing was, and each removal adds its object.
pub fn removed_objects()
    ensures none { (d : Disk) → IsSplit (Stores d) (Stores d) (Contains []) }
    ensures next { (before old new : Disk) (removed : List ObjName) (one : ObjName) → IsSplit (Stores before) (Stores old) (Contains removed) → IsIn (Stores old) one → ((o : ObjName) (b : List ℕ) → Stores new o b → Stores old o b) → ((o : ObjName) (b : List ℕ) → Stores old o b → Stores new o b ⊎ (o ≡ one)) → (IsIn (Stores new) one → ⊥) → IsSplit (Stores before) (Stores new) (Contains (removed ++ one ∷ [])) }
{}

/// Where exactly what wasn't reachable was removed, the same names are reachable from the same roots before and after it; what is left
/// is exactly what was reachable, so all of it is reachable from what is left, and nothing that was removed is.
pub fn pruned_is_exact()
    ensures same { (before now : Disk) (roots removed : List ObjName) (depth : ℕ) → IsPruned (Stores before) (Stores now) (Contains roots) depth (Contains removed) → (o : ObjName) → Reachable (Stores before) (Contains roots) depth o ↔ Reachable (Stores now) (Contains roots) depth o }
    ensures left { (before now : Disk) (roots removed : List ObjName) (depth : ℕ) → IsPruned (Stores before) (Stores now) (Contains roots) depth (Contains removed) → (o : ObjName) (b : List ℕ) → Stores now o b ↔ (Stores before o b × Reachable (Stores before) (Contains roots) depth o) }
    ensures exact { (before now : Disk) (roots removed : List ObjName) (depth : ℕ) → IsPruned (Stores before) (Stores now) (Contains roots) depth (Contains removed) → (o : ObjName) → IsIn (Stores now) o → Reachable (Stores now) (Contains roots) depth o }
    ensures none { (before now : Disk) (roots removed : List ObjName) (depth : ℕ) → IsPruned (Stores before) (Stores now) (Contains roots) depth (Contains removed) → (o : ObjName) → Contains removed o → Reachable (Stores now) (Contains roots) depth o → ⊥ }
{}

/// Commits by their distance from a root: what says that they were found so holds at the beginning, and where one is looked into; and where
/// none waits that is nearer than the depth, each that is in line was found, no further away.
pub fn distances_find()
    ensures begins { (d : Disk) (roots : List ObjName) (depth : ℕ) (found waiting : List (ℕ × List ℕ)) → ((k : ℕ) (commit : List ℕ) → Contains found (k, commit) → (k ≡ 0) × Contains roots (name_of Commit commit)) → ((commit : List ℕ) → Contains roots (name_of Commit commit) → IsIn (Stores d) (name_of Commit commit) → Contains found (0, commit)) → ((k : ℕ) (commit : List ℕ) → Contains found (k, commit) → Contains waiting (k, commit)) → Nears (Stores d) (Contains roots) depth (Listed found) (Listed waiting) }
    ensures step { (d : Disk) (roots : List ObjName) (depth k : ℕ) (commit : List ℕ) (found waiting found' waiting' : List (ℕ × List ℕ)) → Nears (Stores d) (Contains roots) depth (Listed found) (Listed waiting) → LooksUp (Stores d) depth k commit (Listed found) (Listed waiting) (Listed found') (Listed waiting') → Nears (Stores d) (Contains roots) depth (Listed found') (Listed waiting') }
    ensures ends { (d : Disk) (roots : List ObjName) (depth : ℕ) (found waiting : List (ℕ × List ℕ)) → Nears (Stores d) (Contains roots) depth (Listed found) (Listed waiting) → ((k : ℕ) (commit : List ℕ) → Contains waiting (k, commit) → depth ≤ k) → (k : ℕ) (commit : List ℕ) → Line (Stores d) (Contains roots) depth k commit → IsIn (Stores d) (name_of Commit commit) → (j : ℕ) × (j ≤ k) × Contains found (j, commit) }
{}

/// Then what says that names are marked so holds once the roots and these commits are, and where one is looked into; and where nothing
/// waits, exactly those of the store are marked that are reachable. What of the store isn't marked then is to be removed: nothing that
/// stays names it, and once it is gone exactly what wasn't reachable is.
pub fn marks_find()
    ensures begins { (d : Disk) (roots marked waiting : List ObjName) (depth : ℕ) (found left : List (ℕ × List ℕ)) → Nears (Stores d) (Contains roots) depth (Listed found) (Listed left) → ((k : ℕ) (commit : List ℕ) → Contains left (k, commit) → depth ≤ k) → ((o : ObjName) → Contains marked o → Contains roots o ⊎ ((k : ℕ) × (commit : List ℕ) × Contains found (k, commit) × (o ≡ name_of Commit commit))) → ((o : ObjName) → Contains roots o → IsIn (Stores d) o → Contains marked o) → ((k : ℕ) (commit : List ℕ) → Contains found (k, commit) → Contains marked (name_of Commit commit)) → ((o next : ObjName) → Contains marked o → Refers (Stores d) o next → Contains waiting o) → Marks (Stores d) (Contains roots) depth (Contains marked) (Contains waiting) }
    ensures step { (d : Disk) (roots marked waiting marked' waiting' : List ObjName) (depth : ℕ) (o : ObjName) → Marks (Stores d) (Contains roots) depth (Contains marked) (Contains waiting) → LooksInto (Stores d) o (Contains marked) (Contains waiting) (Contains marked') (Contains waiting') → Marks (Stores d) (Contains roots) depth (Contains marked') (Contains waiting') }
    ensures ends { (d : Disk) (roots marked : List ObjName) (depth : ℕ) → Marks (Stores d) (Contains roots) depth (Contains marked) (Contains []) → (o : ObjName) → IsIn (Stores d) o → Contains marked o ↔ Reachable (Stores d) (Contains roots) depth o }
    ensures roots { (d : Disk) (roots marked doomed : List ObjName) (depth : ℕ) → Marks (Stores d) (Contains roots) depth (Contains marked) (Contains []) → AreDoomed (Stores d) (Contains marked) (Contains doomed) → (o : ObjName) → Contains roots o → Contains doomed o → ⊥ }
    ensures kept { (d : Disk) (roots marked doomed : List ObjName) (depth : ℕ) → Marks (Stores d) (Contains roots) depth (Contains marked) (Contains []) → AreDoomed (Stores d) (Contains marked) (Contains doomed) → (o next : ObjName) → (Contains doomed o → ⊥) → Refers (Stores d) o next → Contains doomed next → ⊥ }
    ensures pruned { (d now : Disk) (roots marked doomed : List ObjName) (depth : ℕ) → Marks (Stores d) (Contains roots) depth (Contains marked) (Contains []) → AreDoomed (Stores d) (Contains marked) (Contains doomed) → IsSplit (Stores d) (Stores now) (Contains doomed) → IsPruned (Stores d) (Stores now) (Contains roots) depth (Contains doomed) }
{}
