//! The laws of the deployments that boot, as functions whose contracts are the laws.
ghost use Rattle.std.specs.Prelude.{◌≡◌, ◌≤◌, ℕ, List, Contains, Some};
ghost use Rattle.ost_types.specs.declared.limits.Limits.{Limits};
ghost use Rattle.ost_types.specs.declared.object.ObjName.{ObjName};
ghost use Rattle.ost_types.specs.Path.{Path};
ghost use Rattle.fs_trait.specs.View.{Disk, View};
ghost use Rattle.fs_trait.specs.Image.{Image, IsTree};
ghost use Rattle.fs_trait.specs.Seen.{Always, shows};
ghost use Rattle.repo_layout.specs.Place.{place};
ghost use Rattle.fs_trait.specs.Effect.{Elapses};
ghost use Rattle.boot_model.specs.declared.item.DepId.{DepId};
ghost use Rattle.boot_read.specs.declared.row.BootRow.{BootRow};
ghost use Rattle.deployment_check.specs.Deployments.{IsWholeDeployment};
ghost use Rattle.rely_guarantee.specs.Books.{Books, listed_in};
ghost use Rattle.rely_guarantee.specs.Rely.{Interference, IsBoot};
ghost use Rattle.rely_guarantee.specs.Removing.{IsGuarded, next_of};
ghost use Rattle.durable_deployments.specs.Standing.{AreOwnSpared, AreSpared, AreStanding, DeploymentStands, IsDeploymentPath, IsOnTheWay, IsReached, KeepsDeployments, SparesDeployment, SparesOwn};

use fs_trait::Fs;

/// A deployment is whole on each disk that shows the same as one on which it is, where it is read.
pub fn deployments_are_read()
    ensures { (limits : Limits) (d e : Disk) (id : DepId) (bootcsum : List ℕ) → ((p : Path) → IsDeploymentPath d id bootcsum p → shows e p ≡ shows d p) → IsWholeDeployment limits d id bootcsum → IsWholeDeployment limits e id bootcsum }
{}

/// Behind a sync of all a deployment that is whole stands; it goes on to over whatever spares it; and each crash leaves it whole.
pub fn deployments_stand()
    ensures begins { (limits : Limits) (v : View) (id : DepId) (bootcsum : List ℕ) → IsTree v.now → ((p : Path) → Always v p (shows v.now p)) → IsWholeDeployment limits v.now id bootcsum → DeploymentStands limits v id bootcsum }
    ensures goes_on { (limits : Limits) (v w : View) (id : DepId) (bootcsum : List ℕ) → SparesDeployment v w id bootcsum → DeploymentStands limits v id bootcsum → DeploymentStands limits w id bootcsum }
    ensures images { (limits : Limits) (v : View) (d : Disk) (id : DepId) (bootcsum : List ℕ) → IsTree v.now → DeploymentStands limits v id bootcsum → Image v d → IsWholeDeployment limits d id bootcsum }
{}

/// On each disk that a crash leaves from a moment on the deployments of a list are whole: from any that isn't before now, and over each
/// act that spares them.
pub fn deployments_stay<F: Fs>()
    ensures begins { (limits : Limits) (rows : List BootRow) (fs : F) (v : View) (moment : ℕ) → F.view fs ≡ Some v → F.clock fs ≤ moment → AreStanding limits rows v → KeepsDeployments (F.was fs) limits rows moment v }
    ensures goes_on { (limits : Limits) (rows : List BootRow) (old new : F) (v w : View) (moment : ℕ) → F.view new ≡ Some w → Elapses (F.clock old) (F.clock new) (F.was old) (F.was new) (F.view new) → AreSpared rows v w → KeepsDeployments (F.was old) limits rows moment v → KeepsDeployments (F.was new) limits rows moment w }
{}

/// An act that spares a deployment's own paths spares the deployment, where what is removed next, if its commit leads to that, is guarded: so
/// it is of a deployment that is listed. These paths, and those on the way there, are what boots, what is deployed, or no place of the layout.
pub fn acts_spare_deployments()
    ensures one { (limits : Limits) (v w : View) (b b' : Books) (actor lane : ℕ) (id : DepId) (bootcsum : List ℕ) → Interference actor lane v b w b' → ((o : ObjName) → IsReached v.now id.commit o → Contains (next_of b) o → IsGuarded b v lane o) → DeploymentStands limits v id bootcsum → SparesOwn v w id bootcsum → SparesDeployment v w id bootcsum }
    ensures all { (limits : Limits) (rows : List BootRow) (v w : View) (b b' : Books) (actor lane : ℕ) → Interference actor lane v b w b' → ((row : BootRow) → Contains rows row → Contains (listed_in b) row.id) → AreOwnSpared rows v w → AreStanding limits rows v → AreSpared rows v w }
    ensures boots { (id : DepId) (bootcsum : List ℕ) (p : Path) → IsOnTheWay id bootcsum p → IsBoot (place p) }
{}
