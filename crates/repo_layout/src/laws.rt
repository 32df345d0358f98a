//! Laws of the layout, each as a function whose contract is the law.
ghost use Rattle.std.specs.Prelude.{◌≡◌, ◌≢◌, ◌<◌, ◌^◌, ◌++◌, List, ℕ, take};
ghost use Rattle.ost_types.specs.Path.{Name, Path};
ghost use Rattle.ost_types.specs.Csum.{hex_of};
ghost use Rattle.ost_types.specs.declared.object.Kind.{Kind};
ghost use Rattle.repo_layout.specs.RefFile.{IsSum};
ghost use Rattle.repo_layout.specs.Paths.{config_path, deploy_path, mark_path, object_path, objects_folder_path, ref_path, stage_path};
ghost use Rattle.std.specs.Prelude.{◌∷◌, codes};
ghost use Rattle.repo_layout.specs.BootPaths.{boot_folder_path, boot_link_path, boot_link_stage_path, checkout_path, kernel_path, loader_folder_path, loader_path, loader_stage_path, origin_path, staged_path, summary_path};
ghost use Rattle.repo_layout.specs.Place.{place, IsAt, IsOutsideEtc, Config, Stage, Ref, ObjectsFolder, Object, Mark, Summary, Deployment, Etc, Origin, Staged, BootLink, BootLinkStage, BootFolder, Loader, LoaderStage, LoaderFolder, KernelCopy, Checkout};

/// Each path of a thing has the thing's place, no other path has it, and paths of different places are different.
pub fn places_of_things()
    ensures config { place config_path ≡ Config }
    ensures stages { (actor : ℕ) (rest : Path) → actor < 2 ^ 8 → place (stage_path actor ++ rest) ≡ Stage actor }
    ensures refs { (name : List ℕ) → place (ref_path name) ≡ Ref name }
    ensures folders { (sum : List ℕ) → place (objects_folder_path sum) ≡ ObjectsFolder (take 2 (hex_of sum)) }
    ensures objects { (kind : Kind) (sum : List ℕ) → IsSum sum → place (object_path kind sum) ≡ Object kind sum }
    ensures marks { (commit : List ℕ) → IsSum commit → place (mark_path commit) ≡ Mark commit }
    ensures summary { place summary_path ≡ Summary }
    ensures deployments { (os : Name) (commit : List ℕ) (serial : ℕ) (rest : Path) → IsSum commit → serial < 2 ^ 32 → IsOutsideEtc rest → place (deploy_path os commit serial ++ rest) ≡ Deployment os commit serial rest }
    ensures changeable { (os : Name) (commit : List ℕ) (serial : ℕ) (rest : Path) → IsSum commit → serial < 2 ^ 32 → place (deploy_path os commit serial ++ codes "etc" ∷ rest) ≡ Etc os commit serial rest }
    ensures origins { (os : Name) (commit : List ℕ) (serial : ℕ) (rest : Path) → IsSum commit → serial < 2 ^ 32 → place (origin_path os commit serial ++ rest) ≡ Origin os commit serial }
    ensures back { (p : Path) → IsAt (place p) p }
    ensures apart { (p q : Path) → place p ≢ place q → p ≢ q }
{}

/// The same of what stands for the boot loader, and of checkouts.
pub fn places_of_boots()
    ensures staged { place staged_path ≡ Staged }
    ensures links { (version : ℕ) → version < 2 → place (boot_link_path version) ≡ BootLink version }
    ensures link_stage { place boot_link_stage_path ≡ BootLinkStage }
    ensures link_folders { (version sub : ℕ) (rest : Path) → version < 2 → sub < 2 → place (boot_folder_path version sub ++ rest) ≡ BootFolder version sub rest }
    ensures loader { place loader_path ≡ Loader }
    ensures loader_stage { place loader_stage_path ≡ LoaderStage }
    ensures loader_folders { (version : ℕ) (rest : Path) → version < 2 → place (loader_folder_path version ++ rest) ≡ LoaderFolder version rest }
    ensures kernels { (os : Name) (bootcsum : List ℕ) (rest : Path) → IsSum bootcsum → place (kernel_path os bootcsum ++ rest) ≡ KernelCopy os bootcsum rest }
    ensures checkouts { (name : Name) (rest : Path) → place (checkout_path name ++ rest) ≡ Checkout name rest }
{}

/// Things of one kind with one path have one name.
pub fn names_of_paths()
    ensures stages { (a b : ℕ) → a < 2 ^ 8 → b < 2 ^ 8 → stage_path a ≡ stage_path b → a ≡ b }
    ensures refs { (a b : List ℕ) → ref_path a ≡ ref_path b → a ≡ b }
    ensures objects { (k l : Kind) (a b : List ℕ) → IsSum a → IsSum b → object_path k a ≡ object_path l b → (k ≡ l) × (a ≡ b) }
    ensures marks { (a b : List ℕ) → IsSum a → IsSum b → mark_path a ≡ mark_path b → a ≡ b }
    ensures deployments { (o p : Name) (a b : List ℕ) (m n : ℕ) → IsSum a → IsSum b → m < 2 ^ 32 → n < 2 ^ 32 → deploy_path o a m ≡ deploy_path p b n → (o ≡ p) × (a ≡ b) × (m ≡ n) }
    ensures origins { (o p : Name) (a b : List ℕ) (m n : ℕ) → IsSum a → IsSum b → m < 2 ^ 32 → n < 2 ^ 32 → origin_path o a m ≡ origin_path p b n → (o ≡ p) × (a ≡ b) × (m ≡ n) }
    ensures kernels { (o p : Name) (a b : List ℕ) → IsSum a → IsSum b → kernel_path o a ≡ kernel_path p b → (o ≡ p) × (a ≡ b) }
{}
