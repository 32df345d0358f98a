//! Laws of the disk model, each as a function whose contract is the law.
ghost use Rattle.std.specs.Prelude.{◌≡◌, ℕ, Some};
ghost use Rattle.fs_trait.specs.View.{Disk, View, settled};
ghost use Rattle.fs_trait.specs.Image.{Image, IsTree};
ghost use Rattle.fs_trait.specs.Change.{Left};

use crate::Fs;

/// What a crash left since this moment is an image of the view.
pub fn left_since_now<F: Fs>(_fs: &F)
    ensures { (v : View) (d : Disk) → F.view _fs.now ≡ Some v → Left (F.was _fs.now) (F.clock _fs.now) d → Image v d }
{}

/// A crash that finds everything synced leaves what is there: such a disk has itself as its only image.
pub fn settled_disk()
    ensures there { (d : Disk) → IsTree d → Image (settled d) d }
    ensures alone { (d e : Disk) → IsTree d → Image (settled d) e → e ≡ d }
{}

/// What a crash left is a tree, so it has itself as its only image: a second crash changes nothing.
pub fn image_of_image()
    ensures tree { (v : View) (d : Disk) → IsTree v.now → Image v d → IsTree d }
    ensures same { (v : View) (d e : Disk) → IsTree v.now → Image v d → Image (settled d) e → e ≡ d }
{}
