ghost use Rattle.ost_types.specs.Path.{Path};
ghost use Rattle.fs_trait.specs.Seen.{Seen};
ghost use Rattle.repo_model.specs.Objects.{Store};

/// What the store of a running system is said by: which bytes its commands bring under which names, and what is asked of the
/// configuration.
pub trait Storing {
    /// The bytes by the names of their objects.
    ghost brings: { Store };

    /// By what its path shows.
    ghost config: { Seen → Type 0 };
}

/// A step, by what it may leave at each path.
pub trait Writing {
    ghost writes: { Path → Seen → Type 0 };
}
