ghost use Rattle.std.specs.Prelude.{◌≡◌, ◌<◌, ◌^◌};

/// The bounds on what a repository takes in. Tests make them smaller.
#[derive(Clone, Copy, Debug, PartialEq, Eq)]
pub struct Limits {
    /// The most objects of a store.
    pub objects: u32,
    /// The most paths of a tree.
    pub paths: u32,
    /// The most bytes of a file's content.
    pub content: u64,
    ghost content_bound: { content < 2 ^ 62 },
}

impl Limits {
    pub fn standard() -> Limits
        ensures objects { result.objects ≡ 1048576 }
        ensures paths { result.paths ≡ 524288 }
        ensures content { result.content ≡ 268435456 }
    {
        Limits {
            objects: 1_048_576,
            paths: 524_288,
            content: 268_435_456,
        }
    }
}
