ghost use Rattle.std.specs.Prelude.{◌<◌, ◌≤◌};

/// An actor, and how often it acts before the next does.
#[derive(Clone, Copy, Debug, PartialEq, Eq)]
pub struct Turns {
    /// 0 to 15.
    pub actor: u8,
    /// 1 to 100,000.
    pub count: u32,
    ghost known: { actor < 16 },
    ghost some: { 1 ≤ count },
    ghost few: { count ≤ 100000 },
}
