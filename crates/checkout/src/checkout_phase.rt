/// Why a tree isn't checked out: something stands at the path already.
#[derive(Clone, Copy, Debug, PartialEq, Eq)]
pub struct DestExists;

/// What the next step does.
#[derive(Clone, Copy, Debug, PartialEq, Eq)]
pub(crate) enum CheckoutPhase {
    /// Looks whether something stands at the path; if not, makes the folder there.
    Begin,
    /// Makes the node of the map with this number.
    Make(usize),
    /// Nothing: the folder is the map.
    Ended,
    /// Nothing: something stood at the path.
    Refused,
}
