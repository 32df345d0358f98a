//! A law of swaps, as a function whose contract is the law.
ghost use Rattle.boot_swap.specs.Lists.{LeavesList};

/// What a crash leaves at any moment of a swap is a list, as its boot entries are read: the one that each crash left as the swap began,
/// or the new one.
pub fn leaves_a_list()
    ensures { LeavesList }
{}
