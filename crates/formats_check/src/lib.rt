//! The tests of the formats that no case and no sheet reaches: laws of the layout, and a tree of nothing.
#![tactic(auto)]

#[cfg(test)]
mod layout;
#[cfg(test)]
mod trees;
