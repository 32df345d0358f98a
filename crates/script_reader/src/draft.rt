use ost_forms::TreeItem;
use ost_types::Items;
use script::{Command, Lane};

/// The sections that are complete.
#[derive(Drop)]
pub struct Sections {
    pub trees: Vec<Items<TreeItem>>,
    pub lanes: Vec<Lane>,
}

/// What the lines of a script have said so far, with the section that is open.
#[derive(Drop)]
pub enum Draft {
    Start,
    Between(Sections),
    Tree(Sections, Items<TreeItem>),
    Lane(Sections, Vec<Command>),
}
