//! What is made on the way.

use ost_types::Csum;

/// By what a folder names what stands in it: a file by its object, a folder by its entries and its attributes.
#[derive(Clone, Copy, Debug)]
pub enum Sums {
    File(Csum),
    Folder { tree: Csum, meta: Csum },
}
