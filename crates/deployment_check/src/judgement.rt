use ost_types::FsPath;

/// What an opening tells of a deployment of the list.
#[derive(Drop, Debug)]
pub enum Judgement {
    /// It is the checkout of its commit, and its kernel's copies are the kernel's.
    Whole,
    /// Its commit isn't there whole, or its tree is none that can be deployed.
    NoDeployment,
    /// The first path of the deployment, outside its `etc`, where something else stands than the commit has there.
    NotCheckout(FsPath),
    /// Its `etc` is no folder.
    WrongKind(FsPath),
    /// The first of the copies that doesn't hold the bytes of the tree's file.
    KernelCopy(FsPath),
}
