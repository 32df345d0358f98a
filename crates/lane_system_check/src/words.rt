/// A command of the family. Each answers its number.
#[derive(Drop)]
pub enum WaitWords {
    /// It is answered at once.
    Echo { number: u8 },
    /// It takes so many steps, and holds the ref lock in them if it is to.
    Wait { number: u8, holds: bool },
}
