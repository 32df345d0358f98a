/// What a task's next step waits for from outside of the system. No family asks for anything yet.
#[derive(Drop)]
pub enum Query {}
