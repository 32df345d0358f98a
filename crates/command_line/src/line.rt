use schedule::Turns;

/// What a command line says.
#[derive(Drop, Debug)]
pub struct Line {
    /// How many helpers there are to be: 0 to 8.
    pub helpers: u8,
    /// The schedule by which the lanes run, where one is given.
    pub schedule: Option<Vec<Turns>>,
    /// The command and its fields, as they are written.
    pub fields: Vec<String>,
}
