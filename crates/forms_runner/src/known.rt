use sheet::Stop;

/// What was read, where it is such a thing. Why it isn't is no matter here.
pub fn known<T, E: Drop>(read: Result<T, E>) -> Result<T, Stop> {
    match read {
        Ok(value) => Ok(value),
        Err(_) => Err(Stop::Unknown),
    }
}
