//! Texts of paths.

/// A text's folder and its last name. The names `.` and none stand for no step.
pub fn split_last(text: &str) -> (&str, &str) {
    match text.rsplit_once('/') {
        Some((folder, name)) => (folder, name),
        None => ("", text),
    }
}

/// Whether a name of a text stands for no step.
pub fn is_no_step(name: &str) -> bool {
    name.is_empty() || name == "."
}
