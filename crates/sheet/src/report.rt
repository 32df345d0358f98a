use crate::bytes::add_shown;
use crate::stop::Stop;
use std::alloc::Global;

/// What came of sheets: a line for each part with how many calls it made, and lines of what differs.
#[derive(Drop)]
pub struct Report {
    pub text: Vec<u8>,
    /// How many answers are others, and rows that are none.
    pub wrong: u32,
    /// The name of the part, and the calls since it began.
    part: Vec<u8>,
    calls: u32,
}

impl Report {
    pub fn new(alloc: Global) -> Report {
        Report {
            text: Vec::new(alloc),
            wrong: 0,
            part: Vec::new(alloc),
            calls: 0,
        }
    }

    pub(crate) fn count(&mut self) {
        self.calls = self.calls.saturating_add(1);
    }

    /// A part of this name begins; the one before it ends.
    pub(crate) fn begin_part(&mut self, alloc: Global, name: &str) -> Result<(), Stop> {
        self.end_part(alloc)?;
        self.part.extend_from_slice(name.as_bytes())?;
        Ok(())
    }

    pub(crate) fn end_part(&mut self, alloc: Global) -> Result<(), Stop> {
        if !self.part.is_empty() {
            self.text.extend_from_slice(&self.part)?;
            let count = format!(in alloc; ": {}\n", self.calls)?;
            self.text.extend_from_slice(count.as_bytes())?;
        }
        self.part.clear();
        self.calls = 0;
        Ok(())
    }

    /// What is wrong with a line.
    pub(crate) fn add_wrong(&mut self, alloc: Global, line: u32, what: &str) -> Result<(), Stop> {
        self.wrong = self.wrong.saturating_add(1);
        let line = format!(in alloc; "  line {line}: {what}\n")?;
        self.text.extend_from_slice(line.as_bytes())?;
        Ok(())
    }

    /// The call in this line has another answer.
    pub(crate) fn add_other(
        &mut self,
        alloc: Global,
        line: u32,
        name: &str,
        found: &[u8],
    ) -> Result<(), Stop> {
        self.add_wrong(alloc, line, name)?;
        self.text.extend_from_slice(b"    answers ")?;
        add_shown(alloc, &mut self.text, found)?;
        self.text.push(b'\n')?;
        Ok(())
    }
}
