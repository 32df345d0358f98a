//! What was counted, in lines.
use crate::stop::Stop;
use counted_files::{Call, Calls, Most};
use std::alloc::Global;

#[derive(Drop)]
pub struct Report {
    alloc: Global,
    /// A line for each work.
    pub text: String,
    /// Of each work that wasn't stepped to its end, or of which a step made too many calls, why.
    pub wrong: String,
}

impl Report {
    pub fn new(alloc: Global) -> Report {
        Report {
            alloc,
            text: String::new(alloc),
            wrong: String::new(alloc),
        }
    }

    /// A line: how many steps there were, and the calls of the one that reads most and of the one that changes most.
    pub fn add(&mut self, name: &str, most: Most) -> Result<(), Stop> {
        self.text.push_str(name)?;
        let steps = format!(in self.alloc; ": {} steps", most.steps)?;
        self.text.push_str(steps.as_str())?;
        self.add_calls("reads", most.reading.reading, most.reading)?;
        self.add_calls("changes", most.changing.changing, most.changing)?;
        self.text.push_str("\n")?;
        if most.is_within() {
            return Ok(());
        }
        self.add_wrong(name, "a step makes too many calls")
    }

    fn add_calls(&mut self, what: &str, count: u32, calls: Calls) -> Result<(), Stop> {
        let counted = format!(in self.alloc; "; {what} {count}")?;
        self.text.push_str(counted.as_str())?;
        if count == 0 {
            return Ok(());
        }
        self.text.push_str(" by")?;
        self.add_names(&calls.first)
    }

    fn add_names(&mut self, first: &[Option<Call>]) -> Result<(), Stop> {
        for call in first {
            if let Some(call) = call {
                self.add_name(*call)?;
            }
        }
        Ok(())
    }

    fn add_name(&mut self, call: Call) -> Result<(), Stop> {
        self.text.push_str(" ")?;
        self.text.push_str(call.name())?;
        Ok(())
    }

    fn add_wrong(&mut self, name: &str, why: &str) -> Result<(), Stop> {
        self.wrong.push_str(name)?;
        self.wrong.push_str(": ")?;
        self.wrong.push_str(why)?;
        self.wrong.push_str("\n")?;
        Ok(())
    }

    /// Work that wasn't stepped to its end.
    pub fn add_stop(&mut self, name: &str, stop: Stop) -> Result<(), Stop> {
        match stop {
            Stop::Disk(_) => self.add_wrong(name, "the disk refused a call"),
            Stop::Unmade => self.add_wrong(name, "it couldn't be made"),
            Stop::Endless => self.add_wrong(name, "it doesn't end"),
            Stop::NoMemory => self.add_wrong(name, "out of memory"),
        }
    }
}
