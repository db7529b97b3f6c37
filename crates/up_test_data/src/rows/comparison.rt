//! A row, and its expected result.
use crate::rows::command_lines;
use crate::rows::courses::Course;
use crate::rows::line::cut;
use crate::rows::messages::Messages;
use crate::rows::row_fault::RowFault;
use std::alloc::{AllocError, Global};

/// The messages and the course that the rows are about.
#[derive(Drop)]
pub struct Rows {
    messages: Messages,
    course: Course,
}

impl Rows {
    pub fn new(alloc: Global) -> Result<Self, RowFault> {
        Ok(Rows {
            messages: Messages::new(alloc),
            course: Course::new(alloc)?,
        })
    }

    /// The result of a row, as text. A mark that is not one of messages is one of a course.
    fn take(&mut self, alloc: Global, row: &str, wanted: &str) -> Result<String, RowFault> {
        match cut(row) {
            ("words", text) => return command_lines::asked(alloc, text),
            ("default", _) => return command_lines::default(alloc),
            _ => {}
        }
        match self.messages.take(alloc, row, wanted) {
            Err(RowFault::Mark) => self.course.take(alloc, row),
            taken => taken,
        }
    }

    /// Reads a line that says something about the following rows.
    fn note(&mut self, alloc: Global, line: &str) -> Result<(), RowFault> {
        if line.is_empty() || line.starts_with('#') {
            return Ok(());
        }
        match self.messages.set(line) {
            Err(RowFault::Mark) => self.course.set(alloc, line),
            set => set,
        }
    }

    /// How the result of a row differs from the expected one.
    fn difference(
        &mut self,
        alloc: Global,
        row: &str,
        wanted: &str,
    ) -> Result<Option<String>, RowFault> {
        let found = self.take(alloc, row, wanted)?;
        if found.as_str() == wanted {
            return Ok(None);
        }
        Ok(Some(format!(in alloc; "wanted {wanted}, found {found}")?))
    }

    fn hold_line(&mut self, alloc: Global, line: &str) -> Result<Option<String>, RowFault> {
        match line.split_once(" =>") {
            Some((row, wanted)) => {
                self.difference(alloc, row, wanted.strip_prefix(" ").unwrap_or(wanted))
            }
            None => {
                self.note(alloc, line)?;
                Ok(None)
            }
        }
    }

    /// What is printed for a line, if it has a row that differs or cannot be read.
    pub fn fault_of(&mut self, alloc: Global, line: &str) -> Result<Option<String>, AllocError> {
        match self.hold_line(alloc, line) {
            Ok(difference) => Ok(difference),
            Err(fault) => Ok(Some(fault.to_string(alloc)?)),
        }
    }
}
