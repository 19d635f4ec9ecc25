//! What the files of a name meet: the calls of them that fail, and how many written pages they may have.

ghost use Rattle.std.specs.Prelude.{◌≡◌, ◌++◌, ◌∷◌, [], Some, IfOk, OnOk, OnErr};
ghost use Rattle.mem_dev.specs.Plan.{no_rule};

use page_base::NoMemory;
use std::alloc::Global;
use std::marker::Model;

/// The failing calls to come, and the most written pages, if there is a limit.
#[derive(Drop)]
pub(crate) struct FileRule {
    due: Vec<u64>,
    limit: Option<u32>,
}

impl Model for FileRule {
    ghost use Rattle.mem_dev.specs.Plan.{Rule};

    ghost Value = { Rule };

    ghost view = { λ a. record { due = a.due.items; limit = a.limit } };
}

impl FileRule {
    /// A rule of failing calls and a limit.
    pub(crate) fn new(due: Vec<u64>, limit: Option<u32>) -> FileRule
        ensures { result ≡ record { due = due.items; limit = limit } }
    {
        FileRule { due, limit }
    }

    /// The rule of files that meet nothing.
    pub(crate) fn none(alloc: Global) -> FileRule
        ensures { result ≡ no_rule }
    {
        FileRule {
            due: Vec::new(alloc),
            limit: None,
        }
    }

    /// The same rule once more.
    pub(crate) fn copy(&self, alloc: Global) -> Result<FileRule, NoMemory>
        ensures { IfOk result (λ rule. rule ≡ self.now) }
    {
        let due = Vec::from_slice(alloc, &self.due)?;
        Ok(FileRule {
            due,
            limit: self.limit,
        })
    }

    /// Adds a failing call. After want of memory the rule is as before.
    pub(crate) fn add(&mut self, call: u64) -> Result<(), NoMemory>
        ensures ok { OnOk result (self.new ≡ record self.old { due = self.old.due ++ call ∷ [] }) }
        ensures err { OnErr result (self.new ≡ self.old) }
    {
        self.due.push(call)?;
        Ok(())
    }

    /// Sets the most written pages.
    pub(crate) fn set_limit(&mut self, pages: u32)
        ensures { self.new ≡ record self.old { limit = Some pages } }
    {
        self.limit = Some(pages);
    }

    /// The failing calls and the limit.
    pub(crate) fn into_parts(self) -> (Vec<u64>, Option<u32>)
        ensures due { result.0.items ≡ self.due }
        ensures limit { result.1 ≡ self.limit }
    {
        let FileRule { due, limit } = self;
        (due, limit)
    }
}
