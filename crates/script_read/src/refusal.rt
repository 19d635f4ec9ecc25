//! Why a script isn't read.

ghost use Rattle.std.specs.Prelude.{◌≡◌};
ghost use Rattle.script_read.specs.declared.refusal.ScriptRefusal.TheVariants.{Memory};
ghost use Rattle.script_read.specs.Words.{text_of};

use page_base::NoMemory;
use thiserror::Error;

/// Why a line is refused. Of several reasons for one line the first counts.
#[derive(Clone, Copy, Debug, PartialEq, Eq)]
pub enum Why {
    /// When a byte is no tab and not one from 32 to 126.
    Byte,
    /// When text stands before the first session.
    Before,
    /// When a session's number isn't the next one, or is above 64.
    Session,
    /// When another line begins with a colon.
    Directive,
    /// When a line of the schedule isn't picks.
    Pick,
    /// When the pick past 1,000,000 stands there, or the statement past 20,000 begins there.
    Many,
}

impl Why {
    /// The word that stands for it.
    pub fn word(self) -> &'static str
        ensures { result.now ≡ text_of self }
    {
        match self {
            Why::Byte => "byte",
            Why::Before => "before",
            Why::Session => "session",
            Why::Directive => "directive",
            Why::Pick => "pick",
            Why::Many => "many",
        }
    }
}

/// Why a script isn't read.
#[derive(Clone, Copy, Debug, PartialEq, Eq, Error)]
pub enum ScriptRefusal {
    /// When a line, counted from 1, is the first that is refused.
    #[error("line {line} is refused")]
    Refused { line: u32, why: Why },
    /// When no memory was found.
    #[error("no memory was found")]
    Memory,
}

impl From<NoMemory> for ScriptRefusal {
    ghost from_gives = { λ _ e. e ≡ Memory };

    fn from(_: NoMemory) -> Self {
        ScriptRefusal::Memory
    }
}
