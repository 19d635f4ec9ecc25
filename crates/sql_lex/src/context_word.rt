//! The words that have a meaning in their place alone, and are names elsewhere.

ghost use Rattle.std.specs.Prelude.{◌≡◌};
ghost use Rattle.sql_lex.specs.Words.{letters_of};

/// A word that has a meaning in its place alone.
#[derive(Clone, Copy, Debug, PartialEq, Eq)]
pub enum ContextWord {
    Committed,
    DatabaseSnapshot,
    Dbo,
    Filename,
    Isolation,
    Level,
    LockTimeout,
    Name,
    Read,
    Serializable,
    Snapshot,
    Work,
}

impl ContextWord {
    /// The word in lower case.
    pub fn text(self) -> &'static str
        ensures { result.now ≡ letters_of self }
    {
        match self {
            ContextWord::Committed => "committed",
            ContextWord::DatabaseSnapshot => "database_snapshot",
            ContextWord::Dbo => "dbo",
            ContextWord::Filename => "filename",
            ContextWord::Isolation => "isolation",
            ContextWord::Level => "level",
            ContextWord::LockTimeout => "lock_timeout",
            ContextWord::Name => "name",
            ContextWord::Read => "read",
            ContextWord::Serializable => "serializable",
            ContextWord::Snapshot => "snapshot",
            ContextWord::Work => "work",
        }
    }
}
