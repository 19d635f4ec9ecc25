//! The reserved words of the Transact-SQL subset, which are no names unless brackets stand around them.

ghost use Rattle.std.specs.Prelude.{◌≡◌, ◌↔◌, IsTrue};
ghost use Rattle.sql_lex.specs.Words.{text_of, keyword_of, is_same};

use page_base::Name;

/// A reserved word.
#[derive(Clone, Copy, Debug, PartialEq, Eq)]
pub enum Keyword {
    And,
    As,
    Asc,
    Begin,
    Between,
    Bigint,
    By,
    Clustered,
    Commit,
    Constraint,
    Count,
    Create,
    Database,
    Delete,
    Desc,
    Drop,
    From,
    In,
    Insert,
    Int,
    Into,
    Is,
    Key,
    Not,
    Null,
    Of,
    On,
    Or,
    Order,
    Primary,
    Restore,
    Rollback,
    Select,
    Set,
    Sum,
    Table,
    Tran,
    Transaction,
    Update,
    Use,
    Values,
    Varchar,
    Where,
}

const KEYWORDS: [Keyword; 43] = [
    Keyword::And,
    Keyword::As,
    Keyword::Asc,
    Keyword::Begin,
    Keyword::Between,
    Keyword::Bigint,
    Keyword::By,
    Keyword::Clustered,
    Keyword::Commit,
    Keyword::Constraint,
    Keyword::Count,
    Keyword::Create,
    Keyword::Database,
    Keyword::Delete,
    Keyword::Desc,
    Keyword::Drop,
    Keyword::From,
    Keyword::In,
    Keyword::Insert,
    Keyword::Int,
    Keyword::Into,
    Keyword::Is,
    Keyword::Key,
    Keyword::Not,
    Keyword::Null,
    Keyword::Of,
    Keyword::On,
    Keyword::Or,
    Keyword::Order,
    Keyword::Primary,
    Keyword::Restore,
    Keyword::Rollback,
    Keyword::Select,
    Keyword::Set,
    Keyword::Sum,
    Keyword::Table,
    Keyword::Tran,
    Keyword::Transaction,
    Keyword::Update,
    Keyword::Use,
    Keyword::Values,
    Keyword::Varchar,
    Keyword::Where,
];

// Their letters, in the same order.
const TEXTS: [&str; 43] = [
    "and",
    "as",
    "asc",
    "begin",
    "between",
    "bigint",
    "by",
    "clustered",
    "commit",
    "constraint",
    "count",
    "create",
    "database",
    "delete",
    "desc",
    "drop",
    "from",
    "in",
    "insert",
    "int",
    "into",
    "is",
    "key",
    "not",
    "null",
    "of",
    "on",
    "or",
    "order",
    "primary",
    "restore",
    "rollback",
    "select",
    "set",
    "sum",
    "table",
    "tran",
    "transaction",
    "update",
    "use",
    "values",
    "varchar",
    "where",
];

impl Keyword {
    /// The word in lower case.
    pub fn text(self) -> &'static str
        ensures { result.now ≡ text_of self }
    {
        TEXTS[self as usize]
    }

    /// The reserved word with the letters of a name, if there is one.
    pub fn read(name: &Name) -> Option<Keyword>
        ensures { result ≡ keyword_of name.now }
    {
        KEYWORDS
            .iter()
            .copied()
            .find(|word| name.is_text(word.text().as_bytes()))
    }

    /// Whether two reserved words are one.
    pub fn is_same(self, other: Keyword) -> bool
        ensures test { result ≡ is_same self other }
        ensures is { IsTrue result ↔ (self ≡ other) }
    {
        self == other
    }
}
