//! The keywords, and what the grammar has to know of each: whether it is a name nowhere, whether a statement begins with it,
//! whether SET has a form of its own for it. A keyword is found in a sorted table, in letters of either case, by binary search.
//! A new keyword has one row in the enum, one in the table here, and rows of its own in `specs/Keywords`.

ghost use Rattle.std.specs.Prelude.{◌≡◌, slice_get};
ghost use Rattle.name_table.specs.NamedValues.{value_named};
ghost use Rattle.name_table.specs.Order.{IsInOrder};
ghost use Rattle.ql_grammar.specs.Keywords.{begins_statement, is_reserved, is_set_form, keyword_words, keyword_values, keyword_named};

use name_table::{NameTable, value_at, words_of};

/// A keyword of SphinxQL. It is written in letters of either case, and never between backquotes.
#[derive(Clone, Copy, PartialEq, Eq)]
pub enum Keyword {
    And,
    As,
    Asc,
    Autocommit,
    Begin,
    Between,
    By,
    Commit,
    Count,
    Database,
    Databases,
    Delete,
    Desc,
    Describe,
    Distinct,
    Facet,
    Flush,
    From,
    Global,
    Group,
    GroupBy,
    Having,
    Id,
    In,
    Index,
    Insert,
    Into,
    Limit,
    Match,
    Max,
    Meta,
    Min,
    Names,
    Not,
    Null,
    Optimize,
    Option,
    Order,
    RamChunk,
    Replace,
    Rollback,
    RtIndex,
    Select,
    Session,
    Set,
    Show,
    Start,
    Status,
    Sum,
    Tables,
    Transaction,
    Truncate,
    Values,
    Variables,
    Warnings,
    Weight,
    Where,
    Within,
}

impl Keyword {
    /// Whether it stands for a form of SET of its own.
    pub fn is_set_form(self) -> bool
        ensures { result ≡ is_set_form self }
    {
        matches!(self, Keyword::Autocommit | Keyword::Names)
    }

    /// Whether a statement begins with it.
    pub fn begins_statement(self) -> bool
        ensures { result ≡ begins_statement self }
    {
        matches!(
            self,
            Keyword::Begin
                | Keyword::Commit
                | Keyword::Delete
                | Keyword::Describe
                | Keyword::Flush
                | Keyword::Insert
                | Keyword::Optimize
                | Keyword::Replace
                | Keyword::Rollback
                | Keyword::Select
                | Keyword::Set
                | Keyword::Show
                | Keyword::Start
                | Keyword::Truncate
        )
    }

    /// Whether it is a name nowhere. Every other keyword is one wherever the grammar has a name.
    pub fn is_reserved(self) -> bool
        ensures { result ≡ is_reserved self }
    {
        matches!(
            self,
            Keyword::And
                | Keyword::As
                | Keyword::Asc
                | Keyword::Between
                | Keyword::By
                | Keyword::Desc
                | Keyword::Distinct
                | Keyword::Facet
                | Keyword::From
                | Keyword::Group
                | Keyword::Having
                | Keyword::In
                | Keyword::Into
                | Keyword::Limit
                | Keyword::Match
                | Keyword::Not
                | Keyword::Null
                | Keyword::Option
                | Keyword::Order
                | Keyword::Select
                | Keyword::Values
                | Keyword::Where
                | Keyword::Within
        )
    }
}

macro_rules! keywords {
    ($form:ident $(, $argument:expr)*) => {
        $form!($($argument,)* {
            "and" => Keyword::And,
            "as" => Keyword::As,
            "asc" => Keyword::Asc,
            "autocommit" => Keyword::Autocommit,
            "begin" => Keyword::Begin,
            "between" => Keyword::Between,
            "by" => Keyword::By,
            "commit" => Keyword::Commit,
            "count" => Keyword::Count,
            "database" => Keyword::Database,
            "databases" => Keyword::Databases,
            "delete" => Keyword::Delete,
            "desc" => Keyword::Desc,
            "describe" => Keyword::Describe,
            "distinct" => Keyword::Distinct,
            "facet" => Keyword::Facet,
            "flush" => Keyword::Flush,
            "from" => Keyword::From,
            "global" => Keyword::Global,
            "group" => Keyword::Group,
            "groupby" => Keyword::GroupBy,
            "having" => Keyword::Having,
            "id" => Keyword::Id,
            "in" => Keyword::In,
            "index" => Keyword::Index,
            "insert" => Keyword::Insert,
            "into" => Keyword::Into,
            "limit" => Keyword::Limit,
            "match" => Keyword::Match,
            "max" => Keyword::Max,
            "meta" => Keyword::Meta,
            "min" => Keyword::Min,
            "names" => Keyword::Names,
            "not" => Keyword::Not,
            "null" => Keyword::Null,
            "optimize" => Keyword::Optimize,
            "option" => Keyword::Option,
            "order" => Keyword::Order,
            "ramchunk" => Keyword::RamChunk,
            "replace" => Keyword::Replace,
            "rollback" => Keyword::Rollback,
            "rtindex" => Keyword::RtIndex,
            "select" => Keyword::Select,
            "session" => Keyword::Session,
            "set" => Keyword::Set,
            "show" => Keyword::Show,
            "start" => Keyword::Start,
            "status" => Keyword::Status,
            "sum" => Keyword::Sum,
            "tables" => Keyword::Tables,
            "transaction" => Keyword::Transaction,
            "truncate" => Keyword::Truncate,
            "values" => Keyword::Values,
            "variables" => Keyword::Variables,
            "warnings" => Keyword::Warnings,
            "weight" => Keyword::Weight,
            "where" => Keyword::Where,
            "within" => Keyword::Within,
        })
    };
}

fn keyword_table() -> NameTable<58>
    ensures words { result ≡ keyword_words }
    ensures order { IsInOrder result }
{
    NameTable::ordered(keywords!(words_of))
}

fn keyword_at(place: u16) -> Option<Keyword>
    ensures { result ≡ slice_get keyword_values place }
{
    Some(keywords!(value_at, place, return None))
}

/// The keyword that a name is, if it is one.
pub fn keyword_named(name: &[u8]) -> Option<Keyword>
    ensures { result ≡ keyword_named name.now }
{
    match keyword_table().find(name) {
        Some(place) => keyword_at(place),
        None => None,
    }
}
