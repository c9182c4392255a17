//! The statements of SphinxQL, one variant a form. What a variant holds is what the text says, before anybody looks at an
//! index: whether names exist, and whether numbers are in range, is found out later.

use crate::select::Select;
use srch_base::{Items, Name, Text};

/// The most statements of a packet.
pub const MAX_STATEMENTS: usize = 32;

/// A statement of SphinxQL. Names are in small letters, and a system variable's stands without its `@@`.
#[derive(Drop, PartialEq, Eq)]
pub enum Statement {
    Select(Select),
    /// `SELECT @@name [LIMIT n]`
    SelectVar {
        name: Name,
        limit: Option<u64>,
    },
    /// `SELECT DATABASE()`
    SelectDatabase,
    /// `INSERT` or `REPLACE`
    Insert {
        replace: bool,
        index: Name,
        columns: Option<Items<Name>>,
        rows: Items<Items<Val>>,
    },
    Delete {
        index: Name,
        ids: Ids,
    },
    Begin,
    StartTransaction,
    Commit,
    Rollback,
    /// `SET AUTOCOMMIT = n`
    SetAutocommit(u64),
    /// `SET NAMES ..`
    SetNames(Plain),
    /// Any other `SET`
    SetOther {
        scope: Scope,
        target: Target,
        value: SetValue,
    },
    FlushRamchunk(Name),
    FlushRtindex(Name),
    OptimizeIndex(Name),
    TruncateRtindex(Name),
    Describe(Name),
    ShowIndexStatus(Name),
    ShowMeta,
    ShowTables,
    ShowWarnings,
    ShowVariables,
    ShowDatabases,
}

/// A value of a row.
#[derive(Drop, PartialEq, Eq)]
pub enum Val {
    Number(i128),
    Text(Text),
}

/// The documents that a DELETE names.
#[derive(Drop, PartialEq, Eq)]
pub enum Ids {
    /// `ID = n`
    One(u64),
    /// `ID IN (n, ..)`
    Several(Items<u64>),
}

/// A name, or a text.
#[derive(Drop, PartialEq, Eq)]
pub enum Plain {
    Name(Name),
    Text(Text),
}

/// For whom a variable is set.
#[derive(Clone, Copy, PartialEq, Eq)]
pub enum Scope {
    Absent,
    Global,
    Session,
}

/// The variable that is set: `name` or `@@name`.
#[derive(Drop, PartialEq, Eq)]
pub enum Target {
    Name(Name),
    Var(Name),
}

/// What a variable is set to.
#[derive(Drop, PartialEq, Eq)]
pub enum SetValue {
    Name(Name),
    Number(i128),
    Text(Text),
    Null,
}
