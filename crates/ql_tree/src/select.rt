//! The parts of a SELECT, in the order of the text. Names are in small letters, texts have their escapes resolved, and whole
//! numbers keep their sign, so a value says no more than the text and no less. Lists are empty, and options none, where the
//! text has no such part.

use srch_base::{Items, Name, Text};

/// A SELECT from an index.
///
/// None and an empty list stand for a part that the text doesn't have; `items` has one item or more.
#[derive(Drop, PartialEq, Eq)]
pub struct Select {
    pub items: Items<SelectItem>,
    pub index: Name,
    /// `WHERE`
    pub conds: Items<Cond>,
    /// `GROUP BY`
    pub group: Option<Name>,
    /// `WITHIN GROUP ORDER BY`
    pub within: Items<SortKey>,
    pub having: Option<Having>,
    /// `ORDER BY`
    pub order: Items<SortKey>,
    pub limit: Option<LimitPart>,
    /// `OPTION`
    pub options: Items<SelectOption>,
    pub facets: Items<FacetPart>,
}

/// What is selected.
#[derive(Drop, PartialEq, Eq)]
pub enum SelectItem {
    /// `*`
    All,
    One {
        expr: SelectExpr,
        alias: Option<Name>,
    },
}

/// An item's expression.
#[derive(Drop, PartialEq, Eq)]
pub enum SelectExpr {
    Column(Name),
    /// `COUNT(*)`
    CountAll,
    CountDistinct(Name),
    /// `MIN`
    Least(Name),
    /// `MAX`
    Greatest(Name),
    Sum(Name),
    /// `WEIGHT()`
    Weight,
    /// `GROUPBY()`
    GroupBy,
}

/// A condition of WHERE.
#[derive(Drop, PartialEq, Eq)]
pub enum Cond {
    Match(Text),
    Compare {
        name: Name,
        op: Comparison,
        value: i128,
    },
    /// `[NOT] IN`
    Among {
        name: Name,
        values: Items<i128>,
        negated: bool,
    },
    Between {
        name: Name,
        low: i128,
        high: i128,
    },
}

/// How two numbers compare.
#[derive(Clone, Copy, PartialEq, Eq)]
pub enum Comparison {
    Equal,
    NotEqual,
    Less,
    Greater,
    AtMost,
    AtLeast,
}

/// What a sort key looks at.
#[derive(Drop, PartialEq, Eq)]
pub enum SortName {
    Column(Name),
    Weight,
    CountAll,
}

/// A sort key; `descending` is none where the text says neither `ASC` nor `DESC`.
#[derive(Drop, PartialEq, Eq)]
pub struct SortKey {
    pub by: SortName,
    pub descending: Option<bool>,
}

/// A condition on groups. It compares no weight.
#[derive(Drop, PartialEq, Eq)]
pub struct Having {
    pub left: SortName,
    pub op: Comparison,
    pub value: i128,
}

/// `LIMIT first [, second]`
#[derive(Clone, Copy, PartialEq, Eq)]
pub struct LimitPart {
    pub first: u64,
    pub second: Option<u64>,
}

/// A facet. Its order looks at no weight.
#[derive(Drop, PartialEq, Eq)]
pub struct FacetPart {
    pub column: Name,
    pub order: Option<SortKey>,
    pub limit: Option<LimitPart>,
}

/// `name = value` of OPTION
#[derive(Drop, PartialEq, Eq)]
pub struct SelectOption {
    pub name: Name,
    pub value: OptionValue,
}

/// The value of an option.
#[derive(Drop, PartialEq, Eq)]
pub enum OptionValue {
    Name(Name),
    Number(u64),
    Text(Text),
    /// `(name = n, ..)`
    List(Items<(Name, u64)>),
    /// `name(text)`
    Call { name: Name, text: Text },
}
