//! Tables whose lines are tried one by one: a text, and what is wanted of it after ` ⇒ `.
use crate::conditions::put_condition;
use crate::facets::put_facet;
use crate::groups::put_group;
use crate::pages::put_page;
use crate::ranked::put_ranked;
use crate::shown::put_shown;
use crate::weights::put_case;
use std::alloc::Global;
use std::test::Fail;

/// What the texts of a table are.
pub(crate) enum Trial {
    /// Hits and weights, which come to the weights that rankers give.
    Weights,
    /// Hits, weights, values and an expression, which come to the weight that it gives.
    Ranked,
    /// A condition, which comes to the rows of which it holds.
    Condition,
    /// A page of the rows of this name.
    Page(&'static str),
    /// The groups of rows.
    Groups,
    /// Which groups are shown.
    Shown,
    /// The facet of rows.
    Facet,
}

/// Appends what a text comes to.
fn put_told(alloc: Global, text: &str, trial: &Trial, into: &mut String) -> Option<()> {
    match trial {
        Trial::Weights => put_case(alloc, text, into),
        Trial::Ranked => put_ranked(alloc, text, into),
        Trial::Condition => put_condition(alloc, text, into),
        Trial::Page(rows) => put_page(alloc, text, rows, into),
        Trial::Groups => put_group(alloc, text, into),
        Trial::Shown => put_shown(alloc, text, into),
        Trial::Facet => put_facet(alloc, text, into),
    }
}

/// Whether a line's text comes to what stands behind it. `found` is what it comes to.
fn is_right(alloc: Global, line: &str, trial: &Trial, found: &mut String) -> Option<bool> {
    found.clear();
    let (text, wanted) = line.split_once(" ⇒")?;
    put_told(alloc, text, trial, found)?;
    Some(found.trim() == wanted.trim())
}

/// The first line of tables that isn't right.
fn first_wrong<'t>(
    alloc: Global,
    tables: &[(&'t str, Trial)],
    found: &mut String,
) -> Option<&'t str> {
    for (table, trial) in tables {
        for line in table.lines() {
            if is_right(alloc, line, trial, found) != Some(true) {
                return Some(line);
            }
        }
    }
    None
}

/// Fails with a line that isn't right, where there is one, and with what was found.
pub(crate) fn none_wrong(line: Option<&str>, found: &str) -> Result<(), Fail> {
    let Some(line) = line else {
        return Ok(());
    };
    Err(Fail::new(format_args!("{found} ⇐ {line}")))
}

/// Fails with the first line that isn't right.
pub(crate) fn try_tables(alloc: Global, tables: &[(&str, Trial)]) -> Result<(), Fail> {
    let mut found = String::new(alloc);
    let wrong = first_wrong(alloc, tables, &mut found);
    none_wrong(wrong, found.as_str())
}
