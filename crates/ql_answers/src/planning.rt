//! What a statement wants, or why it is refused: each statement by its text, the configuration and the session's state alone.
ghost use Rattle.std.specs.Prelude.{◌≡◌, option_copied};
ghost use Rattle.ql_answers.specs.Transactions.{commit_of};
ghost use Rattle.ql_answers.specs.steps.Planning.{Planned, PlansAutocommit, PlansDescribe, PlansJob, PlansSelect, PlansStatus, ShowsOr};

use crate::indexes::{Catalog, served};
use crate::plan::Plan;
use crate::showing::{
    current_database, databases, description, meta, tables, variable, variables, warnings,
};
use crate::state::State;
use crate::turn::Turn;
use crate::writing::{plan_delete, plan_insert, plan_truncate};
use ql_refusals::{Refusal, value_out_of_range};
use ql_tree::{Select, Statement};
use reply_rows::ResultSet;
use srch_base::{Items, Name, NoMemory, Or};
use std::alloc::Global;
use step_history::Job;

/// What a statement wants.
pub(crate) fn plan<T: Catalog>(
    alloc: Global,
    catalog: &T,
    state: &State,
    statement: &Statement,
) -> Result<Plan, Or<Refusal>>
    ensures { Planned (T.confs catalog.now) state.now statement.now result }
{
    match statement {
        Statement::Select(select) => plan_select(alloc, catalog, select),
        Statement::SelectVar { name, limit } => show(variable(alloc, name.as_bytes(), *limit)),
        Statement::SelectDatabase => show(current_database(alloc)),
        Statement::Insert {
            replace,
            index,
            columns,
            rows,
        } => plan_insert(
            alloc,
            catalog,
            state,
            *replace,
            index.as_bytes(),
            named(columns),
            rows.as_slice(),
        ),
        Statement::Delete { index, ids } => {
            plan_delete(alloc, catalog, state, index.as_bytes(), ids)
        }
        Statement::Begin | Statement::StartTransaction => Ok(commit(state, Turn::Opens)),
        Statement::Commit => Ok(commit(state, Turn::Ends)),
        Statement::Rollback => Ok(Plan::Agree(Turn::Ends)),
        Statement::SetAutocommit(value) => plan_autocommit(state, *value),
        Statement::SetNames(_) | Statement::SetOther { .. } => Ok(Plan::Agree(Turn::Stays)),
        Statement::TruncateRtindex(index) => {
            plan_truncate(alloc, catalog, state, index.as_bytes())
        }
        Statement::Describe(index) => plan_describe(alloc, catalog, index.as_bytes()),
        Statement::ShowIndexStatus(index) => plan_status(catalog, index.as_bytes()),
        Statement::ShowTables => show(tables(alloc, catalog)),
        Statement::ShowWarnings => show(warnings(alloc)),
        Statement::ShowVariables => show(variables(alloc, state.autocommit)),
        Statement::ShowDatabases => show(databases(alloc)),
        Statement::FlushRamchunk(index) | Statement::FlushRtindex(index) => {
            plan_job(catalog, index.as_bytes(), Job::Flush)
        }
        Statement::OptimizeIndex(index) => plan_job(catalog, index.as_bytes(), Job::Optimize),
        Statement::ShowMeta => show(meta(alloc, &state.meta)),
    }
}

/// A commit of what is pending, if anything is; then the transaction turns so.
fn commit(state: &State, turn: Turn) -> Plan
    ensures { result ≡ commit_of state.now.pending turn }
{
    match &state.pending {
        Some(pending) => Plan::Commit {
            index: pending.place(),
            turn,
        },
        None => Plan::Agree(turn),
    }
}

/// SET AUTOCOMMIT: 1 commits what is pending.
fn plan_autocommit(state: &State, value: u64) -> Result<Plan, Or<Refusal>>
    ensures { PlansAutocommit state.now value result }
{
    match value {
        0 => Ok(Plan::Agree(Turn::Sets(false))),
        1 => Ok(commit(state, Turn::Sets(true))),
        _ => Err(Or::Fault(value_out_of_range(b"autocommit"))),
    }
}

/// SHOW INDEX STATUS.
fn plan_status<T: Catalog>(catalog: &T, name: &[u8]) -> Result<Plan, Or<Refusal>>
    ensures { PlansStatus (T.confs catalog.now) name.now result }
{
    let index = served(catalog, name)?;
    Ok(Plan::Status { index })
}

/// The names of the columns, as a slice.
fn named(columns: &Option<Items<Name>>) -> Option<&[Name]>
    ensures { option_copied result ≡ columns.now }
{
    match columns {
        Some(names) => Some(names.as_slice()),
        None => None,
    }
}

/// A statement that shows this.
fn show(set: Result<ResultSet, NoMemory>) -> Result<Plan, Or<Refusal>>
    ensures { ShowsOr set result }
{
    Ok(Plan::Show(set?))
}

fn plan_select<T: Catalog>(alloc: Global, catalog: &T, select: &Select) -> Result<Plan, Or<Refusal>>
    ensures { PlansSelect (T.confs catalog.now) select.now result }
{
    let index = served(catalog, select.index.as_bytes())?;
    let selection = ql_select::select(alloc, catalog.conf(index), select)?;
    Ok(Plan::Search { index, selection })
}

fn plan_describe<T: Catalog>(alloc: Global, catalog: &T, name: &[u8]) -> Result<Plan, Or<Refusal>>
    ensures { PlansDescribe (T.confs catalog.now) name.now result }
{
    let index = served(catalog, name)?;
    show(description(alloc, &catalog.conf(index).schema))
}

/// FLUSH and OPTIMIZE.
fn plan_job<T: Catalog>(catalog: &T, name: &[u8], job: Job) -> Result<Plan, Or<Refusal>>
    ensures { PlansJob (T.confs catalog.now) name.now job result }
{
    let index = served(catalog, name)?;
    Ok(Plan::Reshape { index, job })
}
