//! The laws.
ghost use Rattle.std.specs.Prelude.{◌≡◌, ◌+◌, ℕ, List, All, Option, Some, map, slice_get};
ghost use Rattle.command_line.specs.Modes.{Mode};
ghost use Rattle.doc_types.specs.declared.schema.Schema.{Schema};
ghost use Rattle.index_conf.specs.declared.conf.IndexConf.{IndexConf};
ghost use Rattle.program_host.specs.declared.status.Status.{Status};
ghost use Rattle.ql_answers.specs.Replies.{Reply};
ghost use Rattle.ql_answers.specs.declared.state.State.{State};
ghost use Rattle.ql_session.specs.Events.{Event, Follows};
ghost use Rattle.ql_session.specs.Machines.{FollowAll};
ghost use Rattle.ql_session.specs.Statements.{Replies};
ghost use Rattle.ql_tree.specs.declared.statement.Statement.{Statement};
ghost use Rattle.step_book.specs.Fronts.{FrontValue};
ghost use Rattle.step_book.specs.Tellings.{AtOpening};
ghost use Rattle.step_history.specs.History.{Base};
ghost use Rattle.engine_tables.specs.Workers.{WorkerValue, by_tokens, documents_of};
ghost use Rattle.line_workers.specs.Attempts.{events_of};
ghost use Rattle.line_workers.specs.Lines.{Service};
ghost use Rattle.line_workers.specs.Served.{IsServed};
ghost use Rattle.served_stores.specs.Serving.{AnyEnded, AnySeat};
ghost use Rattle.searchd_top.specs.Runs.{Runs};
ghost use Rattle.run_laws.specs.Decided.{IsAnswered, IsDecided};
ghost use Rattle.run_laws.specs.Faultless.{IsSteadyDisk, share_at};
ghost use Rattle.run_laws.specs.GoodRuns.{EndsWell, IsGoodRun, IsWellAsked};

use chunk_store::Disk;
use conf_text::a_text_is_one_configuration;
use program_host::Host;
use srch_base::Door;

/// Where a worker's token of an index counts as many faults as it did, the history of the index decided each commit to it and each job
/// over it: it was made or has ended, or memory was refused, or an id is there, a limit would be passed, another job ended before, or
/// the history strayed. No disk refused one, and none is in doubt by a disk.
pub fn a_share_that_stays_has_no_fault()
    ensures { (schema : ℕ → Schema) (base : ℕ → Base) (old new : WorkerValue) (events : List (Event FrontValue)) (index : ℕ) → FollowAll (Follows (λ tables. tables.confs) (by_tokens schema base)) old events new
        → share_at index new.tokens ≡ share_at index old.tokens → All (IsDecided base old.tokens.worker index) events }
{}

/// What is replied to a statement whose event was decided so: OK to a commit that was made and to a job that has ended, ERR 1037, or
/// why not, which holds. ERR 1105 isn't replied.
pub fn a_decided_statement_is_answered()
    ensures { (base : ℕ → Base) (worker index : ℕ) (confs : List IndexConf) (old new : State) (statement : Statement) (event : Event FrontValue) (reply : Reply) → IsDecided base worker index event
        → Replies (documents_of base) confs old statement event reply new → IsAnswered base worker index event reply }
{}

/// Where the disk of an index has counted no fault since it was opened, the events of all lines of all workers on it are decided so.
pub fn a_steady_disk_has_no_fault<D: Disk, E: Door>()
    ensures { (schema : ℕ → Schema) (base : ℕ → Base) (opened : ℕ → AtOpening) (confs : List IndexConf) (sessions : ℕ) (old new : List (AnySeat E E.Line)) (ends : List (AnyEnded D)) (served : IsServed D.Disk E.Door E.Line.Link schema base opened confs sessions old new ends)
        (index : ℕ) (end : AnyEnded D) → slice_get ends index ≡ Some end → IsSteadyDisk (opened index) (D.Disk.faults end.disk)
        → (place : ℕ) (services : List (Service E.Line FrontValue)) → slice_get served.services place ≡ Some services → All (IsDecided base (place + 1) index) (events_of services) }
{}

/// A run ends well whose words and configuration are good, whose stores have no damage, and in which neither its host nor a print, a
/// store or a door failed: it is done, or memory was refused, or the history of an index strayed, or a job of a selftest failed.
pub fn a_good_run_ends_well<H: Host>()
    ensures { (mode : Option Mode) (status : Status) (old new : H) → Runs H.Host H.Store.Disk H.Entry.Door H.Entry.Line.Link mode status old new
        → IsWellAsked (H.text old) mode → IsGoodRun H.Host H.Store.Disk H.Entry.Door mode old new → EndsWell mode status }
{
    a_text_is_one_configuration();
}
