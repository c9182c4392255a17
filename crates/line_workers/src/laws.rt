//! Laws of the one history of an index. Each is a function that does nothing, or calls the laws that it rests on: its clauses are the law.
ghost use Rattle.std.specs.Prelude.{◌≡◌, ◌⊎◌, ◌<◌, ◌≤◌, ◌+◌, ℕ, true, List, [], ◌∷◌, ◌++◌, All, Some, length, slice_get};
ghost use Rattle.doc_types.specs.declared.schema.Schema.{Schema};
ghost use Rattle.doc_types.specs.Commits.{Entry};
ghost use Rattle.index_conf.specs.declared.conf.IndexConf.{IndexConf};
ghost use Rattle.ql_session.specs.Events.{Event};
ghost use Rattle.step_book.specs.Fronts.{FrontValue};
ghost use Rattle.step_history.specs.History.{Base, Step, commits};
ghost use Rattle.line_workers.specs.Alone.{IsAlone, IsWithoutStatus, OpenAlike};
ghost use Rattle.line_workers.specs.Attempts.{OnFront, OnLast, attempts_on, is_noted};
ghost use Rattle.line_workers.specs.Doubts.{AreSettled, IsEntryWanted};
ghost use Rattle.line_workers.specs.Histories.{AreEntriesOf, IsAcknowledged, IsAskedFor, IsAttempt, IsDoubtful, IsEntryOf, IsOneHistory, entries_numbered};

use mysql_wire::{bytes_begin_in_one_way, payload_is_one_response_or_bad};
use ql_answers::{a_plan_has_one_reply, a_statement_has_one_plan};
use ql_session::a_text_is_read_in_one_way;

/// A commit that was acknowledged stands in the history once, as its worker's entry of its number; one in doubt at most once, and then
/// as what its operations became, where each call in doubt was settled as it was wanted.
pub fn each_commit_stands_once()
    ensures acknowledged { (schema : Schema) (base : Base) (index : ℕ) (history : List Step) (events : List (List (Event FrontValue))) (place number : ℕ) (event : Event FrontValue) → IsOneHistory schema base index history events
        → IsAttempt index events place number event → IsAcknowledged event → (entry : Entry) × IsEntryOf base (place + 1) event entry × (entries_numbered (place + 1) (number + 1) history ≡ entry ∷ []) }
    ensures any { (schema : Schema) (base : Base) (index : ℕ) (history : List Step) (events : List (List (Event FrontValue))) (place number : ℕ) (event : Event FrontValue) → IsOneHistory schema base index history events
        → IsAttempt index events place number event → length (entries_numbered (place + 1) (number + 1) history) ≤ 1 }
    ensures doubtful { (schema : Schema) (base : Base) (index : ℕ) (history : List Step) (events : List (List (Event FrontValue))) (place number : ℕ) (event : Event FrontValue) → IsOneHistory schema base index history events
        → AreSettled base index history events → IsAttempt index events place number event → IsDoubtful event
        → (entries_numbered (place + 1) (number + 1) history ≡ []) ⊎ ((entry : Entry) × IsEntryWanted base (place + 1) event entry × (entries_numbered (place + 1) (number + 1) history ≡ entry ∷ [])) }
{}

/// The history has no entry that no line asked for.
pub fn each_entry_was_asked_for()
    ensures { (schema : Schema) (base : Base) (index : ℕ) (history : List Step) (events : List (List (Event FrontValue))) (k : ℕ) (entry : Entry) → IsOneHistory schema base index history events
        → slice_get (commits history) k ≡ Some entry → IsAskedFor base index events entry }
{}

/// Where there is one worker, the commits of each front are those of its lines so far, in their order. Only the last one may not be
/// among them, where it is in doubt; and once a later commit or job is answered with a note, that one is among them too, from then on.
pub fn a_worker_alone_sees_its_commits()
    ensures own { (schema : Schema) (base : Base) (index : ℕ) (history : List Step) (own before : List (Event FrontValue)) (event : Event FrontValue) (later : List (Event FrontValue)) → IsOneHistory schema base index history (own ∷ [])
        → own ≡ before ++ event ∷ later → OnFront index (λ front. AreEntriesOf base 1 (attempts_on index (before ++ event ∷ [])) (commits front.steps)) event }
    ensures noted { (schema : Schema) (base : Base) (index : ℕ) (history : List Step) (own before : List (Event FrontValue)) (event : Event FrontValue) (later : List (Event FrontValue)) → IsOneHistory schema base index history (own ∷ [])
        → own ≡ before ++ event ∷ later → is_noted index event ≡ true → OnLast index (λ front. length (attempts_on index (before ++ event ∷ [])) ≤ length (commits front.steps)) event × All (OnFront index (λ front. length (attempts_on index (before ++ event ∷ [])) ≤ length (commits front.steps))) later }
{}

/// One worker alone: equal bytes have equal replies. Two lines of one connection over the same documents that read the same bytes wrote
/// the same bytes, whatever layers and chunks hold these documents and whatever jobs end meanwhile, where their clients ended them,
/// memory was there, the store refused nothing and nothing is in doubt. SHOW INDEX STATUS alone tells how many chunks are on the disk,
/// and no clause counts the jobs that have ended: so where it was answered, as many chunks have to be there whenever an index is read.
pub fn a_worker_alone_has_one_reply()
    ensures plain { (schema : ℕ → Schema) (base other : ℕ → Base) (confs : List IndexConf) (connection : ℕ) (chunks others read written replies : List ℕ) → ((index : ℕ) → index < length confs → OpenAlike (base index) (other index))
        → (one : IsAlone schema base confs connection chunks read written) → (two : IsAlone schema other confs connection others read replies) → IsWithoutStatus one → IsWithoutStatus two → written ≡ replies }
    ensures counted { (schema : ℕ → Schema) (base other : ℕ → Base) (confs : List IndexConf) (connection : ℕ) (chunks read written replies : List ℕ) → ((index : ℕ) → index < length confs → OpenAlike (base index) (other index))
        → IsAlone schema base confs connection chunks read written → IsAlone schema other confs connection chunks read replies → written ≡ replies }
{
    bytes_begin_in_one_way();
    payload_is_one_response_or_bad();
    a_statement_has_one_plan();
    a_plan_has_one_reply();
    a_text_is_read_in_one_way();
}
