//! The laws.
ghost use Rattle.std.specs.Prelude.{◌≡◌, ℕ, List};
ghost use Rattle.srch_base.specs.Moves.{Meters};
ghost use Rattle.serve_line.specs.Line.{IsLine};
ghost use Rattle.serve_line.specs.declared.line.LinkEnd.{LinkEnd};
ghost use Rattle.index_conf.specs.declared.conf.IndexConf.{IndexConf};
ghost use Rattle.ql_answers.specs.Replies.{Fails};
ghost use Rattle.ql_answers.specs.States.{new_state};
ghost use Rattle.ql_answers.specs.declared.state.State.{State};
ghost use Rattle.ql_refusals.specs.Refusals.{Refused};
ghost use Rattle.ql_session.specs.Events.{Event};
ghost use Rattle.ql_session.specs.Session.{IsSession, statement_machine};
ghost use Rattle.ql_session.specs.Statements.{Replies};
ghost use Rattle.ql_tree.specs.declared.statement.Statement.{Statement};
ghost use Rattle.line_laws.specs.Clients.{KeepsToProtocol};
ghost use Rattle.line_laws.specs.Codes.{code_of};
ghost use Rattle.line_laws.specs.Complete.{IsComplete, IsSteady};

use mysql_wire::{bytes_begin_in_one_way, payload_is_one_response_or_bad};
use ql_session::TableStore;
use serve_line::Answerer;

/// A client that keeps to the protocol is answered, whatever answers its commands: where neither reading nor writing failed, each packet
/// has its whole reply, up to where the client quits, or sends no more, or the line is worn, or memory is refused. The line ends in no
/// other way.
pub fn a_client_is_answered<A: Answerer>()
    ensures { (connection : ℕ) (start : A) (before now : Meters) (read written : List ℕ) (end : LinkEnd) (events : List A.Event) (payloads : List (List ℕ)) → IsLine A.machine connection start before now read written end events
        → IsSteady before now → KeepsToProtocol now read payloads → IsComplete A.machine connection start payloads written end events }
{
    bytes_begin_in_one_way();
    payload_is_one_response_or_bad();
}

/// So are sessions, over any store: each command has the whole reply of the statement machine, over what the store decided.
pub fn a_session_is_complete<T: TableStore>()
    ensures { (connection : ℕ) (before now : Meters) (read written : List ℕ) (end : LinkEnd) (events : List (Event T.Front)) (payloads : List (List ℕ)) → IsSession T.words.documents connection before now read written end events
        → IsSteady before now → KeepsToProtocol now read payloads → IsComplete (statement_machine T.words.documents) connection new_state payloads written end events }
{
    bytes_begin_in_one_way();
    payload_is_one_response_or_bad();
}

/// A refusal has the code of what it came from: ERR 1105 is replied where a disk refused a commit or a job, or left a commit in doubt,
/// and nowhere else; ERR 1037 where memory was refused, or left one in doubt; ERR 1064 where neither had part in it.
pub fn a_refusal_has_the_code_of_its_cause<T: TableStore>()
    ensures { (confs : List IndexConf) (old new : State) (statement : Statement) (event : Event T.Front) (refusal : Refused) → Replies T.words.documents confs old statement event (Fails refusal) new
        → refusal.code ≡ code_of event }
{}
