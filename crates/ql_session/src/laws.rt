//! Laws of the definitions. The functions do nothing but call the laws that they rest on; their contracts are the laws.
ghost use Rattle.std.specs.Prelude.{◌≡◌, ℕ, List};
ghost use Rattle.index_conf.specs.declared.conf.IndexConf.{IndexConf};
ghost use Rattle.ql_tree.specs.declared.statement.Statement.{Statement as StatementValue};
ghost use Rattle.ql_refusals.specs.Refusals.{Refused};
ghost use Rattle.ql_answers.specs.Replies.{Reply};
ghost use Rattle.ql_answers.specs.Sessions.{HasLayers};
ghost use Rattle.ql_answers.specs.declared.state.State.{State};
ghost use Rattle.mysql_wire.specs.Commands.{ClientCommand};
ghost use Rattle.ql_session.specs.Session.{Answers};
ghost use Rattle.ql_session.specs.Statements.{AnswersText, HaveLayers, RefusesText, Replies, States, told};
ghost use Rattle.ql_session.specs.Events.{Event};

use crate::TableStore;
use ql_answers::{a_plan_has_one_reply, a_statement_has_one_plan};
use ql_lex::one_reading;
use ql_parse::{packets_have_no_fault, tokens_have_one_fault, tokens_have_one_value};

/// A text states one list of statements or is refused for one reason, and never both.
pub fn a_text_is_read_in_one_way()
    ensures statements { (text : List ℕ) (a b : List StatementValue) → States text a → States text b → a ≡ b }
    ensures refusal { (text : List ℕ) (a b : Refused) → RefusesText text a → RefusesText text b → a ≡ b }
    ensures not_both { (text : List ℕ) (statements : List StatementValue) (refusal : Refused) → States text statements → RefusesText text refusal → ⊥ }
{
    one_reading();
    tokens_have_one_value();
    packets_have_no_fault();
    tokens_have_one_fault();
}

/// What came of a statement has one reply and leaves the session in one state, where what was read has layers as a snapshot has
/// them.
pub fn a_statement_has_one_reply<T: TableStore>()
    ensures { (confs : List IndexConf) (old : State) (statement : StatementValue) (event : Event T.Front) (a b : Reply) (x y : State) → HasLayers (told T.words.documents event)
        → Replies T.words.documents confs old statement event a x → Replies T.words.documents confs old statement event b y → (a ≡ b) × (x ≡ y) }
{
    a_statement_has_one_plan();
    a_plan_has_one_reply();
}

/// What came of a text has one reply, byte for byte, and leaves the session in one state, where what was read has layers as a
/// snapshot has them.
pub fn a_text_has_one_reply<T: TableStore>()
    ensures { (old : State) (text : List ℕ) (events : List (Event T.Front)) (a b : List ℕ) (x y : State) → HaveLayers T.words.documents events
        → AnswersText T.words.documents old text events a x → AnswersText T.words.documents old text events b y → (a ≡ b) × (x ≡ y) }
{
    a_text_is_read_in_one_way();
    a_statement_has_one_reply::<T>();
}

/// What came of a command has one reply, byte for byte, and leaves the session in one state.
pub fn a_command_has_one_reply<T: TableStore>()
    ensures { (old : State) (asked : ClientCommand) (events : List (Event T.Front)) (a b : List ℕ) (x y : State) → HaveLayers T.words.documents events
        → Answers T.words.documents old asked events a x → Answers T.words.documents old asked events b y → (a ≡ b) × (x ≡ y) }
{
    a_text_has_one_reply::<T>();
}
