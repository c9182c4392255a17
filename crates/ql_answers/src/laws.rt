//! Laws of the definitions. Each function does nothing but call the laws on SELECT, INSERT and searches that it rests on; its
//! contract is the law.
ghost use Rattle.std.specs.Prelude.{◌≡◌, List};
ghost use Rattle.index_conf.specs.declared.conf.IndexConf.{IndexConf};
ghost use Rattle.ql_tree.specs.declared.statement.Statement.{Statement};
ghost use Rattle.ql_refusals.specs.Refusals.{Refused};
ghost use Rattle.ql_answers.specs.declared.plan.Plan.{Plan};
ghost use Rattle.ql_answers.specs.Plans.{Refuses, Wants};
ghost use Rattle.ql_answers.specs.Replies.{Reply};
ghost use Rattle.ql_answers.specs.Sessions.{AreAlike, Decides, Happened, next_of};
ghost use Rattle.ql_answers.specs.declared.state.State.{State};

use prefix_search::{a_search_finds_the_same, too_many_words_are_so_many};
use ql_insert::an_insert_has_one_answer;
use ql_select::a_select_has_one_answer;
use table_search::a_select_finds_the_same;

/// A statement wants one thing or is refused for one reason, and never both.
pub fn a_statement_has_one_plan()
    ensures plan { (confs : List IndexConf) (state : State) (statement : Statement) (a b : Plan) → Wants confs state statement a → Wants confs state statement b → a ≡ b }
    ensures refusal { (confs : List IndexConf) (state : State) (statement : Statement) (a b : Refused) → Refuses confs state statement a → Refuses confs state statement b → a ≡ b }
    ensures not_both { (confs : List IndexConf) (state : State) (statement : Statement) (plan : Plan) (refusal : Refused) → Wants confs state statement plan → Refuses confs state statement refusal → ⊥ }
{
    a_select_has_one_answer();
    an_insert_has_one_answer();
}

/// What came of a plan has one reply and leaves the session in one state. What is replied to a search depends on the documents
/// alone, by their ids, whatever layers and chunks hold them; what is replied to SHOW INDEX STATUS, besides on how many of these
/// chunks are on the disk.
pub fn a_plan_has_one_reply()
    ensures reply { (plan : Plan) (happened other : Happened) (a b : Reply) → AreAlike plan happened other → Decides plan happened a → Decides plan other b → a ≡ b }
    ensures state { (plan : Plan) (happened other : Happened) (reply : Reply) (state : State) → AreAlike plan happened other → next_of plan happened reply state ≡ next_of plan other reply state }
{
    a_select_finds_the_same();
    a_search_finds_the_same();
    too_many_words_are_so_many();
}
