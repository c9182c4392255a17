//! Laws of what a SELECT means. Each function does nothing but call the laws on texts that it rests on; its contract is the law.
ghost use Rattle.std.specs.Prelude.{◌≡◌, [], None, Some};
ghost use Rattle.doc_types.specs.Schemas.{IsSchema};
ghost use Rattle.doc_types.specs.declared.schema.Schema.{Schema};
ghost use Rattle.index_conf.specs.declared.conf.IndexConf.{IndexConf};
ghost use Rattle.prefix_search.specs.Searches.{IsReadOf};
ghost use Rattle.ql_tree.specs.declared.select.Select.{Select};
ghost use Rattle.ql_select.specs.declared.selection.Selection.{Selection};
ghost use Rattle.ql_refusals.specs.Refusals.{Refused};
ghost use Rattle.ql_select.specs.declared.first_fault.Fault.{Fault};
ghost use Rattle.ql_select.specs.Faults.{faults_of, select_fault};
ghost use Rattle.ql_select.specs.FirstFaults.{IsFirstFault};
ghost use Rattle.ql_select.specs.Selections.{RefusesSelection, Selects};

use query_read::{
    a_query_has_no_fault, a_text_has_one_first_fault, a_text_is_one_query, each_text_has_pieces,
};
use rank_expr::law;
use rank_expr::law::{a_text_is_one_expression, an_expression_has_no_fault};

/// What a SELECT means is a question to the index that it names: a search over rows of its columns answers it.
pub fn a_selection_is_asked_of_its_index()
    ensures { (conf : IndexConf) (select : Select) (selection : Selection) → IsSchema conf.schema → Selects conf select selection → IsReadOf conf.schema selection.asked.question }
{}

/// The fault that decides is one of all that are wrong with a SELECT, and the first of them by class and place; and where nothing
/// decides, nothing is wrong.
pub fn a_refusal_is_the_first_fault()
    ensures first { (schema : Schema) (select : Select) (fault : Fault) → select_fault schema select ≡ Some fault → IsFirstFault (faults_of schema select) fault }
    ensures none { (schema : Schema) (select : Select) → select_fault schema select ≡ None → faults_of schema select ≡ [] }
{}

/// A SELECT means one thing or is refused for one reason, and never both.
pub fn a_select_has_one_answer()
    ensures selection { (conf : IndexConf) (select : Select) (a b : Selection) → Selects conf select a → Selects conf select b → a ≡ b }
    ensures refusal { (conf : IndexConf) (select : Select) (a b : Refused) → RefusesSelection conf select a → RefusesSelection conf select b → a ≡ b }
    ensures apart { (conf : IndexConf) (select : Select) (selection : Selection) (refusal : Refused) → Selects conf select selection → RefusesSelection conf select refusal → ⊥ }
{
    each_text_has_pieces();
    a_text_is_one_query();
    a_query_has_no_fault();
    a_text_has_one_first_fault();
    a_text_is_one_expression();
    an_expression_has_no_fault();
    law::a_text_has_one_first_fault();
}
