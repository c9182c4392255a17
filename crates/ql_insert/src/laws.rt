//! A law of INSERT. The function does nothing but call the law on texts that it rests on; its contract is the law.
ghost use Rattle.std.specs.Prelude.{◌≡◌, ℕ, List, Option};
ghost use Rattle.doc_types.specs.declared.transactions.Txn.{Txn};
ghost use Rattle.index_conf.specs.declared.conf.IndexConf.{IndexConf};
ghost use Rattle.ql_tree.specs.declared.statement.Val.{Val};
ghost use Rattle.ql_refusals.specs.Refusals.{Refused};
ghost use Rattle.ql_insert.specs.Insertions.{Makes, RefusesValues};

use doc_tokens::a_text_has_one_answer;

/// Rows become one transaction or are refused for one reason, and never both.
pub fn an_insert_has_one_answer()
    ensures txn { (conf : IndexConf) (columns : Option (List (List ℕ))) (rows : List (List Val)) (a b : Txn) → Makes conf columns rows a → Makes conf columns rows b → a ≡ b }
    ensures refusal { (conf : IndexConf) (columns : Option (List (List ℕ))) (rows : List (List Val)) (a b : Refused) → RefusesValues conf columns rows a → RefusesValues conf columns rows b → a ≡ b }
    ensures apart { (conf : IndexConf) (columns : Option (List (List ℕ))) (rows : List (List Val)) (txn : Txn) (refusal : Refused) → Makes conf columns rows txn → RefusesValues conf columns rows refusal → ⊥ }
{
    a_text_has_one_answer();
}
