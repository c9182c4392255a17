//! How many keywords a query has, and how they are numbered. The function does nothing: its contract is the law.
ghost use Rattle.std.specs.Prelude.{◌≡◌, ◌≤◌, ℕ, List, Ok, length, map};
ghost use Rattle.std.specs.List.{range_with_len};
ghost use Rattle.std.specs.Str.{IsUtf8};
ghost use Rattle.query_marks.specs.Marks.{Setting};
ghost use Rattle.query_tree.specs.declared.query.Query.{Query as QueryValue};
ghost use Rattle.query_tree.specs.TreeKeys.{query_keys};
ghost use Rattle.query_grammar.specs.Queries.{ReadsQuery};

/// A query that a text is has at most 255 keywords, its count is that of its tree, and their query positions are 1, 2, 3 and so on
/// in the order of the tree.
pub fn a_query_has_at_most_255_keywords()
    ensures few { (setting : Setting) (text : List ℕ) (query : QueryValue) → IsUtf8 text → ReadsQuery setting text (Ok query) → length (query_keys query) ≤ 255 }
    ensures count { (setting : Setting) (text : List ℕ) (query : QueryValue) → IsUtf8 text → ReadsQuery setting text (Ok query) → query.keywords ≡ length (query_keys query) }
    ensures numbers { (setting : Setting) (text : List ℕ) (query : QueryValue) → IsUtf8 text → ReadsQuery setting text (Ok query) → map (λ key. key.query) (query_keys query) ≡ range_with_len 1 (length (query_keys query)) }
{}
