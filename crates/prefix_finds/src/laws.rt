//! The law that rewriting keeps what is found. The function does nothing: its contract is the law.
ghost use Rattle.prefix_finds.specs.Same.{FindTheSame};

/// In a row that lives, a query with prefixes finds what the query finds that has an OR of their words in the place of each. In a row
/// that is dead it need not, since a word that dead rows alone have isn't among those of a prefix.
pub fn a_query_without_prefixes_finds_the_same()
    ensures { FindTheSame }
{}
