//! Tests by tables of values from outside over what no run of the program shows of character tables, tables of words, marks,
//! tokens, ranking expressions and the trees of queries, whose crates are proved once without them.
#![tactic(auto)]

#[cfg(test)]
mod character_tables;
#[cfg(test)]
mod expression_texts;
#[cfg(test)]
mod expressions;
#[cfg(test)]
mod marks;
#[cfg(test)]
mod name_tables;
#[cfg(test)]
mod positions;
#[cfg(test)]
mod queries;
#[cfg(test)]
mod query_trees;
#[cfg(test)]
mod spelling;
#[cfg(test)]
mod tables;
