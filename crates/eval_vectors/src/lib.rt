//! Tests over documents and queries, what these find and what it weighs, and over conditions, pages, groups and facets of rows, which
//! were worked out by hand; the crates that evaluate queries, weigh hits and choose rows are proved once without them.
#![tactic(auto)]

#[cfg(test)]
mod asking;
#[cfg(test)]
mod cases;
#[cfg(test)]
mod conditions;
#[cfg(test)]
mod documents;
#[cfg(test)]
mod facets;
#[cfg(test)]
mod groups;
#[cfg(test)]
mod pages;
#[cfg(test)]
mod queries;
#[cfg(test)]
mod ranked;
#[cfg(test)]
mod rows;
#[cfg(test)]
mod sets;
#[cfg(test)]
mod shown;
#[cfg(test)]
mod tables;
#[cfg(test)]
mod telling;
#[cfg(test)]
mod watched;
#[cfg(test)]
mod weights;
