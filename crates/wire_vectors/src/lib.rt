//! Tests of what no client of the program sees of `mysql_wire`, `reply_rows`, `client_doors`, `doc_types` and `srch_base`, by values from outside.
#![tactic(auto)]

#[cfg(test)]
mod links;
#[cfg(test)]
mod packets;
#[cfg(test)]
mod peers;
#[cfg(test)]
mod reading;
#[cfg(test)]
mod replies;
#[cfg(test)]
mod schemas;
#[cfg(test)]
mod small_texts;
