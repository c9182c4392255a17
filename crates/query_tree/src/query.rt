//! The tree of an extended query.
use crate::key::{How, Key};
use sqlite_items::{Boxed, Items};

/// A query, or a part of it.
#[cycle(tree)]
#[derive(Drop)]
pub enum Node {
    Word(Key),
    Quoted { keys: Items<Key>, how: How },
    And(Items<Item>),
    Or(Boxed<Node>, Boxed<Node>),
    Maybe(Boxed<Node>, Boxed<Node>),
    /// `<<`.
    Before(Boxed<Node>, Boxed<Node>),
    Near(u32, Boxed<Node>, Boxed<Node>),
    Sentence(Boxed<Node>, Boxed<Node>),
    Paragraph(Boxed<Node>, Boxed<Node>),
    /// The numbers of the zones.
    ZoneSpan(Items<u16>, Boxed<Node>),
}

/// An item of an AND.
#[cycle(tree)]
#[derive(Drop)]
pub struct Item {
    pub negated: bool,
    pub node: Node,
}

/// An extended query. Without a root it has no keyword, and each document matches it.
#[derive(Drop)]
pub struct Query {
    pub root: Option<Node>,
    /// How many keywords it has, those under NOT too.
    pub keywords: u16,
}
