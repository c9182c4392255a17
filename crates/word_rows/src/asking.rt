//! What a query asks of a row beside the places of its words.
ghost use Rattle.std.specs.Prelude.{◌≡◌, ◌||◌, false};
ghost use Rattle.std.specs.List.{list_any};
ghost use Rattle.word_rows.specs.RowMarks.{asks_boundaries, asks_spans, has_zones};

use query_tree::{Item, Key, Node};

/// What is asked for.
#[derive(Clone, Copy)]
pub struct AskedMarks {
    /// The ends of sentences and paragraphs.
    pub boundaries: bool,
    /// The spans of zones.
    pub spans: bool,
}

impl AskedMarks {
    const NOTHING: AskedMarks = AskedMarks {
        boundaries: false,
        spans: false,
    };

    fn or(self, other: AskedMarks) -> AskedMarks
        ensures boundaries { result.boundaries ≡ (self.boundaries || other.boundaries) }
        ensures spans { result.spans ≡ (self.spans || other.spans) }
    {
        AskedMarks {
            boundaries: self.boundaries || other.boundaries,
            spans: self.spans || other.spans,
        }
    }
}

/// What the node asks for.
#[cycle(asking)]
pub fn asks_for(node: &Node) -> AskedMarks
    ensures boundaries { result.boundaries ≡ asks_boundaries node.now }
    ensures spans { result.spans ≡ asks_spans node.now }
{
    match node {
        Node::Word(key) => of_key(key),
        Node::Quoted { keys, .. } => of_keys(keys.as_slice()),
        Node::And(items) => of_items(items.as_slice()),
        Node::Or(a, b) | Node::Maybe(a, b) | Node::Before(a, b) | Node::Near(_, a, b) => {
            asks_for(a.get()).or(asks_for(b.get()))
        }
        Node::Sentence(a, b) | Node::Paragraph(a, b) => {
            let both = asks_for(a.get()).or(asks_for(b.get()));
            AskedMarks {
                boundaries: true,
                spans: both.spans,
            }
        }
        Node::ZoneSpan(_, a) => AskedMarks {
            boundaries: asks_for(a.get()).boundaries,
            spans: true,
        },
    }
}

fn of_key(key: &Key) -> AskedMarks
    ensures boundaries { result.boundaries ≡ false }
    ensures spans { result.spans ≡ has_zones key.now }
{
    AskedMarks {
        boundaries: false,
        spans: !key.limit.zones.is_empty(),
    }
}

fn of_keys(keys: &[Key]) -> AskedMarks
    ensures boundaries { result.boundaries ≡ false }
    ensures spans { result.spans ≡ list_any has_zones keys.now }
{
    let mut all = AskedMarks::NOTHING;
    for key in keys {
        all = all.or(of_key(key));
    }
    all
}

#[cycle(asking)]
fn of_items(items: &[Item]) -> AskedMarks
    ensures boundaries { result.boundaries ≡ list_any (λ item. asks_boundaries item.node) items.now }
    ensures spans { result.spans ≡ list_any (λ item. asks_spans item.node) items.now }
{
    let mut all = AskedMarks::NOTHING;
    for item in items {
        all = all.or(asks_for(&item.node));
    }
    all
}
