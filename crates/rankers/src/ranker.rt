//! The rankers, and the weights of fields by which they go.
use srch_base::Items;

/// The greatest weight of a field.
pub const MAX_FIELD_WEIGHT: u32 = 65_535;

/// How documents that match are weighed. All but the first sum up what each field that has a hit gives.
#[derive(Clone, Copy)]
pub enum Ranker {
    /// Each document weighs 1.
    None,
    /// A field gives its weight for each of its hits.
    WordCount,
    /// A field gives its weight for each of the most keywords that stand in it as they do in the query.
    Proximity,
    /// A field gives its weight for each distinct word with a hit, and for each keyword beyond the first that stands in it as in the
    /// query its weight times as much as all fields could give by `Proximity`.
    MatchAny,
    /// A field gives 2 to the power of its number.
    FieldMask,
}

/// The weights of fields: one for each field, from 1 to [`MAX_FIELD_WEIGHT`].
#[derive(Drop)]
pub struct Weights {
    /// By the fields' numbers.
    pub list: Items<u32>,
}

/// What a field gives to a ranking expression, all of it 0 for a field without a hit.
#[derive(Clone, Copy, Debug, PartialEq, Eq)]
pub struct Factors {
    /// The most keywords that stand in the field as they do in the query.
    pub lcs: u32,
    pub hit_count: u32,
    /// How many distinct words have a hit.
    pub word_count: u32,
    /// The least position with a hit.
    pub min_hit_pos: u32,
}
