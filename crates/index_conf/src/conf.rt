//! A configuration that was read, and its limits.
use charset_map::Charset;
use doc_types::Schema;
use mark_scan::MarkRules;
use srch_base::{Items, Text};

/// The most indexes that a configuration describes.
pub const MAX_INDEXES: usize = 8;

/// What a configuration says.
#[derive(Drop)]
pub struct Conf {
    /// The indexes, in the order of the text.
    pub indexes: Items<IndexConf>,
}

/// One index of a configuration.
#[derive(Drop)]
pub struct IndexConf {
    /// Its name and its columns.
    pub schema: Schema,
    /// The characters of its words.
    pub charset: Charset,
    /// How its texts are marked. Zones and boundaries are those of the schema.
    pub rules: MarkRules,
    /// Where its files are.
    pub path: Text,
}
