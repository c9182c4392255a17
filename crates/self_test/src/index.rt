//! The index that a selftest writes its documents to, as it is configured.
ghost use Rattle.std.specs.Prelude.{◌≡◌, [], ◌∷◌, IfOk};
ghost use Rattle.self_test.specs.Own.{IsOurs, own_schema};
ghost use Rattle.self_test.specs.steps.Servable.{IsServable};

use charset_map::Charset;
use doc_types::{AttrKind, Schema};
use index_conf::IndexConf;
use mark_scan::MarkRules;
use srch_base::{Items, Name, NoMemory, Text};
use std::alloc::Global;

/// The index `t`, with the field `title` and the attribute `gid`.
pub(crate) fn own_index(alloc: Global) -> Result<IndexConf, NoMemory>
    ensures ours { IfOk result IsOurs }
    ensures servable { IfOk result IsServable }
{
    Ok(IndexConf {
        schema: columns(alloc)?,
        charset: Charset::default_table(alloc)?,
        rules: MarkRules {
            strip: false,
            sp: false,
            zones: Items::new(Vec::new(alloc)),
        },
        path: Text::from_slice(alloc, b".")?,
    })
}

/// Its columns.
fn columns(alloc: Global) -> Result<Schema, NoMemory>
    ensures { IfOk result (λ schema. schema ≡ own_schema) }
{
    Ok(Schema {
        name: Name::from_slice(alloc, b"t")?,
        fields: Items::new(one(alloc, Name::from_slice(alloc, b"title")?)?),
        attrs: Items::new(one(alloc, (Name::from_slice(alloc, b"gid")?, AttrKind::Uint))?),
        zones: Items::new(Vec::new(alloc)),
        sp: false,
        min_prefix: 0,
    })
}

/// A list of one element.
pub(crate) fn one<T: Drop>(alloc: Global, element: T) -> Result<Vec<T>, NoMemory>
    ensures { IfOk result (λ list. list.items ≡ element ∷ []) }
{
    let mut list = Vec::new(alloc);
    list.push(element)?;
    Ok(list)
}
