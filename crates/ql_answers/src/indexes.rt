//! Indexes, as statements name them.
ghost use Rattle.std.specs.Prelude.{◌≡◌, ◌<◌, ℕ, List, length, slice_get, Some, IfSome};
ghost use Rattle.doc_types.specs.Schemas.{AreZones, IsSchema};
ghost use Rattle.index_conf.specs.declared.conf.IndexConf.{IndexConf};
ghost use Rattle.ql_answers.specs.Indexes.{place_of};
ghost use Rattle.ql_answers.specs.steps.Serving.{ServedOr};

use index_conf::IndexConf;
use ql_refusals::{Refusal, unknown_index};

/// The indexes that statements may name, in the order of the configuration.
pub trait Catalog {
    /// The indexes as they are configured.
    ghost confs: { Self → List IndexConf };

    /// How many there are.
    fn count(&self) -> u16
        ensures { result ≡ length (confs self.now) };

    /// The index at a place below `count`.
    fn conf(&self, index: u16) -> &IndexConf
        requires { index < length (confs self.now) }
        ensures is { slice_get (confs self.now) index ≡ Some result.now }
        ensures schema { IsSchema result.now.schema }
        ensures zones { AreZones result.now.rules.zones };
}

/// The place of the index with this name.
fn place_of<T: Catalog>(catalog: &T, name: &[u8]) -> Option<u16>
    ensures place { result ≡ place_of (T.confs catalog.now) name.now }
    ensures within { IfSome result (λ place. place < length (T.confs catalog.now)) }
{
    'indexes: for index in 0..catalog.count() {
        if catalog.conf(index).schema.name.as_bytes() == name {
            return Some(index);
        }
    }
    None
}

/// The place of the index with this name, or why there is none.
pub(crate) fn served<T: Catalog>(catalog: &T, name: &[u8]) -> Result<u16, Refusal>
    ensures { ServedOr (T.confs catalog.now) name.now result }
{
    match place_of(catalog, name) {
        None => Err(unknown_index(name)),
        Some(place) => Ok(place),
    }
}
