//! All engines: what workers share.
ghost use Rattle.std.specs.Prelude.{◌≡◌, ◌<◌, Some, length, slice_get};
ghost use Rattle.doc_types.specs.Schemas.{AreZones, IsSchema};
ghost use Rattle.index_conf.specs.declared.conf.IndexConf.{IndexConf as ConfValue};

use crate::table::Table;
use chunk_store::Disk;
use index_conf::IndexConf;
use snap_share::Engine;
use std::marker::Model;
use step_book::Naming;

/// The indexes of a configuration with their engines, for so many workers, who share them by reference. They aren't let go of: end
/// them by `close`.
pub struct Engines<D: Disk, J: Naming> {
    pub(crate) tables: Vec<Table<D, J>>,
    pub(crate) workers: u32,
}

impl<D: Disk, J: Naming> Model for Engines<D, J> {
    ghost use Rattle.std.specs.Prelude.{◌<◌, ◌^◌, length, map};
    ghost use Rattle.engine_tables.specs.Engines.{ArePlaced, EnginesValue};

    ghost Value = { EnginesValue };

    ghost view = { λ e. record { confs = map (λ table. table.conf) e.tables.items; engines = map (λ table. table.engine) e.tables.items; workers = e.workers } };

    ghost invariant = { λ e. (length e.tables.items < 2 ^ 16) × ArePlaced e.workers (map (λ table. table.engine) e.tables.items) };
}

impl<D: Disk, J: Naming> Engines<D, J> {
    /// How many there are.
    pub fn count(&self) -> u16
        ensures { result ≡ length self.now.confs }
    {
        self.tables.len() as u16
    }

    /// For how many workers they are.
    pub fn workers(&self) -> u32
        ensures { result ≡ self.now.workers }
    {
        self.workers
    }

    /// How the index at a place below `count` is configured.
    pub fn conf(&self, place: u16) -> &IndexConf
        requires { place < length self.now.confs }
        ensures is { slice_get self.now.confs place ≡ Some result.now }
        ensures of { J.schema place ≡ result.now.schema }
        ensures schema { IsSchema result.now.schema }
        ensures zones { AreZones result.now.rules.zones }
    {
        self.tables[place as usize].conf()
    }

    /// The engine of the index at a place below `count`.
    pub fn engine(&self, place: u16) -> &Engine<D, J>
        requires { place < length self.now.confs }
        ensures is { slice_get self.now.engines place ≡ Some result.now }
        ensures index { result.now.index ≡ place }
        ensures workers { result.now.workers ≡ self.now.workers }
        ensures of { (conf : ConfValue) × (slice_get self.now.confs place ≡ Some conf) × (J.schema place ≡ conf.schema) × IsSchema conf.schema }
    {
        self.tables[place as usize].engine()
    }
}
