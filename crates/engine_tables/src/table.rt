//! An index and its engine.
ghost use Rattle.std.specs.Prelude.{◌≡◌};
ghost use Rattle.doc_types.specs.Schemas.{AreZones, IsSchema};

use chunk_store::Disk;
use index_conf::IndexConf;
use snap_share::Engine;
use std::marker::Model;
use step_book::Naming;

/// An index as it is configured, with its engine, which is of its columns.
pub(crate) struct Table<D: Disk, J: Naming> {
    conf: IndexConf,
    engine: Engine<D, J>,
}

impl<D: Disk, J: Naming> Model for Table<D, J> {
    ghost use Rattle.std.specs.Prelude.{◌≡◌};
    ghost use Rattle.doc_types.specs.Schemas.{AreZones, IsSchema};
    ghost use Rattle.engine_tables.specs.Engines.{TableValue};

    ghost Value = { TableValue };

    ghost view = { λ t. record { conf = t.conf; engine = t.engine } };

    ghost invariant = { λ t. (J.schema t.engine.index ≡ t.conf.schema) × IsSchema t.conf.schema × AreZones t.conf.rules.zones };
}

impl<D: Disk, J: Naming> Table<D, J> {
    /// An index with an engine of its columns.
    pub(crate) fn new(conf: IndexConf, engine: Engine<D, J>) -> Table<D, J>
        requires of { J.schema engine.index ≡ conf.schema }
        requires schema { IsSchema conf.schema }
        requires zones { AreZones conf.rules.zones }
        ensures { result ≡ record { conf = conf; engine = engine } }
    {
        Table { conf, engine }
    }

    /// How it is configured.
    pub(crate) fn conf(&self) -> &IndexConf
        ensures is { result.now ≡ self.now.conf }
        ensures of { J.schema self.now.engine.index ≡ self.now.conf.schema }
        ensures schema { IsSchema self.now.conf.schema }
        ensures zones { AreZones self.now.conf.rules.zones }
    {
        &self.conf
    }

    /// Its engine.
    pub(crate) fn engine(&self) -> &Engine<D, J>
        ensures is { result.now ≡ self.now.engine }
        ensures of { J.schema self.now.engine.index ≡ self.now.conf.schema }
        ensures schema { IsSchema self.now.conf.schema }
    {
        &self.engine
    }

    /// Its engine alone.
    pub(crate) fn into_engine(self) -> Engine<D, J>
        ensures { result ≡ self.engine }
    {
        let Table {
            conf: _conf,
            engine,
        } = self;
        engine
    }
}
