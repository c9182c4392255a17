//! The stores of indexes are opened one after the other, and handed back. The first that can't be opened ends the run.
ghost use Rattle.std.specs.Prelude.{◌≡◌, ◌+◌, ◌≤◌, ◌++◌, [], ◌∷◌, All, IfErr, length, option_to_list};
ghost use Rattle.std.specs.Str.{IsUtf8};
ghost use Rattle.doc_types.specs.Schemas.{IsSchema};
ghost use Rattle.program_host.specs.Statuses.{NamesIndex};
ghost use Rattle.searchd_top.specs.steps.Openings.{KeepsDoors, OpensStores, SaysFault, disks_of};
ghost use Rattle.searchd_top.specs.steps.Sides.{AreTexts, HandsBack, KeepsPrints};

use index_conf::IndexConf;
use program_host::{Host, Status, Stream};
use srch_base::{Name, NoMemory};
use std::alloc::Global;
use std::thread::Threads;
use store_keep::{Opened, StoreFault};
use store_steps::Damage;

/// Why a store isn't open: what the run ends with, and the store, if the host gave one.
#[derive(Drop)]
pub(crate) struct Stop<S> {
    pub(crate) status: Status,
    pub(crate) store: Option<S>,
}

/// Opens the stores of indexes in their order, and puts them behind those that are open.
pub(crate) fn open_stores<H: Host, R: Threads>(
    rt: &R,
    alloc: Global,
    indexes: &[IndexConf],
    opened: &mut Vec<Opened<H::Store>>,
    host: &mut H,
) -> Result<(), Stop<H::Store>>
    requires schemas { All (λ index. IsSchema index.schema) indexes.now }
    requires paths { AreTexts indexes.now }
    ensures opens { OpensStores H.Host H.Store.Disk indexes.now result opened.old.items opened.new.items host.old host.new }
    ensures doors { KeepsDoors H.Host host.old host.new }
    ensures prints { KeepsPrints H.Host host.old host.new }
    ensures asked { IfErr result (λ stop. ¬ (stop.status ≡ Status.Usage)) }
    ensures names { IfErr result (λ stop. NamesIndex stop.status) }
{
    match indexes.split_first() {
        Some((index, others)) => match open_store(rt, alloc, index, opened, host) {
            Ok(()) => open_stores(rt, alloc, others, opened, host),
            Err(stop) => Err(stop),
        },
        None => Ok(()),
    }
}

/// Opens the store of an index, and puts it behind those that are open.
fn open_store<H: Host, R: Threads>(
    rt: &R,
    alloc: Global,
    index: &IndexConf,
    opened: &mut Vec<Opened<H::Store>>,
    host: &mut H,
) -> Result<(), Stop<H::Store>>
    requires schema { IsSchema index.now.schema }
    requires path { IsUtf8 index.now.path }
    ensures opens { OpensStores H.Host H.Store.Disk (index.now ∷ []) result opened.old.items opened.new.items host.old host.new }
    ensures doors { KeepsDoors H.Host host.old host.new }
    ensures prints { KeepsPrints H.Host host.old host.new }
    ensures asked { IfErr result (λ stop. ¬ (stop.status ≡ Status.Usage)) }
    ensures names { IfErr result (λ stop. NamesIndex stop.status) }
{
    let store = match host.open_store(path_of(index)) {
        Ok(store) => store,
        Err(fault) => {
            return Err(Stop {
                status: Status::from(fault),
                store: None,
            });
        }
    };
    if opened.reserve(1).is_err() {
        return Err(Stop {
            status: Status::NoMemory,
            store: Some(store),
        });
    }
    match Opened::open(rt, alloc, store, &index.schema) {
        Ok(store) => {
            opened.push_reserved(store);
            Ok(())
        }
        Err((store, fault)) => Err(Stop {
            status: status_of(alloc, index, fault),
            store: Some(store),
        }),
    }
}

/// Where the files of an index are. It is a text, as all of a configuration is.
fn path_of(index: &IndexConf) -> &str
    requires { IsUtf8 index.now.path }
    ensures { result.now ≡ index.now.path }
{
    str::from_utf8(index.path.as_bytes()).unwrap()
}

/// What the run ends with where the store of an index can't be opened.
fn status_of(alloc: Global, index: &IndexConf, fault: StoreFault) -> Status
    ensures { SaysFault index.now.schema.name fault result }
{
    match fault {
        StoreFault::NoMemory => Status::NoMemory,
        StoreFault::DiskFault => Status::HostFault,
        StoreFault::Damaged(Damage { file, place, kind }) => {
            match Name::from_slice(alloc, index.schema.name.as_bytes()) {
                Ok(index) => Status::Damaged {
                    index,
                    file,
                    place,
                    kind,
                },
                Err(NoMemory) => Status::NoMemory,
            }
        }
    }
}

/// Hands stores back, in the order in which they were opened.
pub(crate) fn hand_back<H: Host>(opened: Vec<Opened<H::Store>>, host: &mut H)
    requires { length (H.stores_back host.old) + length opened.items ≤ length (H.stores_given host.old) }
    ensures back { HandsBack H.Host (disks_of opened.items) host.old host.new }
    ensures prints { KeepsPrints H.Host host.old host.new }
{
    'stores: for store in opened {
        host.give_back(store.into_disk());
    }
}

/// Hands all stores back, and behind those that are open the one at which opening stopped.
pub(crate) fn give_up<H: Host>(
    opened: Vec<Opened<H::Store>>,
    stop: Stop<H::Store>,
    host: &mut H,
) -> Status
    requires { length (H.stores_back host.old) + length opened.items + length (option_to_list stop.store) ≤ length (H.stores_given host.old) }
    ensures status { result ≡ stop.status }
    ensures back { HandsBack H.Host (disks_of opened.items ++ option_to_list stop.store) host.old host.new }
    ensures prints { KeepsPrints H.Host host.old host.new }
{
    let Stop { status, store } = stop;
    hand_back(opened, host);
    match store {
        Some(store) => {
            host.give_back(store);
            status
        }
        None => status,
    }
}
