//! How stores that were opened become engines under one naming type. Where memory is refused half-way, the engines that were made end
//! again with the tokens that they gave, so that all disks come back.
ghost use Rattle.std.specs.Prelude.{◌≡◌, ◌<◌, All, IfErr, IfOk, length};
ghost use Rattle.engine_tables.specs.Endings.{ComeBack};
ghost use Rattle.engine_tables.specs.Engines.{engines_over};
ghost use Rattle.engine_tables.specs.Names.{AreNamed, AreServed, IsRoomFor};
ghost use Rattle.engine_tables.specs.Tokens.{SitsAt, new_seats};
ghost use Rattle.engine_tables.specs.steps.Makings.{IsNone};

use crate::making::{Made, Making, give_back, make_all, seats_for};
use crate::{Ended, Ending, Engines, Tokens};
use chunk_store::Disk;
use index_conf::IndexConf;
use srch_base::NoMemory;
use std::alloc::Global;
use std::sync::Wait;
use step_book::Naming;
use store_keep::Opened;

/// Engines, the tokens of each worker, and where these go in the end.
pub struct Named<D: Disk, J: Naming> {
    pub engines: Engines<D, J>,
    pub seats: Vec<Tokens<J>>,
    pub ending: Ending<D, J>,
}

/// No engine yet, with room for so many.
fn none<D: Disk, J: Naming>(
    alloc: Global,
    indexes: usize,
    workers: u32,
    ending: Ending<D, J>,
) -> Result<Made<D, J>, Ending<D, J>>
    requires some { 0 < workers }
    requires room { IsRoomFor indexes workers ending }
    ensures none { IfOk result (λ made. IsNone indexes made × (made.workers ≡ workers) × (made.ending ≡ ending)) }
    ensures ending { IfErr result (λ back. back ≡ ending) }
{
    let Ok(tables) = Vec::with_capacity(alloc, indexes) else {
        return Err(ending);
    };
    match seats_for(alloc, workers) {
        Ok(seats) => Ok(Made {
            tables,
            workers,
            seats,
            ending,
        }),
        Err(NoMemory) => {
            tables.destroy_empty();
            Err(ending)
        }
    }
}

impl<D: Disk, J: Naming> Engines<D, J> {
    /// The engines of these indexes over their stores, with tokens for each worker, from worker 1 on. Out of memory, all disks come back,
    /// in their order.
    pub fn named<R: Wait>(
        rt: &R,
        alloc: Global,
        confs: Vec<IndexConf>,
        stores: Vec<Opened<D>>,
        workers: u32,
        ending: Ending<D, J>,
    ) -> Result<Named<D, J>, Vec<Ended<D, J>>>
        requires named { AreNamed D.Disk J.book J.faults J.stops J.schema J.base J.opened confs.items stores.items }
        requires served { AreServed confs.items }
        requires workers { 0 < workers }
        requires room { IsRoomFor (length confs.items) workers ending }
        ensures engines { IfOk result (λ named. named.engines ≡ engines_over confs.items stores.items workers) }
        ensures seats { IfOk result (λ named. named.seats.items ≡ new_seats (length confs.items) workers) }
        ensures sit { IfOk result (λ named. All (SitsAt named.engines) named.seats.items) }
        ensures ending { IfOk result (λ named. named.ending ≡ ending) }
        ensures disks { IfErr result (λ all. ComeBack D.Disk J.schema J.base J.opened workers stores.items all.items) }
    {
        match none(alloc, confs.len(), workers, ending) {
            Ok(none) => match make_all(rt, alloc, none, confs, stores) {
                Making::Going(made) => {
                    let Made {
                        tables,
                        workers,
                        seats,
                        ending,
                    } = made;
                    Ok(Named {
                        engines: Engines { tables, workers },
                        seats,
                        ending,
                    })
                }
                Making::Stopped(ended) => Err(ended),
            },
            Err(ending) => {
                let Ending {
                    indexes: _indexes,
                    workers: _workers,
                    seats: _seats,
                    column: _column,
                    told: _told,
                    ended,
                } = ending;
                Err(give_back(stores, ended))
            }
        }
    }
}
