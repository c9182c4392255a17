//! A selftest over an engine: its one worker runs it over an index on a disk, and the engine has ended before anything is answered.
ghost use Rattle.std.specs.Prelude.{◌≡◌, ◌≤◌, [], ◌∷◌, Ok, Some, IfOk, length, slice_get};
ghost use Rattle.engine_tables.specs.Names.{AreNamed, IsRoomFor};
ghost use Rattle.engine_tables.specs.Tokens.{SitsAt};
ghost use Rattle.engine_tables.specs.declared.ended.Ended.{Ended as AnyEnded};
ghost use Rattle.store_keep.specs.Opens.{HidesNothing};
ghost use Rattle.self_test.specs.Documents.{documents_from};
ghost use Rattle.self_test.specs.Ends.{Ends, IsOver, LeadsTo, Works, first_tokens};
ghost use Rattle.self_test.specs.Summaries.{IsSummary};
ghost use Rattle.self_test.specs.steps.Engines.{HoldsNothing, IsAnswered, IsNeverAstray, IsReady};

use crate::index::{one, own_index};
use crate::running::run;
use crate::{Astray, SelftestFault, Summary};
use charset_map::a_text_is_read_in_one_way;
use chunk_store::{Disk, MemoryDisk};
use commit_outcomes::Strayed;
use engine_tables::{Ended, Ending, Engines, Named, Tokens, WorkerTables};
use index_conf::IndexConf;
use query_grammar::{a_query_has_no_fault, a_text_is_one_query};
use query_pieces::each_text_has_pieces;
use srch_base::{NoMemory, Or};
use std::alloc::Global;
use std::marker::Brand;
use std::sync::Wait;
use std::thread::Threads;
use step_book::Naming;
use store_keep::Opened;

/// Runs a selftest over an engine of the index `t`, with the field `title` and the attribute `gid`, on a disk in memory. The engine
/// has ended before this answers: where its history strayed, that is the answer, whatever was found.
///
/// Where it ended well, each statement was replied to as it has to be, or a job failed, or memory was refused.
pub fn run_over_engine<R: Threads + Wait>(
    rt: &R,
    alloc: Global,
    number: u32,
    docs: u32,
) -> Result<Summary, SelftestFault>
    requires { docs ≤ 100000 }
    ensures summary { IfOk result (IsSummary (documents_from number docs)) }
    ensures ends { Ends ⟦<MemoryDisk as Disk>⟧ (documents_from number docs) result }
{
    let disk = MemoryDisk::new(alloc, Vec::new(alloc));
    match open_index(rt, alloc, disk) {
        Ok((index, store)) => {
            run_over_store::<MemoryDisk, Brand, R>(rt, alloc, index, store, number, docs)
        }
        Err(NoMemory) => Err(SelftestFault::NoMemory),
    }
}

/// The index and its store on a disk. The disk fails for want of memory alone.
fn open_index<D: Disk + Drop, R: Threads>(
    rt: &R,
    alloc: Global,
    disk: D,
) -> Result<(IndexConf, Opened<D>), NoMemory>
    requires hides { HidesNothing D.Disk disk }
    requires nothing { HoldsNothing D.Disk disk }
    ensures { IfOk result (λ made. IsReady D.Disk made.0 made.1) }
{
    let index = own_index(alloc)?;
    match Opened::open(rt, alloc, disk, &index.schema) {
        Ok(store) => Ok((index, store)),
        Err(_) => Err(NoMemory),
    }
}

/// What an engine is made of: the index, its store, and room for the token of one worker in the end.
fn parts<D: Disk + Drop, J: Naming>(
    alloc: Global,
    index: IndexConf,
    store: Opened<D>,
) -> Result<(Vec<IndexConf>, Vec<Opened<D>>, Ending<D, J>), NoMemory>
    ensures indexes { IfOk result (λ made. made.0.items ≡ index ∷ []) }
    ensures stores { IfOk result (λ made. made.1.items ≡ store ∷ []) }
    ensures ending { IfOk result (λ made. IsRoomFor 1 1 made.2) }
{
    let indexes = one(alloc, index)?;
    let stores = one(alloc, store)?;
    let ending = Ending::new(alloc, 1, 1)?;
    Ok((indexes, stores, ending))
}

/// Runs over a store that has the names.
#[tactic(auto, using(crate::proofs::Engines::served_one))]
fn run_over_store<D: Disk + Drop, J: Naming, R: Wait>(
    rt: &R,
    alloc: Global,
    index: IndexConf,
    store: Opened<D>,
    number: u32,
    docs: u32,
) -> Result<Summary, SelftestFault>
    requires few { docs ≤ 100000 }
    requires ready { IsReady D.Disk index store }
    requires named { AreNamed D.Disk J.book J.faults J.stops J.schema J.base J.opened (index ∷ []) (store ∷ []) }
    ensures summary { IfOk result (IsSummary (documents_from number docs)) }
    ensures ends { Ends D.Disk (documents_from number docs) result }
{
    match parts(alloc, index, store) {
        Ok((indexes, stores, ending)) => {
            match Engines::<D, J>::named(rt, alloc, indexes, stores, 1, ending) {
                Ok(named) => run_over_named(rt, alloc, named, number, docs),
                Err(ended) => {
                    let _end = end_of(ended);
                    Err(SelftestFault::NoMemory)
                }
            }
        }
        Err(NoMemory) => Err(SelftestFault::NoMemory),
    }
}

/// The worker runs the selftest, and then the engine ends.
fn run_over_named<D: Disk + Drop, J: Naming, R: Wait>(
    rt: &R,
    alloc: Global,
    named: Named<D, J>,
    number: u32,
    docs: u32,
) -> Result<Summary, SelftestFault>
    requires few { docs ≤ 100000 }
    requires over { IsOver D.Disk J.schema J.base J.opened named.engines.confs }
    requires alone { named.engines.workers ≡ 1 }
    requires seats { named.seats.items ≡ first_tokens ∷ [] }
    requires sit { SitsAt named.engines first_tokens }
    requires room { IsRoomFor 1 1 named.ending }
    ensures summary { IfOk result (IsSummary (documents_from number docs)) }
    ensures ends { Ends D.Disk (documents_from number docs) result }
{
    each_text_has_pieces();
    a_query_has_no_fault();
    a_text_is_one_query();
    a_text_is_read_in_one_way();
    let Named {
        engines,
        mut seats,
        mut ending,
    } = named;
    let (found, tokens) = work(rt, alloc, &engines, seats.take_last(), number, docs);
    ending.put(tokens);
    answer(found, end_of(engines.close(rt, ending)))
}

/// Runs the selftest over a worker's tokens of these engines, which it gives back.
fn work<D: Disk, J: Naming, R: Wait>(
    rt: &R,
    alloc: Global,
    engines: &Engines<D, J>,
    tokens: Tokens<J>,
    number: u32,
    docs: u32,
) -> (Result<Summary, Or<Astray>>, Tokens<J>)
    requires one { length engines.now.confs ≡ 1 }
    requires sits { SitsAt engines.now tokens }
    ensures finds { LeadsTo J.schema J.base engines.now.confs (documents_from number docs) result.0 tokens result.1 }
    ensures works { Works J.schema J.base engines.now.confs tokens result.1 }
    ensures sits { SitsAt engines.now result.1 }
{
    let mut tables = WorkerTables::over(rt, engines, tokens);
    let found = run(alloc, &mut tables, number, docs);
    (found, tables.into_tokens())
}

/// How the one engine ended.
fn end_of<D: Disk + Drop, J: Naming>(mut ended: Vec<Ended<D, J>>) -> Result<(), Or<Strayed>>
    requires { length ended.items ≡ 1 }
    ensures { (one : AnyEnded D J) × (slice_get ended.items 0 ≡ Some one) × (result ≡ one.answer) }
{
    let Ended {
        disk: _disk,
        note: _note,
        answer,
    } = ended.take_last();
    ended.destroy_empty();
    answer
}

/// What is answered, by what was found and how the engine ended.
fn answer(
    found: Result<Summary, Or<Astray>>,
    end: Result<(), Or<Strayed>>,
) -> Result<Summary, SelftestFault>
    requires { IsNeverAstray found end }
    ensures { IsAnswered found end result }
{
    match end {
        Ok(()) => match found {
            Ok(summary) => Ok(summary),
            Err(Or::Fault(Astray::Unexpected)) => unreachable!(),
            Err(Or::Fault(Astray::JobFailed)) => Err(SelftestFault::JobFailed),
            Err(Or::NoMemory) => Err(SelftestFault::NoMemory),
        },
        Err(Or::Fault(strayed)) => Err(SelftestFault::Strayed(strayed)),
        Err(Or::NoMemory) => Err(SelftestFault::NoMemory),
    }
}
