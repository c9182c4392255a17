//! FLUSH and OPTIMIZE through the program: what a client is replied before, between and after them, what they leave on the disk, and what
//! is found of that later. The bytes of files are worked out from their layouts, those of replies from the protocol's documentation.
use crate::crashes::by_picks;
use crate::runs::Runs;
use std::sync::Wait;
use std::thread::Threads;

/// One document that goes to the disk, and then a check and a session over what a crash by the pick `#` leaves; before them the files that
/// each of them leaves: both roots, the log that was written before, the chunk of 99 bytes, and the log after it.
const ONE_CHUNK: &str =
    r#" 0=010100000000000000240000000c006669656c64207469746c650a00000000000000000300000000000000020000000000 1=010200000000000000300000000c006669656c64207469746c650a01000000000000000500000002000000040000000100030000006300000000000000 2=012300000001000000000000000100000001070000000000000002000000000568656c6c6f0005776f726c640000000000 3=53524348554e4b31010000000100000002000000030000000c0000000800000007000000000000000100000000000000000000000200000000000001000000000000000600000001000000040000000568656c6c6f05776f726c640102010101020102 4=00
a document goes to the disk | session --config one | one |  | RESP; INSERT INTO one VALUES (7,'hello world'); FLUSH RAMCHUNK one; SELECT id FROM one WHERE MATCH('"hello world"'); QUIT => hello 1; accepted; ok 1 2; ok 0 2; ids 2: 7 ⇒ 0; asks one, in one, 1, 1 and 1 back;
the index then | check --config one | one ~# |  | - ⇒ 0; asks one, in one, 1 and 0 back; one: 1 documents, 1 disk chunks, 0 log records;
once more | check --config one | one ~# |  | - ⇒ 0; asks one, in one, 1 and 0 back; one: 1 documents, 1 disk chunks, 0 log records;
a second session | session --config one | one ~# |  | RESP; SELECT id FROM one WHERE MATCH('world'); SELECT id FROM one WHERE MATCH('"hello world"'); INSERT INTO one VALUES (7,'x'); SHOW INDEX one STATUS; QUIT => hello 1; accepted; ids 2: 7; ids 2: 7; err 1064 42000 duplicate id 7; status 1 1 ⇒ 0; asks one, in one, 1, 1 and 1 back;
the index after that | check --config one | one ~# |  | - ⇒ 0; asks one, in one, 1 and 0 back; one: 1 documents, 1 disk chunks, 0 log records;
"#;

/// Ten documents in one chunk, of which one is replaced and one deleted afterwards: what a check finds after a crash by the pick `#`, and
/// what a session finds then and once they are in one chunk again.
const TEN: &str = r#"
ten documents | session --config rt | rt |  | RESP; INSERT INTO rt VALUES (1,'a'),(2,'a'),(3,'a'),(4,'a'),(5,'a'),(6,'a'),(7,'a'),(8,'a'),(9,'a'),(10,'a'); FLUSH RAMCHUNK rt; OPTIMIZE INDEX rt; REPLACE INTO rt VALUES (7,'b'); DELETE FROM rt WHERE id=9; QUIT => hello 1; accepted; ok 10 2; ok 0 2; ok 0 2; ok 1 2; ok 1 2 ⇒ 0; asks rt, in rt, 1, 1 and 1 back;
the index then | check --config rt | rt ~# |  | - ⇒ 0; asks rt, in rt, 1 and 0 back; rt: 9 documents, 1 disk chunks, 2 log records;
what is found of it | session --config rt | rt ~# |  | RESP; SELECT id FROM rt; SELECT id FROM rt WHERE MATCH('b'); OPTIMIZE INDEX rt; SELECT id FROM rt; SELECT id FROM rt WHERE MATCH('b'); QUIT => hello 1; accepted; ids 2: 1 2 3 4 5 6 7 8 10; ids 2: 7; ok 0 2; ids 2: 1 2 3 4 5 6 7 8 10; ids 2: 7 ⇒ 0; asks rt, in rt, 1, 1 and 1 back;
the index after that | check --config rt | rt ~# |  | - ⇒ 0; asks rt, in rt, 1 and 0 back; rt: 9 documents, 1 disk chunks, 0 log records;
"#;

/// Facets and SHOW META over the same three documents, whatever layers hold them: in memory, in one chunk, in a chunk each, and with rows
/// in chunks that live no more. Only the number of chunks differs.
pub(crate) const LAYERS: &str = r#"
memory, and one chunk | session --config shop | shop |  | RESP; INSERT INTO rt VALUES (1,'hello world','one',10,5); INSERT INTO rt VALUES (2,'hello','world wide',20,5); INSERT INTO rt VALUES (3,'world hello','nothing',10,-1); SELECT id FROM rt WHERE MATCH('hello') LIMIT 0 FACET gid FACET price; SHOW META; SHOW INDEX rt STATUS; FLUSH RAMCHUNK rt; SELECT id FROM rt WHERE MATCH('hello') LIMIT 0 FACET gid FACET price; SHOW META; SHOW INDEX rt STATUS; OPTIMIZE INDEX rt; SELECT id FROM rt WHERE MATCH('hello') LIMIT 0 FACET gid FACET price; SHOW META; SHOW INDEX rt STATUS; QUIT => hello 1; accepted; ok 1 2; ok 1 2; ok 1 2; facets of hello; meta of hello; status 3 0; ok 0 2; facets of hello; meta of hello; status 3 1; ok 0 2; facets of hello; meta of hello; status 3 1 ⇒ 0; asks shop, in shop, 1, 1 and 1 back;
opened again | session --config shop | shop ~1 |  | RESP; SELECT id FROM rt WHERE MATCH('hello') LIMIT 0 FACET gid FACET price; SHOW META; SHOW INDEX rt STATUS; QUIT => hello 1; accepted; facets of hello; meta of hello; status 3 1 ⇒ 0; asks shop, in shop, 1, 1 and 1 back;
a chunk each | session --config shop | shop |  | RESP; INSERT INTO rt VALUES (2,'hello','world wide',20,5); FLUSH RAMCHUNK rt; INSERT INTO rt VALUES (1,'hello world','one',10,5); FLUSH RTINDEX rt; INSERT INTO rt VALUES (3,'world hello','nothing',10,-1); SELECT id FROM rt WHERE MATCH('hello') LIMIT 0 FACET gid FACET price; SHOW META; SHOW INDEX rt STATUS; FLUSH RAMCHUNK rt; SELECT id FROM rt WHERE MATCH('hello') LIMIT 0 FACET gid FACET price; SHOW META; SHOW INDEX rt STATUS; OPTIMIZE INDEX rt; SELECT id FROM rt WHERE MATCH('hello') LIMIT 0 FACET gid FACET price; SHOW META; SHOW INDEX rt STATUS; QUIT => hello 1; accepted; ok 1 2; ok 0 2; ok 1 2; ok 0 2; ok 1 2; facets of hello; meta of hello; status 3 2; ok 0 2; facets of hello; meta of hello; status 3 3; ok 0 2; facets of hello; meta of hello; status 3 1 ⇒ 0; asks shop, in shop, 1, 1 and 1 back;
rows that live no more | session --config shop | shop |  | RESP; INSERT INTO rt VALUES (1,'hello','hello',30,7),(2,'hello','world wide',20,5),(4,'hello','hello',10,5); FLUSH RAMCHUNK rt; REPLACE INTO rt VALUES (1,'hello world','one',10,5),(3,'hello','hello',20,5); FLUSH RAMCHUNK rt; DELETE FROM rt WHERE id=4; REPLACE INTO rt VALUES (3,'world hello','nothing',10,-1); SELECT id FROM rt WHERE MATCH('hello') LIMIT 0 FACET gid FACET price; SHOW META; SHOW INDEX rt STATUS; FLUSH RAMCHUNK rt; SELECT id FROM rt WHERE MATCH('hello') LIMIT 0 FACET gid FACET price; SHOW META; SHOW INDEX rt STATUS; OPTIMIZE INDEX rt; SELECT id FROM rt WHERE MATCH('hello') LIMIT 0 FACET gid FACET price; SHOW META; SHOW INDEX rt STATUS; QUIT => hello 1; accepted; ok 3 2; ok 0 2; ok 2 2; ok 0 2; ok 1 2; ok 1 2; facets of hello; meta of hello; status 3 2; ok 0 2; facets of hello; meta of hello; status 3 3; ok 0 2; facets of hello; meta of hello; status 3 1 ⇒ 0; asks shop, in shop, 1, 1 and 1 back;
opened again | session --config shop | shop ~2 |  | RESP; SELECT id FROM rt WHERE MATCH('hello') LIMIT 0 FACET gid FACET price; SHOW META; SHOW INDEX rt STATUS; QUIT => hello 1; accepted; facets of hello; meta of hello; status 3 1 ⇒ 0; asks shop, in shop, 1, 1 and 1 back;
"#;

/// Jobs in a transaction, of an index without documents, of one that isn't there, and beside another worker, each of whose packets is given
/// in its turn.
pub(crate) const JOBS: &str = r#"
in a transaction | session --config rt | rt |  | RESP; INSERT INTO rt VALUES (1,'hello'); BEGIN; INSERT INTO rt VALUES (2,'hello'); FLUSH RAMCHUNK rt; OPTIMIZE INDEX rt; SELECT id FROM rt; COMMIT; SELECT id FROM rt; SHOW INDEX rt STATUS; QUIT => hello 1; accepted; ok 1 2; ok 0 3; ok 1 3; ok 0 3; ok 0 3; ids 3: 1; ok 0 2; ids 2: 1 2; status 2 1 ⇒ 0; asks rt, in rt, 1, 1 and 1 back;
no documents | session --config rt | rt |  | RESP; FLUSH RTINDEX rt; OPTIMIZE INDEX rt; SHOW INDEX rt STATUS; FLUSH RAMCHUNK nosuch; OPTIMIZE INDEX nosuch; QUIT => hello 1; accepted; ok 0 2; ok 0 2; status 0 0; err 1064 42000 unknown index 'nosuch'; err 1064 42000 unknown index 'nosuch' ⇒ 0; asks rt, in rt, 1, 1 and 1 back;
the last document is deleted | session --config rt | rt |  | RESP; INSERT INTO rt VALUES (1,'hello'); FLUSH RAMCHUNK rt; DELETE FROM rt WHERE id=1; FLUSH RAMCHUNK rt; SHOW INDEX rt STATUS; OPTIMIZE INDEX rt; SHOW INDEX rt STATUS; QUIT => hello 1; accepted; ok 1 2; ok 0 2; ok 1 2; ok 0 2; status 0 1; ok 0 2; status 0 0 ⇒ 0; asks rt, in rt, 1, 1 and 1 back;
beside another line | serve --config rt --listen a --workers 2 --sessions 1 | rt |  | @2 RESP; @3 INSERT INTO rt VALUES (50,'hello'); @4 FLUSH RAMCHUNK rt; @9 SELECT id FROM rt; @11 OPTIMIZE INDEX rt; @13 INSERT INTO rt VALUES (51,'hello'); @14 QUIT => hello 1; accepted; ok 1 2; ok 0 2; ids 2: 50; ok 0 2; err 1064 42000 duplicate id 51 / @0 RESP; @1 SELECT id FROM rt; @5 SELECT id FROM rt; @6 BEGIN; @7 INSERT INTO rt VALUES (51,'hello'); @8 SELECT id FROM rt; @10 COMMIT; @12 SHOW INDEX rt STATUS; @14 QUIT => hello 2; accepted; ids 2:; ids 2: 50; ok 0 3; ok 1 3; ids 3: 50; ok 0 2; status 2 1 ⇒ 0; asks rt, in rt, 2 at a, 1 and 2 back;
the index then | check --config rt | rt ~0 |  | - ⇒ 0; asks rt, in rt, 1 and 0 back; rt: 2 documents, 1 disk chunks, 0 log records;
"#;

/// Goes through the tables of what jobs leave on the disk, by each pick of a crash.
pub(crate) fn try_jobs<R: Threads + Wait + Sync>(rt: &R, runs: &mut Runs) -> Option<()> {
    by_picks(rt, runs, ONE_CHUNK)?;
    by_picks(rt, runs, TEN)
}
