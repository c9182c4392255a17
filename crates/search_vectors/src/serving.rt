//! Serving over doors in memory: which lines are given and what is replied over each, what the host is asked for, and what is left of
//! the index.

/// Numbers of connections, how many lines each worker serves, and doors that end, fail or aren't given. The last rows are of two workers
/// at once, and what each replies in its turn: no packet is given before those above it are answered, so neither line can wait for the
/// other's end.
pub(crate) const SERVED: &str = r#"
fewer doors than workers | serve --listen a --workers 3 --config rt | rt |  | - / - ⇒ 4; asks rt, in rt, 3 at a, 1 and 0 back; ! searchd: host fault;
the index then | check --config rt | rt ~1 |  | - ⇒ 0; asks rt, in rt, 1 and 0 back; rt: 0 documents, 0 disk chunks, 0 log records;
the call for doors fails | serve --listen a --workers 3 --config rt | rt | 3 | - / - / - ⇒ 4; asks rt, in rt, 3 at a, 1 and 0 back; ! searchd: host fault;
the index then | check --config rt | rt ~1 |  | - ⇒ 0; asks rt, in rt, 1 and 0 back; rt: 0 documents, 0 disk chunks, 0 log records;
the print fails too | serve --listen a --workers 3 --config rt | rt | 3 4 | - / - / - ⇒ 4; asks rt, in rt, 3 at a, 1 and 0 back;
the index then | check --config rt | rt ~1 |  | - ⇒ 0; asks rt, in rt, 1 and 0 back; rt: 0 documents, 0 disk chunks, 0 log records;
the call for the one door fails | session --config rt | rt | 3 | - ⇒ 4; asks rt, in rt, 1, 1 and 0 back; ! searchd: host fault;
the index then | check --config rt | rt ~1 |  | - ⇒ 0; asks rt, in rt, 1 and 0 back; rt: 0 documents, 0 disk chunks, 0 log records;
doors that end at once | serve --listen a --workers 3 --sessions 2 --config rt | rt |  | - / - / - ⇒ 0; asks rt, in rt, 3 at a, 1 and 3 back;
the index then | check --config rt | rt ~1 |  | - ⇒ 0; asks rt, in rt, 1 and 0 back; rt: 0 documents, 0 disk chunks, 0 log records;
one line of each door | serve --listen a --workers 2 --sessions 1 --config rt | rt |  |  => hello 1 +  => never /  => hello 2 ⇒ 0; asks rt, in rt, 2 at a, 1 and 2 back;
the index then | check --config rt | rt ~1 |  | - ⇒ 0; asks rt, in rt, 1 and 0 back; rt: 0 documents, 0 disk chunks, 0 log records;
numbers of connections | serve --listen a --workers 2 --sessions 3 --config rt | rt |  |  => hello 1 +  => hello 3 +  => hello 5 /  => hello 2 +  => hello 4 ⇒ 0; asks rt, in rt, 2 at a, 1 and 2 back;
the index then | check --config rt | rt ~1 |  | - ⇒ 0; asks rt, in rt, 1 and 0 back; rt: 0 documents, 0 disk chunks, 0 log records;
of three workers | serve --listen a --workers 3 --sessions 2 --config rt | rt |  |  => hello 1 +  => hello 4 /  => hello 2 +  => hello 5 /  => hello 3 +  => hello 6 ⇒ 0; asks rt, in rt, 3 at a, 1 and 3 back;
the index then | check --config rt | rt ~1 |  | - ⇒ 0; asks rt, in rt, 1 and 0 back; rt: 0 documents, 0 disk chunks, 0 log records;
a line after another | serve --listen a --workers 1 --sessions 2 --config rt | rt |  | RESP; INSERT INTO rt VALUES (1,'hello'); BEGIN; INSERT INTO rt VALUES (2,'hello'); QUIT => hello 1; accepted; ok 1 2; ok 0 3; ok 1 3 + RESP; SELECT id FROM rt; QUIT => hello 2; accepted; ids 2: 1 ⇒ 0; asks rt, in rt, 1 at a, 1 and 1 back;
the index then | check --config rt | rt ~1 |  | - ⇒ 0; asks rt, in rt, 1 and 0 back; rt: 1 documents, 0 disk chunks, 1 log records;
after one out of order | serve --listen a --workers 1 --sessions 2 --config rt | rt |  | RESP; 0x010000010e => hello 1; accepted; packet out of order + RESP; SELECT id FROM rt; QUIT => hello 2; accepted; ids 2: ⇒ 0; asks rt, in rt, 1 at a, 1 and 1 back;
the index then | check --config rt | rt ~1 |  | - ⇒ 0; asks rt, in rt, 1 and 0 back; rt: 0 documents, 0 disk chunks, 0 log records;
after one that fails | serve --listen a --workers 1 --sessions 2 --config rt | rt |  | !1; RESP; QUIT => a write fails + RESP; SELECT id FROM rt; QUIT => hello 2; accepted; ids 2: ⇒ 0; asks rt, in rt, 1 at a, 1 and 1 back;
the index then | check --config rt | rt ~1 |  | - ⇒ 0; asks rt, in rt, 1 and 0 back; rt: 0 documents, 0 disk chunks, 0 log records;
the second of three doors fails | serve --config rt --listen a --workers 3 --sessions 1 | rt |  | - / fails / - ⇒ 4; asks rt, in rt, 3 at a, 1 and 3 back; ! searchd: host fault;
a line sees the commits of the other one | serve --config rt --listen a --workers 2 --sessions 1 | rt |  | @0 RESP; @3 SELECT id FROM rt; @4 INSERT INTO rt VALUES (1,'hello'); @5 SELECT id FROM rt WHERE MATCH('hello'); @6 QUIT => hello 1; accepted; ids 2: 1; err 1064 42000 duplicate id 1; ids 2: 1 / @1 RESP; @2 INSERT INTO rt VALUES (1,'hello'); @6 QUIT => hello 2; accepted; ok 1 2 ⇒ 0; asks rt, in rt, 2 at a, 1 and 2 back;
a transaction beside another line | serve --config rt --listen a --workers 2 --sessions 1 | rt |  | @2 RESP; @3 INSERT INTO rt VALUES (50,'hello'); @8 SELECT id FROM rt; @10 SELECT id FROM rt; @11 INSERT INTO rt VALUES (51,'hello'); @12 QUIT => hello 1; accepted; ok 1 2; ids 2: 50; ids 2: 50 51; err 1064 42000 duplicate id 51 / @0 RESP; @1 SELECT id FROM rt; @4 SELECT id FROM rt; @5 BEGIN; @6 INSERT INTO rt VALUES (51,'hello'); @7 SELECT id FROM rt; @9 COMMIT; @12 QUIT => hello 2; accepted; ids 2:; ids 2: 50; ok 0 3; ok 1 3; ids 3: 50; ok 0 2 ⇒ 0; asks rt, in rt, 2 at a, 1 and 2 back;
"#;
