//! Runs in which a call of the host, of a store or of a line fails: with which status they end, what is printed, and what is written.
//! The words and numbers of a status are those of the manual, bytes those of the protocol's documentation.

/// Checks whose stores fail, as they are opened and as an index is begun.
pub(crate) const CHECKS: &str = r#"
the store fails | check --config both | one !1 + two |  | - ⇒ 4; asks both, in one, 1 and 0 back; ! searchd: host fault;
the second store fails | check --config both | one + two !2 |  | - ⇒ 4; asks both, in one, in two, 2 and 0 back; ! searchd: host fault;
a store fails as its index is begun | check --config one | one !9 |  | - ⇒ 4; asks one, in one, 1 and 0 back; ! searchd: host fault;
"#;

/// Doors that end at once, and sessions that aren't given theirs.
pub(crate) const DOORS: &str = r#"
a session | session --config rt | rt |  | - ⇒ 0; asks rt, in rt, 1, 1 and 1 back;
one worker | serve --config rt --listen port --workers 1 | rt |  | - ⇒ 0; asks rt, in rt, 1 at port, 1 and 1 back;
as many workers as the manual says | serve --listen port --config rt | rt |  | - ⇒ 4; asks rt, in rt, 4 at port, 1 and 0 back; ! searchd: host fault;
done | serve --config rt --listen a --workers 2 --sessions 3 | rt |  | - / - ⇒ 0; asks rt, in rt, 2 at a, 1 and 2 back;
a call fails | session --config rt | rt | 3 | - ⇒ 4; asks rt, in rt, 1, 1 and 0 back; ! searchd: host fault;
a call fails, and the print | session --config rt | rt | 3 4 | - ⇒ 4; asks rt, in rt, 1, 1 and 0 back;
a call fails | session --config rt | rt |  | none ⇒ 4; asks rt, in rt, 1, 1 and 0 back; ! searchd: host fault;
"#;

/// Sessions that end where the input does or in a bad packet, and those whose calls fail. The calls of a session with two statements are a
/// write, a read, and three writes.
pub(crate) const LINES: &str = r#"
nothing | session --config rt | rt |  |  => hello 1 ⇒ 0; asks rt, in rt, 1, 1 and 1 back;
a response | session --config rt | rt |  | RESP => hello 1; accepted ⇒ 0; asks rt, in rt, 1, 1 and 1 back;
a part of a packet | session --config rt | rt |  | RESP; 0x0100 => hello 1; accepted ⇒ 0; asks rt, in rt, 1, 1 and 1 back;
a response of zeros | session --config rt | rt |  | 0x200000010000000000000000000000000000000000000000000000000000000000000000 => hello 1; bad handshake at 0 ⇒ 0; asks rt, in rt, 1, 1 and 1 back;
a packet that is too long | session --config rt | rt |  | RESP; 0x01008000 => hello 1; accepted; packet above 8388608 bytes ⇒ 0; asks rt, in rt, 1, 1 and 1 back;
a packet out of order | session --config rt | rt |  | RESP; 0x010000010e => hello 1; accepted; packet out of order ⇒ 0; asks rt, in rt, 1, 1 and 1 back;
call 1 of the line fails | session --config rt | rt |  | !1; RESP; INSERT INTO rt (id,title) VALUES (1,'hello'); SELECT id FROM rt WHERE MATCH('hello'); QUIT => a write fails ⇒ 0; asks rt, in rt, 1, 1 and 1 back;
call 2 of the line fails | session --config rt | rt |  | !2; RESP; INSERT INTO rt (id,title) VALUES (1,'hello'); SELECT id FROM rt WHERE MATCH('hello'); QUIT => hello 1; a read fails ⇒ 0; asks rt, in rt, 1, 1 and 1 back;
call 3 of the line fails | session --config rt | rt |  | !3; RESP; INSERT INTO rt (id,title) VALUES (1,'hello'); SELECT id FROM rt WHERE MATCH('hello'); QUIT => hello 1; a write fails ⇒ 0; asks rt, in rt, 1, 1 and 1 back;
call 4 of the line fails | session --config rt | rt |  | !4; RESP; INSERT INTO rt (id,title) VALUES (1,'hello'); SELECT id FROM rt WHERE MATCH('hello'); QUIT => hello 1; accepted; a write fails ⇒ 0; asks rt, in rt, 1, 1 and 1 back;
call 5 of the line fails | session --config rt | rt |  | !5; RESP; INSERT INTO rt (id,title) VALUES (1,'hello'); SELECT id FROM rt WHERE MATCH('hello'); QUIT => hello 1; accepted; ok 1 2; a write fails ⇒ 0; asks rt, in rt, 1, 1 and 1 back;
a sixth call isn't made | session --config rt | rt |  | !6; RESP; INSERT INTO rt (id,title) VALUES (1,'hello'); SELECT id FROM rt WHERE MATCH('hello'); QUIT => hello 1; accepted; ok 1 2; ids 2: 1 ⇒ 0; asks rt, in rt, 1, 1 and 1 back;
"#;

/// The same session, whose packets come one by one: each is given by a read of its own, once all before it were answered. So its calls
/// are a write and a read in turn, and each of them fails.
pub(crate) const PACKETS: &str = r#"
all calls go well | session --config rt | rt |  | one by one; RESP; INSERT INTO rt (id,title) VALUES (1,'hello'); SELECT id FROM rt WHERE MATCH('hello'); QUIT => hello 1; accepted; ok 1 2; ids 2: 1 ⇒ 0; asks rt, in rt, 1, 1 and 1 back;
call 1 of the line fails | session --config rt | rt |  | one by one; !1; RESP; INSERT INTO rt (id,title) VALUES (1,'hello'); SELECT id FROM rt WHERE MATCH('hello'); QUIT => a write fails ⇒ 0; asks rt, in rt, 1, 1 and 1 back;
call 2 of the line fails | session --config rt | rt |  | one by one; !2; RESP; INSERT INTO rt (id,title) VALUES (1,'hello'); SELECT id FROM rt WHERE MATCH('hello'); QUIT => hello 1; a read fails ⇒ 0; asks rt, in rt, 1, 1 and 1 back;
call 3 of the line fails | session --config rt | rt |  | one by one; !3; RESP; INSERT INTO rt (id,title) VALUES (1,'hello'); SELECT id FROM rt WHERE MATCH('hello'); QUIT => hello 1; a write fails ⇒ 0; asks rt, in rt, 1, 1 and 1 back;
call 4 of the line fails | session --config rt | rt |  | one by one; !4; RESP; INSERT INTO rt (id,title) VALUES (1,'hello'); SELECT id FROM rt WHERE MATCH('hello'); QUIT => hello 1; accepted; a read fails ⇒ 0; asks rt, in rt, 1, 1 and 1 back;
call 5 of the line fails | session --config rt | rt |  | one by one; !5; RESP; INSERT INTO rt (id,title) VALUES (1,'hello'); SELECT id FROM rt WHERE MATCH('hello'); QUIT => hello 1; accepted; a write fails ⇒ 0; asks rt, in rt, 1, 1 and 1 back;
call 6 of the line fails | session --config rt | rt |  | one by one; !6; RESP; INSERT INTO rt (id,title) VALUES (1,'hello'); SELECT id FROM rt WHERE MATCH('hello'); QUIT => hello 1; accepted; ok 1 2; a read fails ⇒ 0; asks rt, in rt, 1, 1 and 1 back;
call 7 of the line fails | session --config rt | rt |  | one by one; !7; RESP; INSERT INTO rt (id,title) VALUES (1,'hello'); SELECT id FROM rt WHERE MATCH('hello'); QUIT => hello 1; accepted; ok 1 2; a write fails ⇒ 0; asks rt, in rt, 1, 1 and 1 back;
call 8 of the line fails | session --config rt | rt |  | one by one; !8; RESP; INSERT INTO rt (id,title) VALUES (1,'hello'); SELECT id FROM rt WHERE MATCH('hello'); QUIT => hello 1; accepted; ok 1 2; ids 2: 1; a read fails ⇒ 0; asks rt, in rt, 1, 1 and 1 back;
"#;
