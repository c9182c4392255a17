//! How runs of each mode end, by their words, the text of the file, the stores that are there, and the calls of the host that fail: the
//! status, what the host was asked for, how many stores and doors came back, and what was printed. The words and numbers of a status are
//! those of the manual. Most of these runs are made by the program too (docs/cases/runs.md), which doesn't show what came back.

/// Words that ask for nothing, of each mode: no call is made but the print.
pub(crate) const WORDS: &str = r#"
none |  | one |  | - ⇒ 2; asks 0 and 0 back; ! searchd: bad arguments;
no file | session --config | one |  | - ⇒ 2; asks 0 and 0 back; ! searchd: bad arguments;
another option | session --conf one | one |  | - ⇒ 2; asks 0 and 0 back; ! searchd: bad arguments;
an option for a file | session --config -f | one |  | - ⇒ 2; asks 0 and 0 back; ! searchd: bad arguments;
one too many | session --config one two | one |  | - ⇒ 2; asks 0 and 0 back; ! searchd: bad arguments;
the print fails | session | one | 1 | - ⇒ 2; asks 0 and 0 back;
no address | serve --config one | one |  | - ⇒ 2; asks 0 and 0 back; ! searchd: bad arguments;
65 workers | serve --config one --listen a --workers 65 | one |  | - ⇒ 2; asks 0 and 0 back; ! searchd: bad arguments;
no file | check | one |  | - ⇒ 2; asks 0 and 0 back; ! searchd: bad arguments;
no path | check --config | one |  | - ⇒ 2; asks 0 and 0 back; ! searchd: bad arguments;
no documents | selftest --number 1 --docs 0 | one |  | - ⇒ 2; asks 0 and 0 back; ! searchd: bad arguments;
"#;

/// Files that aren't there, can't be read, or are no configuration, of each mode: no store is asked for.
pub(crate) const TEXTS: &str = r#"
not there | session --config other | one |  | - ⇒ 4; asks other, 0 and 0 back; ! searchd: host fault;
not there | serve --config other --listen a | one |  | - ⇒ 4; asks other, 0 and 0 back; ! searchd: host fault;
not there | check --config other | one |  | - ⇒ 4; asks other, 0 and 0 back; ! searchd: host fault;
the call fails | session --config one | one | 1 | - ⇒ 4; asks one, 0 and 0 back; ! searchd: host fault;
the print too | session --config one | one | 1 2 | - ⇒ 4; asks one, 0 and 0 back;
the call fails | check --config one | one | 1 | - ⇒ 4; asks one, 0 and 0 back; ! searchd: host fault;
a section that none knows | session --config section | one |  | - ⇒ 3; asks section, 0 and 0 back; ! searchd: config line 1: unknown section;
a section that none knows | serve --config section --listen a | one |  | - ⇒ 3; asks section, 0 and 0 back; ! searchd: config line 1: unknown section;
a section that none knows | check --config section | one |  | - ⇒ 3; asks section, 0 and 0 back; ! searchd: config line 1: unknown section;
a key that none knows | session --config key | one |  | - ⇒ 3; asks key, 0 and 0 back; ! searchd: config line 4: unknown key;
no path | session --config path | one |  | none ⇒ 3; asks path, 0 and 0 back; ! searchd: config line 4: missing key;
no index | session --config nothing | one |  | none ⇒ 3; asks nothing, 0 and 0 back; ! searchd: config line 1: missing key;
"#;

/// Stores that aren't given, and checks whose prints fail.
pub(crate) const STORES: &str = r#"
the first isn't there | session --config both | two |  | - ⇒ 4; asks both, in one, 0 and 0 back; ! searchd: host fault;
the first isn't there | serve --config both --listen a --workers 2 | two |  | - / - ⇒ 4; asks both, in one, 0 and 0 back; ! searchd: host fault;
the first isn't there | check --config both | two |  | - ⇒ 4; asks both, in one, 0 and 0 back; ! searchd: host fault;
the second isn't | check --config both | one |  | - ⇒ 4; asks both, in one, in two, 1 and 0 back; ! searchd: host fault;
the call fails | session --config rt | rt | 2 | - ⇒ 4; asks rt, in rt, 0 and 0 back; ! searchd: host fault;
the print too | session --config rt | rt | 2 3 | - ⇒ 4; asks rt, in rt, 0 and 0 back;
the call fails | check --config one | one | 2 | - ⇒ 4; asks one, in one, 0 and 0 back; ! searchd: host fault;
the call for the second one | check --config both | one + two | 3 | - ⇒ 4; asks both, in one, in two, 1 and 0 back; ! searchd: host fault;
the print to the output | check --config both | one + two | 4 | - ⇒ 4; asks both, in one, in two, 2 and 0 back; ! searchd: host fault;
both prints | check --config both | one + two | 4 5 | - ⇒ 4; asks both, in one, in two, 2 and 0 back;
a document | session --config one | one |  | RESP; INSERT INTO one VALUES (7,'hello world'); QUIT => hello 1; accepted; ok 1 2 ⇒ 0; asks one, in one, 1, 1 and 1 back;
two, in the order of the configuration | check --config both | two ~1 + one |  | - ⇒ 0; asks both, in one, in two, 2 and 0 back; one: 0 documents, 0 disk chunks, 0 log records; two: 1 documents, 0 disk chunks, 1 log records;
"#;

/// Stores that can't be read, since the configuration has another column: the first index decides, whatever the words ask for, and no door
/// is asked for.
pub(crate) const DAMAGED: &str = r#"
a store | check --config one | one |  | - ⇒ 0; asks one, in one, 1 and 0 back; one: 0 documents, 0 disk chunks, 0 log records;
the first | session --config first | one ~1 + two |  | - ⇒ 5; asks first, in one, 1 and 0 back; ! searchd: index one: file 0 at 13: root schema;
the first | serve --config first --listen a --workers 2 | one ~1 + two |  | - / - ⇒ 5; asks first, in one, 1 and 0 back; ! searchd: index one: file 0 at 13: root schema;
the first | check --config first | one ~1 + two |  | - ⇒ 5; asks first, in one, 1 and 0 back; ! searchd: index one: file 0 at 13: root schema;
the print of it fails | check --config first | one ~1 + two | 3 | - ⇒ 5; asks first, in one, 1 and 0 back;
the first, and the second isn't there | session --config first | one ~1 |  | - ⇒ 5; asks first, in one, 1 and 0 back; ! searchd: index one: file 0 at 13: root schema;
the first, and the second isn't there | serve --config first --listen a --workers 2 | one ~1 |  | - / - ⇒ 5; asks first, in one, 1 and 0 back; ! searchd: index one: file 0 at 13: root schema;
the first, and the second isn't there | check --config first | one ~1 |  | - ⇒ 5; asks first, in one, 1 and 0 back; ! searchd: index one: file 0 at 13: root schema;
the second | session --config second | one + two ~1 |  | - ⇒ 5; asks second, in one, in two, 2 and 0 back; ! searchd: index two: file 0 at 13: root schema;
the first one then | check --config one | one ~1 |  | - ⇒ 0; asks one, in one, 1 and 0 back; one: 0 documents, 0 disk chunks, 0 log records;
the second | serve --config second --listen a --workers 2 | one + two ~1 |  | - / - ⇒ 5; asks second, in one, in two, 2 and 0 back; ! searchd: index two: file 0 at 13: root schema;
the first one then | check --config one | one ~1 |  | - ⇒ 0; asks one, in one, 1 and 0 back; one: 0 documents, 0 disk chunks, 0 log records;
the second | check --config second | one + two ~1 |  | - ⇒ 5; asks second, in one, in two, 2 and 0 back; ! searchd: index two: file 0 at 13: root schema;
the first one then | check --config one | one ~1 |  | - ⇒ 0; asks one, in one, 1 and 0 back; one: 0 documents, 0 disk chunks, 0 log records;
"#;

/// Selftests, which ask for nothing. The sums are those of a script that draws the documents and counts words and pairs in them; no line
/// of it is this program's.
pub(crate) const SELFTESTS: &str = r#"
two documents | selftest --number 1 --docs 2 | one |  | none ⇒ 0; asks 0 and 0 back; documents 2; words 8; pairs 0; groups 1; chunks 1;
no second call is made | selftest --docs 1 --number 0 | one | 2 | none ⇒ 0; asks 0 and 0 back; documents 1; words 4; pairs 0; groups 1; chunks 1;
the print fails | selftest --number 1 --docs 2 | one | 1 | none ⇒ 4; asks 0 and 0 back; ! searchd: host fault;
both prints | selftest --number 1 --docs 2 | one | 1 2 | none ⇒ 4; asks 0 and 0 back;
"#;
