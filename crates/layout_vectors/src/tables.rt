//! The tables: each row is `NAME | KIND WORD BYTES ⇒ TOLD`, its name left out where the bytes say it. `⟨x×n⟩` is x written n times,
//! and `-` no byte. What is told of numbers and of hit lists: the value that is read from the place on that the word says, where it
//! ends, and whether it is written as what stands there; or that none stands there. Of payloads of an index: the transaction, with
//! words and positions, boundaries (`.` a sentence's end, `!` a paragraph's), zones and positions of spans, and whether it is written
//! as these bytes; or the place at which the payload is refused.

/// The payload of the document 7 with the title `hello world`: 35 bytes.
pub(crate) const SHORT: &str =
    "0100000001070000000000000002000000000568656c6c6f0005776f726c6400000000";

/// That of document 258 with a title and a body, a value and three spans; 5 removed; all removed: 92 bytes, worked out by hand from
/// the layout of payloads.
///
/// ```text
///  0  03000000                    three operations
///  4  01                          a document put
///  5  0201000000000000            id 258
/// 13  ffffffffffffffff            value -1
/// 21  03000000                    the title has three words
/// 25  00 01 61                    a
/// 28  00 02 c3a9                  e with an acute accent
/// 32  01 01 62                    b, behind a sentence's end: position 4
/// 35  01000000                    the body has one word
/// 39  00 01 63                    c
/// 42  03000000                    three spans
/// 46  0000 0100 01000000 02000000 title, zone 1, positions 1 to 2
/// 58  0000 0000 01000000 04000000 title, zone 0, positions 1 to 4
/// 70  0100 0000 01000000 01000000 body, zone 0, position 1
/// 82  02 0500000000000000         5 removed
/// 91  03                          all removed
/// ```
pub(crate) const LONG: &str = "\
03000000010201000000000000ffffffffffffffff030000000001610002c3a9010162\
010000000001630300000000000100010000000200000000000000010000000400000001000000010000000100000002050000000000000003";

/// Numbers, worked out by hand at the edges of one to five bytes, between other bytes. 150 and 300 are the examples of the encoding
/// of Protocol Buffers, 624,485 is Wikipedia's of LEB128. Then bytes that begin with no number.
pub(crate) const NUMBERS: &str = "
number 1 ff00ff ⇒ 0 to 2 written
number 1 ff01ff ⇒ 1 to 2 written
number 1 ff7fff ⇒ 127 to 2 written
number 1 ff8001ff ⇒ 128 to 3 written
number 1 ff9601ff ⇒ 150 to 3 written
number 1 ffac02ff ⇒ 300 to 3 written
number 1 ffff7fff ⇒ 16383 to 3 written
number 1 ff808001ff ⇒ 16384 to 4 written
number 1 ffe58e26ff ⇒ 624485 to 4 written
number 1 ffffff7fff ⇒ 2097151 to 4 written
number 1 ff80808001ff ⇒ 2097152 to 5 written
number 1 ffffffff7fff ⇒ 268435455 to 5 written
number 1 ff8080808001ff ⇒ 268435456 to 6 written
number 1 ffffffffff0fff ⇒ 4294967295 to 6 written
no byte | number 0 - ⇒ none
cut | number 0 80 ⇒ none
cut | number 0 ff ⇒ none
cut | number 0 ffff ⇒ none
cut | number 0 80808080 ⇒ none
a longer spelling of 0 | number 0 8000 ⇒ none
a longer spelling of 127 | number 0 ff00 ⇒ none
a longer spelling of 1 | number 0 818000 ⇒ none
a longer spelling of 0 | number 0 8080808000 ⇒ none
a fifth byte too large | number 0 ffffffff10 ⇒ none
a fifth byte too large | number 0 ffffffff7f ⇒ none
six bytes | number 0 808080808001 ⇒ none
behind the end | number 1 01 ⇒ none
far behind it | number 18446744073709551615 01 ⇒ none
";

/// Hit lists as field:position, worked out by hand, between other bytes: the first two are those of `hello` and `world` in a document
/// `hello world`, the last one has each position of a field. Then bytes that begin with no hit list.
pub(crate) const HITS: &str = "
hits 1 ff0101ff ⇒ 0:1 to 3 written
hits 1 ff0102ff ⇒ 0:2 to 3 written
hits 1 ff01ffff03ff ⇒ 0:65535 to 5 written
hits 1 ff01818004ff ⇒ 1:1 to 5 written
hits 1 ff01ffff7fff ⇒ 31:65535 to 5 written
hits 1 ff020101ff ⇒ 0:1 0:2 to 4 written
hits 1 ff03017f8001ff ⇒ 0:1 0:128 0:256 to 6 written
hits 1 ff030104feff03ff ⇒ 0:1 0:5 1:3 to 7 written
hits 1 ff03ffff0302feff7bff ⇒ 0:65535 1:1 31:65535 to 9 written
hits 0 ffff03⟨01×65535⟩ ⇒ 65535 hits up to 0:65535 to 65538 written
a position more | hits 0 808004⟨01×65536⟩ ⇒ none
no count | hits 0 - ⇒ none
no hit where one is counted | hits 0 01 ⇒ none
one where two are counted | hits 0 0201 ⇒ none
cut | hits 0 0180 ⇒ none
none are counted | hits 0 00 ⇒ none
position 0 | hits 0 0100 ⇒ none
position 0 of the field 1 | hits 0 01808004 ⇒ none
the same hit twice | hits 0 020100 ⇒ none
the field 32 | hits 0 0180808001 ⇒ none
the field 32, its first position | hits 0 0181808001 ⇒ none
the field 32 behind the field 31 | hits 0 02ffff7f02 ⇒ none
numbers too large | hits 0 0201ffffffff0f ⇒ none
a longer spelling of a hit | hits 0 018100 ⇒ none
a longer spelling of the count | hits 0 810001 ⇒ none
";

/// Payloads, the front parts of two, each of which is refused where its first field begins that isn't whole, an insertion, which is
/// written as a put, and positions up to the greatest one: refused is the last word's boundary, which stands behind 17 bytes and 3
/// for each word before it.
pub(crate) const PAYLOADS: &str = "
payload short SHORT ⇒ put 7 [] {hello@1 world@2 }; written
payload long LONG ⇒ put 258 [-1 ] {a@1 \u{e9}@2 .b@4 1:1-2 0:1-4 } {c@1 0:1-1 }; kill 5; clear; written
insertion short SHORT ⇒ insert 7 [] {hello@1 world@2 }; written
fronts short SHORT ⇒ 0 0 0 0 4 5 5 5 5 5 5 5 5 13 13 13 13 17 18 19 19 19 19 19 24 25 26 26 26 26 26 31 31 31 31 end
fronts long LONG ⇒ 0 0 0 0 4 5 5 5 5 5 5 5 5 13 13 13 13 13 13 13 13 21 21 21 21 25 26 27 28 29 30 30 32 33 34 35 35 35 35 39 40 41 42 42 42 42 46 46 46 46 46 46 46 46 46 46 46 46 58 58 58 58 58 58 58 58 58 58 58 58 70 70 70 70 70 70 70 70 70 70 70 70 82 83 83 83 83 83 83 83 83 91 end
payload short 01000000010700000000000000ffff0000⟨000161×65535⟩00000000 ⇒ put 7 [] {65535 words up to a@65535 }; written
payload short 01000000010700000000000000feff0000⟨000161×65533⟩01016100000000 ⇒ put 7 [] {65534 words up to .a@65535 }; written
payload short 0100000001070000000000000000000100⟨000161×65536⟩00000000 ⇒ 196622
payload short 01000000010700000000000000ffff0000⟨000161×65534⟩02016100000000 ⇒ 196619
";

/// Damage of the long payload: from where on its bytes are replaced, by what, and where the first field stands then that breaks the
/// layout. Worked out by hand from its picture; each kind of damage at the first place where it can stand and at a later one.
pub(crate) const DAMAGE: &str = "
no operation, but bytes follow | damage 0 00000000 ⇒ 4
one operation, but bytes follow | damage 0 01000000 ⇒ 82
two operations, but a byte follows | damage 0 02000000 ⇒ 91
four operations, and no kind for the last | damage 0 04000000 ⇒ 92
many operations | damage 0 ffffffff ⇒ 92
a byte behind the last operation | damage 92 00 ⇒ 92
three bytes behind it | damage 92 030000 ⇒ 92
no kind | damage 4 00 ⇒ 4
no kind | damage 4 04 ⇒ 4
no kind, the second operation | damage 82 00 ⇒ 82
no kind, the last operation | damage 91 ff ⇒ 91
a word more in the title: the body's number is its boundary and its length, 0 | damage 21 04000000 ⇒ 36
a word less: the body's number begins with the third word | damage 21 02000000 ⇒ 37
no boundary | damage 25 03 ⇒ 25
no boundary, the third word | damage 32 03 ⇒ 32
no boundary, the body | damage 39 ff ⇒ 39
a boundary before the first word | damage 25 01 ⇒ 25
a boundary before the body's first word | damage 39 02 ⇒ 39
a word of no bytes | damage 26 00 ⇒ 26
the same, the third word | damage 33 00 ⇒ 33
a word of 169 bytes | damage 26 a9 ⇒ 26
a word of 255 bytes, the body | damage 40 ff ⇒ 40
a word of 168 bytes, which aren't there | damage 26 a8 ⇒ 27
the same, the body | damage 40 a8 ⇒ 41
no UTF-8 | damage 27 ff ⇒ 27
no UTF-8, the second word | damage 30 c328 ⇒ 30
no UTF-8: its bytes change places | damage 30 a9c3 ⇒ 30
no UTF-8, the third word | damage 34 80 ⇒ 34
a span more, which is not whole | damage 42 04000000 ⇒ 82
a span less: the third one is read as a document put, whose body isn't whole | damage 42 02000000 ⇒ 91
no such field | damage 46 0200 ⇒ 46
no such field, the last span | damage 70 0200 ⇒ 70
the title behind the body | damage 46 010000000100000001000000 ⇒ 58
the title behind the body, the last span | damage 58 0100000001000000010000000000 ⇒ 70
begins at no word | damage 50 00000000 ⇒ 46
begins at a boundary | damage 50 03000000 ⇒ 46
begins behind the last word, the second span | damage 62 05000000 ⇒ 58
begins behind the last word of the body | damage 74 02000000 ⇒ 70
the second span begins before the first | damage 50 02000000 ⇒ 58
ends at a boundary | damage 54 03000000 ⇒ 46
ends behind the last word | damage 66 05000000 ⇒ 58
ends behind the last word of the body | damage 78 02000000 ⇒ 70
ends before it begins | damage 50 0200000001000000 ⇒ 46
ends before it begins, the second span | damage 62 0400000002000000 ⇒ 58
the same span twice | damage 58 000001000100000002000000 ⇒ 58
a lesser zone behind a greater one | damage 58 000000000100000002000000 ⇒ 58
ends before the span before it | damage 66 01000000 ⇒ 58
the second span again | damage 70 000000000100000004000000 ⇒ 70
";

/// The columns of an index as a text of lines: `field title`; and two fields, then an attribute of each kind, `uint a`, `bool b`,
/// `bigint c` and `timestamp d`.
pub(crate) const COLUMNS: &str = "
columns short 6669656c64207469746c650a ⇒ written
columns kinds 6669656c64207469746c650a6669656c6420626f64790a75696e7420610a626f6f6c20620a626967696e7420630a74696d657374616d7020640a ⇒ written
";

/// The image of document 7 with the title `hello world`, as FILES.md draws it: 99 bytes.
///
/// ```text
///  0  header: 1 row, 1 field, no attribute, 2 words; 3 bytes of marks, 12 of the dictionary, 8 of postings
/// 32  the row: id 7, commit 1, marks at 0
/// 52  marks: last position 2, no boundary, no span
/// 55  word table: `hello` at 0, in 1 row, list at 0; 67 `world` at 6, in 1 row, list at 4
/// 79  dictionary: `hello`; 85 `world`
/// 91  postings: row 0, 2 bytes, 1 hit, position 1; 95 the same with position 2
/// ```
pub(crate) const IMAGE: &str = "\
53524348554e4b31010000000100000002000000030000000c00000008000000\
0700000000000000010000000000000000000000\
020000000000000100000000000000060000000100000004000000\
0568656c6c6f05776f726c640102010101020102";

/// Images, and where they are damaged first, worked out by hand from the layout: the example with other bytes from a place on, cut, or
/// with bytes behind its end.
pub(crate) const IMAGES: &str = "
the example | changed 99 - ⇒ ok
no row | image short 53524348554e4b31000000000100000000000000000000000000000000000000 ⇒ ok
another id | changed 32 08 ⇒ ok
another commit | changed 40 ff ⇒ ok
no byte | cut 0 - ⇒ 0: magic
a part of the magic | cut 7 - ⇒ 0: magic
no header | cut 8 - ⇒ 8: sizes
a part of the header | cut 31 - ⇒ 8: sizes
the header | cut 32 - ⇒ 8: sizes
one byte less | cut 98 - ⇒ 8: sizes
one byte more | changed 99 00 ⇒ 8: sizes
another version | changed 7 32 ⇒ 0: magic
two rows | changed 8 02 ⇒ 8: sizes
two fields | changed 12 02 ⇒ 8: sizes
an attribute | changed 14 01 ⇒ 8: sizes
three words | changed 16 03 ⇒ 8: sizes
longer marks | changed 20 04 ⇒ 8: sizes
a byte of the dictionary counted to marks | changed 20 040000000b ⇒ 52: marks
other columns | image long 53524348554e4b31000000000100000000000000000000000000000000000000 ⇒ 8: sizes
marks told elsewhere | changed 48 01 ⇒ 52: marks
a longer spelling in marks | changed 52 8200 ⇒ 52: marks
a boundary at no position | changed 53 01 ⇒ 52: marks
a last position before the last word | changed 52 01 ⇒ 32: cover
a last position behind the last word | changed 52 03 ⇒ 32: cover
a word told elsewhere | changed 55 01 ⇒ 55: word table
in no row | changed 59 00 ⇒ 55: word table
in more rows than there are | changed 59 02 ⇒ 55: word table
a list told elsewhere | changed 63 01 ⇒ 55: word table
the second word told elsewhere | changed 67 05 ⇒ 67: word table
the second list told elsewhere | changed 75 05 ⇒ 67: word table
a shorter word | changed 79 04 ⇒ 67: word table
an empty word | changed 79 00 ⇒ 67: word table
a word behind the end | changed 85 06 ⇒ 67: word table
a byte behind the last word | changed 85 04 ⇒ 67: word table
a longer hit list | changed 92 03 ⇒ 67: word table
a shorter hit list | changed 92 01 ⇒ 67: word table
no text | changed 80 ff ⇒ 79: word order
a word twice | changed 86 68656c6c6f ⇒ 85: word order
a word before the one before | changed 80 78 ⇒ 85: word order
no row to go on by | changed 91 00 ⇒ 91: postings
a row that isn't there | changed 91 02 ⇒ 91: postings
no hit | changed 93 00 ⇒ 91: postings
a hit too many | changed 93 02 ⇒ 91: postings
a hit twice | changed 94 00 ⇒ 91: postings
the second list, a row that isn't there | changed 95 02 ⇒ 95: postings
the second list, a shorter hit list | changed 96 01 ⇒ 95: postings
the second list, a hit list behind the end | changed 96 03 ⇒ 95: postings
the second list, a hit that is cut | changed 98 83 ⇒ 95: postings
two words at a position | changed 94 02 ⇒ 32: cover
two words at the first position | changed 98 01 ⇒ 32: cover
a word behind the last position | changed 98 03 ⇒ 32: cover
";
