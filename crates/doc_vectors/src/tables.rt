//! Documents, a line each, with what chunks over them answer, worked out by hand from the texts of their fields.
//!
//! A document's line has its id, the number of its commit, its rules and its values, and then the texts of its fields, where `n×x` is
//! x written n times. What is answered: how many rows, fields and words there are, and which of some ids and words are there. Of each
//! row its number, by its id; id and commit, values, last positions by field, boundaries by field with the positions that they take,
//! and spans by field with their zones. Of each word, by its bytes: how many rows have it; these, each with the fields of the row that
//! do as bits, and the word's places there by field and position.

/// Ten documents by ascending id: words in several fields and several times in one, boundaries of both kinds, zones that overlap,
/// fields without a word, a document without one, and the greatest id and numbers.
pub(crate) const DOCUMENTS: &str = "\
1 3 sp 10 5|hello world|one|
2 3 sp 20 5|hello|world wide|
3 4 sp 10 -1|world hello|nothing|Привет!
5 4 sp 0 0|John D. Doe met S.T.A.L.K.E.R. He left!||
6 5 html 0 0|John D. Doe met S.T.A.L.K.E.R. He left!||
7 5 html 1 1|<th>hello</th> x <th>world</th>||
8 5 html 1 2|<th>hello world||
9 9 sp 7 -7|te<P>st</P>|te<B>st</B> <th>hello</th>|Why? Because.<p>So it is. it was
1000 9223372036854775807 sp 4294967295 -9223372036854775808|| <p>.<!-- a -->|
18446744073709551615 9223372036854775807 sp 0 9223372036854775807|a|a! a|<th>b<i>a</th>a</i>
";

/// What is answered of them.
pub(crate) const ANSWERS: &str = "\
10 rows, 3 fields, 30 words, 1 at 0, 7 at 5, 18446744073709551615 at 9, hello 6
0: 1 by 3: 10 5, last 2 1 0, gaps, spans
1: 2 by 3: 20 5, last 1 2 0, gaps, spans
2: 3 by 4: 10 -1, last 2 1 1, gaps, spans
3: 5 by 4: 0 0, last 14 0 0, gaps 0.12s, spans
4: 6 by 5: 0 0, last 13 0 0, gaps, spans
5: 7 by 5: 1 1, last 3 0 0, gaps, spans 0.1-1:0 0.3-3:0
6: 8 by 5: 1 2, last 2 0 0, gaps, spans 0.1-2:0
7: 9 by 9: 7 -7, last 3 3 9, gaps 0.2p 1.2p 2.2s 2.4p, spans 1.3-3:0
8: 1000 by 9223372036854775807: 4294967295 -9223372036854775808, last 0 0 0, gaps, spans
9: 18446744073709551615 by 9223372036854775807: 0 9223372036854775807, last 1 3 4, gaps 1.2s 2.3p, spans 2.1-2:0 2.2-4:1
a 3: 3/1: 0.7 4/1: 0.7 9/7: 0.1 1.1 1.3 2.2 2.4
b 1: 9/4: 2.1
because 1: 7/4: 2.3
d 2: 3/1: 0.2 4/1: 0.2
doe 2: 3/1: 0.3 4/1: 0.3
e 2: 3/1: 0.10 4/1: 0.10
he 2: 3/1: 0.13 4/1: 0.12
hello 6: 0/1: 0.1 1/1: 0.1 2/1: 0.2 5/1: 0.1 6/1: 0.1 7/2: 1.3
is 1: 7/4: 2.7
it 1: 7/4: 2.6 2.8
john 2: 3/1: 0.1 4/1: 0.1
k 2: 3/1: 0.9 4/1: 0.9
l 2: 3/1: 0.8 4/1: 0.8
left 2: 3/1: 0.14 4/1: 0.13
met 2: 3/1: 0.4 4/1: 0.4
nothing 1: 2/2: 1.1
one 1: 0/2: 1.1
r 2: 3/1: 0.11 4/1: 0.11
s 2: 3/1: 0.5 4/1: 0.5
so 1: 7/4: 2.5
st 1: 7/1: 0.3
t 2: 3/1: 0.6 4/1: 0.6
te 1: 7/1: 0.1
test 1: 7/2: 1.1
was 1: 7/4: 2.9
why 1: 7/4: 2.1
wide 1: 1/2: 1.2
world 5: 0/1: 0.2 1/2: 1.1 2/1: 0.1 5/1: 0.3 6/1: 0.2
x 1: 5/1: 0.2
привет 1: 2/4: 2.1
";

/// What is answered of no document.
pub(crate) const NOTHING: &str = "0 rows, 0 fields, 0 words\n";

/// A document of 32 fields whose first one has a letter as often as a field has positions.
pub(crate) const LAST_POSITION: &str = "0 1 plain|65535×a \n";

/// What is answered of it.
pub(crate) const AT_LAST_POSITION: &str = "\
1 rows, 32 fields, 1 words, 0 at 0
0: 0 by 1:, last 65535 0 0 0 0 0 0 0 0 0 0 0 0 0 0 0 0 0 0 0 0 0 0 0 0 0 0 0 0 0 0 0, gaps, spans
a 1: 0/1: 65535 places up to 0.65535
";

/// One whose fields each have it once.
pub(crate) const LAST_FIELD: &str = "\
18446744073709551615 1 plain|a|a|a|a|a|a|a|a|a|a|a|a|a|a|a|a|a|a|a|a|a|a|a|a|a|a|a|a|a|a|a|a
";

/// What is answered of it.
pub(crate) const AT_LAST_FIELD: &str = "\
1 rows, 32 fields, 1 words, 18446744073709551615 at 0
0: 18446744073709551615 by 1:, last 1 1 1 1 1 1 1 1 1 1 1 1 1 1 1 1 1 1 1 1 1 1 1 1 1 1 1 1 1 1 1 1, gaps, spans
a 1: 0/4294967295: 32 places up to 31.1
";

/// One whose first two fields have it three times.
pub(crate) const TWO_FIELDS: &str = "7 1 plain|a a a|3×a \n";

/// What is answered of it.
pub(crate) const IN_TWO_FIELDS: &str = "\
1 rows, 32 fields, 1 words, 7 at 0
0: 7 by 1:, last 3 3 0 0 0 0 0 0 0 0 0 0 0 0 0 0 0 0 0 0 0 0 0 0 0 0 0 0 0 0 0 0, gaps, spans
a 1: 0/3: 0.1 0.2 0.3 1.1 1.2 1.3
";

/// The document `hello world` of one field.
pub(crate) const HELLO_WORLD: &str = "7 1 html|hello world\n";

/// Two documents with a boundary, a span and a negative value.
pub(crate) const SHE_LEFT: &str = "\
7 1 sp 0 -5|She <th>left. He</th>||
8 1 sp 0 -5|She <th>left. He</th>||
";

/// Two documents of one field whose words share their first eight bytes, or begin one another; a word of both; a word that lies outside
/// of its value.
pub(crate) const LONG_WORDS: &str = "\
3 9 plain|international internationals internat a international internationally zebra a
5 9 plain|zebra international b abcdefghijklmnopqrstuvwxyzabcdefghijkl internatio
";
