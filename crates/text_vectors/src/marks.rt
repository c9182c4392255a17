//! The marks of a text, by kind and place, worked out by hand from Sphinx's manual for `html_strip`, `index_sp` and
//! `index_zones`.
ghost use Rattle.std.specs.Prelude.{◌≡◌, [], ◌∷◌, codes, IfOk};
ghost use Rattle.doc_types.specs.Schemas.{AreZones};

use crate::positions::put_position;
use crate::queries::put_pieces;
use crate::tables::Telling;
use charset_map::Charset;
use mark_scan::{Mark, MarkKind, MarkRules, marks};
use srch_base::{Items, Name, NoMemory};
use std::alloc::Global;

/// Texts in an index with the zones `th` and `i`, each after its `html_strip` and `index_sp`, with their marks: their kinds, and the
/// places of their first bytes and after them. In turn: zones and tags; a tag of a zone that closes itself opens nothing, but ends
/// a paragraph; the end of a comment is searched after its beginning; a `!` of what is no comment ends a sentence; what is no tag is
/// plain text; an inline tag that is a zone separates, and so does an unknown tag; characters of the same run are looked at across
/// removed tags, and no others. The last six are texts whose markup isn't looked at.
pub(crate) const MARKS: &str = "\
1 1  ⇒ 
1 1 a ⇒ text 0-1
1 0 <th>hello</th> x <th>world</th> ⇒ open th 0-4, text 4-9, close th 9-14, text 14-17, open th 17-21, text 21-26, close th 26-31
1 1 <TH>a ⇒ paragraph 0-4, open th 0-4, text 4-5
1 0 te<B>st</B> ⇒ text 0-2, inline 2-5, text 5-7, inline 7-11
1 0 te<P>st</P> ⇒ text 0-2, text 5-7
1 1 te<P>st</P> ⇒ text 0-2, paragraph 2-5, text 5-7, paragraph 7-11
1 1 <th/> ⇒ paragraph 0-5
1 0 </th x/> ⇒ 
1 1 a<!-- b. -->c ⇒ text 0-1, text 12-13
1 0 <!-->a ⇒ text 0-6
1 0 <!-->-->a ⇒ text 8-9
1 1 <!--a ⇒ text 0-5, sentence 1-2
1 0 a < b<1></ b><b ⇒ text 0-15
1 0 <b <i>a ⇒ inline 0-6, text 6-7
1 0 a<i>b</i> ⇒ text 0-1, open i 1-4, text 4-5, close i 5-9
1 1 a<x:y z>b ⇒ text 0-1, text 8-9
1 1 a.<b>b</b>.<p>b ⇒ text 0-2, inline 2-5, text 5-6, inline 6-10, text 10-11, sentence 10-11, paragraph 11-14, text 14-15
1 1 ж. П<i>D. x ⇒ text 0-6, sentence 2-3, open i 6-9, text 9-13
1 1 П.<u> </u>П ⇒ text 0-3, inline 3-6, text 6-7, inline 7-11, text 11-13
0 1 John D. Doe met S.T.A.L.K.E.R. He left! ⇒ text 0-39, sentence 29-30, sentence 38-39
0 1 a., b. c ⇒ text 0-8
0 1 a. C ⇒ text 0-4, sentence 1-2
0 1 a. 1 ⇒ text 0-4, sentence 1-2
0 1 a?b! ⇒ text 0-4, sentence 1-2, sentence 3-4
0 1 <b>. ⇒ text 0-4, sentence 3-4
";

/// The word for a kind of marks.
fn kind_word(kind: MarkKind) -> &'static str {
    match kind {
        MarkKind::Text => "text",
        MarkKind::Inline => "inline",
        MarkKind::Sentence => "sentence",
        MarkKind::Paragraph => "paragraph",
        MarkKind::Open(0) => "open th",
        MarkKind::Open(1) => "open i",
        MarkKind::Open(_) => "open another",
        MarkKind::Close(0) => "close th",
        MarkKind::Close(1) => "close i",
        MarkKind::Close(_) => "close another",
    }
}

/// The rules of an index with the zones `th` and `i`.
fn rules(alloc: Global, strip: bool, sp: bool) -> Result<MarkRules, NoMemory>
    ensures { IfOk result (λ rules. AreZones rules.zones) }
{
    let mut zones = Vec::new(alloc);
    zones.push(Name::from_slice(alloc, b"th")?)?;
    zones.push(Name::from_slice(alloc, b"i")?)?;
    let zones = Items::new(zones);
    Ok(MarkRules { strip, sp, zones })
}

/// Appends marks, as the table writes them.
fn put_list(marks: &[Mark], into: &mut String) -> Option<()> {
    let mut before = "";
    for mark in marks {
        let (kind, from, to) = (kind_word(mark.kind), mark.from, mark.to);
        write!(into, "{before}{kind} {from}-{to}").ok()?;
        before = ", ";
    }
    Some(())
}

/// Appends the marks of a text.
fn put_marks(
    alloc: Global,
    table: &Charset,
    rules: &MarkRules,
    text: &str,
    into: &mut String,
) -> Option<()>
    requires { AreZones rules.now.zones }
{
    if text.len() > 1000 {
        return None;
    }
    match marks(alloc, table, rules, text) {
        Ok(found) => put_list(found.as_slice(), into),
        Err(_) => None,
    }
}

/// Appends what is told of a text by the default table and by rules.
fn put_told(
    alloc: Global,
    text: &str,
    telling: &Telling,
    rules: &MarkRules,
    into: &mut String,
) -> Option<()>
    requires { AreZones rules.now.zones }
{
    let table = &Charset::default_table(alloc).ok()?;
    match telling {
        Telling::Marks => put_marks(alloc, table, rules, text, into),
        Telling::Position => put_position(alloc, table, rules, text, into),
        _ => put_pieces(alloc, table, text, into),
    }
}

/// Appends what is told of a text, which stands after its `html_strip` and `index_sp`.
pub(crate) fn put_marked(
    alloc: Global,
    line: &str,
    telling: &Telling,
    into: &mut String,
) -> Option<()> {
    let (strip, rest) = line.split_once(" ")?;
    let (sp, text) = rest.split_once(" ")?;
    match rules(alloc, strip == "1", sp == "1") {
        Ok(rules) => put_told(alloc, text, telling, &rules, into),
        Err(_) => None,
    }
}
