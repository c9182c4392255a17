//! Character tables: where a text stops being one, and why, worked out by hand from the forms of `charset_table` in Sphinx's manual.
//! A configuration says of all of these that the value is bad.
use charset_map::{Charset, CharsetKind};
use srch_base::Or;
use std::alloc::Global;
use std::fmt::Write;

/// Texts that are no table, and the place and the kind of the first fault.
pub(crate) const FAULTS: &str = "\
A..Z->a..y ⇒ 0 lengths
 ⇒ 0 empty
 ⟨tab⟩⟨CR⟩⟨LF⟩ ⇒ 0 empty
, ⇒ 0 entry
a, ⇒ 2 entry
a, ,b ⇒ 3 entry
a,,b ⇒ 2 entry
a b ⇒ 0 entry
a .. b ⇒ 0 entry
a..b -> c..d ⇒ 0 entry
a..b->c ⇒ 0 entry
a->b..c ⇒ 0 entry
a..a->b ⇒ 0 entry
a->b->c ⇒ 0 entry
x, y->, z..a ⇒ 3 entry
U+ ⇒ 0 entry
U+D800 ⇒ 0 entry
U+DFFF ⇒ 0 entry
U+110000 ⇒ 0 entry
U+FFFFFF ⇒ 0 entry
U+0000041 ⇒ 0 entry
u+41 ⇒ 0 entry
U+4G ⇒ 0 entry
я ⇒ 0 entry
a, + ⇒ 3 entry
z..a ⇒ 0 range
a..c->c..a ⇒ 0 range
 b..a->a..b, a.. ⇒ 1 range
U+D7FE..U+E001->a..c ⇒ 0 lengths
a, a->b ⇒ 3 twice
a->b, c..e,⟨tab⟩a..c ⇒ 12 twice
b..d->x..z, a..c ⇒ 12 twice
";

fn kind_word(kind: CharsetKind) -> &'static str {
    match kind {
        CharsetKind::Empty => "empty",
        CharsetKind::Entry => "entry",
        CharsetKind::Range => "range",
        CharsetKind::Lengths => "lengths",
        CharsetKind::Twice => "twice",
    }
}

/// Appends the place and the kind of a table's fault.
pub(crate) fn put_fault(alloc: Global, text: &str, into: &mut String) -> Option<()> {
    if text.len() > 1000 {
        return None;
    }
    match Charset::read(alloc, text) {
        Err(Or::Fault(fault)) => {
            let (place, kind) = (fault.place, kind_word(fault.kind));
            write!(into, "{place} {kind}").ok()
        }
        _ => None,
    }
}
