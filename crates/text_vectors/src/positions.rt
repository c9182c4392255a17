//! The position at which a text has too many, worked out by hand.
ghost use Rattle.std.specs.Prelude.{◌≡◌};
ghost use Rattle.doc_types.specs.Schemas.{AreZones};

use charset_map::Charset;
use doc_tokens::tokens;
use mark_scan::MarkRules;
use srch_base::Or;
use std::alloc::Global;

/// Texts in the setting of the marks, and the first position that is too great. Sentences are marked.
pub(crate) const POSITIONS: &str = "\
1 1 ⟨ab  × 65536⟩ ⇒ 65536
1 1 ⟨ab  × 70000⟩ ⇒ 65536
1 1 ⟨ab  × 65533⟩! a b ⇒ 65536
1 1 ⟨ab  × 65534⟩! a ⇒ 65536
1 1 ⟨ab  × 65535⟩! a ⇒ 65537
";

/// Appends the position that is too great.
pub(crate) fn put_position(
    alloc: Global,
    table: &Charset,
    rules: &MarkRules,
    text: &str,
    into: &mut String,
) -> Option<()>
    requires { AreZones rules.now.zones }
{
    if text.len() > 10_000_000 {
        return None;
    }
    match tokens(alloc, table, rules, text) {
        Err(Or::Fault(fault)) => {
            let position = fault.position;
            write!(into, "{position}").ok()
        }
        _ => None,
    }
}
