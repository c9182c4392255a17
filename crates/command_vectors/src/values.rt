//! What tokens stand for, told by the calls that no text reaches but through a statement: texts with their escapes resolved, behind
//! what was there, and numbers. All values are worked out by hand from the rules.
ghost use Rattle.ql_lex.specs.Shapes.{IsQuotedText};

use ql_lex::{number_of, put_text};
use std::alloc::Global;

/// Whether a text token has this value, which is appended.
fn has_value(alloc: Global, token: &[u8], value: &str) -> bool
    requires { IsQuotedText token.now }
{
    let mut out = Vec::new(alloc);
    if out.push(b'x').is_err() || put_text(token, &mut out).is_err() {
        return false;
    }
    match out.as_slice() {
        [b'x', rest @ ..] => rest == value.as_bytes(),
        _ => false,
    }
}

#[test]
fn texts_have_values(rt: HostRuntime) {
    let alloc = rt.alloc();
    let found = [
        has_value(alloc, b"''", ""),
        has_value(alloc, b"'a b'", "a b"),
        has_value(alloc, b"\"it's\"", "it's"),
        has_value(alloc, b"'\\n\\r\\t\\0'", "\n\r\t\0"),
        has_value(alloc, b"'\\'\\\"\\\\'", "'\"\\"),
        has_value(alloc, b"'\\N\\x\\%'", "Nx%"),
        has_value(alloc, b"'\\\\n'", "\\n"),
        has_value(alloc, b"'\\\xd0\xbf\\\r'", "п\r"),
    ];
    assert!(rt; found == [true; 8]);
}

#[test]
fn numbers_have_values(rt: HostRuntime) {
    let found = [
        number_of(b"0"),
        number_of(b"007"),
        number_of(b"18446744073709551615"),
    ];
    assert!(rt; found == [0, 7, u64::MAX]);
}
