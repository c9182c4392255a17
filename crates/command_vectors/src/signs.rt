//! Signs by their bytes, and names without what marks them, worked out by hand from the rules.
ghost use Rattle.ql_lex.specs.Shapes.{IsNamed};

use ql_lex::{Sign, Token, TokenKind, sign_of, token_name};

/// Some bytes, and the sign that they spell.
pub(crate) const SIGNS: &str = "
( ⇒ opens
) ⇒ closes
, ⇒ comma
; ⇒ semicolon
* ⇒ star
- ⇒ minus
= ⇒ equal
!= ⇒ not equal
<> ⇒ not equal
< ⇒ less
> ⇒ greater
<= ⇒ less or equal
>= ⇒ greater or equal
! ⇒ none
=> ⇒ none
 ⇒ none
";

/// The word for a sign.
fn sign_word(sign: Sign) -> &'static str {
    match sign {
        Sign::OpenParen => " opens",
        Sign::CloseParen => " closes",
        Sign::Comma => " comma",
        Sign::Semicolon => " semicolon",
        Sign::Star => " star",
        Sign::Minus => " minus",
        Sign::Equal => " equal",
        Sign::NotEqual => " not equal",
        Sign::Less => " less",
        Sign::Greater => " greater",
        Sign::LessOrEqual => " less or equal",
        Sign::GreaterOrEqual => " greater or equal",
    }
}

/// Appends the sign that some bytes spell.
pub(crate) fn put_sign(text: &str, told: &mut String) -> Option<()> {
    let word = match sign_of(text.as_bytes()) {
        Some(sign) => sign_word(sign),
        None => " none",
    };
    told.push_str(word).ok()
}

/// Whether a token of this kind has this name.
fn has_name(kind: TokenKind, text: &[u8], name: &[u8]) -> bool
    requires { IsNamed kind text.now }
{
    token_name(&Token { kind, text, at: 0 }) == name
}

#[test]
fn names_are_bare(rt: HostRuntime) {
    assert!(rt;
        has_name(TokenKind::Name, b"rt_1", b"rt_1")
            && has_name(TokenKind::Quoted, b"`Ab`", b"Ab")
            && has_name(TokenKind::SysVar, b"@@a.B", b"a.B")
    );
}
