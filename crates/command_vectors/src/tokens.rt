//! Texts and their tokens, worked out by hand from the shapes of tokens, and how many tokens an INSERT of about one
//! megabyte has.
ghost use Rattle.std.specs.Prelude.{IfSome};
ghost use Rattle.ql_grammar.specs.Tokens.{lexemes};
ghost use Rattle.ql_lex.specs.Tokens.{AreLexemes};

use ql_lex::{Token, TokenKind, lex};
use std::alloc::Global;

/// A text, and its tokens: their kinds, and the places of their first bytes and after them.
pub(crate) const TOKENS: &str = r#"
 ⇒ end 0-0
 ⟨09⟩⟨0d⟩⟨0a⟩ ⇒ end 4-4
SELECT ⇒ name 0-6, end 6-6
_a1 B_2 ⇒ name 0-3, name 4-7, end 7-7
12abc ⇒ number 0-2, name 2-5, end 5-5
a12 ⇒ name 0-3, end 3-3
0 ⇒ number 0-1, end 1-1
18446744073709551615 ⇒ number 0-20, end 20-20
00018446744073709551615 ⇒ number 0-23, end 23-23
`a_1` ⇒ quoted 0-5, end 5-5
`select``b` ⇒ quoted 0-8, quoted 8-11, end 11-11
'a' ⇒ text 0-3, end 3-3
'' ⇒ text 0-2, end 2-2
"it's" ⇒ text 0-6, end 6-6
'say "hi"' ⇒ text 0-10, end 10-10
'a\'b' ⇒ text 0-6, end 6-6
'\\' ⇒ text 0-4, end 4-4
'a\\'b ⇒ text 0-5, name 5-6, end 6-6
'a''b' ⇒ text 0-3, text 3-6, end 6-6
'/* no comment */' ⇒ text 0-18, end 18-18
'привет' ⇒ text 0-14, end 14-14
'\п' ⇒ text 0-5, end 5-5
'a⟨0d⟩⟨0a⟩b⟨00⟩' ⇒ text 0-7, end 7-7
@@autocommit ⇒ variable 0-12, end 12-12
@@session.a_1=1 ⇒ variable 0-13, sign 13-14, number 14-15, end 15-15
@@a..b. ⇒ variable 0-7, end 7-7
@@_ x ⇒ variable 0-3, name 4-5, end 5-5
(),;*=- ⇒ sign 0-1, sign 1-2, sign 2-3, sign 3-4, sign 4-5, sign 5-6, sign 6-7, end 7-7
!=<><=>= ⇒ sign 0-2, sign 2-4, sign 4-6, sign 6-8, end 8-8
<>= ⇒ sign 0-2, sign 2-3, end 3-3
<<= ⇒ sign 0-1, sign 1-3, end 3-3
>> ⇒ sign 0-1, sign 1-2, end 2-2
=< ⇒ sign 0-1, sign 1-2, end 2-2
< = ⇒ sign 0-1, sign 2-3, end 3-3
a-1-- ⇒ name 0-1, sign 1-2, number 2-3, sign 3-4, sign 4-5, end 5-5
a⟨0d⟩⟨0a⟩b ⇒ name 0-1, name 3-4, end 4-4
a/**/b ⇒ name 0-1, name 5-6, end 6-6
a /* b */ c ⇒ name 0-1, name 10-11, end 11-11
/* a /* b */ c * ⇒ name 13-14, sign 15-16, end 16-16
/*/ a */b ⇒ name 8-9, end 9-9
/***/a ⇒ name 5-6, end 6-6
/* ' " ` @ */a ⇒ name 13-14, end 14-14
/* п */1 ⇒ number 8-9, end 9-9
COUNT(*) ⇒ name 0-5, sign 5-6, sign 6-7, sign 7-8, end 8-8
MATCH('a') ⇒ name 0-5, sign 5-6, text 6-9, sign 9-10, end 10-10
id>=10,b ⇒ name 0-2, sign 2-4, number 4-6, sign 6-7, name 7-8, end 8-8
INSERT INTO rt VALUES (1, 'a', -5); ⇒ name 0-6, name 7-11, name 12-14, name 15-21, sign 22-23, number 23-24, sign 24-25, text 26-29, sign 29-30, sign 31-32, number 32-33, sign 33-34, sign 34-35, end 35-35
abcdefghijklmnopqrstuvwxyzabcdefghijklmnopqrstuvwxyzabcdefghijkl ⇒ name 0-64, end 64-64
`abcdefghijklmnopqrstuvwxyzabcdefghijklmnopqrstuvwxyzabcdefghijkl` ⇒ quoted 0-66, end 66-66
@@abcdefghijklmnopqrstuvwxyzabcdefghijklmnopqrstuvwxyzabcdefghijkl ⇒ variable 0-66, end 66-66
"#;

/// A row of an INSERT, of eleven tokens with the comma behind it, and how many tokens 10,000 of them have with the four before
/// them and the end.
pub(crate) const LONG: &str = r#"
(18446744073709551615, 'hello \'world\' and some more words of a text that is indexed', 17, -7),  ⇒ 110005
"#;

/// More than the longest text.
const MOST: usize = 2_000_000;

/// The tokens of a text.
pub(crate) fn tokens_of<'a>(alloc: Global, text: &'a str) -> Option<Vec<Token<'a>>>
    ensures { IfSome result (λ tokens. AreLexemes (lexemes tokens.items)) }
{
    if text.len() > MOST {
        return None;
    }
    match lex(alloc, text.as_bytes()) {
        Ok(tokens) => Some(tokens),
        Err(_) => None,
    }
}

/// The word for a kind of tokens.
fn kind_word(kind: TokenKind) -> &'static str {
    match kind {
        TokenKind::Name => "name",
        TokenKind::Quoted => "quoted",
        TokenKind::Number => "number",
        TokenKind::Text => "text",
        TokenKind::SysVar => "variable",
        TokenKind::Sign => "sign",
        TokenKind::End => "end",
    }
}

/// Appends some tokens.
fn put_list(tokens: &[Token<'_>], told: &mut String) -> Option<()> {
    let mut before = "";
    for token in tokens {
        let (kind, from) = (kind_word(token.kind), token.at);
        let to = token.text.len() + from as usize;
        write!(told, "{before} {kind} {from}-{to}").ok()?;
        before = ",";
    }
    Some(())
}

/// Appends the tokens of a text.
pub(crate) fn put_tokens(alloc: Global, text: &str, told: &mut String) -> Option<()> {
    let tokens = tokens_of(alloc, text)?;
    put_list(tokens.as_slice(), told)
}

/// Appends how many tokens an INSERT has of ten thousand times this row.
pub(crate) fn put_count(alloc: Global, row: &str, told: &mut String) -> Option<()> {
    let mut text = String::from_str(alloc, "INSERT INTO rt VALUES ").ok()?;
    for _ in 0..10_000 {
        text.push_str(row).ok()?;
    }
    let count = tokens_of(alloc, text.as_str())?.len();
    write!(told, " {count}").ok()
}
