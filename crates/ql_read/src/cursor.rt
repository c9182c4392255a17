//! A cursor over the tokens of a text, of which the last is the end. Tests look at the next token, or at two; takers go on
//! after it. A taker that doesn't find its token answers the offset of the next one and takes nothing.
//! What the next token is, is found out once, when the cursor comes to it, and kept: a name is looked up among the keywords
//! once, however often it is asked about. No token but a name or a text is copied.

ghost use Rattle.std.specs.Prelude.{◌≡◌, ◌≢◌, [], ◌∷◌, IfOk, IsTrue, length};
ghost use Rattle.std.specs.Str.{str_to_ascii_lowercase};
ghost use Rattle.ql_grammar.specs.Alphabet.{sphinxql};
ghost use Rattle.ql_grammar.specs.declared.keyword.Keyword.TheVariants as keywords;
ghost use Rattle.ql_grammar.specs.declared.kind.Kind.TheVariants as kinds;
ghost use Rattle.ql_lex.specs.Shapes.{IsLexeme};
ghost use Rattle.ql_lex.specs.Tokens.{lexeme_of, AreLexemes};
ghost use Rattle.ql_grammar.specs.Tokens.{kind, lexemes, first_kind};
ghost use Rattle.ql_grammar.specs.Classes.{fits, name_but, the_end, the_keyword, any_name, a_number, a_text, a_sysvar, the_sign};
ghost use Rattle.token_grammar.specs.Language.{one};
ghost use Rattle.ql_grammar.specs.Terminals.{two_keywords, name, number, text, sysvar, target_name};
ghost use Rattle.ql_grammar.specs.Parts.{IsKeyword, AreKeywords, IsSign, IsName, IsNumber, IsTargetName, IsText, IsVariable};
ghost use Rattle.ql_read.specs.steps.Progress.{IsNext, IsStart};
ghost use Rattle.ql_read.specs.steps.Seconds.{second_kind};
ghost use Rattle.token_grammar.specs.Reading.{first_place, IsNextOf, ReadsPart, TakesIf, IsFollowed};

use ql_grammar::{Keyword, Kind, keyword_named};
use ql_lex::{Sign, Token, TokenKind, number_of, put_text, sign_of, token_name};
use srch_base::{Name, NoMemory, Or, Text};
use std::alloc::Global;
use std::marker::Model;

/// How many bytes of a name are made small outside of the heap.
const FEW_BYTES: usize = 32;

/// The tokens of a text that are left, of which the last is the end.
#[derive(Drop)]
pub(crate) struct TokenCursor<'a> {
    rest: &'a [Token<'a>],
    /// What the next token is.
    next: Kind,
}

impl<'a> Model for TokenCursor<'a> {
    ghost use Rattle.std.specs.Prelude.{◌≡◌, List};
    ghost use Rattle.ql_lex.specs.Tokens.{Lexeme, AreLexemes};
    ghost use Rattle.ql_grammar.specs.Tokens.{first_kind, lexemes};

    ghost Value = { List Lexeme };

    ghost view = { λ a. lexemes a.rest.now };

    ghost invariant = { λ a. AreLexemes (lexemes a.rest.now) × (a.next ≡ first_kind (lexemes a.rest.now)) };
}

/// What the grammar sees of a token.
#[tactic(auto, unfolding(ql_grammar::specs::Tokens::kind_by))]
fn kind_of(token: &Token<'_>) -> Kind
    ensures { result ≡ kind (lexeme_of token.now) }
{
    match token.kind {
        TokenKind::Name => match keyword_named(token.text) {
            Some(keyword) => Kind::Keyword(keyword),
            None => Kind::Name,
        },
        TokenKind::Quoted => Kind::Name,
        TokenKind::Number => Kind::Number,
        TokenKind::Text => Kind::Text,
        TokenKind::SysVar => Kind::SysVar,
        TokenKind::Sign => match sign_of(token.text) {
            Some(sign) => Kind::Sign(sign),
            None => Kind::End,
        },
        TokenKind::End => Kind::End,
    }
}

/// A name with its ASCII capitals made small. Few bytes, as most names have, take no memory on the way.
fn small_name(alloc: Global, name: &[u8]) -> Result<Name, NoMemory>
    ensures { IfOk result (λ small. small ≡ str_to_ascii_lowercase name.now) }
{
    let count = name.len();
    if count > FEW_BYTES {
        return Ok(Name::new(name.to_ascii_lowercase(alloc)?));
    }
    let mut bytes = [0; FEW_BYTES];
    bytes[..count].copy_from_slice(name);
    bytes[..count].make_ascii_lowercase();
    Name::from_slice(alloc, &bytes[..count])
}

/// Whether a token of this kind is the sign.
fn is_the_sign(kind: Kind, sign: Sign) -> bool
    ensures { result ≡ fits (the_sign sign) kind }
{
    match kind {
        Kind::Sign(other) => sign == other,
        _ => false,
    }
}

impl<'a> TokenCursor<'a> {
    pub(crate) fn new(tokens: &'a [Token<'a>]) -> Self
        requires { AreLexemes (lexemes tokens.now) }
        ensures { result ≡ lexemes tokens.now }
    {
        TokenCursor {
            rest: tokens,
            next: kind_of(&tokens[0]),
        }
    }

    /// What the next token is. At the end it is the end.
    pub(crate) fn kind(&self) -> Kind
        ensures { IsNext result self.now }
    {
        self.next
    }

    /// Goes on after the next token.
    pub(crate) fn skip(&mut self) -> &'a Token<'a>
        requires { first_kind self.old ≢ kinds.End }
        ensures next { self.old ≡ lexeme_of result.now ∷ self.new }
        ensures lexeme { IsLexeme result.now.kind result.now.text.now }
    {
        let rest = self.rest;
        self.rest = &rest[1..];
        self.next = kind_of(&rest[1]);
        &rest[0]
    }

    /// The offset of the next token.
    pub(crate) fn place(&self) -> u32
        ensures { result ≡ first_place sphinxql self.now }
    {
        self.rest[0].at
    }

    /// Whether a keyword is next.
    pub(crate) fn is_keyword(&self, keyword: Keyword) -> bool
        ensures { IsNextOf sphinxql (the_keyword keyword) self.now result }
    {
        match self.kind() {
            Kind::Keyword(next) => keyword == next,
            _ => false,
        }
    }

    /// Whether a sign is next.
    pub(crate) fn is_sign(&self, sign: Sign) -> bool
        ensures { IsNextOf sphinxql (the_sign sign) self.now result }
    {
        is_the_sign(self.kind(), sign)
    }

    /// Takes a keyword.
    pub(crate) fn keyword(&mut self, keyword: Keyword) -> Result<(), Or<u32>>
        ensures { ReadsPart sphinxql (one (the_keyword keyword)) [] (λ _. IsKeyword keyword) self.old result self.new }
    {
        if self.is_keyword(keyword) {
            self.skip();
            Ok(())
        } else {
            Err(Or::Fault(self.place()))
        }
    }

    /// Takes a sign.
    pub(crate) fn sign(&mut self, sign: Sign) -> Result<(), Or<u32>>
        ensures { ReadsPart sphinxql (one (the_sign sign)) [] (λ _. IsSign sign) self.old result self.new }
    {
        if self.is_sign(sign) {
            self.skip();
            Ok(())
        } else {
            Err(Or::Fault(self.place()))
        }
    }

    /// Takes a sign, if it is the next token.
    pub(crate) fn takes_sign(&mut self, sign: Sign) -> bool
        ensures { TakesIf sphinxql (the_sign sign) (IsSign sign) self.old result self.new }
    {
        let found = self.is_sign(sign);
        if found {
            self.skip();
        }
        found
    }

    /// Takes two keywords in a row.
    pub(crate) fn two_keywords(&mut self, first: Keyword, second: Keyword) -> Result<(), Or<u32>>
        ensures { ReadsPart sphinxql (two_keywords first second) [] (λ _. AreKeywords first second) self.old result self.new }
    {
        self.keyword(first)?;
        self.keyword(second)?;
        Ok(())
    }

    /// Takes a keyword, if it is the next token.
    pub(crate) fn takes_keyword(&mut self, keyword: Keyword) -> bool
        ensures { TakesIf sphinxql (the_keyword keyword) (IsKeyword keyword) self.old result self.new }
    {
        let found = self.is_keyword(keyword);
        if found {
            self.skip();
        }
        found
    }

    /// What the token after the next one is. It is the end too where there is no such token.
    pub(crate) fn second(&self) -> Kind
        ensures { result ≡ second_kind self.now }
    {
        if self.rest.len() > 1 {
            kind_of(&self.rest[1])
        } else {
            Kind::End
        }
    }

    /// Whether a keyword is next, and a sign after it.
    pub(crate) fn is_followed(&self, keyword: Keyword, sign: Sign) -> bool
        ensures { IsFollowed sphinxql (the_keyword keyword) (the_sign sign) self.now result }
    {
        if self.is_keyword(keyword) {
            is_the_sign(self.second(), sign)
        } else {
            false
        }
    }

    /// Whether a name is next. A keyword that isn't reserved is one.
    pub(crate) fn is_name(&self) -> bool
        ensures { IsNextOf sphinxql any_name self.now result }
    {
        match self.kind() {
            Kind::Keyword(keyword) => !keyword.is_reserved(),
            Kind::Name => true,
            _ => false,
        }
    }

    /// Whether a name is next with which no other form of SET begins.
    pub(crate) fn is_target_name(&self) -> bool
        ensures { IsNextOf sphinxql (name_but keywords.Autocommit keywords.Names) self.now result }
    {
        match self.kind() {
            Kind::Keyword(keyword) => !keyword.is_reserved() && !keyword.is_set_form(),
            Kind::Name => true,
            _ => false,
        }
    }

    /// Whether the end is next. Nothing stands after it.
    pub(crate) fn is_end(&self) -> bool
        ensures end { IsNextOf sphinxql the_end self.now result }
        ensures last { IsTrue result → length self.now ≡ 1 }
    {
        match self.next {
            Kind::End => true,
            _ => false,
        }
    }

    /// Whether a token is next with which a statement begins.
    pub(crate) fn begins_statement(&self) -> bool
        ensures { IsStart self.now result }
    {
        match self.kind() {
            Kind::Keyword(keyword) => keyword.begins_statement(),
            _ => false,
        }
    }

    /// Whether a number is next.
    pub(crate) fn is_number(&self) -> bool
        ensures { IsNextOf sphinxql a_number self.now result }
    {
        match self.kind() {
            Kind::Number => true,
            _ => false,
        }
    }

    /// Whether a text is next.
    pub(crate) fn is_text(&self) -> bool
        ensures { IsNextOf sphinxql a_text self.now result }
    {
        match self.kind() {
            Kind::Text => true,
            _ => false,
        }
    }

    /// Whether a system variable is next.
    pub(crate) fn is_variable(&self) -> bool
        ensures { IsNextOf sphinxql a_sysvar self.now result }
    {
        match self.kind() {
            Kind::SysVar => true,
            _ => false,
        }
    }

    /// Takes a name.
    pub(crate) fn name(&mut self, alloc: Global) -> Result<Name, Or<u32>>
        ensures { ReadsPart sphinxql name [] IsName self.old result self.new }
    {
        if self.is_name() {
            let token = self.skip();
            Ok(small_name(alloc, token_name(token))?)
        } else {
            Err(Or::Fault(self.place()))
        }
    }

    /// Takes a name with which no other form of SET begins.
    pub(crate) fn target_name(&mut self, alloc: Global) -> Result<Name, Or<u32>>
        ensures { ReadsPart sphinxql target_name [] IsTargetName self.old result self.new }
    {
        if self.is_target_name() {
            let token = self.skip();
            Ok(small_name(alloc, token_name(token))?)
        } else {
            Err(Or::Fault(self.place()))
        }
    }

    /// Takes a system variable, by its name.
    pub(crate) fn variable(&mut self, alloc: Global) -> Result<Name, Or<u32>>
        ensures { ReadsPart sphinxql sysvar [] IsVariable self.old result self.new }
    {
        if self.is_variable() {
            let token = self.skip();
            Ok(small_name(alloc, token_name(token))?)
        } else {
            Err(Or::Fault(self.place()))
        }
    }

    /// Takes a number.
    pub(crate) fn number(&mut self) -> Result<u64, Or<u32>>
        ensures { ReadsPart sphinxql number [] IsNumber self.old result self.new }
    {
        if self.is_number() {
            let token = self.skip();
            Ok(number_of(token.text))
        } else {
            Err(Or::Fault(self.place()))
        }
    }

    /// Takes a text, with its escapes resolved.
    pub(crate) fn text(&mut self, alloc: Global) -> Result<Text, Or<u32>>
        ensures { ReadsPart sphinxql text [] IsText self.old result self.new }
    {
        if self.is_text() {
            let token = self.skip();
            let mut bytes = Vec::new(alloc);
            put_text(token.text, &mut bytes)?;
            Ok(Text::new(bytes))
        } else {
            Err(Or::Fault(self.place()))
        }
    }
}
