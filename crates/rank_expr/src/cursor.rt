//! A cursor over the marks of a text. It keeps the next mark alone, and what is known before the one behind it, so that the text is
//! read once and no list is made.
ghost use Rattle.std.specs.Prelude.{◌≡◌, ◌≢◌, ◌≤◌, ◌<◌, ◌+◌, ◌^◌, ◌∷◌, false, length, slice_index, true, List, MatchBool};
ghost use Rattle.doc_types.specs.declared.schema.TheConstants.{MAX_ATTRS};
ghost use Rattle.token_grammar.specs.Reading.{first_place, TakesIf};
ghost use Rattle.token_grammar.specs.Values.{IsOne};
ghost use Rattle.rank_expr.specs.declared.class.Class.TheVariants as classes;
ghost use Rattle.rank_expr.specs.declared.mark.Mark.{Mark as MarkValue};
ghost use Rattle.rank_expr.specs.Pieces.{is_blank};
ghost use Rattle.rank_expr.specs.Marks.{in_scope, is_due_after, level_after, marks_from, marks_of};
ghost use Rattle.rank_expr.specs.steps.Classes.{class_number, class_of as class_of_sign, fits, is_end, IsAtEnd, IsBeforeEnd, IsNextSign};
ghost use Rattle.rank_expr.specs.steps.MarkAlphabet.{expr_marks};

use crate::class::Class;
use crate::mark::{Leaf, Mark, Sign, Single};
use crate::pieces::{behind, blanks_len, piece_of};
use doc_types::Schema;
use std::marker::Model;

/// The class of a sign.
fn class_of(sign: Sign) -> Class
    ensures { result ≡ class_of_sign sign }
{
    match sign {
        Sign::Leaf(_) => Class::Leaf,
        Sign::Open => Class::Open,
        Sign::Close => Class::Close,
        Sign::Comma => Class::Comma,
        Sign::Single(_) => Class::Single,
        Sign::Double(_) => Class::Double,
        Sign::Triple => Class::Triple,
        Sign::Plus => Class::Plus,
        Sign::Minus => Class::Minus,
        Sign::Star => Class::Star,
        Sign::Compare(_) => Class::Compare,
        Sign::End => Class::End,
        Sign::TooLarge => Class::Unfit,
        Sign::Unknown => Class::Unfit,
        Sign::Misplaced => Class::Unfit,
        Sign::Division => Class::Unfit,
        Sign::Other => Class::Unfit,
    }
}

/// A number for each class.
fn number_of(class: Class) -> u8
    ensures { result ≡ class_number class }
{
    match class {
        Class::Leaf => 0,
        Class::Open => 1,
        Class::Close => 2,
        Class::Comma => 3,
        Class::Single => 4,
        Class::Double => 5,
        Class::Triple => 6,
        Class::Plus => 7,
        Class::Minus => 8,
        Class::Star => 9,
        Class::Compare => 10,
        Class::Unfit => 11,
        Class::End => 12,
    }
}

/// Whether an expression is due behind a piece.
fn is_due_after(sign: Sign) -> bool
    ensures { result ≡ is_due_after sign }
{
    match sign {
        Sign::Leaf(_) | Sign::Close => false,
        _ => true,
    }
}

/// How many parentheses are open since that of a `sum`, behind a piece.
fn level_after(level: u32, sign: Sign) -> u32
    requires { level < 2 ^ 31 }
    ensures is { result ≡ level_after level sign }
    ensures one_more { result ≤ level + 1 }
{
    match sign {
        Sign::Single(Single::Sum) => level + 1,
        Sign::Open | Sign::Single(Single::Abs) | Sign::Double(_) | Sign::Triple => {
            if level == 0 { 0 } else { level + 1 }
        }
        Sign::Close => level.saturating_sub(1),
        _ => level,
    }
}

/// What a piece stands for inside of `sum` or outside.
fn in_scope(inside: bool, sign: Sign) -> Sign
    ensures { result ≡ in_scope inside sign }
{
    match sign {
        Sign::Leaf(Leaf::Field(_)) => { if inside { sign } else { Sign::Misplaced } }
        Sign::Single(Single::Sum) => { if inside { Sign::Misplaced } else { sign } }
        _ => sign,
    }
}

/// Whether it is the end.
fn is_end(sign: Sign) -> bool
    ensures { result ≡ is_end sign }
{
    matches!(sign, Sign::End)
}

/// The marks of a text that are left.
#[derive(Drop)]
pub(crate) struct MarkCursor<'a> {
    schema: &'a Schema,
    /// The text behind the next mark.
    rest: &'a [u8],
    /// Where it begins.
    at: u32,
    /// An expression is due there.
    due: bool,
    /// How many parentheses are open there since that of a `sum`; 0 where no `sum` is open.
    level: u32,
    next: Mark,
}

impl<'a> Model for MarkCursor<'a> {
    ghost use Rattle.std.specs.Prelude.{◌<◌, ◌≤◌, ◌+◌, ◌^◌, ◌∷◌, [], List, length, if◌then◌else◌};
    ghost use Rattle.doc_types.specs.declared.schema.TheConstants.{MAX_ATTRS};
    ghost use Rattle.rank_expr.specs.declared.mark.Mark.{Mark};
    ghost use Rattle.rank_expr.specs.declared.mark.Mark.{Mark as MarkValue};
    ghost use Rattle.rank_expr.specs.Pieces.{is_blank};
    ghost use Rattle.rank_expr.specs.Marks.{marks_from};
    ghost use Rattle.rank_expr.specs.steps.Classes.{is_end};

    ghost Value = { List Mark };

    ghost view = { λ a. a.next ∷ (if is_end a.next.sign then [] else marks_from a.schema.now a.due a.level a.at 0 a.rest.now) };

    ghost invariant = { λ a. (length a.schema.now.attrs ≤ MAX_ATTRS) × (a.at + length a.rest.now < 2 ^ 31) × (a.level ≤ a.at) };
}

impl<'a> MarkCursor<'a> {
    /// At the start of a text.
    #[tactic(auto, unfolding(crate::specs::Marks::marks_of))]
    pub fn new(schema: &'a Schema, text: &'a [u8]) -> Self
        requires few { length schema.now.attrs ≤ MAX_ATTRS }
        requires small { length text.now < 2 ^ 31 }
        ensures { result ≡ marks_of schema.now text.now }
    {
        MarkCursor::read(schema, text, 0, true, 0)
    }

    /// Before the marks of the text that begins at this place.
    fn read(schema: &'a Schema, rest: &'a [u8], at: u32, due: bool, level: u32) -> Self
        requires few { length schema.now.attrs ≤ MAX_ATTRS }
        requires small { at + length rest.now < 2 ^ 31 }
        requires level { level ≤ at }
        ensures { result ≡ marks_from schema.now due level at 0 rest.now }
    {
        let blanks = blanks_len(rest);
        let text = behind(rest, blanks);
        let at = at + blanks as u32;
        MarkCursor::read_piece(schema, text, at, due, level)
    }

    /// The same where no blank comes first.
    fn read_piece(schema: &'a Schema, text: &'a [u8], at: u32, due: bool, level: u32) -> Self
        requires few { length schema.now.attrs ≤ MAX_ATTRS }
        requires small { at + length text.now < 2 ^ 31 }
        requires level { level ≤ at }
        requires plain { is_blank (slice_index text.now 0) ≡ false }
        ensures { result ≡ marks_from schema.now due level at 0 text.now }
    {
        if text.is_empty() {
            let next = Mark {
                at,
                sign: Sign::End,
                due,
            };
            return MarkCursor {
                schema,
                rest: text,
                at,
                due,
                level,
                next,
            };
        }
        let (sign, size) = piece_of(schema, text);
        let rest = behind(text, size);
        let next = Mark {
            at,
            sign: in_scope(level > 0, sign),
            due,
        };
        MarkCursor {
            schema,
            rest,
            at: at + size as u32,
            due: is_due_after(sign),
            level: level_after(level, sign),
            next,
        }
    }

    /// What the next mark is.
    pub fn sign(&self) -> Sign
        ensures { IsNextSign result self.now }
    {
        self.next.sign
    }

    /// The next mark.
    pub fn mark(&self) -> Mark
        ensures { (rest : List MarkValue) × (self.now ≡ result ∷ rest) }
    {
        self.next
    }

    /// The offset of the next mark.
    pub fn place(&self) -> u32
        ensures { result ≡ first_place expr_marks self.now }
    {
        self.next.at
    }

    /// Whether the end is next. No mark comes after it.
    pub fn is_at_end(&self) -> bool
        ensures { MatchBool result (IsAtEnd self.now) (IsBeforeEnd self.now) }
    {
        is_end(self.next.sign)
    }

    /// Goes on after the next mark.
    pub fn skip(&mut self) -> Mark
        requires { IsBeforeEnd self.old }
        ensures { self.old ≡ result ∷ self.new }
    {
        let next = self.next;
        *self = MarkCursor::read(self.schema, self.rest, self.at, self.due, self.level);
        next
    }

    /// Takes a mark of a class, if it is the next one.
    pub fn takes(&mut self, class: Class) -> bool
        requires { class ≢ classes.End }
        ensures { TakesIf expr_marks class (IsOne (λ m. fits class m ≡ true)) self.old result self.new }
    {
        let sign = self.sign();
        let found = number_of(class) == number_of(class_of(sign));
        if found {
            self.skip();
        }
        found
    }
}
