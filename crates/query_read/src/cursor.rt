//! A cursor over the marks of a text, of which the last is the end.
ghost use Rattle.std.specs.Prelude.{◌≡◌, ◌≢◌, ◌∷◌, [], true, List, IsTrue};
ghost use Rattle.query_marks.specs.declared.mark.Mark.{Mark};
ghost use Rattle.token_grammar.specs.Language.{one};
ghost use Rattle.token_grammar.specs.Reading.{first_place, IsNextOf, TakesIf};
ghost use Rattle.token_grammar.specs.Values.{IsOne};
ghost use Rattle.query_grammar.specs.declared.class.Class.TheVariants as classes;
ghost use Rattle.query_grammar.specs.steps.Classes.{class_of as class_of_sign, class_number, fits, is_ended, next_class, begins_item, IsNextClass, IsNextSign};
ghost use Rattle.query_grammar.specs.steps.MarkAlphabet.{query_marks};

use query_grammar::Class;
use query_marks::{Mark, Sign};
use std::marker::Model;

/// The class of a sign.
pub(crate) fn class_of(sign: &Sign) -> Class
    ensures { result ≡ class_of_sign sign.now }
{
    match sign {
        Sign::Bare(_) => Class::Leaf,
        Sign::Phrase(_) => Class::Leaf,
        Sign::Loose(_, _) => Class::Loose,
        Sign::Open => Class::Open,
        Sign::Close => Class::Close,
        Sign::Or => Class::Or,
        Sign::Before => Class::Before,
        Sign::Not => Class::Not,
        Sign::Maybe => Class::Maybe,
        Sign::Sentence => Class::Sentence,
        Sign::Paragraph => Class::Paragraph,
        Sign::Near(_) => Class::Near,
        Sign::Limits => Class::Limit,
        Sign::Spans(_) => Class::Limit,
        Sign::Relaxed => Class::Relaxed,
        Sign::Unclosed => Class::Unclosed,
        Sign::End => Class::End,
    }
}

/// A number for each class.
fn number_of(class: Class) -> u8
    ensures { result ≡ class_number class }
{
    match class {
        Class::Leaf => 0,
        Class::Loose => 1,
        Class::Open => 2,
        Class::Close => 3,
        Class::Or => 4,
        Class::Before => 5,
        Class::Not => 6,
        Class::Maybe => 7,
        Class::Sentence => 8,
        Class::Paragraph => 9,
        Class::Near => 10,
        Class::Limit => 11,
        Class::Relaxed => 12,
        Class::Unclosed => 13,
        Class::End => 14,
    }
}

/// Whether an item begins with a mark of the class.
pub(crate) fn begins_item(class: Class) -> bool
    ensures { result ≡ begins_item class }
{
    matches!(class, Class::Leaf | Class::Loose | Class::Open | Class::Not)
}

/// The marks of a text that are left, of which the last is the end.
#[derive(Drop)]
pub(crate) struct MarkCursor<'a> {
    rest: &'a [Mark],
}

impl<'a> Model for MarkCursor<'a> {
    ghost use Rattle.std.specs.Prelude.{◌≡◌, true, List};
    ghost use Rattle.query_marks.specs.declared.mark.Mark.{Mark};
    ghost use Rattle.query_grammar.specs.steps.Classes.{is_ended};

    ghost Value = { List Mark };

    ghost view = { λ a. a.rest.now };

    ghost invariant = { λ a. is_ended a.rest.now ≡ true };
}

impl<'a> MarkCursor<'a> {
    pub fn new(marks: &'a [Mark]) -> Self
        requires { is_ended marks.now ≡ true }
        ensures { result ≡ marks.now }
    {
        MarkCursor { rest: marks }
    }

    /// What the next mark is.
    pub fn class(&self) -> Class
        ensures is { result ≡ next_class self.now }
        ensures next { IsNextClass result self.now }
    {
        class_of(&self.rest[0].sign)
    }

    /// The sign of the next mark.
    pub fn sign(&self) -> &'a Sign
        ensures { IsNextSign result.now self.now }
    {
        &self.rest[0].sign
    }

    /// The offset of the next mark.
    pub fn place(&self) -> u32
        ensures { result ≡ first_place query_marks self.now }
    {
        self.rest[0].at
    }

    /// Goes on after the next mark.
    pub fn skip(&mut self) -> &'a Mark
        requires { next_class self.old ≢ classes.End }
        ensures { self.old ≡ result.now ∷ self.new }
    {
        let rest = self.rest;
        self.rest = &rest[1..];
        &rest[0]
    }

    /// Whether the next mark is of a class.
    pub fn is_next(&self, class: Class) -> bool
        ensures { IsNextOf query_marks class self.now result }
    {
        number_of(class) == number_of(self.class())
    }

    /// Whether the end is next. No mark comes after it.
    pub fn is_end(&self) -> bool
        ensures next { IsNextOf query_marks classes.End self.now result }
        ensures ended { is_ended self.now ≡ true }
    {
        number_of(Class::End) == number_of(class_of(&self.rest[0].sign))
    }

    /// Takes a mark of a class, if it is the next one.
    pub fn takes(&mut self, class: Class) -> bool
        requires { class ≢ classes.End }
        ensures { TakesIf query_marks class (IsOne (λ m. fits class m ≡ true)) self.old result self.new }
    {
        let found = self.is_next(class);
        if found {
            self.skip();
        }
        found
    }
}
