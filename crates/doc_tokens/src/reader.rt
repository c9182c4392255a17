//! Words, from signs one by one, or from several letters at once where they are bytes of the text.
//!
//! A run of letters goes on until a sign that is no letter, and is then a word, cut after 42 letters. A boundary
//! between two words takes a position of its own: several in a row are one, and those before the first word none. One
//! buffer of 168 bytes holds the run; memory is taken for words alone.
ghost use Rattle.std.specs.Prelude.{◌≡◌, ◌≤◌, ℕ, option_to_list, List, [], ◌∷◌, ◌++◌, IfOk, OnOk};
ghost use Rattle.std.specs.Str.{IsAscii};
ghost use Rattle.doc_types.specs.declared.tokens.TheConstants.{MAX_POSITION, MAX_WORD_CHARS};
ghost use Rattle.doc_tokens.specs.Words.{end_of, stronger};
ghost use Rattle.doc_tokens.specs.Spans.{tag_of};

use crate::field::TooLong;
use crate::sign::{TextSign, ZoneTag};
use doc_types::{Gap, MAX_POSITION, MAX_WORD_CHARS, TokenWord};
use srch_base::{NoMemory, Or, Word};
use std::alloc::Global;

/// How many bytes of a text a word takes, with what stands before the next one. A text with shorter words makes its list
/// grow once.
const BYTES_FOR_A_WORD: usize = 6;

/// What was found among the signs that were read.
#[derive(Drop)]
pub(crate) struct Found {
    pub words: Vec<TokenWord>,
    pub tags: Vec<ZoneTag>,
}

/// A reader of signs: what was found up to here, and the run of letters that may go on.
#[derive(Drop)]
pub(crate) struct Reader {
    found: Found,
    /// The letters of the run up to here, cut after the limit.
    run: String,
    /// How many letters `run` has.
    letters: usize,
    /// The position of the last word, or 0.
    position: u32,
    /// The boundary since the last word.
    gap: Gap,
    ghost within: { position ≤ MAX_POSITION },
    ghost cut: { letters ≤ MAX_WORD_CHARS },
}

/// The boundary that a sign makes.
fn end(sign: TextSign) -> Gap
    ensures { result ≡ end_of sign }
{
    match sign {
        TextSign::Sentence => Gap::Sentence,
        TextSign::Paragraph => Gap::Paragraph,
        TextSign::Letter(_) | TextSign::Separator | TextSign::Open(_) | TextSign::Close(_) =>
            Gap::None,
    }
}

/// The tag of a zone that a sign is, after so many words.
fn zone_tag(sign: TextSign, words: usize) -> Option<ZoneTag>
    ensures { option_to_list result ≡ tag_of words sign }
{
    match sign {
        TextSign::Open(zone) => Some(ZoneTag {
            zone,
            opens: true,
            words,
        }),
        TextSign::Close(zone) => Some(ZoneTag {
            zone,
            opens: false,
            words,
        }),
        TextSign::Letter(_) | TextSign::Separator | TextSign::Sentence | TextSign::Paragraph =>
            None,
    }
}

/// Appends a tag, if there is one.
fn push_tag(tags: &mut Vec<ZoneTag>, tag: Option<ZoneTag>) -> Result<(), NoMemory>
    ensures { OnOk result (tags.new.items ≡ tags.old.items ++ option_to_list tag) }
{
    match tag {
        Some(tag) => {
            tags.push(tag)?;
            Ok(())
        }
        None => Ok(()),
    }
}

/// The boundary that two in a row are.
fn stronger_of(first: Gap, second: Gap) -> Gap
    ensures { result ≡ stronger first second }
{
    match (first, second) {
        (Gap::Paragraph, _) | (_, Gap::Paragraph) => Gap::Paragraph,
        (Gap::Sentence, _) | (_, Gap::Sentence) => Gap::Sentence,
        (Gap::None, Gap::None) => Gap::None,
    }
}

impl Reader {
    ghost use Rattle.doc_tokens.specs.steps.TokenReader.{gap_after, signs_ahead, Wants, Holds, BeginApart, ReadsSign, EndsRun, Finds};

    /// Nothing was read. There is room for the words that a text of so many bytes has for the most part.
    pub fn new(alloc: Global, bytes: usize) -> Result<Reader, NoMemory>
        ensures { IfOk result (λ reader. (all : List TextSign) → Wants all reader all) }
    {
        let room = (bytes / BYTES_FOR_A_WORD).min(MAX_POSITION as usize);
        Ok(Reader {
            found: Found {
                words: Vec::with_capacity(alloc, room)?,
                tags: Vec::new(alloc),
            },
            run: String::with_capacity(alloc, 4 * MAX_WORD_CHARS)?,
            letters: 0,
            position: 0,
            gap: Gap::None,
        })
    }

    /// Reads one more sign.
    pub fn read(&mut self, alloc: Global, sign: TextSign) -> Result<(), Or<TooLong>>
        ensures { ReadsSign self.old sign self.new result }
    {
        match sign {
            TextSign::Letter(letter) => {
                self.letter(letter)?;
                Ok(())
            }
            TextSign::Separator
            | TextSign::Sentence
            | TextSign::Paragraph
            | TextSign::Open(_)
            | TextSign::Close(_) => {
                self.end_run(alloc)?;
                self.put(sign)?;
                Ok(())
            }
        }
    }

    /// A letter joins the run.
    fn letter(&mut self, letter: char) -> Result<(), NoMemory>
        ensures { OnOk result ((all : List TextSign) (letters : List ℕ) (rest : List TextSign) → Holds all self.old letters (TextSign.Letter letter ∷ rest) → Holds all self.new (letters ++ letter ∷ []) rest) }
    {
        if self.letters < MAX_WORD_CHARS {
            self.run.push(letter)?;
            self.letters += 1;
        }
        Ok(())
    }

    /// ASCII letters join the run by one copy: as many of them as there is room for, and the others are dropped.
    pub fn letters(&mut self, run: &str) -> Result<(), NoMemory>
        requires { IsAscii run.now }
        ensures { OnOk result ((all rest : List TextSign) → Wants all self.old (signs_ahead run.now rest) → Wants all self.new rest) }
    {
        if run.is_empty() {
            return Ok(());
        }
        let kept = (MAX_WORD_CHARS - self.letters).min(run.len());
        self.run.push_str(&run[..kept])?;
        self.letters += kept;
        Ok(())
    }

    /// The boundary before the next word.
    fn gap_before(&self) -> Gap
        ensures { result ≡ gap_after self.now.position self.now.gap }
    {
        if self.position == 0 {
            Gap::None
        } else {
            self.gap
        }
    }

    /// The run ends here, if there is one: it is a word.
    fn end_run(&mut self, alloc: Global) -> Result<(), Or<TooLong>>
        ensures { EndsRun self.old self.new result }
    {
        if self.letters == 0 {
            return Ok(());
        }
        let gap = self.gap_before();
        let position = self.position + gap.step();
        if position > MAX_POSITION {
            return Err(Or::Fault(TooLong { position }));
        }
        let word = Word::from_slice(alloc, self.run.as_bytes())?;
        self.found.words.push(TokenWord {
            word,
            position,
            gap,
        })?;
        self.run.clear();
        self.letters = 0;
        self.position = position;
        self.gap = Gap::None;
        Ok(())
    }

    /// A sign that is no letter stands between two words.
    fn put(&mut self, sign: TextSign) -> Result<(), NoMemory>
        requires { BeginApart (sign ∷ []) }
        ensures { OnOk result ((all rest : List TextSign) → Holds all self.old [] (sign ∷ rest) → Holds all self.new [] rest) }
    {
        let tag = zone_tag(sign, self.found.words.len());
        push_tag(&mut self.found.tags, tag)?;
        self.gap = stronger_of(self.gap, end(sign));
        Ok(())
    }

    /// The text ends here.
    pub fn finish(mut self, alloc: Global) -> Result<Found, Or<TooLong>>
        ensures { (all : List TextSign) → Wants all self [] → Finds all result }
    {
        self.end_run(alloc)?;
        let Reader {
            found,
            run: _,
            letters: _,
            position: _,
            gap: _,
        } = self;
        Ok(found)
    }
}
