//! A scan for what has negated items alone: an AND, or what a ZONESPAN stands over.
//!
//! Of the AND that is read, and of those around it, the scan keeps where the first item stands and whether one isn't negated.
ghost use Rattle.std.specs.Prelude.{◌≡◌, false, OnOk, IfOk, if◌then◌else◌};
ghost use Rattle.query_read.specs.steps.Levels.{no_items, no_level, with_item, refused_row, earlier as earlier_of, with_one, refused_span, refused_and, limited as limited_level, level_after, goes_on as sign_goes_on, step, refused_at, at_start as scan_at_start, Refuses, IsLeast};

use query_marks::{Mark, Sign};
use sqlite_items::Items;
use srch_base::NoMemory;
use std::alloc::Global;

/// Items that stand side by side: those of an AND, or those of a ZONESPAN.
#[derive(Clone, Copy)]
pub(crate) struct Row {
    /// The offset of the first item.
    first: Option<u32>,
    /// One item isn't negated.
    wanted: bool,
}

/// An AND: its items, and those of the ZONESPAN that stands over what follows.
#[derive(Clone, Copy)]
pub(crate) struct Level {
    and: Row,
    span: Option<Row>,
}

/// What is known after some marks.
#[derive(Drop)]
pub(crate) struct Scan {
    level: Level,
    /// Those around it, the innermost last.
    around: Items<Level>,
    /// The next mark goes on with an item that has begun.
    goes: bool,
}

/// The earlier of two offsets.
fn earlier(a: Option<u32>, b: Option<u32>) -> Option<u32>
    ensures { result ≡ earlier_of a b }
{
    match (a, b) {
        (Some(a), Some(b)) => Some(a.min(b)),
        (None, b) => b,
        (a, None) => a,
    }
}

/// Whether the mark after one with this sign goes on with an item.
fn goes_on(sign: &Sign) -> bool
    ensures { result ≡ sign_goes_on sign.now }
{
    matches!(
        sign,
        Sign::Or | Sign::Maybe | Sign::Sentence | Sign::Paragraph | Sign::Not
    )
}

impl Row {
    /// No items.
    fn new() -> Row
        ensures { result ≡ no_items }
    {
        Row {
            first: None,
            wanted: false,
        }
    }

    /// With an item more.
    fn with(self, at: u32, negated: bool) -> Row
        ensures { result ≡ with_item at negated self }
    {
        Row {
            first: self.first.or(Some(at)),
            wanted: self.wanted || !negated,
        }
    }

    /// The offset of the first item, where all are negated.
    fn refused(self) -> Option<u32>
        ensures { result ≡ refused_row self }
    {
        if self.wanted { None } else { self.first }
    }
}

impl Level {
    /// No items.
    fn new() -> Level
        ensures { result ≡ no_level }
    {
        Level {
            and: Row::new(),
            span: None,
        }
    }

    /// With an item more. What ZONESPAN stands over is one item of the AND, which isn't negated.
    fn with(self, at: u32, negated: bool) -> Level
        ensures { result ≡ with_one at negated self }
    {
        match self.span {
            Some(row) => Level {
                and: self.and.with(at, false),
                span: Some(row.with(at, negated)),
            },
            None => Level {
                and: self.and.with(at, negated),
                span: None,
            },
        }
    }

    /// With the item that begins here, unless it has begun.
    fn with_begun(self, at: u32, goes: bool) -> Level
        ensures { result ≡ (if goes then self else with_one at false self) }
    {
        if goes { self } else { self.with(at, false) }
    }

    /// After a limit.
    fn limited(self, span: Option<Row>) -> Level
        ensures { result ≡ limited_level span self }
    {
        Level {
            and: self.and,
            span,
        }
    }

    /// After a mark. A group is an item that begins with its parenthesis.
    fn after(self, mark: &Mark, goes: bool) -> Level
        ensures { result ≡ level_after self goes mark.now.at mark.now.sign }
    {
        match &mark.sign {
            Sign::Not => self.with(mark.at, true),
            Sign::Bare(_) | Sign::Phrase(_) | Sign::Loose(_, _) | Sign::Open => {
                self.with_begun(mark.at, goes)
            }
            Sign::Limits => self.limited(None),
            Sign::Spans(_) => self.limited(Some(Row::new())),
            Sign::Before | Sign::Near(_) | Sign::Relaxed | Sign::End => Level::new(),
            _ => self,
        }
    }

    /// The first item of what ZONESPAN stands over, where all are negated.
    fn refused_span(self) -> Option<u32>
        ensures { result ≡ refused_span self }
    {
        match self.span {
            Some(row) => row.refused(),
            None => None,
        }
    }

    /// The first item of the AND or of what ZONESPAN stands over, where all are negated.
    fn refused(self) -> Option<u32>
        ensures { result ≡ refused_and self }
    {
        earlier(self.and.refused(), self.refused_span())
    }
}

impl Scan {
    /// Before the first mark.
    fn new(alloc: Global) -> Scan
        ensures { result ≡ scan_at_start }
    {
        Scan {
            level: Level::new(),
            around: Items::new(alloc),
            goes: false,
        }
    }

    /// The offset that is refused where this mark comes next: of an AND that ends before it, or of a ZONESPAN.
    fn refused(&self, mark: &Mark) -> Option<u32>
        ensures { result ≡ refused_at self.now mark.now }
    {
        match &mark.sign {
            Sign::Close | Sign::Before | Sign::Near(_) | Sign::End => self.level.refused(),
            Sign::Limits | Sign::Spans(_) => self.level.refused_span(),
            _ => None,
        }
    }

    /// Goes on after a mark.
    fn pass(&mut self, mark: &Mark) -> Result<(), NoMemory>
        ensures { OnOk result (self.new ≡ step self.old mark.now) }
    {
        let after = self.level.after(mark, self.goes);
        self.goes = goes_on(&mark.sign);
        match &mark.sign {
            Sign::Open => {
                self.around.push(after)?;
                self.level = Level::new();
            }
            Sign::Close => {
                self.level = match self.around.pop() {
                    Some(outer) => outer,
                    None => Level::new(),
                };
            }
            _ => self.level = after,
        }
        Ok(())
    }
}

/// The offset of the first AND or ZONESPAN among the marks that ended with negated items alone.
pub(crate) fn only_not(alloc: Global, marks: &[Mark]) -> Result<Option<u32>, NoMemory>
    ensures { IfOk result (λ found. IsLeast (Refuses scan_at_start marks.now) found) }
{
    let mut found = None;
    let mut scan = Scan::new(alloc);
    for mark in marks {
        found = earlier(found, scan.refused(mark));
        scan.pass(mark)?;
    }
    Ok(found)
}
