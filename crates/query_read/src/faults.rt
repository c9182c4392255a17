//! The first fault of a text, among the offset where its reading stopped, what is wrong with a mark before it, and what ended
//! before it with negated items alone.
ghost use Rattle.std.specs.Prelude.{◌≡◌, nat_lt, IfOk};
ghost use Rattle.std.specs.List.{prefix_len};
ghost use Rattle.query_grammar.specs.Queries.{told_of};
ghost use Rattle.query_grammar.specs.steps.Joined.{ends_joined as are_joined};
ghost use Rattle.query_grammar.specs.steps.MarkFacts.{AreOrderly, Ascend};
ghost use Rattle.query_grammar.specs.steps.Answers.{StopsAt, IsFound};
ghost use Rattle.query_read.specs.steps.Choice.{nameless as told_nameless, AreRead, IsReadUpTo, IsFirstWrong, IsFirstWithin, IsStopOfText, IsCalled};

use crate::levels::only_not;
use query_grammar::QueryFault;
use query_marks::{Mark, QueryKind, Sign};
use srch_base::{Name, NoMemory};
use std::alloc::Global;

/// How many marks are before an offset.
fn marks_before(marks: &[Mark], place: u32) -> usize
    ensures { result ≡ prefix_len (λ m. nat_lt m.at place) marks.now }
{
    marks.iter().take_while(|mark| mark.at < place).count()
}

/// The marks that are read: those before the stop, or all.
fn read_part(marks: &[Mark], stop: Option<u32>) -> &[Mark]
    requires orderly { Ascend marks.now }
    requires stops { StopsAt marks.now stop }
    ensures { IsReadUpTo marks.now stop result.now }
{
    match stop {
        Some(place) => &marks[..marks_before(marks, place)],
        None => marks,
    }
}

/// The first mark with which something is wrong by itself.
fn first_wrong(marks: &[Mark]) -> Result<Option<QueryFault>, NoMemory>
    ensures { IfOk result (λ found. IsFirstWrong marks.now found) }
{
    for mark in marks {
        if let Some(wrong) = &mark.wrong {
            let wrong = wrong.get();
            return Ok(Some(QueryFault {
                place: mark.at,
                kind: wrong.kind,
                name: wrong.name.clone()?,
            }));
        }
    }
    Ok(None)
}

fn nameless(alloc: Global, place: u32, kind: QueryKind) -> QueryFault
    ensures { told_of result ≡ told_nameless place kind }
{
    QueryFault {
        place,
        kind,
        name: Name::new(Vec::new(alloc)),
    }
}

/// The first fault within the marks that are read. What ended with negated items alone stands at a NOT, with which nothing is
/// wrong by itself.
fn first_within(alloc: Global, read: &[Mark]) -> Result<Option<QueryFault>, NoMemory>
    requires { AreRead read.now }
    ensures { IfOk result (λ found. IsFirstWithin read.now found) }
{
    let negated = only_not(alloc, read)?;
    let wrong = first_wrong(read)?;
    match negated {
        Some(place) => match wrong {
            Some(wrong) => {
                if wrong.place < place {
                    Ok(Some(wrong))
                } else {
                    Ok(Some(nameless(alloc, place, QueryKind::OnlyNot)))
                }
            }
            None => Ok(Some(nameless(alloc, place, QueryKind::OnlyNot))),
        },
        None => Ok(wrong),
    }
}

/// Whether SENTENCE or PARAGRAPH is the last mark.
fn ends_joined(marks: &[Mark]) -> bool
    ensures { result ≡ are_joined marks.now }
{
    match marks.last() {
        Some(mark) => matches!(mark.sign, Sign::Sentence | Sign::Paragraph),
        None => false,
    }
}

/// What a stop is called.
fn stop_kind(front: &[Mark], stop: &Mark) -> QueryKind
    requires { IsStopOfText front.now stop.now }
    ensures { IsCalled front.now stop.now result }
{
    match &stop.sign {
        Sign::Unclosed => QueryKind::UnclosedQuote,
        Sign::Open => {
            if ends_joined(front) {
                QueryKind::Syntax
            } else {
                QueryKind::Nesting
            }
        }
        _ => QueryKind::Syntax,
    }
}

/// The first fault, where there is one. The reading stopped at an offset, or not at all.
pub(crate) fn first_fault(
    alloc: Global,
    marks: &[Mark],
    stop: Option<u32>,
) -> Result<Option<QueryFault>, NoMemory>
    requires orderly { AreOrderly marks.now }
    requires stops { StopsAt marks.now stop }
    ensures { IfOk result (λ found. IsFound marks.now found) }
{
    let read = read_part(marks, stop);
    let within = first_within(alloc, read)?;
    match within {
        Some(fault) => Ok(Some(fault)),
        None => match stop {
            Some(place) => {
                let kind = stop_kind(read, &marks[read.len()]);
                Ok(Some(nameless(alloc, place, kind)))
            }
            None => Ok(None),
        },
    }
}
