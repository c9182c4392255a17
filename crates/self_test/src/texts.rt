//! The statements of a selftest, written as their canonical texts. One text is used for all of them, so that a document takes no memory.
ghost use Rattle.std.specs.Prelude.{◌≡◌, ◌<◌, ◌++◌, string_bytes, decimal, OnOk};
ghost use Rattle.self_test.specs.steps.Letters.{IsSmall, insert_letters, count_letters};

use crate::generator::{Document, WORDS};
use crate::summary::Count;
use std::alloc::AllocError;
use std::fmt::Write;

/// Writes the INSERT of a document with this id.
#[tactic(auto, unfolding(crate::specs::steps::Letters::insert_letters))]
pub(crate) fn write_insert(
    text: &mut String,
    id: u32,
    document: &Document,
) -> Result<(), AllocError>
    ensures letters { OnOk result (string_bytes text.new ≡ insert_letters id document.now) }
    ensures small { IsSmall document.now }
{
    let [first, second, third, fourth] = document.title;
    text.clear();
    put(
        text,
        "INSERT INTO `t` ( `id` , `title` , `gid` ) VALUES ( ",
        id,
    )?;
    put(text, " , 'w", u32::from(first))?;
    put(text, " w", u32::from(second))?;
    put(text, " w", u32::from(third))?;
    put(text, " w", u32::from(fourth))?;
    put(text, "' , ", u32::from(document.gid))?;
    text.push_str(" )")
}

/// Writes the SELECT whose rows are what is counted of the word, the phrase or the group with this number.
#[tactic(auto, unfolding(crate::specs::steps::Letters::count_letters))]
pub(crate) fn write_count(text: &mut String, count: Count, number: u8) -> Result<(), AllocError>
    requires { number < 50 }
    ensures { OnOk result (string_bytes text.new ≡ count_letters count number) }
{
    text.clear();
    match count {
        Count::Words => {
            put(
                text,
                "SELECT `id` FROM `t` WHERE MATCH ( 'w",
                u32::from(number),
            )?;
            text.push_str("' ) LIMIT 0 , 100000 OPTION `max_matches` = 100000")
        }
        Count::Pairs => {
            put(
                text,
                "SELECT `id` FROM `t` WHERE MATCH ( '\"w",
                u32::from(number),
            )?;
            put(text, " w", u32::from((number + 1) % WORDS))?;
            text.push_str("\"' ) LIMIT 0 , 100000 OPTION `max_matches` = 100000")
        }
        Count::Groups => {
            put(
                text,
                "SELECT `id` FROM `t` WHERE `gid` = ",
                u32::from(number),
            )?;
            text.push_str(" LIMIT 0 , 1")
        }
    }
}

/// Appends a piece and a number.
fn put(text: &mut String, piece: &str, number: u32) -> Result<(), AllocError>
    ensures { OnOk result (string_bytes text.new ≡ string_bytes text.old ++ piece.now ++ decimal number) }
{
    write!(text, "{piece}{number}")
}
