//! Bytes and calls that rows spell.
use std::alloc::Global;

/// What a word of bytes stands for: `A` and `B` are the numbers 1 and 2 of 8 bytes, `T` is the text `field title` with its length,
/// `S` a state of 24 bytes (no text, through 5, next file 7, no older log, the newer log 2, no chunk), `.` is nothing, and all others
/// are digits.
fn digits_of(word: &str) -> &str {
    match word {
        "A" => "0100000000000000",
        "B" => "0200000000000000",
        "T" => "0c006669656c64207469746c650a",
        "S" => "000005000000000000000700000000000000020000000000",
        "." => "",
        _ => word,
    }
}

/// Puts the digits of a word; `00×9` is nine times `00`.
fn put_word(word: &str, digits: &mut String) -> Option<()> {
    let (part, count) = word.split_once('×').unwrap_or((word, "1"));
    for _ in 0..number_of(count)? {
        digits.push_str(digits_of(part)).ok()?;
    }
    Some(())
}

/// The bytes that these words spell.
pub(crate) fn bytes_of(alloc: Global, words: &str) -> Option<Vec<u8>> {
    let mut digits = String::new(alloc);
    for word in words.split(' ') {
        put_word(word, &mut digits)?;
    }
    hex::decode(alloc, digits.as_str()).ok()
}

/// The number that a word is. It is read here alone, since that is dear to prove.
pub(crate) fn number_of(word: &str) -> Option<u64> {
    word.parse::<u64>().ok()
}

/// The number of a file.
pub(crate) fn file_of(word: &str) -> Option<u32> {
    word.parse::<u32>().ok()
}

/// The place that a word stands for: a number, or the end or the last byte of a file of the greatest length.
fn place_of(word: &str, greatest: u64) -> Option<u64> {
    match word {
        "end" => Some(greatest),
        "last" => Some(greatest.saturating_sub(1)),
        _ => number_of(word),
    }
}

/// The parts of a call: its kind, a file, a place, which is 0 where none is named, and the rest.
pub(crate) fn call_of(call: &str, greatest: u64) -> Option<(&str, u32, u64, &str)> {
    let mut words = call.split(' ');
    let kind = words.next()?;
    let file = file_of(words.next()?)?;
    let at = place_of(words.next().unwrap_or("0"), greatest)?;
    Some((kind, file, at, words.next().unwrap_or("")))
}
