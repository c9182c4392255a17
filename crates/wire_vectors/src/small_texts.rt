//! The small types of `srch_base`: number fields, words, names, texts and lists, and what faults print and become by `?`.
use srch_base::{
    Failed, Held, Items, NameMark, NoMemory, OpenFault, Or, TextMark, WordMark, put_u16, put_u32,
    put_u64, u16_at, u32_at, u64_at,
};
use std::alloc::{AllocError, AllocFailed, Global};
use std::fmt::Display;

/// The numbers 0x0201, 0x06050403 and 0x0e0d0c0b0a090807, the low byte first.
const NUMBERS: &[u8] = &[1, 2, 3, 4, 5, 6, 7, 8, 9, 10, 11, 12, 13, 14];

/// Whether the three numbers are written as these bytes.
fn are_written(alloc: Global) -> bool {
    let mut out = Vec::new(alloc);
    let are_put = put_u16(0x0201, &mut out).is_ok()
        && put_u32(0x0605_0403, &mut out).is_ok()
        && put_u64(0x0e0d_0c0b_0a09_0807, &mut out).is_ok();
    are_put && out.as_slice() == NUMBERS
}

/// Whether the three numbers are read where they lie, and none behind the end.
fn are_read() -> bool {
    u16_at(NUMBERS, 12) == Some(0x0e0d)
        && u16_at(NUMBERS, 13).is_none()
        && u32_at(NUMBERS, 1) == Some(0x0504_0302)
        && u32_at(NUMBERS, usize::MAX).is_none()
        && u64_at(NUMBERS, 6) == Some(0x0e0d_0c0b_0a09_0807)
        && u64_at(NUMBERS, 7).is_none()
}

#[test]
fn numbers_lie_low_byte_first(rt: HostRuntime) {
    assert!(rt; are_written(rt.alloc()) && are_read());
}

/// Texts, each behind one that comes before it: a statement; as many bytes as lie in a text itself, and one more; words; and names.
const TEXTS: [&str; 7] = [
    "<select 1",
    "<abcdefghijklmnopqrstuvwxyz0123",
    "<abcdefghijklmnopqrstuvwxyz01234",
    "<fox",
    "fox<foxes",
    "<Title",
    "Title<title",
];

/// Whether a text comes after these bytes.
fn comes_after<Mark>(alloc: Global, held: &Held<Mark>, before: &str) -> Option<bool> {
    let before = Held::<Mark>::new(Vec::from_slice(alloc, before.as_bytes()).ok()?);
    Some(before < *held)
}

/// Whether a text has these bytes, as its copy has.
fn is_copied<Mark>(held: &Held<Mark>, bytes: &[u8]) -> Option<bool> {
    let copy = held.clone().ok()?;
    Some(copy == *held && held.as_bytes() == bytes)
}

/// Whether a text of these bytes has them, is its own copy, comes after the other, and gives its bytes back.
fn is_kept<Mark>(alloc: Global, before: &str, bytes: &str) -> Option<bool> {
    let held = Held::<Mark>::from_slice(alloc, bytes.as_bytes()).ok()?;
    let comes_after = comes_after(alloc, &held, before) == Some(true);
    let is_copied = is_copied(&held, bytes.as_bytes()) == Some(true);
    let given_back = held.into_vec().ok()?;
    Some(comes_after && is_copied && given_back.as_slice() == bytes.as_bytes())
}

/// Whether all are kept.
fn are_kept<Mark>(alloc: Global) -> Option<bool> {
    for text in &TEXTS {
        let (before, bytes) = text.split_once("<")?;
        if is_kept::<Mark>(alloc, before, bytes) != Some(true) {
            return Some(false);
        }
    }
    Some(true)
}

/// Whether all are kept as words, as names and as texts.
fn are_held(alloc: Global) -> bool {
    let are_words = are_kept::<WordMark>(alloc) == Some(true);
    let are_names = are_kept::<NameMark>(alloc) == Some(true);
    let are_texts = are_kept::<TextMark>(alloc) == Some(true);
    are_words && are_names && are_texts
}

#[test]
fn small_texts_copy_and_compare(rt: HostRuntime) {
    assert!(rt; are_held(rt.alloc()));
}

/// Whether a list has three numbers, as its copy has.
fn has_three(items: &Items<u32>, wanted: &[u32]) -> Option<bool> {
    let copy = items.clone().ok()?;
    let is_kept = copy == *items && items.as_slice() == wanted;
    Some(is_kept && !items.is_empty() && items.len() == 3)
}

/// Whether a list of three numbers has them, and gives them back.
fn is_list(alloc: Global) -> Option<bool> {
    let wanted = [3, 1, 2].as_slice();
    let items = Items::new(Vec::from_slice(alloc, wanted).ok()?);
    let has_three = has_three(&items, wanted) == Some(true);
    Some(items.into_vec().as_slice() == wanted && has_three)
}

#[test]
fn lists_copy_and_compare(rt: HostRuntime) {
    assert!(rt; is_list(rt.alloc()) == Some(true));
}

const DEVICE: &str = "a device failed";

const MEMORY: &str = "out of memory";

/// Whether a fault prints that.
fn prints<F: Display>(alloc: Global, fault: &F, wanted: &str) -> bool {
    match format!(in alloc; "{fault}") {
        Ok(text) => text.as_str() == wanted,
        Err(_) => false,
    }
}

/// Whether faults print their texts.
fn faults_print(alloc: Global) -> bool {
    prints(alloc, &Failed, DEVICE)
        && prints(alloc, &NoMemory, MEMORY)
        && prints(alloc, &OpenFault::from(Failed), DEVICE)
        && prints(alloc, &OpenFault::from(AllocError), MEMORY)
        && prints(alloc, &Or::<Failed>::from(refused()), MEMORY)
        && prints(alloc, &Or::Fault(Failed), DEVICE)
}

/// A refused growth.
fn refused() -> AllocFailed<u8> {
    AllocFailed { value: 7 }
}

/// Whether want of memory is the same fault however it is told.
fn faults_convert() -> bool {
    OpenFault::from(refused()) == OpenFault::from(NoMemory)
        && Or::<Failed>::from(AllocError) == Or::from(NoMemory)
        && NoMemory::from(refused()) == NoMemory::from(AllocError)
}

#[test]
fn faults_print_and_convert(rt: HostRuntime) {
    assert!(rt; faults_print(rt.alloc()) && faults_convert());
}
