//! How the lines of tables spell what a line can't have, or has very often.

/// Appends x so many times, of `x × n`.
fn repeat(named: &str, into: &mut String) -> Option<()> {
    let (copied, count) = named.split_once(" × ")?;
    for _ in 0..count.parse::<u32>().ok()? {
        into.push_str(copied).ok()?;
    }
    Some(())
}

/// Appends what stands between `⟨` and `⟩`: a character by its name, or `x × n`.
fn spell_named(named: &str, into: &mut String) -> Option<()> {
    match named {
        "tab" => into.push_str("\t").ok(),
        "CR" => into.push_str("\r").ok(),
        "LF" => into.push_str("\n").ok(),
        _ => repeat(named, into),
    }
}

/// Appends what is spelled, written out.
pub(crate) fn spell(spelled: &str, into: &mut String) -> Option<()> {
    for part in spelled.split("⟨") {
        match part.split_once("⟩") {
            None => into.push_str(part).ok()?,
            Some((named, plain)) => {
                spell_named(named, into)?;
                into.push_str(plain).ok()?;
            }
        }
    }
    Some(())
}
