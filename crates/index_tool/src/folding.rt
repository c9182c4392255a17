//! The word that a text is folded to, as the words of documents are.
ghost use Rattle.std.specs.Prelude.{◌≡◌, IfOk, option_map, string_bytes};
ghost use Rattle.charset_map.specs.Spans.{folded};
ghost use Rattle.index_tool.specs.Folding.{folded_word};

use charset_map::Charset;
use doc_types::MAX_WORD_CHARS;
use srch_base::NoMemory;
use std::alloc::Global;

/// The word of a text, or None where a character isn't in the table or there are more than a word has.
pub(crate) fn fold_word(
    alloc: Global,
    charset: &Charset,
    text: &str,
) -> Result<Option<String>, NoMemory>
    ensures { IfOk result (λ word. option_map string_bytes word ≡ folded_word (folded charset.now) text.now) }
{
    let mut word = String::new(alloc);
    let mut letters = 0;
    'characters: for c in text.chars() {
        if letters >= MAX_WORD_CHARS {
            return Ok(None);
        }
        match charset.fold(c) {
            Some(letter) => word.push(letter)?,
            None => return Ok(None),
        }
        letters += 1;
    }
    Ok(Some(word))
}
