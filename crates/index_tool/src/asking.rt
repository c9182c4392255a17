//! The words after the program's name. There are three forms of them, so no reader of options is wanted.
ghost use Rattle.std.specs.Prelude.{◌≡◌, map, option_map, string_bytes};
ghost use Rattle.index_tool.specs.Asking.{asked, mode_of};
ghost use Rattle.index_tool.specs.steps.Words.{mode_said, said};

/// What is asked of the files of an index.
#[derive(Clone, Copy)]
pub(crate) enum Mode<'a> {
    /// Whether they are whole.
    Check,
    /// The words of the chunks.
    Dictionary,
    /// The places of a word in the chunks.
    Hits(&'a str),
}

/// The file of the configuration, the name of an index, and what is asked of it.
#[derive(Clone, Copy)]
pub(crate) struct Asked<'a> {
    pub(crate) config: &'a str,
    pub(crate) index: &'a str,
    pub(crate) mode: Mode<'a>,
}

/// What words ask for: `--config F --check I`, `--config F --dumpdict I`, `--config F --dumphitlist I W`, or nothing.
pub(crate) fn read_words(words: &[String]) -> Option<Asked<'_>>
    ensures { option_map said result ≡ asked (map string_bytes words.now) }
{
    let (first, words) = words.split_first()?;
    let (config, words) = words.split_first()?;
    let (option, words) = words.split_first()?;
    let (index, words) = words.split_first()?;
    if first.as_str() != "--config" {
        return None;
    }
    let mode = mode_of(option.as_str(), words)?;
    Some(Asked {
        config: config.as_str(),
        index: index.as_str(),
        mode,
    })
}

/// The mode of an option, by the words behind the name of the index.
fn mode_of<'a>(option: &str, words: &'a [String]) -> Option<Mode<'a>>
    ensures { option_map mode_said result ≡ mode_of option.now (map string_bytes words.entry.now) }
{
    match words.split_first() {
        None if option == "--check" => Some(Mode::Check),
        None if option == "--dumpdict" => Some(Mode::Dictionary),
        Some((word, others)) if others.is_empty() && option == "--dumphitlist" => {
            Some(Mode::Hits(word.as_str()))
        }
        _ => None,
    }
}
