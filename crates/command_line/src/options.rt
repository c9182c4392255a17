//! Options and their values, word by word. Every option is written `--name value`.
ghost use Rattle.std.specs.Prelude.{◌≡◌, ◌<◌, ◌∷◌, IfSome, MatchOption, length, map, option_map, string_bytes};
ghost use Rattle.std.specs.List.{list_all, list_any};
ghost use Rattle.std.specs.Char.{is_ascii_digit};
ghost use Rattle.std.specs.Str.{bytes_eq};
ghost use Rattle.command_line.specs.Modes.{is_number, may_be_value, number_in, within};
ghost use Rattle.command_line.specs.steps.Words.{are_options_in, has_option_in, is_numeral_in, is_option_before, value_in};

/// Whether the words are options of these names, each once at most, with their values.
pub(crate) fn are_options(names: &[&str], words: &[String]) -> bool
    ensures { result ≡ are_options_in (map (λ name. name.now) names.now) (map string_bytes words.now) }
{
    let mut rest = words;
    'options: while let Some((option, value, more)) = first_option(rest) {
        let may_stand = is_option(names, option, value, more);
        if !may_stand {
            return false;
        }
        rest = more;
    }
    rest.is_empty()
}

/// The first option of the words, its value, and the words after them.
fn first_option(words: &[String]) -> Option<(&str, &str, &[String])>
    ensures first { MatchOption result (length words.now < 2) (λ first. map string_bytes words.now ≡ first.0.now ∷ first.1.now ∷ map string_bytes first.2.now) }
    ensures shorter { IfSome result (λ first. length first.2.now < length words.now) }
{
    match words {
        [option, value, more @ ..] => Some((option.as_str(), value.as_str(), more)),
        _ => None,
    }
}

/// Whether an option and its value may stand before these words.
#[tactic(auto, using(crate::proofs::Lists::among_lent))]
fn is_option(names: &[&str], option: &str, value: &str, more: &[String]) -> bool
    ensures { result ≡ is_option_before (map (λ name. name.now) names.now) option.now value.now (map string_bytes more.now) }
{
    is_among(names, option) && may_be_value(value) && !has_option(more, option)
}

/// Whether an option is one of these.
fn is_among(names: &[&str], option: &str) -> bool
    ensures { result ≡ list_any (λ name. bytes_eq name.now option.now) names.now }
{
    names.iter().any(|name| is_same(name, option))
}

/// Whether two names are one.
fn is_same(name: &str, option: &str) -> bool
    ensures { result ≡ bytes_eq name.now option.now }
{
    name == option
}

/// Whether a text isn't empty and doesn't begin with `-`.
fn may_be_value(text: &str) -> bool
    ensures { result ≡ may_be_value text.now }
{
    match text.as_bytes() {
        [] => false,
        [first, ..] => *first != b'-',
    }
}

/// Whether one of these options has this name.
fn has_option(words: &[String], name: &str) -> bool
    ensures { result ≡ has_option_in name.now (map string_bytes words.now) }
{
    let mut rest = words;
    'options: while let Some((option, _, more)) = first_option(rest) {
        if option == name {
            return true;
        }
        rest = more;
    }
    false
}

/// The value of the option of this name.
pub(crate) fn value_of<'a>(words: &'a [String], name: &str) -> Option<&'a str>
    ensures { option_map (λ value. value.now) result ≡ value_in name.now (map string_bytes words.now) }
{
    let mut rest = words;
    'options: while let Some((option, value, more)) = first_option(rest) {
        if option == name {
            return Some(value);
        }
        rest = more;
    }
    None
}

/// Whether the value of the option of this name, where there is one, is digits alone.
pub(crate) fn is_numeral(words: &[String], name: &str) -> bool
    ensures { result ≡ is_numeral_in name.now (map string_bytes words.now) }
{
    match value_of(words, name) {
        Some(text) => is_number(text.as_bytes()),
        None => true,
    }
}

/// Whether there are digits alone, and at least one.
fn is_number(text: &[u8]) -> bool
    ensures { result ≡ is_number text.now }
{
    if text.is_empty() {
        return false;
    }
    are_digits(text)
}

/// Whether each byte is a digit.
fn are_digits(text: &[u8]) -> bool
    ensures { result ≡ list_all is_ascii_digit text.now }
{
    text.iter().all(|byte| byte.is_ascii_digit())
}

/// The number, where it is from `low` to `high`.
fn within(low: u32, high: u32, number: u32) -> Option<u32>
    ensures { result ≡ within low high number }
{
    if low <= number && number <= high {
        Some(number)
    } else {
        None
    }
}

/// The number that digits write, where it is from `low` to `high`.
pub(crate) fn number_in(low: u32, high: u32, text: &str) -> Option<u32>
    ensures { result ≡ number_in low high text.now }
{
    let is_number = is_number(text.as_bytes());
    if !is_number {
        return None;
    }
    match text.parse::<u32>() {
        Ok(number) => within(low, high, number),
        Err(_) => None,
    }
}
