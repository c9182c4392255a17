//! A list of words and their values, written once.
//!
//! A caller's macro holds the list; `words_of!` makes the table's words of it, and `value_at!` a match with an arm for
//! each place. So a new word is one line, and no place is counted by hand.
/// The words of a list `"word" => value, ..`, as `NameTable::ordered` takes them.
///
/// A macro of the caller's holds the list once, and hands it to this macro and to `value_at`:
///
/// ```text
/// macro_rules! colors {
///     ($form:ident $(, $argument:expr)*) => {
///         $form!($($argument,)* { "green" => Color::Green, "red" => Color::Red })
///     };
/// }
///
/// fn color_table() -> NameTable<2>
///     ensures words { result ≡ color_words }
///     ensures order { IsInOrder result }
/// {
///     NameTable::ordered(colors!(words_of))
/// }
///
/// fn color_at(place: u16) -> Option<Color>
///     ensures { result ≡ slice_get color_values place }
/// {
///     Some(colors!(value_at, place, return None))
/// }
/// ```
#[macro_export]
macro_rules! words_of {
    ({ $($word:literal => $value:expr),+ $(,)? }) => {
        &[$($word),+]
    };
}

/// The value at a place of a list `"word" => value, ..`: a match with an arm for each place, the first word's 0.
///
/// The second argument is the value past the end of the list. A list has at most 120 words.
#[macro_export]
macro_rules! value_at {
    ($place:expr, $past:expr, { $($word:literal => $value:expr),+ $(,)? }) => {
        $crate::value_at!(@arms ($place) ($past) [] [
            0 1 2 3 4 5 6 7 8 9 10 11 12 13 14 15 16 17 18 19 20 21 22 23 24 25 26 27 28 29
            30 31 32 33 34 35 36 37 38 39 40 41 42 43 44 45 46 47 48 49 50 51 52 53 54 55 56 57 58 59
            60 61 62 63 64 65 66 67 68 69 70 71 72 73 74 75 76 77 78 79 80 81 82 83 84 85 86 87 88 89
            90 91 92 93 94 95 96 97 98 99 100 101 102 103 104 105 106 107 108 109 110 111 112 113 114 115 116 117 118 119
        ] $($value;)+)
    };
    (@arms $place:tt $past:tt [$($arms:tt)*] [$number:literal $($numbers:literal)*] $value:expr; $($values:expr;)*) => {
        $crate::value_at!(@arms $place $past [$($arms)* $number => $value,] [$($numbers)*] $($values;)*)
    };
    (@arms ($place:expr) ($past:expr) [$($arms:tt)*] $numbers:tt) => {
        match $place {
            $($arms)*
            _ => $past,
        }
    };
}
