//! Why a statement is refused: a code of the protocol and a text, made by one named function for each text of the manual's
//! table. Here are those of texts, names and writes, before the store is asked.
ghost use Rattle.std.specs.Prelude.{◌≡◌, ◌+◌, ◌≤◌, ◌++◌, [], codes, length, decimal};
ghost use Rattle.query_grammar.specs.FaultTexts.{name_text};
ghost use Rattle.ql_refusals.specs.Refusals.{bad_syntax as bad_syntax_row, bad_token as bad_token_row, column_twice as column_twice_row, expr_text, id_missing as id_missing_row, id_out_of_range as id_out_of_range_row, no_memory as no_memory_row, other_index as other_index_row, refused, shown, state_of, too_many_operations as too_many_operations_row, too_many_positions as too_many_positions_row, transaction_open as transaction_open_row, transaction_too_large as transaction_too_large_row, unknown_column as unknown_column_row, unknown_index as unknown_index_row, unknown_option as unknown_option_row, value_out_of_range as value_out_of_range_row, wrong_kind as wrong_kind_row, wrong_number as wrong_number_row};

use arrayvec::ArrayVec;
use itoa::Buffer;
use ql_grammar::{ParseFault, ParseKind};
use ql_lex::LexFault;
use query_marks::QueryKind;
use rank_expr::ExprKind;
use srch_base::Or;
use std::marker::Model;

/// The most bytes of a refusal's text.
pub const MAX_REFUSAL_BYTES: usize = 200;

/// The most bytes of a name that a refusal shows; no name of a statement has more.
const SHOWN: usize = 64;

/// The code of a statement that is wrong, or can't be run: `ER_PARSE_ERROR`.
pub(crate) const WRONG: u16 = 1064;

/// The code of want of memory: `ER_OUTOFMEMORY`.
pub(crate) const MEMORY: u16 = 1037;

/// The code of a disk that failed: `ER_UNKNOWN_ERROR`.
pub(crate) const DISK: u16 = 1105;

/// Why a statement is refused. It lies in place: making one takes no memory.
#[derive(Drop)]
pub struct Refusal {
    code: u16,
    text: ArrayVec<u8, MAX_REFUSAL_BYTES>,
}

impl Model for Refusal {
    ghost use Rattle.ql_refusals.specs.Refusals.{Refused};

    ghost Value = { Refused };

    ghost view = { λ refusal. record { code = refusal.code; text = refusal.text.items } };
}

impl Refusal {
    /// The protocol's number for it.
    pub fn code(&self) -> u16
        ensures { result ≡ self.now.code }
    {
        self.code
    }

    /// The SQL state that goes with the code.
    pub fn state(&self) -> [u8; 5]
        ensures { result ≡ state_of self.now.code }
    {
        if self.code == MEMORY {
            *b"HY001"
        } else if self.code == DISK {
            *b"HY000"
        } else {
            *b"42000"
        }
    }

    /// What is shown to the user.
    pub fn text(&self) -> &[u8]
        ensures value { result.now ≡ self.now.text }
        ensures short { length result.now ≤ 200 }
    {
        self.text.as_slice()
    }

    /// A text alone.
    pub(crate) fn plain(code: u16, text: &[u8]) -> Refusal
        requires { length text.now ≤ 200 }
        ensures { result ≡ record { code = code; text = text.now } }
    {
        let empty = Refusal {
            code,
            text: ArrayVec::new(),
        };
        empty.then(text)
    }

    /// A text with a name in it.
    pub(crate) fn named(prefix: &[u8], name: &[u8], suffix: &[u8]) -> Refusal
        requires { length prefix.now + length suffix.now ≤ 136 }
        ensures { result ≡ refused (prefix.now ++ shown name.now ++ suffix.now) }
    {
        Refusal::plain(WRONG, prefix).then(cut(name)).then(suffix)
    }

    /// A text with a number at its end.
    pub(crate) fn numbered(prefix: &[u8], number: u64) -> Refusal
        requires { length prefix.now ≤ 136 }
        ensures { result ≡ refused (prefix.now ++ decimal number) }
    {
        Refusal::plain(WRONG, prefix).then_number(number)
    }

    /// The kind of a fault, and its place.
    fn placed(kind: &str, place: u32) -> Refusal
        requires { length kind.now ≤ 136 }
        ensures { result ≡ refused (kind.now ++ codes " at " ++ decimal place) }
    {
        Refusal::plain(WRONG, kind.as_bytes())
            .then(b" at ")
            .then_number(u64::from(place))
    }

    /// The text goes on with a part.
    pub(crate) fn then(mut self, part: &[u8]) -> Refusal
        requires { length self.text + length part.now ≤ 200 }
        ensures { result ≡ record { code = self.code; text = self.text ++ part.now } }
    {
        let _ = self.text.try_extend_from_slice(part);
        self
    }

    /// The text goes on with a number.
    pub(crate) fn then_number(self, number: u64) -> Refusal
        requires { length self.text ≤ 160 }
        ensures value { result ≡ record { code = self.code; text = self.text ++ decimal number } }
        ensures short { length result.text ≤ length self.text + 40 }
    {
        let mut digits = Buffer::new();
        self.then(digits.format(number).as_bytes())
    }

    /// The text goes on with the name that a query's fault has, where one isn't known.
    pub(crate) fn then_unknown(self, kind: QueryKind, name: &[u8]) -> Refusal
        requires { length self.text ≤ 100 }
        ensures value { result ≡ record { code = self.code; text = self.text ++ name_text kind (shown name.now) } }
        ensures short { length result.text ≤ length self.text + 67 }
    {
        match kind {
            QueryKind::UnknownField | QueryKind::UnknownZone => {
                self.then(b" '").then(cut(name)).then(b"'")
            }
            _ => self,
        }
    }

    /// The text goes on with what is wrong with an expression.
    pub(crate) fn then_expr(self, kind: ExprKind, name: &[u8]) -> Refusal
        requires { length self.text ≤ 100 }
        ensures value { result ≡ record { code = self.code; text = self.text ++ expr_text kind (shown name.now) } }
        ensures short { length result.text ≤ length self.text + 90 }
    {
        match kind {
            ExprKind::Long => self.then(b"too long"),
            ExprKind::Syntax => self.then(b"syntax error"),
            ExprKind::Division => self.then(b"division"),
            ExprKind::Number => self.then(b"number too large"),
            ExprKind::Factor => self.then(b"unknown factor '").then(cut(name)).then(b"'"),
            ExprKind::Scope => self
                .then(b"'")
                .then(cut(name))
                .then(b"' in the wrong scope"),
            ExprKind::Nesting => self.then(b"nesting above 32"),
        }
    }
}

impl From<Refusal> for Or<Refusal> {
    ghost use Rattle.srch_base.specs.declared.faults.Or.TheVariants.{Fault};

    ghost from_gives = { λ refusal cause. cause ≡ Fault refusal };

    fn from(refusal: Refusal) -> Self {
        Or::Fault(refusal)
    }
}

/// A name as refusals show it.
fn cut(name: &[u8]) -> &[u8]
    ensures value { result.now ≡ shown name.now }
    ensures short { length result.now ≤ 64 }
{
    if name.len() <= SHOWN {
        return name;
    }
    &name[..SHOWN]
}

/// Memory was refused.
pub fn no_memory() -> Refusal
    ensures { result ≡ no_memory_row }
{
    Refusal::plain(MEMORY, b"out of memory")
}

/// No token can be read at a place of the text.
pub fn bad_token(fault: LexFault) -> Refusal
    ensures { result ≡ bad_token_row fault }
{
    Refusal::placed(fault.kind.text(), fault.place)
}

/// The tokens are no packet of statements.
pub fn bad_syntax(fault: ParseFault) -> Refusal
    ensures { result ≡ bad_syntax_row fault }
{
    match fault.kind {
        ParseKind::Syntax => Refusal::placed(fault.kind.text(), fault.place),
        ParseKind::TooMany => Refusal::plain(WRONG, fault.kind.text().as_bytes()),
    }
}

/// No index has the name.
pub fn unknown_index(name: &[u8]) -> Refusal
    ensures { result ≡ unknown_index_row name.now }
{
    Refusal::named(b"unknown index '", name, b"'")
}

/// No column of the index has the name.
pub fn unknown_column(name: &[u8]) -> Refusal
    ensures { result ≡ unknown_column_row name.now }
{
    Refusal::named(b"unknown column '", name, b"'")
}

/// No option has the name.
pub fn unknown_option(name: &[u8]) -> Refusal
    ensures { result ≡ unknown_option_row name.now }
{
    Refusal::named(b"unknown option '", name, b"'")
}

/// The column is named twice.
pub fn column_twice(name: &[u8]) -> Refusal
    ensures { result ≡ column_twice_row name.now }
{
    Refusal::named(b"column '", name, b"' twice")
}

/// A text for a column of numbers, a number for a field, or a value of another form for an option.
pub fn wrong_kind(name: &[u8]) -> Refusal
    ensures { result ≡ wrong_kind_row name.now }
{
    Refusal::named(b"wrong kind of value for '", name, b"'")
}

/// A number that the attribute's kind can't hold, or no weight of a field.
pub fn value_out_of_range(name: &[u8]) -> Refusal
    ensures { result ≡ value_out_of_range_row name.now }
{
    Refusal::named(b"value out of range for '", name, b"'")
}

/// `id` isn't among the columns.
pub fn id_missing() -> Refusal
    ensures { result ≡ id_missing_row }
{
    Refusal::plain(WRONG, b"id is missing")
}

/// A number that no id can be.
pub fn id_out_of_range() -> Refusal
    ensures { result ≡ id_out_of_range_row }
{
    Refusal::plain(WRONG, b"id out of range")
}

/// A row has more or fewer values than there are columns.
pub fn wrong_number() -> Refusal
    ensures { result ≡ wrong_number_row }
{
    Refusal::plain(WRONG, b"wrong number of values")
}

/// A word of the field would stand above the last position.
pub fn too_many_positions(name: &[u8]) -> Refusal
    ensures { result ≡ too_many_positions_row name.now }
{
    Refusal::named(b"field '", name, b"' above 65535 positions")
}

/// The transaction is about another index.
pub fn other_index() -> Refusal
    ensures { result ≡ other_index_row }
{
    Refusal::plain(WRONG, b"transaction is on another index")
}

/// What can't be done inside a transaction.
pub fn transaction_open() -> Refusal
    ensures { result ≡ transaction_open_row }
{
    Refusal::plain(WRONG, b"transaction is open")
}

/// The transaction would have more operations than it may.
pub fn too_many_operations() -> Refusal
    ensures { result ≡ too_many_operations_row }
{
    Refusal::plain(WRONG, b"transaction above 10000 operations")
}

/// The transaction would have more bytes than it may.
pub fn transaction_too_large() -> Refusal
    ensures { result ≡ transaction_too_large_row }
{
    Refusal::plain(WRONG, b"transaction above 8388608 bytes")
}
