//! The writers of conditions, keys and the other parts of a SELECT, and of a SELECT itself, which is three pieces: what is
//! selected from where, what is said of groups, and order, limit, options and facets.

ghost use Rattle.std.specs.Prelude.{◌≡◌, ◌++◌, ◌∷◌, []};
ghost use Rattle.ql_grammar.specs.declared.keyword.Keyword.TheVariants as keywords;
ghost use Rattle.ql_tree.specs.declared.select.Cond.TheVariants as conds;
ghost use Rattle.ql_tree.specs.declared.select.OptionValue.TheVariants as values;
ghost use Rattle.ql_write.specs.Pieces.{keyword, name, text, in_parentheses, given, given_all};
ghost use Rattle.ql_write.specs.Canonical.{negation, cond, direction, ordered, option_value, facet_order, where_pieces, group_pieces, within_pieces, option_pieces};
ghost use Rattle.ql_write.specs.steps.Writing.{Appends, head_pieces, groups_pieces, tail_pieces};
ghost use Rattle.ql_grammar.specs.Selects.{comparison_sign as sign_of};

use crate::writing::{Token, put_all, put_one};
use crate::written::{Written, put_enclosed, put_given, put_in_row, put_listed, put_with_commas};
use crate::written_items::{put_call, put_count};
use ql_grammar::Keyword;
use ql_lex::Sign;
use ql_tree::{
    Comparison, Cond, FacetPart, Having, LimitPart, OptionValue, Select, SelectOption, SortKey,
    SortName,
};
use srch_base::{Name, NoMemory, Text};

/// The sign of a comparison.
fn comparison_sign(comparison: Comparison) -> Sign
    ensures { result ≡ sign_of comparison }
{
    match comparison {
        Comparison::Equal => Sign::Equal,
        Comparison::NotEqual => Sign::NotEqual,
        Comparison::Less => Sign::Less,
        Comparison::Greater => Sign::Greater,
        Comparison::AtMost => Sign::LessOrEqual,
        Comparison::AtLeast => Sign::GreaterOrEqual,
    }
}

/// `MATCH ( text )`
fn put_match(query: &Text, out: &mut Vec<u8>) -> Result<(), NoMemory>
    ensures { Appends (keyword keywords.Match ∷ in_parentheses (text query.now ∷ [])) out.old.items result out.new.items }
{
    put_all(
        &[
            Token::Keyword(Keyword::Match),
            Token::Sign(Sign::OpenParen),
            Token::Text(query),
            Token::Sign(Sign::CloseParen),
        ],
        out,
    )
}

/// `column [NOT] IN`
fn put_among(column: &Name, negated: bool, out: &mut Vec<u8>) -> Result<(), NoMemory>
    ensures { Appends (name column.now ∷ negation negated ++ keyword keywords.In ∷ []) out.old.items result out.new.items }
{
    let [not, within] = [Token::Keyword(Keyword::Not), Token::Keyword(Keyword::In)];
    if negated {
        put_all(&[Token::Name(column), not, within], out)
    } else {
        put_all(&[Token::Name(column), within], out)
    }
}

/// `column BETWEEN low AND high`
#[tactic(auto, using(crate::proofs::Writings::failed, crate::proofs::Writings::kept, crate::proofs::Writings::kept_all))]
fn put_between(column: &Name, low: i128, high: i128, out: &mut Vec<u8>) -> Result<(), NoMemory>
    ensures { Appends (cond (conds.Between column.now low high)) out.old.items result out.new.items }
{
    put_all(
        &[Token::Name(column), Token::Keyword(Keyword::Between)],
        out,
    )?;
    low.put(out)?;
    put_one(Token::Keyword(Keyword::And), out)?;
    high.put(out)
}

impl Written for Cond {
    ghost use Rattle.ql_write.specs.Canonical.{cond};

    ghost pieces = { cond };

    #[tactic(auto, using(crate::proofs::Writings::failed, crate::proofs::Writings::kept, crate::proofs::Writings::kept_all))]
    fn put(&self, out: &mut Vec<u8>) -> Result<(), NoMemory> {
        match self {
            Cond::Match(query) => put_match(query, out),
            Cond::Compare { name, op, value } => {
                put_all(&[Token::Name(name), Token::Sign(comparison_sign(*op))], out)?;
                value.put(out)
            }
            Cond::Among {
                name,
                values,
                negated,
            } => {
                put_among(name, *negated, out)?;
                put_enclosed(values.as_slice(), out)
            }
            Cond::Between { name, low, high } => put_between(name, *low, *high, out),
        }
    }
}

impl Written for SortName {
    ghost use Rattle.ql_write.specs.Canonical.{sort_name};

    ghost pieces = { sort_name };

    fn put(&self, out: &mut Vec<u8>) -> Result<(), NoMemory> {
        match self {
            SortName::Column(column) => column.put(out),
            SortName::Weight => put_call(Keyword::Weight, out),
            SortName::CountAll => put_count(out),
        }
    }
}

/// `[ASC | DESC]`
fn put_direction(descending: Option<bool>, out: &mut Vec<u8>) -> Result<(), NoMemory>
    ensures { Appends (given direction descending) out.old.items result out.new.items }
{
    match descending {
        Some(true) => put_one(Token::Keyword(Keyword::Desc), out),
        Some(false) => put_one(Token::Keyword(Keyword::Asc), out),
        None => Ok(()),
    }
}

impl Written for SortKey {
    ghost use Rattle.ql_write.specs.Canonical.{sort_key};

    ghost pieces = { sort_key };

    #[tactic(auto, using(crate::proofs::Writings::failed, crate::proofs::Writings::kept, crate::proofs::Writings::kept_all))]
    fn put(&self, out: &mut Vec<u8>) -> Result<(), NoMemory> {
        self.by.put(out)?;
        put_direction(self.descending, out)
    }
}

/// `ORDER BY`, and keys
#[tactic(auto, using(crate::proofs::Writings::failed, crate::proofs::Writings::kept, crate::proofs::Writings::kept_all))]
fn put_order(keys: &[SortKey], out: &mut Vec<u8>) -> Result<(), NoMemory>
    ensures { Appends (ordered keys.now) out.old.items result out.new.items }
{
    put_all(
        &[Token::Keyword(Keyword::Order), Token::Keyword(Keyword::By)],
        out,
    )?;
    put_with_commas(keys, out)
}

impl Written for Having {
    ghost use Rattle.ql_write.specs.Canonical.{having_pieces};

    ghost pieces = { having_pieces };

    #[tactic(auto, using(crate::proofs::Writings::failed, crate::proofs::Writings::kept, crate::proofs::Writings::kept_all))]
    fn put(&self, out: &mut Vec<u8>) -> Result<(), NoMemory> {
        put_one(Token::Keyword(Keyword::Having), out)?;
        self.left.put(out)?;
        put_one(Token::Sign(comparison_sign(self.op)), out)?;
        self.value.put(out)
    }
}

impl Written for LimitPart {
    ghost use Rattle.ql_write.specs.Canonical.{limit_pieces};

    ghost pieces = { limit_pieces };

    fn put(&self, out: &mut Vec<u8>) -> Result<(), NoMemory> {
        let limit = Token::Keyword(Keyword::Limit);
        let first = Token::Number(u128::from(self.first));
        match self.second {
            Some(second) => {
                let second = Token::Number(u128::from(second));
                put_all(&[limit, first, Token::Sign(Sign::Comma), second], out)
            }
            None => put_all(&[limit, first], out),
        }
    }
}

impl Written for (Name, u64) {
    ghost use Rattle.ql_write.specs.Canonical.{field_weight};

    ghost pieces = { field_weight };

    fn put(&self, out: &mut Vec<u8>) -> Result<(), NoMemory> {
        let (field, weight) = self;
        put_all(
            &[
                Token::Name(field),
                Token::Sign(Sign::Equal),
                Token::Number(u128::from(*weight)),
            ],
            out,
        )
    }
}

/// `name ( text )`
fn put_call_of<'x>(name: &'x Name, text: &'x Text, out: &mut Vec<u8>) -> Result<(), NoMemory>
    ensures { Appends (option_value (values.Call name.now text.now)) out.old.items result out.new.items }
{
    put_all(
        &[
            Token::Name(name),
            Token::Sign(Sign::OpenParen),
            Token::Text(text),
            Token::Sign(Sign::CloseParen),
        ],
        out,
    )
}

impl Written for OptionValue {
    ghost use Rattle.ql_write.specs.Canonical.{option_value};

    ghost pieces = { option_value };

    fn put(&self, out: &mut Vec<u8>) -> Result<(), NoMemory> {
        match self {
            OptionValue::Name(name) => name.put(out),
            OptionValue::Number(number) => number.put(out),
            OptionValue::Text(text) => put_one(Token::Text(text), out),
            OptionValue::List(weights) => put_enclosed(weights.as_slice(), out),
            OptionValue::Call { name, text } => put_call_of(name, text, out),
        }
    }
}

impl Written for SelectOption {
    ghost use Rattle.ql_write.specs.Canonical.{option};

    ghost pieces = { option };

    #[tactic(auto, using(crate::proofs::Writings::failed, crate::proofs::Writings::kept, crate::proofs::Writings::kept_all))]
    fn put(&self, out: &mut Vec<u8>) -> Result<(), NoMemory> {
        put_all(&[Token::Name(&self.name), Token::Sign(Sign::Equal)], out)?;
        self.value.put(out)
    }
}

/// `[ORDER BY key]`
#[tactic(auto, using(crate::proofs::Writings::failed, crate::proofs::Writings::kept, crate::proofs::Writings::kept_all))]
fn put_facet_order(key: &Option<SortKey>, out: &mut Vec<u8>) -> Result<(), NoMemory>
    ensures { Appends (given facet_order key.now) out.old.items result out.new.items }
{
    match key {
        Some(key) => {
            put_all(
                &[Token::Keyword(Keyword::Order), Token::Keyword(Keyword::By)],
                out,
            )?;
            key.put(out)
        }
        None => Ok(()),
    }
}

impl Written for FacetPart {
    ghost use Rattle.ql_write.specs.Canonical.{facet};

    ghost pieces = { facet };

    #[tactic(auto, using(crate::proofs::Writings::failed, crate::proofs::Writings::kept, crate::proofs::Writings::kept_all))]
    fn put(&self, out: &mut Vec<u8>) -> Result<(), NoMemory> {
        put_all(
            &[Token::Keyword(Keyword::Facet), Token::Name(&self.column)],
            out,
        )?;
        put_facet_order(&self.order, out)?;
        put_given(&self.limit, out)
    }
}

/// `[WHERE cond AND ..]`
#[tactic(auto, using(crate::proofs::Writings::failed, crate::proofs::Writings::kept, crate::proofs::Writings::kept_all))]
fn put_where(conds: &[Cond], out: &mut Vec<u8>) -> Result<(), NoMemory>
    ensures { Appends (given_all where_pieces conds.now) out.old.items result out.new.items }
{
    if conds.is_empty() {
        return Ok(());
    }
    put_one(Token::Keyword(Keyword::Where), out)?;
    put_listed(conds, Token::Keyword(Keyword::And), out)
}

/// `[GROUP BY column]`
fn put_group(column: &Option<Name>, out: &mut Vec<u8>) -> Result<(), NoMemory>
    ensures { Appends (given group_pieces column.now) out.old.items result out.new.items }
{
    let [group, by] = [Token::Keyword(Keyword::Group), Token::Keyword(Keyword::By)];
    match column {
        Some(column) => put_all(&[group, by, Token::Name(column)], out),
        None => Ok(()),
    }
}

/// `[WITHIN GROUP ORDER BY key, ..]`
#[tactic(auto, using(crate::proofs::Writings::failed, crate::proofs::Writings::kept, crate::proofs::Writings::kept_all))]
fn put_within(keys: &[SortKey], out: &mut Vec<u8>) -> Result<(), NoMemory>
    ensures { Appends (given_all within_pieces keys.now) out.old.items result out.new.items }
{
    if keys.is_empty() {
        return Ok(());
    }
    put_all(
        &[
            Token::Keyword(Keyword::Within),
            Token::Keyword(Keyword::Group),
        ],
        out,
    )?;
    put_order(keys, out)
}

/// `[ORDER BY key, ..]`
fn put_sorting(keys: &[SortKey], out: &mut Vec<u8>) -> Result<(), NoMemory>
    ensures { Appends (given_all ordered keys.now) out.old.items result out.new.items }
{
    if keys.is_empty() {
        return Ok(());
    }
    put_order(keys, out)
}

/// `[OPTION option, ..]`
#[tactic(auto, using(crate::proofs::Writings::failed, crate::proofs::Writings::kept, crate::proofs::Writings::kept_all))]
fn put_options(options: &[SelectOption], out: &mut Vec<u8>) -> Result<(), NoMemory>
    ensures { Appends (given_all option_pieces options.now) out.old.items result out.new.items }
{
    if options.is_empty() {
        return Ok(());
    }
    put_one(Token::Keyword(Keyword::Option), out)?;
    put_with_commas(options, out)
}

/// A SELECT up to its conditions.
#[tactic(auto, using(crate::proofs::Writings::failed, crate::proofs::Writings::kept, crate::proofs::Writings::kept_all))]
fn put_head(select: &Select, out: &mut Vec<u8>) -> Result<(), NoMemory>
    ensures { Appends (head_pieces select.now) out.old.items result out.new.items }
{
    put_one(Token::Keyword(Keyword::Select), out)?;
    put_with_commas(select.items.as_slice(), out)?;
    put_one(Token::Keyword(Keyword::From), out)?;
    select.index.put(out)?;
    put_where(select.conds.as_slice(), out)
}

/// What a SELECT says of groups.
#[tactic(auto, using(crate::proofs::Writings::failed, crate::proofs::Writings::kept, crate::proofs::Writings::kept_all))]
fn put_groups(select: &Select, out: &mut Vec<u8>) -> Result<(), NoMemory>
    ensures { Appends (groups_pieces select.now) out.old.items result out.new.items }
{
    put_group(&select.group, out)?;
    put_within(select.within.as_slice(), out)?;
    put_given(&select.having, out)
}

/// What a SELECT says of its rows' order, and what stands after it.
#[tactic(auto, using(crate::proofs::Writings::failed, crate::proofs::Writings::kept, crate::proofs::Writings::kept_all))]
fn put_tail(select: &Select, out: &mut Vec<u8>) -> Result<(), NoMemory>
    ensures { Appends (tail_pieces select.now) out.old.items result out.new.items }
{
    put_sorting(select.order.as_slice(), out)?;
    put_given(&select.limit, out)?;
    put_options(select.options.as_slice(), out)?;
    put_in_row(select.facets.as_slice(), out)
}

impl Written for Select {
    ghost use Rattle.ql_write.specs.Canonical.{select_pieces};

    ghost pieces = { select_pieces };

    #[tactic(auto, using(crate::proofs::Writings::failed, crate::proofs::Writings::kept, crate::proofs::Writings::kept_all))]
    fn put(&self, out: &mut Vec<u8>) -> Result<(), NoMemory> {
        put_head(self, out)?;
        put_groups(self, out)?;
        put_tail(self, out)
    }
}
