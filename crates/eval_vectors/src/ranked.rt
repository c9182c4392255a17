//! Weights by ranking expressions, which were worked out by hand.
ghost use Rattle.std.specs.Prelude.{◌≤◌, IfSome, length};
ghost use Rattle.doc_types.specs.declared.schema.TheConstants.{MAX_ATTRS};

use crate::weights::{are_ranked, hits_in, weights_in};
use doc_types::{AttrKind, Hits, Schema, Value};
use rank_expr::{RankExpr, rank, read_expr};
use rankers::Weights;
use srch_base::{Items, Name};
use std::alloc::Global;

/// Hits as in the table of weights, the number of keywords, the weights of the fields, the values of the attributes `gid` and `price`,
/// an expression, and its weight. In turn: what fields and documents give; attributes; the ends of weights; the ends of 128 bits;
/// `if`; comparisons; the lesser and the greater; partial sums; no keyword; no hit; the ends of attributes; the first and the last of
/// 32 fields; hits in no order.
pub(crate) const RANKED: &str = "\
1/0@0.1 3/2@0.3 2/1@1.1; 3; 10 1; 7 -3; sum(lcs*user_weight)*1000+doc_word_count ⇒ 21003
1/0@0.1 3/2@0.3 2/1@1.1; 3; 10 1; 7 -3; sum((word_count+(lcs-1)*max_lcs)*user_weight) ⇒ 351
1/0@0.1 3/2@0.3 2/1@1.1; 3; 10 1; 7 -3; field_mask ⇒ 3
1/0@0.1 3/2@0.3 2/1@1.1; 3; 10 1; 7 -3; max_lcs ⇒ 33
1/0@0.1 3/2@0.3 2/1@1.1; 3; 10 1; 7 -3; sum(hit_count) ⇒ 3
1/0@0.1 3/2@0.3 2/1@1.1; 3; 10 1; 7 -3; sum(min_hit_pos) ⇒ 2
1/0@0.1 3/2@0.3 2/1@1.1; 3; 10 1; 7 -3; sum(1) ⇒ 2
1/0@0.1 3/2@0.3 2/1@1.1; 3; 10 1; 7 -3; gid*10-price ⇒ 73
1/0@0.1 3/2@0.3 2/1@1.1; 3; 10 1; 7 -3; -price ⇒ 3
1/0@0.1 3/2@0.3 2/1@1.1; 3; 10 1; 7 -3; price ⇒ none
1/0@0.1 3/2@0.3 2/1@1.1; 3; 10 1; 7 -3; 0 ⇒ 0
1/0@0.1 3/2@0.3 2/1@1.1; 3; 10 1; 7 -3; 0-1 ⇒ none
1/0@0.1 3/2@0.3 2/1@1.1; 3; 10 1; 7 -3; 18446744073709551615 ⇒ 18446744073709551615
1/0@0.1 3/2@0.3 2/1@1.1; 3; 10 1; 7 -3; 18446744073709551615+1 ⇒ none
1/0@0.1 3/2@0.3 2/1@1.1; 3; 10 1; 7 -3; 18446744073709551615*18446744073709551615*0 ⇒ none
1/0@0.1 3/2@0.3 2/1@1.1; 3; 10 1; 7 -3; (9223372036854775807*18446744073709551615+18446744073709551615+9223372036854775807)-(9223372036854775807*18446744073709551615+18446744073709551615+9223372036854775807) ⇒ 0
1/0@0.1 3/2@0.3 2/1@1.1; 3; 10 1; 7 -3; 9223372036854775807*18446744073709551615+18446744073709551615+9223372036854775807+1-1 ⇒ none
1/0@0.1 3/2@0.3 2/1@1.1; 3; 10 1; 7 -3; (-(9223372036854775807*18446744073709551615+18446744073709551615+9223372036854775807)-1)+(9223372036854775807*18446744073709551615+18446744073709551615+9223372036854775807)+1 ⇒ 0
1/0@0.1 3/2@0.3 2/1@1.1; 3; 10 1; 7 -3; -(9223372036854775807*18446744073709551615+18446744073709551615+9223372036854775807)-2+2 ⇒ none
1/0@0.1 3/2@0.3 2/1@1.1; 3; 10 1; 7 -3; -(-(9223372036854775807*18446744073709551615+18446744073709551615+9223372036854775807)-1) ⇒ none
1/0@0.1 3/2@0.3 2/1@1.1; 3; 10 1; 7 -3; abs(-(9223372036854775807*18446744073709551615+18446744073709551615+9223372036854775807)-1) ⇒ none
1/0@0.1 3/2@0.3 2/1@1.1; 3; 10 1; 7 -3; abs(-(9223372036854775807*18446744073709551615+18446744073709551615+9223372036854775807))-(9223372036854775807*18446744073709551615+18446744073709551615+9223372036854775807) ⇒ 0
1/0@0.1 3/2@0.3 2/1@1.1; 3; 10 1; 7 -3; if(1,7,9223372036854775807*18446744073709551615+18446744073709551615+9223372036854775807+1) ⇒ 7
1/0@0.1 3/2@0.3 2/1@1.1; 3; 10 1; 7 -3; if(0,9223372036854775807*18446744073709551615+18446744073709551615+9223372036854775807+1,7) ⇒ 7
1/0@0.1 3/2@0.3 2/1@1.1; 3; 10 1; 7 -3; if(9223372036854775807*18446744073709551615+18446744073709551615+9223372036854775807+1,1,1) ⇒ none
1/0@0.1 3/2@0.3 2/1@1.1; 3; 10 1; 7 -3; if(-3,1,2) ⇒ 1
1/0@0.1 3/2@0.3 2/1@1.1; 3; 10 1; 7 -3; if(sum(lcs)-3,1,2) ⇒ 2
1/0@0.1 3/2@0.3 2/1@1.1; 3; 10 1; 7 -3; (1<2)+(2<=2)*2+(3>2)*4+(2>=3)*8+(1=1)*16+(1<>1)*32 ⇒ 23
1/0@0.1 3/2@0.3 2/1@1.1; 3; 10 1; 7 -3; (2<2)+(3<=2)*2+(2>2)*4+(3>=3)*8+(1=2)*16+(1<>2)*32 ⇒ 40
1/0@0.1 3/2@0.3 2/1@1.1; 3; 10 1; 7 -3; min(3,5)*10+max(3,5) ⇒ 35
1/0@0.1 3/2@0.3 2/1@1.1; 3; 10 1; 7 -3; max(-3,-5)+min(-3,-5)+8 ⇒ 0
1/0@0.1 3/2@0.3 2/1@1.1; 3; 10 1; 7 -3; sum(9223372036854775807*18446744073709551615+18446744073709551615+9223372036854775807) ⇒ none
1/0@0.1 3/2@0.3 2/1@1.1; 3; 10 1; 7 -3; sum(if(user_weight=10,9223372036854775807*18446744073709551615+18446744073709551615+9223372036854775807,0-(9223372036854775807*18446744073709551615+18446744073709551615+9223372036854775807))) ⇒ 0
1/0@0.1 3/2@0.3 2/1@1.1; 3; 10 1; 7 -3; sum(if(user_weight=10,9223372036854775807*18446744073709551615+18446744073709551615+9223372036854775807,1))-(9223372036854775807*18446744073709551615+18446744073709551615+9223372036854775807) ⇒ none
; 0; 1 1; 0 0; 0-1 ⇒ 1
; 3; 1 1; 5 0; sum(7)+gid ⇒ 5
; 3; 1 1; 5 0; field_mask+doc_word_count ⇒ 0
1/0@0.5 1/0@0.9; 1; 7; 4294967295 -9223372036854775808; sum(hit_count*100+min_hit_pos*10+user_weight) ⇒ 257
1/0@0.5; 1; 7; 4294967295 -9223372036854775808; -price+gid ⇒ 9223372041149743103
1/0@0.5; 1; 7; 0 9223372036854775807; price ⇒ 9223372036854775807
1/0@0.5; 1; 7; 0 9223372036854775807; price*2+2 ⇒ none
1/0@0.1 2/1@31.9; 2; 1 1 1 1 1 1 1 1 1 1 1 1 1 1 1 1 1 1 1 1 1 1 1 1 1 1 1 1 1 1 1 65535; 0 0; field_mask*10+sum(user_weight) ⇒ 21474902026
2/1@0.9 1/0@2.5 3/2@0.4 2/1@2.6 1/0@0.8 3/2@2.7; 3; 3 1 2; 0 0; sum(lcs*user_weight)*100+doc_word_count ⇒ 1203
2/1@0.9 1/0@2.5 3/2@0.4 2/1@2.6 1/0@0.8 3/2@2.7; 3; 3 1 2; 0 0; sum((word_count+(lcs-1)*max_lcs)*user_weight) ⇒ 141
";

/// A schema with the attributes of the table.
fn schema_in(alloc: Global) -> Option<Schema>
    ensures { IfSome result (λ schema. length schema.attrs ≤ MAX_ATTRS) }
{
    let gid = Name::from_slice(alloc, b"gid").ok()?;
    let price = Name::from_slice(alloc, b"price").ok()?;
    let attrs = vec![in alloc; (gid, AttrKind::Uint), (price, AttrKind::Bigint)].ok()?;
    Some(Schema {
        name: Name::from_slice(alloc, b"rt").ok()?,
        fields: Items::new(Vec::new(alloc)),
        attrs: Items::new(attrs),
        zones: Items::new(Vec::new(alloc)),
        sp: false,
        min_prefix: 0,
    })
}

/// The expression of a text.
fn expr_in(alloc: Global, text: &str) -> Option<RankExpr> {
    let schema = schema_in(alloc)?;
    read_expr(alloc, text.as_bytes(), &schema).ok()
}

/// The values of a case.
fn values_in(alloc: Global, text: &str) -> Option<Vec<Value>> {
    let mut list = Vec::new(alloc);
    for word in text.split_whitespace() {
        list.push(Value::Whole(word.parse::<i64>().ok()?)).ok()?;
    }
    Some(list)
}

/// Appends the weight, where the hits can be ranked.
fn put_rank(
    expr: &RankExpr,
    hits: &Hits,
    weights: &Weights,
    values: &[Value],
    into: &mut String,
) -> Option<()> {
    if !are_ranked(hits, weights) {
        return None;
    }
    match rank(expr, hits, weights, values) {
        Some(weight) => write!(into, "{weight}").ok(),
        None => into.push_str("none").ok(),
    }
}

/// Appends what a case comes to.
pub(crate) fn put_ranked(alloc: Global, text: &str, into: &mut String) -> Option<()> {
    let (hits, rest) = text.split_once("; ")?;
    let (keywords, rest) = rest.split_once("; ")?;
    let (weights, rest) = rest.split_once("; ")?;
    let (values, text) = rest.split_once("; ")?;
    let keywords = keywords.parse::<u16>().ok()?;
    let list = hits_in(alloc, hits)?;
    let weights = weights_in(alloc, weights)?;
    let values = values_in(alloc, values)?;
    let expr = expr_in(alloc, text)?;
    put_rank(
        &expr,
        &Hits { keywords, list },
        &weights,
        values.as_slice(),
        into,
    )
}
