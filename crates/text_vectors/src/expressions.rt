//! Texts of ranking expressions, with their trees or their first faults, which were worked out by hand.
ghost use Rattle.doc_types.specs.Schemas.{IsSchema};
ghost use Rattle.index_conf.specs.Soundness.{IsSound};

use crate::expression_texts::{READ, REFUSED};
use crate::spelling::spell;
use crate::tables::none_wrong;
use conf_text::read_conf;
use doc_types::Schema;
use index_conf::Conf;
use rank_expr::{DocFactor, Expr, ExprFault, ExprKind, FieldFactor, PairOp, read_expr};
use srch_base::Or;
use std::alloc::Global;
use std::test::Fail;

/// An index with the attributes of the texts: `gid` is @0, `price` @1, `min` @2, `stock` @3, and `lcs`, which a factor hides, @4.
const INDEX: &str = "\
index rt {
type = rt
path = a
rt_field = title
rt_field = sum
rt_attr_uint = gid
rt_attr_bigint = price
rt_attr_timestamp = min
rt_attr_bool = stock
rt_attr_uint = lcs
}
";

/// A line is a text, ` ⇒ ` and its tree, an operator or a function before its parts, or the kind of its fault, its place and its name.
const TEXTS: &str = "\
1 ⇒ 1
007 ⇒ 7
⟨0 × 30⟩1 ⇒ 1
18446744073709551615 ⇒ 18446744073709551615
18446744073709551616 ⇒ number 0
 ⟨tab⟩ 7⟨LF⟩⟨CR⟩ ⇒ 7
gid ⇒ @0
GID ⇒ @0
Price ⇒ @1
min ⇒ @2
lcs ⇒ scope 0 lcs
max_lcs ⇒ max_lcs
Field_Mask+doc_word_count ⇒ (+ field_mask doc_word_count)
sum(lcs) ⇒ (sum lcs)
SUM ( LCS ) ⇒ (sum lcs)
sum(hit_count+word_count*user_weight-min_hit_pos) ⇒ (sum (- (+ hit_count (* word_count user_weight)) min_hit_pos))
sum(gid) ⇒ (sum @0)
sum ⇒ factor 0 sum
abs ⇒ factor 0 abs
min(1,2) ⇒ (min 1 2)
min + min (gid, 3) ⇒ (+ @2 (min @0 3))
max(1,2,3) ⇒ syntax 7
max(1) ⇒ syntax 5
abs(-7) ⇒ (abs (neg 7))
abs(1,2) ⇒ syntax 5
abs() ⇒ syntax 4
if(1,2,3) ⇒ (if 1 2 3)
if(gid>5,price,-price) ⇒ (if (> @0 5) @1 (neg @1))
if(1,2) ⇒ syntax 6
1+2+3 ⇒ (+ (+ 1 2) 3)
1-2-3 ⇒ (- (- 1 2) 3)
1-2+3 ⇒ (+ (- 1 2) 3)
2*3*4 ⇒ (* (* 2 3) 4)
1+2*3 ⇒ (+ 1 (* 2 3))
(1+2)*3 ⇒ (* (+ 1 2) 3)
-2*3 ⇒ (* (neg 2) 3)
2*-3 ⇒ (* 2 (neg 3))
2--3 ⇒ (- 2 (neg 3))
--1 ⇒ (neg (neg 1))
- ( 1 ) ⇒ (neg 1)
1<2 ⇒ (< 1 2)
1>2 ⇒ (> 1 2)
1<=2 ⇒ (<= 1 2)
1>=2 ⇒ (>= 1 2)
1=2 ⇒ (= 1 2)
1<>2 ⇒ (<> 1 2)
1+1<2*3 ⇒ (< (+ 1 1) (* 2 3))
1<2<3 ⇒ syntax 3
(1<2)<3 ⇒ (< (< 1 2) 3)
1< =2 ⇒ syntax 3
1=<2 ⇒ syntax 2
1!=2 ⇒ syntax 1
1==2 ⇒ syntax 2
 ⇒ syntax 0
  ⇒ syntax 1
+1 ⇒ syntax 0
1+ ⇒ syntax 2
(1 ⇒ syntax 2
1) ⇒ syntax 1
() ⇒ syntax 1
1 2 ⇒ syntax 2
12abc ⇒ syntax 2
gid price ⇒ syntax 4
1,2 ⇒ syntax 1
1+(2*(3-4) ⇒ syntax 10
sum(lcs)/2 ⇒ division 8
/ ⇒ division 0
1%2 ⇒ division 1
1+/2 ⇒ division 2
1 2/3 ⇒ syntax 2
a/2 ⇒ factor 0 a
1 99999999999999999999 ⇒ syntax 2
1+99999999999999999999 ⇒ number 2
99999999999999999999+a ⇒ number 0
a+99999999999999999999 ⇒ factor 0 a
foo ⇒ factor 0 foo
1+Foo ⇒ factor 2 foo
1 foo ⇒ syntax 2
foo(1) ⇒ factor 0 foo
gid(1) ⇒ factor 0 gid
lcs(1) ⇒ factor 0 lcs
sum(foo) ⇒ factor 4 foo
title ⇒ factor 0 title
id ⇒ factor 0 id
⟨a × 65⟩ ⇒ factor 0 ⟨a × 64⟩
⟨a × 65⟩ ( ⇒ factor 0 ⟨a × 64⟩
⟨a × 64⟩ ⇒ factor 0 ⟨a × 64⟩
Lcs+1 ⇒ scope 0 lcs
1+user_weight ⇒ scope 2 user_weight
sum(1)+lcs ⇒ scope 7 lcs
sum(sum(1)) ⇒ scope 4 sum
sum(abs(Sum (1))) ⇒ scope 8 sum
sum(1)+sum(lcs) ⇒ (+ (sum 1) (sum lcs))
abs(sum((lcs))+lcs) ⇒ scope 15 lcs
sum(min(lcs,2))*lcs ⇒ scope 16 lcs
1 lcs ⇒ syntax 2
1+2.5 ⇒ syntax 3
$ ⇒ syntax 0
1+é ⇒ syntax 2
1 é ⇒ syntax 2
'a' ⇒ syntax 0
⟨( × 32⟩1⟨) × 32⟩ ⇒ 1
⟨( × 33⟩1⟨) × 33⟩ ⇒ nesting 32
⟨- × 33⟩1 ⇒ nesting 32
⟨( × 31⟩-1⟨) × 31⟩ ⇒ (neg 1)
⟨( × 31⟩-(1)⟨) × 31⟩ ⇒ nesting 32
⟨( × 32⟩abs(1) ⇒ nesting 32
⟨( × 32⟩foo(1) ⇒ factor 32 foo
⟨( × 32⟩sum(1) ⇒ nesting 32
sum(⟨( × 31⟩sum(1) ⇒ scope 35 sum
⟨( × 32⟩lcs ⇒ scope 32 lcs
⟨( × 32⟩) ⇒ syntax 32
⟨( × 32⟩/ ⇒ division 32
⟨( × 32⟩1+-1 ⇒ nesting 34
⟨( × 31⟩1⟨) × 31⟩+-1 ⇒ (+ 1 (neg 1))
⟨  × 4095⟩1 ⇒ 1
⟨  × 4096⟩1 ⇒ long 4096
/⟨a × 4096⟩ ⇒ long 4096
⟨a × 4096⟩ ⇒ factor 0 ⟨a × 64⟩
";

/// How an operator or a function is told.
fn op_name(op: PairOp) -> &'static str {
    match op {
        PairOp::Add => "+",
        PairOp::Subtract => "-",
        PairOp::Multiply => "*",
        PairOp::Min => "min",
        PairOp::Max => "max",
        PairOp::Less => "<",
        PairOp::Greater => ">",
        PairOp::AtMost => "<=",
        PairOp::AtLeast => ">=",
        PairOp::Equal => "=",
        PairOp::NotEqual => "<>",
    }
}

fn field_name(factor: FieldFactor) -> &'static str {
    match factor {
        FieldFactor::Lcs => "lcs",
        FieldFactor::HitCount => "hit_count",
        FieldFactor::WordCount => "word_count",
        FieldFactor::UserWeight => "user_weight",
        FieldFactor::MinHitPos => "min_hit_pos",
    }
}

fn document_name(factor: DocFactor) -> &'static str {
    match factor {
        DocFactor::MaxLcs => "max_lcs",
        DocFactor::FieldMask => "field_mask",
        DocFactor::DocWordCount => "doc_word_count",
    }
}

fn kind_name(kind: ExprKind) -> &'static str {
    match kind {
        ExprKind::Long => "long",
        ExprKind::Syntax => "syntax",
        ExprKind::Division => "division",
        ExprKind::Number => "number",
        ExprKind::Factor => "factor",
        ExprKind::Scope => "scope",
        ExprKind::Nesting => "nesting",
    }
}

/// Appends a tree.
fn put_expr(expr: &Expr, into: &mut String) -> Option<()> {
    match expr {
        Expr::Number(number) => write!(into, "{number}").ok(),
        Expr::Field(factor) => into.push_str(field_name(*factor)).ok(),
        Expr::Document(factor) => into.push_str(document_name(*factor)).ok(),
        Expr::Attr(attr) => write!(into, "@{attr}").ok(),
        Expr::Negative(part) => {
            into.push_str("(neg ").ok()?;
            put_expr(part.get(), into)?;
            into.push_str(")").ok()
        }
        Expr::Abs(part) => {
            into.push_str("(abs ").ok()?;
            put_expr(part.get(), into)?;
            into.push_str(")").ok()
        }
        Expr::Sum(part) => {
            into.push_str("(sum ").ok()?;
            put_expr(part.get(), into)?;
            into.push_str(")").ok()
        }
        Expr::Pair(op, first, second) => {
            into.push_str("(").ok()?;
            into.push_str(op_name(*op)).ok()?;
            into.push_str(" ").ok()?;
            put_expr(first.get(), into)?;
            into.push_str(" ").ok()?;
            put_expr(second.get(), into)?;
            into.push_str(")").ok()
        }
        Expr::If(test, yes, no) => {
            into.push_str("(if ").ok()?;
            put_expr(test.get(), into)?;
            into.push_str(" ").ok()?;
            put_expr(yes.get(), into)?;
            into.push_str(" ").ok()?;
            put_expr(no.get(), into)?;
            into.push_str(")").ok()
        }
    }
}

/// Appends a fault.
fn put_fault(fault: &ExprFault, into: &mut String) -> Option<()> {
    let kind = kind_name(fault.kind);
    let place = fault.place;
    write!(into, "{kind} {place}").ok()?;
    let name = std::str::from_utf8(fault.name.as_bytes()).ok()?;
    if name.is_empty() {
        Some(())
    } else {
        write!(into, " {name}").ok()
    }
}

/// Appends what a text is.
fn put_told(alloc: Global, text: &str, schema: &Schema, into: &mut String) -> Option<()>
    requires { IsSchema schema.now }
{
    match read_expr(alloc, text.as_bytes(), schema) {
        Ok(expr) => put_expr(&expr.root, into),
        Err(Or::Fault(fault)) => put_fault(&fault, into),
        Err(Or::NoMemory) => None,
    }
}

/// Whether what a line says is told of its text. `spelled` is the line written out, and `told` what is told.
fn is_told(
    alloc: Global,
    line: &str,
    schema: &Schema,
    spelled: &mut String,
    told: &mut String,
) -> Option<bool>
    requires { IsSchema schema.now }
{
    spelled.clear();
    told.clear();
    spell(line, spelled)?;
    let (text, wanted) = spelled.as_str().split_once(" ⇒ ")?;
    put_told(alloc, text, schema, told)?;
    Some(told.as_str() == wanted)
}

/// The first line of which something else is told.
fn first_of<'t>(
    alloc: Global,
    lines: &'t str,
    schema: &Schema,
    spelled: &mut String,
    told: &mut String,
) -> Option<&'t str>
    requires { IsSchema schema.now }
{
    for line in lines.lines() {
        if is_told(alloc, line, schema, spelled, told) != Some(true) {
            return Some(line);
        }
    }
    None
}

/// The same by the first index of a configuration.
fn first_by<'t>(alloc: Global, lines: &'t str, conf: &Conf) -> Option<&'t str>
    requires { IsSound conf.now }
{
    let mut spelled = String::new(alloc);
    let mut told = String::new(alloc);
    match conf.indexes.as_slice().split_first() {
        Some((index, _)) => first_of(alloc, lines, &index.schema, &mut spelled, &mut told),
        None => Some("no index"),
    }
}

/// The first line of the texts of which something else is told.
fn first_wrong(alloc: Global) -> Option<&'static str> {
    match read_conf(alloc, INDEX.as_bytes()) {
        Ok(conf) => [TEXTS, READ, REFUSED]
            .iter()
            .find_map(|lines| first_by(alloc, lines, &conf)),
        Err(_) => Some("the configuration"),
    }
}

#[test]
fn expressions_are_told(rt: HostRuntime) -> Result<(), Fail> {
    none_wrong(first_wrong(rt.alloc()), "something else")
}
