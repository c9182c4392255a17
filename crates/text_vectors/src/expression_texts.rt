//! Texts of ranking expressions by the grammar's lines and by the kinds of faults, worked out by hand from the rules alone, by someone
//! who had seen no code. A line is spelled as those of `expressions`.

/// Texts that are read. In turn: numbers; attributes, factors and calls; what binds closer; signs; comparisons; calls within calls;
/// blanks; 32 that are open, and more that are closed; the longest text.
pub(crate) const READ: &str = "\
0 ⇒ 0
⟨0 × 24⟩18446744073709551615 ⇒ 18446744073709551615
000 ⇒ 0
GiD ⇒ @0
price ⇒ @1
stock ⇒ @3
min(min,MIN) ⇒ (min @2 @2)
min⟨tab⟩(1,2) ⇒ (min 1 2)
 Sum ( LCS )  ⇒ (sum lcs)
sum(lcs*user_weight)*1000+doc_word_count ⇒ (+ (* (sum (* lcs user_weight)) 1000) doc_word_count)
sum((word_count+(lcs-1)*max_lcs)*user_weight) ⇒ (sum (* (+ word_count (* (- lcs 1) max_lcs)) user_weight))
sum(hit_count)+sum(min_hit_pos) ⇒ (+ (sum hit_count) (sum min_hit_pos))
field_mask ⇒ field_mask
sum(field_mask*gid) ⇒ (sum (* field_mask @0))
sum(1) ⇒ (sum 1)
1-2*3 ⇒ (- 1 (* 2 3))
(1-2)*3 ⇒ (* (- 1 2) 3)
1-(2-3) ⇒ (- 1 (- 2 3))
((1)) ⇒ 1
-1 ⇒ (neg 1)
1--1 ⇒ (- 1 (neg 1))
1---1 ⇒ (- 1 (neg (neg 1)))
- -1 ⇒ (neg (neg 1))
-(1+2) ⇒ (neg (+ 1 2))
-sum(lcs) ⇒ (neg (sum lcs))
1+2<3+4 ⇒ (< (+ 1 2) (+ 3 4))
1<-2 ⇒ (< 1 (neg 2))
1=(2=3) ⇒ (= 1 (= 2 3))
abs(1<2) ⇒ (abs (< 1 2))
sum(lcs=word_count) ⇒ (sum (= lcs word_count))
if(gid>10,1,0) ⇒ (if (> @0 10) 1 0)
if ( 1 , 2 , 3 ) ⇒ (if 1 2 3)
if(1,if(2,3,4),if(5,6,7)) ⇒ (if 1 (if 2 3 4) (if 5 6 7))
⟨tab⟩⟨CR⟩⟨LF⟩ 1 ⟨LF⟩⟨CR⟩⟨tab⟩ ⇒ 1
max(1,min(2,abs(3))) ⇒ (max 1 (min 2 (abs 3)))
sum(if(lcs>1,lcs,0)) ⇒ (sum (if (> lcs 1) lcs 0))
⟨( × 32⟩1-1⟨) × 32⟩ ⇒ (- 1 1)
⟨- × 32⟩1 ⇒ ⟨(neg  × 32⟩1⟨) × 32⟩
⟨-( × 16⟩1⟨) × 16⟩ ⇒ ⟨(neg  × 16⟩1⟨) × 16⟩
⟨abs( × 32⟩1⟨) × 32⟩ ⇒ ⟨(abs  × 32⟩1⟨) × 32⟩
sum⟨( × 32⟩lcs⟨) × 32⟩ ⇒ (sum lcs)
(1)⟨+(1) × 33⟩ ⇒ ⟨(+  × 33⟩1⟨ 1) × 33⟩
-1⟨*-1 × 33⟩ ⇒ ⟨(*  × 33⟩(neg 1)⟨ (neg 1)) × 33⟩
1⟨  × 4095⟩ ⇒ 1
⟨0 × 4095⟩7 ⇒ 7
";

/// Texts with faults. In turn, each kind at its first, second and last places and with other faults: syntax; division; a number that is
/// too large; an unknown factor; a wrong scope; nesting; a text that is too long.
pub(crate) const REFUSED: &str = "\
*1 ⇒ syntax 0
    ⇒ syntax 3
1 +  ⇒ syntax 4
- ⇒ syntax 1
1 1 ⇒ syntax 2
1 gid ⇒ syntax 2
(1)) ⇒ syntax 3
(1,2) ⇒ syntax 2
sum() ⇒ syntax 4
sum(lcs ⇒ syntax 7
sum(lcs,1) ⇒ syntax 7
min(1) ⇒ syntax 5
min(1,2,3) ⇒ syntax 7
max(,1) ⇒ syntax 4
if(1,2,3,4) ⇒ syntax 8
if(1,2,3 ⇒ syntax 8
min 1 ⇒ syntax 4
1=2=3 ⇒ syntax 3
1<>=2 ⇒ syntax 3
1.5 ⇒ syntax 1
1e5 ⇒ syntax 1
0x10 ⇒ syntax 1
`gid` ⇒ syntax 0
\"gid\" ⇒ syntax 0
@gid ⇒ syntax 0
gid; ⇒ syntax 3
1\x0b ⇒ syntax 1
1\0 ⇒ syntax 1
é ⇒ syntax 0
gidé ⇒ syntax 3
sum(lcs)(1) ⇒ syntax 8
sum(lcs) sum(lcs) ⇒ syntax 9
/1 ⇒ division 0
%1 ⇒ division 0
1/2 ⇒ division 1
1/ ⇒ division 1
1% ⇒ division 1
gid /* in stock */ +1 ⇒ division 4
1 1/2 ⇒ syntax 2
1/2 1 ⇒ division 1
foo/2 ⇒ factor 0 foo
1/foo ⇒ division 1
lcs/2 ⇒ scope 0 lcs
18446744073709551616/2 ⇒ number 0
00018446744073709551616 ⇒ number 0
1+18446744073709551616+1 ⇒ number 2
1*⟨9 × 20⟩ ⇒ number 2
⟨9 × 4096⟩ ⇒ number 0
1 18446744073709551616 ⇒ syntax 2
18446744073709551616abc ⇒ number 0
18446744073709551616 ⟨9 × 20⟩ ⇒ number 0
-18446744073709551616 ⇒ number 1
foo+18446744073709551616 ⇒ factor 0 foo
1+foo+1 ⇒ factor 2 foo
sum(lcs)+foo ⇒ factor 9 foo
if(1,2,foo) ⇒ factor 7 foo
sum lcs ⇒ factor 0 sum
abs -1 ⇒ factor 0 abs
foo (1) ⇒ factor 0 foo
foo( ⇒ factor 0 foo
max_lcs (1) ⇒ factor 0 max_lcs
foo bar ⇒ factor 0 foo
foo+bar ⇒ factor 0 foo
FOO ⇒ factor 0 foo
1+⟨Ab × 40⟩( ⇒ factor 2 ⟨ab × 32⟩
_ ⇒ factor 0 _
_9a ⇒ factor 0 _9a
hit_count ⇒ scope 0 hit_count
word_count ⇒ scope 0 word_count
USER_WEIGHT ⇒ scope 0 user_weight
min_hit_pos ⇒ scope 0 min_hit_pos
1+lcs+1 ⇒ scope 2 lcs
sum(lcs)*user_weight ⇒ scope 9 user_weight
min(lcs,1) ⇒ scope 4 lcs
(lcs) ⇒ scope 1 lcs
sum(sum(lcs)) ⇒ scope 4 sum
sum(abs(sum(1))) ⇒ scope 8 sum
sum(1+Sum(1)) ⇒ scope 6 sum
sum(sum) ⇒ factor 4 sum
lcs foo ⇒ scope 0 lcs
foo lcs ⇒ factor 0 foo
sum(sum( ⇒ scope 4 sum
⟨( × 33⟩ ⇒ nesting 32
⟨-( × 16⟩-1⟨) × 16⟩ ⇒ nesting 32
⟨abs( × 33⟩1⟨) × 33⟩ ⇒ nesting 128
⟨( × 32⟩abs(1⟨) × 33⟩ ⇒ nesting 32
⟨( × 32⟩-1⟨) × 32⟩ ⇒ nesting 32
1+⟨( × 33⟩1⟨) × 33⟩ ⇒ nesting 34
(1)+⟨( × 33⟩ ⇒ nesting 36
⟨( × 32⟩1( ⇒ syntax 33
⟨( × 32⟩1 ⇒ syntax 33
1 ⟨( × 33⟩ ⇒ syntax 2
/⟨( × 33⟩ ⇒ division 0
⟨( × 33⟩/ ⇒ nesting 32
⟨( × 4096⟩ ⇒ nesting 32
⟨- × 4096⟩ ⇒ nesting 32
1⟨  × 4096⟩ ⇒ long 4096
/⟨1 × 4096⟩ ⇒ long 4096
⟨( × 4097⟩ ⇒ long 4096
⟨  × 4097⟩ ⇒ long 4096
1⟨  × 4095⟩/ ⇒ long 4096
1⟨  × 4094⟩/ ⇒ division 4095
1⟨  × 4094⟩f ⇒ syntax 4095
1+⟨  × 4093⟩f ⇒ factor 4095 f
1+⟨  × 4094⟩ ⇒ syntax 4096
";
