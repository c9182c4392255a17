//! The trees of docs/cases/extended_queries.md, and of the page of texts with prefixes, as `query_cases` of scripts/ writes them: edit
//! them there. After `# ` stands the configuration of the index by which texts are read, and then an empty line. Each text is followed
//! by `⇒` and by its tree. `⟨x × n⟩` is x written n times, `⟨tab⟩` a tab.

/// Texts with their trees.
pub(crate) const TREES: &str = r#"
# index rt {
type = rt
path = a
rt_field = title
rt_field = content
}

 ⇒ 
  ⇒ 
⟨tab⟩ ⇒ 
a ⇒ a
A ⇒ a
_ ⇒ _
7 ⇒ 7
Ж ⇒ ж
é ⇒ 
< ⇒ 
^ ⇒ 
$ ⇒ 
- ⇒ 
! ⇒ 
@ ⇒ 
\ ⇒ 
~ ⇒ 
/ ⇒ 
& ⇒ 
= ⇒ 
* ⇒ 
[ ⇒ 
: ⇒ 
. ⇒ 
hello world ⇒ ( hello world )
Hello, WORLD! ⇒ ( hello world )
hello_world ⇒ hello_world
ПРИВЕТ мир ⇒ ( привет мир )
⟨a × 43⟩ ⇒ ⟨a × 42⟩
^⟨b × 43⟩$ ⇒ ^⟨b × 42⟩$
⟨Ж × 43⟩ a ⇒ ( ⟨ж × 42⟩ a )
a&b=c ⇒ ( a b c )
^a ⇒ ^a
a$ ⇒ a$
^a$ ⇒ ^a$
^^a ⇒ ^a
a$$ ⇒ a$
a^b ⇒ ( a ^b )
a$b ⇒ ( a$ b )
^ a ⇒ a
a $ ⇒ a
$a ⇒ a
a^ ⇒ a
^\a ⇒ ^a
\a$ ⇒ a$
^"a" ⇒ a
"a"$ ⇒ a
^(a)$ ⇒ a
^-a ⇒ a
^\-a ⇒ a
^,a ⇒ a
\a ⇒ a
a\bc ⇒ abc
a\ ⇒ a
\\a ⇒ a
a\ b ⇒ ( a b )
a\$ ⇒ a
\^a ⇒ a
a\"b ⇒ ( a b )
\(a\) ⇒ a
a \| b ⇒ ( a b )
a \<\< b ⇒ ( a b )
a \<< b ⇒ ( a b )
\-a ⇒ a
a \-b ⇒ ( a b )
a \!b ⇒ ( a b )
\@title a ⇒ ( title a )
"a b"\~3 ⇒ ( "a b" 3 )
"a b"\/2 ⇒ ( "a b" 2 )
a \MAYBE b ⇒ ( a maybe b )
a \SENTENCE b ⇒ ( a sentence b )
a \PARAGRAPH b ⇒ ( a paragraph b )
a \NEAR/3 b ⇒ ( a near 3 b )
a NEAR\/3 b ⇒ ( a near 3 b )
\ZONE:th a ⇒ ( zone th a )
ZONE\:th a ⇒ ( zone th a )
\@\@relaxed a ⇒ ( relaxed a )
a MAYBE\ b ⇒ ( a maybe b )
\=a\&b ⇒ ( a b )
"a b" ⇒ "a b"
"a" ⇒ a
"A, b" ⇒ "a b"
"a b"~3 ⇒ "a b"~3
"a"~3 ⇒ "a"~3
"a b c"/2 ⇒ "a b c"/2
"a b"/5 ⇒ "a b"/5
"a"/1 ⇒ "a"/1
"a"/0.5 ⇒ "a"/0.5
"a b"/0.5 ⇒ "a b"/0.5
"a b"/0.5000 ⇒ "a b"/0.5000
"a b"/0.0001 ⇒ "a b"/0.0001
"a b"/0.05 ⇒ "a b"/0.05
"a b"/0.9999 ⇒ "a b"/0.9999
"a b"~65535 ⇒ "a b"~65535
"a b"/65535 ⇒ "a b"/65535
"a b"~007 ⇒ "a b"~7
"a b"/0002 ⇒ "a b"/2
"a b"/1.5 ⇒ ( "a b"/1 5 )
"a b"/0.5.5 ⇒ ( "a b"/0.5 5 )
"a b"~3.5 ⇒ ( "a b"~3 5 )
"a b"~3x ⇒ ( "a b"~3 x )
"a b"/2x ⇒ ( "a b"/2 x )
"a b"/0.5x ⇒ ( "a b"/0.5 x )
"a b"~3~4 ⇒ ( "a b"~3 4 )
"a b"~3/4 ⇒ ( "a b"~3 4 )
"a b"~ ⇒ "a b"
"a b"/ ⇒ "a b"
"a b"~x ⇒ ( "a b" x )
"a b" ~3 ⇒ ( "a b" 3 )
"a b" /3 ⇒ ( "a b" 3 )
"a b"~ 3 ⇒ ( "a b" 3 )
"a b"~-3 ⇒ ( "a b" 3 )
"a | (b) -c @d << !e" ⇒ "a b c d e"
"^a b$" ⇒ "a b"
"a^b" ⇒ "a b"
"a\b c" ⇒ "ab c"
"a\-b" ⇒ "a b"
"a\" ⇒ a
"MAYBE SENTENCE NEAR/3" ⇒ "maybe sentence near 3"
"ZONE:th @title" ⇒ "zone th title"
"a"b ⇒ ( a b )
"a""b" ⇒ ( a b )
a"b c"d ⇒ ( a "b c" d )
"" ⇒ 
"&" ⇒ 
"" "" ⇒ 
""~5 ⇒ 
""/0 ⇒ 
"."/0.99999 ⇒ 
""~99999 ⇒ 
""/0.0 ⇒ 
"" a ⇒ a
a "" b ⇒ ( a b )
a | "" b ⇒ ( a | b )
a "" | b ⇒ ( a | b )
a SENTENCE ""~0 b ⇒ ( a SENTENCE b )
(a "") ⇒ a
c -"" a ⇒ ( c -a )
""-a b ⇒ ( -a b )
a MAYBE""b ⇒ ( a MAYBE b )
"\&" ⇒ 
"\" ⇒ 
a b c ⇒ ( a b c )
a | b ⇒ ( a | b )
a|b ⇒ ( a | b )
a | b | c ⇒ ( a | b | c )
a | (b | c) ⇒ ( a | ( b | c ) )
(a | b) | c ⇒ ( a | b | c )
a b | c ⇒ ( a ( b | c ) )
a | b c ⇒ ( ( a | b ) c )
a b | c d ⇒ ( a ( b | c ) d )
looking for cat | dog ⇒ ( looking for ( cat | dog ) )
a MAYBE b ⇒ ( a MAYBE b )
a MAYBE b MAYBE c ⇒ ( a MAYBE b MAYBE c )
a MAYBE b | c ⇒ ( a MAYBE b | c )
a | b MAYBE c ⇒ ( a | b MAYBE c )
a MAYBE (b | c) ⇒ ( a MAYBE ( b | c ) )
a | (b MAYBE c) ⇒ ( a | ( b MAYBE c ) )
a b MAYBE c d ⇒ ( a ( b MAYBE c ) d )
(a b) | (c d) ⇒ ( ( a b ) | ( c d ) )
a (b c) d ⇒ ( a ( b c ) d )
(a b) c ⇒ ( ( a b ) c )
a << b ⇒ ( a << b )
a<<b ⇒ ( a << b )
a << b << c ⇒ ( a << b << c )
a << (b << c) ⇒ ( a << ( b << c ) )
(a << b) << c ⇒ ( a << b << c )
a b << c d ⇒ ( ( a b ) << ( c d ) )
a | b << c ⇒ ( ( a | b ) << c )
a << b | c ⇒ ( a << ( b | c ) )
a MAYBE b << c ⇒ ( ( a MAYBE b ) << c )
a << b MAYBE c ⇒ ( a << ( b MAYBE c ) )
a <<< b ⇒ ( a << b )
a < < b ⇒ ( a b )
a<b ⇒ ( a b )
a NEAR/3 b ⇒ ( a NEAR/3 b )
a NEAR/3 b NEAR/4 c ⇒ ( a NEAR/3 b NEAR/4 c )
a NEAR/3 (b NEAR/4 c) ⇒ ( a NEAR/3 ( b NEAR/4 c ) )
a << b NEAR/3 c ⇒ ( a << b NEAR/3 c )
a NEAR/3 b << c ⇒ ( a NEAR/3 b << c )
a b NEAR/2 c ⇒ ( ( a b ) NEAR/2 c )
a | b NEAR/2 c ⇒ ( ( a | b ) NEAR/2 c )
a NEAR/2 b MAYBE c ⇒ ( a NEAR/2 ( b MAYBE c ) )
a NEAR/65535 b ⇒ ( a NEAR/65535 b )
a NEAR/1 b ⇒ ( a NEAR/1 b )
a NEAR/007 b ⇒ ( a NEAR/7 b )
(a)NEAR/3(b) ⇒ ( a NEAR/3 b )
"a"NEAR/3"b" ⇒ ( a NEAR/3 b )
"a b"~2 NEAR/3 "c d"/1 ⇒ ( "a b"~2 NEAR/3 "c d"/1 )
(a b) NEAR/3 c | d ⇒ ( ( a b ) NEAR/3 ( c | d ) )
(a << b) c ⇒ ( ( a << b ) c )
(a << b) | c ⇒ ( ( a << b ) | c )
a NEAR b ⇒ ( a near b )
a NEAR/ b ⇒ ( a near b )
a NEAR/3, b ⇒ ( a near 3 b )
a NEAR/3x b ⇒ ( a near 3x b )
a near/3 b ⇒ ( a near 3 b )
a,NEAR/3 b ⇒ ( a near 3 b )
a NEAR/-3 b ⇒ ( a near 3 b )
a NEAR/3.5 b ⇒ ( a near 3 5 b )
a NEAR/3|b ⇒ ( a near ( 3 | b ) )
aNEAR/3 b ⇒ ( anear 3 b )
a NEAR/0, b ⇒ ( a near 0 b )
a|MAYBE ⇒ ( a | maybe )
MAYBE, ⇒ maybe
a MAYBE, b ⇒ ( a maybe b )
maybe ⇒ maybe
a Maybe b ⇒ ( a maybe b )
^MAYBE ⇒ ^maybe
MAYBE$ ⇒ maybe$
a -MAYBE ⇒ ( a -maybe )
a MAYBE| b ⇒ ( a ( maybe | b ) )
aMAYBE b ⇒ ( amaybe b )
MAYBEa b ⇒ ( maybea b )
SENTENCE, ⇒ sentence
a <<MAYBE ⇒ ( a << maybe )
sentence paragraph ⇒ ( sentence paragraph )
a (MAYBE, b) ⇒ ( a ( maybe b ) )
"a b"~3MAYBE c ⇒ ( "a b"~3 maybe c )
( a MAYBE b ) ⇒ ( a MAYBE b )
(a)MAYBE(b) ⇒ ( a MAYBE b )
"a"MAYBE"b" ⇒ ( a MAYBE b )
"a"SENTENCE"b" ⇒ ( a SENTENCE b )
( a PARAGRAPH b ) ⇒ ( a PARAGRAPH b )
"a b"~3ZONE ⇒ ( "a b"~3 zone )
a SENTENCE b ⇒ ( a SENTENCE b )
a SENTENCE b SENTENCE c ⇒ ( a SENTENCE b SENTENCE c )
a PARAGRAPH b PARAGRAPH c ⇒ ( a PARAGRAPH b PARAGRAPH c )
a SENTENCE b | c ⇒ ( ( a SENTENCE b ) | c )
a | b SENTENCE c ⇒ ( a | ( b SENTENCE c ) )
a SENTENCE b c ⇒ ( ( a SENTENCE b ) c )
a b PARAGRAPH c ⇒ ( a ( b PARAGRAPH c ) )
a SENTENCE b MAYBE c PARAGRAPH d ⇒ ( ( a SENTENCE b ) MAYBE ( c PARAGRAPH d ) )
a SENTENCE b << c ⇒ ( ( a SENTENCE b ) << c )
a << b PARAGRAPH c ⇒ ( a << ( b PARAGRAPH c ) )
a NEAR/3 b SENTENCE c ⇒ ( a NEAR/3 ( b SENTENCE c ) )
a PARAGRAPH b NEAR/3 c ⇒ ( ( a PARAGRAPH b ) NEAR/3 c )
(a SENTENCE b) | (c PARAGRAPH d) ⇒ ( ( a SENTENCE b ) | ( c PARAGRAPH d ) )
"a b" SENTENCE "c d" ⇒ ( "a b" SENTENCE "c d" )
^a SENTENCE b$ ⇒ ( ^a SENTENCE b$ )
c -a ⇒ ( c -a )
c !a ⇒ ( c -a )
-a c ⇒ ( -a c )
c -a b ⇒ ( c -a b )
c --a ⇒ ( c -a )
c -!a ⇒ ( c -a )
c -- a ⇒ ( c -a )
c - a ⇒ ( c a )
c-a ⇒ ( c a )
c - ⇒ c
c ! ⇒ c
- c ⇒ c
c -⟨tab⟩a ⇒ ( c a )
c -"a b"~2 ⇒ ( c -"a b"~2 )
c -^a$ ⇒ ( c -^a$ )
"c"-a ⇒ ( c -a )
(c)-a ⇒ ( c a )
(-a c) ⇒ ( -a c )
c <<-a ⇒ ( c << a )
( c -a ) ⇒ ( c -a )
c -(a | b) ⇒ ( c -( a | b ) )
c -(a b) ⇒ ( c -( a b ) )
c -a SENTENCE b ⇒ ( c -( a SENTENCE b ) )
c -(a << b) ⇒ ( c -( a << b ) )
c ^-a ⇒ ( c a )
"c"~3-a ⇒ ( "c"~3 a )
c | d -a e ⇒ ( ( c | d ) -a e )
c -a << d ⇒ ( ( c -a ) << d )
c - - ⇒ c
(a) ⇒ a
((a)) ⇒ a
((a b)) ⇒ ( a b )
(a)(b) ⇒ ( a b )
a(b)c ⇒ ( a b c )
("a b") ⇒ "a b"
(a | b) ⇒ ( a | b )
⟨( × 32⟩a⟨) × 32⟩ ⇒ a
(b) ⟨( × 32⟩a⟨) × 32⟩ (c) ⇒ ( b a c )
⟨( × 32⟩a)(b⟨) × 32⟩ ⇒ ( a b )
⟨\( × 40⟩a ⇒ a
"⟨( × 40⟩a" ⇒ a
@title hello | world -dog ⇒ ( ( (@(title) hello) | (@(title) world) ) -(@(title) dog) )
@title a ⇒ (@(title) a)
@title a b ⇒ ( (@(title) a) (@(title) b) )
@title a @content b ⇒ ( (@(title) a) (@(content) b) )
a @title b ⇒ ( a (@(title) b) )
@(title,content) a ⇒ a
@(title) a ⇒ (@(title) a)
@!title a ⇒ (@(content) a)
@!(title) a ⇒ (@(content) a)
@!(title,content) a ⇒ (@!* a)
@* a ⇒ a
@!* a ⇒ (@!* a)
@title a @* b ⇒ ( (@(title) a) b )
@!* a @title b ⇒ ( (@!* a) (@(title) b) )
@TITLE a ⇒ (@(title) a)
@(Title,TITLE) a ⇒ (@(title) a)
@title @content a ⇒ (@(content) a)
@title(a b) ⇒ ( (@(title) a) (@(title) b) )
@title"a b" ⇒ (@(title) "a b")
@title "a b"~3 ⇒ (@(title) "a b"~3)
@title^a ⇒ (@(title) ^a)
@title,a ⇒ (@(title) a)
@title-a ⇒ (@(title) a)
@*a ⇒ a
@!*a ⇒ (@!* a)
a@title b ⇒ ( a (@(title) b) )
@title a|b ⇒ ( (@(title) a) | (@(title) b) )
@title "a" "b"/1 ⇒ ( (@(title) a) (@(title) "b"/1) )
@title -a b ⇒ ( -(@(title) a) (@(title) b) )
@title a << b ⇒ ( (@(title) a) << (@(title) b) )
@title a << @content b ⇒ ( (@(title) a) << (@(content) b) )
a << @title b ⇒ ( a << (@(title) b) )
@title a MAYBE b NEAR/2 c ⇒ ( ( (@(title) a) MAYBE (@(title) b) ) NEAR/2 (@(title) c) )
@title a SENTENCE b ⇒ (@(title) ( a SENTENCE b ))
@title a PARAGRAPH "b c" | d ⇒ ( (@(title) ( a PARAGRAPH "b c" )) | (@(title) d) )
@!* a SENTENCE b SENTENCE c ⇒ (@!* ( a SENTENCE b SENTENCE c ))
@title (a @content b) c ⇒ ( ( (@(title) a) (@(content) b) ) (@(title) c) )
(@title a) b ⇒ ( (@(title) a) b )
(@title a) | b ⇒ ( (@(title) a) | b )
((@title a) b) c ⇒ ( ( (@(title) a) b ) c )
@title ((a)) b ⇒ ( (@(title) a) (@(title) b) )
@content (@title[2] a | (b @* c)) d ⇒ ( ( (@(title)[2] a) | ( (@(title)[2] b) c ) ) (@(content) d) )
(@title a) << b ⇒ ( (@(title) a) << b )
(a @title b) @content c d ⇒ ( ( a (@(title) b) ) (@(content) c) (@(content) d) )
a -(@title b) c ⇒ ( a -(@(title) b) c )
@title (a | (@content[3] b c)) d ⇒ ( ( (@(title) a) | ( (@(content)[3] b) (@(content)[3] c) ) ) (@(title) d) )
@title[5] a ⇒ (@(title)[5] a)
@*[5] a ⇒ (@*[5] a)
@!*[5] a ⇒ (@!*[5] a)
@!title[3] a ⇒ (@(content)[3] a)
@(title,content)[9] a ⇒ (@*[9] a)
@(title)[9] a ⇒ (@(title)[9] a)
@title[1] a ⇒ (@(title)[1] a)
@title[65534] a ⇒ (@(title)[65534] a)
@title[65535] a ⇒ (@(title) a)
@*[65535] a ⇒ a
@title[005] a ⇒ (@(title)[5] a)
@title[] a ⇒ (@(title) a)
@title[5 a ⇒ ( (@(title) 5) (@(title) a) )
@title [5] a ⇒ ( (@(title) 5) (@(title) a) )
@title[ 5] a ⇒ ( (@(title) 5) (@(title) a) )
@title[-5] a ⇒ ( (@(title) 5) (@(title) a) )
@title[5x] a ⇒ ( (@(title) 5x) (@(title) a) )
@title[5]b ⇒ (@(title)[5] b)
@title[5][6] a ⇒ ( (@(title)[5] 6) (@(title)[5] a) )
@title[5] a @title b ⇒ ( (@(title)[5] a) (@(title) b) )
@title[5] a @content[6] b ⇒ ( (@(title)[5] a) (@(content)[6] b) )
@title[5] "a b" SENTENCE c ⇒ (@(title)[5] ( "a b" SENTENCE c ))
[5] a ⇒ ( 5 a )
@title\[5] a ⇒ ( (@(title) 5) (@(title) a) )
@ title a ⇒ ( title a )
@(title, content) a ⇒ ( ( title content ) a )
@( title) a ⇒ ( title a )
@(title,) a ⇒ ( title a )
@(,title) a ⇒ ( title a )
@(title,*) a ⇒ ( title a )
@! title ⇒ title
@! ⇒ 
@-title a ⇒ ( title a )
@9x ⇒ 9x
@@title a ⇒ (@(title) a)
@!!title ⇒ title
@"title" ⇒ title
@ @title a ⇒ (@(title) a)
@!(title content) a ⇒ ( ( title content ) a )
@Ж a ⇒ ( ж a )
@@relaxed @⟨n × 64⟩ a ⇒ (@!* a)
ZONE:⟨z × 65⟩ a ⇒ a
# index long {
type = rt
path = a
rt_field = nnnnnnnnnnnnnnnnnnnnnnnnnnnnnnnnnnnnnnnnnnnnnnnnnnnnnnnnnnnnnnnn
rt_field = title
html_strip = 1
index_zones = zzzzzzzzzzzzzzzzzzzzzzzzzzzzzzzzzzzzzzzzzzzzzzzzzzzzzzzzzzzzzzzz
}

@⟨N × 64⟩ a ⇒ (@(⟨n × 64⟩) a)
@!⟨n × 64⟩ a ⇒ (@(title) a)
ZONE:⟨z × 64⟩ a ⇒ (@* ZONE:(⟨z × 64⟩) a)
ZONESPAN:⟨z × 64⟩ a ⇒ (ZONESPAN:(⟨z × 64⟩) a)
# index one {
type = rt
path = a
rt_field = title
}

@title a ⇒ a
@title[3] a ⇒ (@*[3] a)
@!title a ⇒ (@!* a)
@!title[3] a ⇒ (@!*[3] a)
# index wide {
type = rt
path = a
rt_field = f0
rt_field = f1
rt_field = f2
rt_field = f3
rt_field = f4
rt_field = f5
rt_field = f6
rt_field = f7
rt_field = f8
rt_field = f9
rt_field = f10
rt_field = f11
rt_field = f12
rt_field = f13
rt_field = f14
rt_field = f15
rt_field = f16
rt_field = f17
rt_field = f18
rt_field = f19
rt_field = f20
rt_field = f21
rt_field = f22
rt_field = f23
rt_field = f24
rt_field = f25
rt_field = f26
rt_field = f27
rt_field = f28
rt_field = f29
rt_field = f30
rt_field = f31
}

@f31 a ⇒ (@(f31) a)
@(f31,f0,f31) a ⇒ (@(f0,f31) a)
@(f2,f1) a ⇒ (@(f1,f2) a)
@!f31 a ⇒ (@(f0,f1,f2,f3,f4,f5,f6,f7,f8,f9,f10,f11,f12,f13,f14,f15,f16,f17,f18,f19,f20,f21,f22,f23,f24,f25,f26,f27,f28,f29,f30) a)
@!f0 a ⇒ (@(f1,f2,f3,f4,f5,f6,f7,f8,f9,f10,f11,f12,f13,f14,f15,f16,f17,f18,f19,f20,f21,f22,f23,f24,f25,f26,f27,f28,f29,f30,f31) a)
@*[7] a ⇒ (@*[7] a)
a ⇒ a
(@!* a) ⇒ (@!* a)
# index rt {
type = rt
path = a
rt_field = title
rt_field = content
}

@@relaxed a ⇒ a
@@relaxed @nofield x ⇒ (@!* x)
@@relaxed @(nofield,title) x ⇒ (@(title) x)
@@relaxed @!nofield x ⇒ x
@@relaxed @!(nofield,title) x ⇒ (@(content) x)
@@relaxed(a) ⇒ a
@@relaxed@nofield a ⇒ (@!* a)
@@relaxed-a b ⇒ ( a b )
@@relaxed @@relaxed a ⇒ (@!* a)
@@relaxed "a b" ⇒ "a b"
@@relaxed @nofield[5] x ⇒ (@!*[5] x)
@@relaxed @nofield a SENTENCE b @title c ⇒ ( (@!* ( a SENTENCE b )) (@(title) c) )
# index pages {
type = rt
path = a
rt_field = title
rt_field = content
html_strip = 1
index_zones = th, td, x-a:b_1
}

ZONE:th a ⇒ (@* ZONE:(th) a)
ZONE:TH a ⇒ (@* ZONE:(th) a)
ZONE:(th) a ⇒ (@* ZONE:(th) a)
ZONE:(th,td) a b ⇒ ( (@* ZONE:(th,td) a) (@* ZONE:(th,td) b) )
ZONE:(td,th,td) a ⇒ (@* ZONE:(td,th,td) a)
ZONE:x-a:b_1 a ⇒ (@* ZONE:(x-a:b_1) a)
ZONE:th a ZONE:td b ⇒ ( (@* ZONE:(th) a) (@* ZONE:(td) b) )
@title ZONE:th a ⇒ (@(title) ZONE:(th) a)
ZONE:th @title a ⇒ (@(title) a)
ZONE:th @* a ⇒ a
@title[5] ZONE:th a @content b ⇒ ( (@(title)[5] ZONE:(th) a) (@(content) b) )
@!* ZONE:th a ⇒ (@!* ZONE:(th) a)
@*[2] ZONE:th a ⇒ (@*[2] ZONE:(th) a)
ZONE:th a << b ⇒ ( (@* ZONE:(th) a) << (@* ZONE:(th) b) )
ZONE:th (a ZONE:td b) c ⇒ ( ( (@* ZONE:(th) a) (@* ZONE:(td) b) ) (@* ZONE:(th) c) )
(ZONE:th hello world) ⇒ ( (@* ZONE:(th) hello) (@* ZONE:(th) world) )
(ZONE:th a) b ⇒ ( (@* ZONE:(th) a) b )
ZONE:th (@title a) b ⇒ ( (@(title) a) (@* ZONE:(th) b) )
@title (ZONE:th a) b ⇒ ( (@(title) ZONE:(th) a) (@(title) b) )
ZONE:th "a b"~3 | c ⇒ ( (@* ZONE:(th) "a b"~3) | (@* ZONE:(th) c) )
@title ZONE:th a SENTENCE b ⇒ (@(title) ZONE:(th) ( a SENTENCE b ))
ZONE:th a PARAGRAPH b ⇒ (@* ZONE:(th) ( a PARAGRAPH b ))
ZONE:th(a) ⇒ (@* ZONE:(th) a)
ZONE:th, a ⇒ (@* ZONE:(th) a)
ZONE:th"a b" ⇒ (@* ZONE:(th) "a b")
c ZONE:th -a ⇒ ( c -(@* ZONE:(th) a) )
ZONE: th a ⇒ ( zone th a )
ZONE:(th, td) a ⇒ ( zone ( th td ) a )
ZONE:9 a ⇒ ( zone 9 a )
ZONE:_x a ⇒ ( zone _x a )
ZONE:(9,th) a ⇒ ( zone ( 9 th ) a )
ZONE:é a ⇒ ( zone a )
zone:th a ⇒ ( zone th a )
Zone:th a ⇒ ( zone th a )
ZONE th a ⇒ ( zone th a )
xZONE:th a ⇒ ( xzone th a )
_ZONE:th a ⇒ ( _zone th a )
^ZONE:th a ⇒ ( ^zone th a )
\ZONE:th a ⇒ ( zone th a )
\xZONE:th a ⇒ ( xzone th a )
ZONESPANx:th a ⇒ ( zonespanx th a )
x$ZONE:th a ⇒ ( x$ (@* ZONE:(th) a) )
"x"ZONE:th a ⇒ ( x (@* ZONE:(th) a) )
"x"~3ZONE:th a ⇒ ( "x"~3 (@* ZONE:(th) a) )
@*ZONE:th a ⇒ (@* ZONE:(th) a)
@title[5]ZONE:th a ⇒ (@(title)[5] ZONE:(th) a)
x,ZONE:th a ⇒ ( x (@* ZONE:(th) a) )
x\-ZONE:th a ⇒ ( x (@* ZONE:(th) a) )
(ZONE:th a) ⇒ (@* ZONE:(th) a)
ZONESPAN: th a ⇒ ( zonespan th a )
ZONE:(th,) a ⇒ ( zone th a )
ZONESPAN:th a ⇒ (ZONESPAN:(th) a)
(ZONESPAN:th hello world) ⇒ (ZONESPAN:(th) ( hello world ))
ZONESPAN:(th,td) a | b c ⇒ (ZONESPAN:(th,td) ( ( a | b ) c ))
ZONESPAN:(td,td) a ⇒ (ZONESPAN:(td,td) a)
x ZONESPAN:th a b ⇒ ( x (ZONESPAN:(th) ( a b )) )
ZONESPAN:th a @title b ⇒ ( (ZONESPAN:(th) a) (@(title) b) )
ZONESPAN:th a ZONE:td b ⇒ ( (ZONESPAN:(th) a) (@* ZONE:(td) b) )
ZONE:td a ZONESPAN:th b ⇒ ( (@* ZONE:(td) a) (ZONESPAN:(th) b) )
ZONESPAN:th a ZONESPAN:td b c ⇒ ( (ZONESPAN:(th) a) (ZONESPAN:(td) ( b c )) )
ZONESPAN:th a ZONESPAN:th b ⇒ ( (ZONESPAN:(th) a) (ZONESPAN:(th) b) )
ZONESPAN:th ZONE:td a ⇒ (@* ZONE:(td) a)
ZONESPAN:th @title a ⇒ (@(title) a)
ZONESPAN:th ZONESPAN:td a ⇒ (ZONESPAN:(td) a)
@title ZONESPAN:th a ⇒ (ZONESPAN:(th) (@(title) a))
@title[5] ZONESPAN:th a b ⇒ (ZONESPAN:(th) ( (@(title)[5] a) (@(title)[5] b) ))
ZONESPAN:th a -b ⇒ (ZONESPAN:(th) ( a -b ))
ZONESPAN:th -b a ⇒ (ZONESPAN:(th) ( -b a ))
-x ZONESPAN:th a ⇒ ( -x (ZONESPAN:(th) a) )
-x ZONESPAN:th -b a ⇒ ( -x (ZONESPAN:(th) ( -b a )) )
ZONESPAN:th (a << b) ⇒ (ZONESPAN:(th) ( a << b ))
(ZONESPAN:th a) << b ⇒ ( (ZONESPAN:(th) a) << b )
a << ZONESPAN:th b ⇒ ( a << (ZONESPAN:(th) b) )
a << ZONESPAN:th b c ⇒ ( a << (ZONESPAN:(th) ( b c )) )
ZONESPAN:th a @title b << c ⇒ ( ( (ZONESPAN:(th) a) (@(title) b) ) << (@(title) c) )
ZONESPAN:th a ZONE:td b << c ⇒ ( ( (ZONESPAN:(th) a) (@* ZONE:(td) b) ) << (@* ZONE:(td) c) )
ZONESPAN:th (ZONE:td a) b ⇒ (ZONESPAN:(th) ( (@* ZONE:(td) a) b ))
ZONESPAN:th (@title a) b ⇒ (ZONESPAN:(th) ( (@(title) a) b ))
ZONESPAN:th (ZONESPAN:td a) ⇒ (ZONESPAN:(th) (ZONESPAN:(td) a))
ZONE:td (ZONESPAN:th a) b ⇒ ( (ZONESPAN:(th) a) (@* ZONE:(td) b) )
ZONESPAN:th a SENTENCE b ⇒ (ZONESPAN:(th) ( a SENTENCE b ))
@title ZONESPAN:th a SENTENCE b ⇒ (ZONESPAN:(th) (@(title) ( a SENTENCE b )))
ZONESPAN:th a MAYBE b ⇒ (ZONESPAN:(th) ( a MAYBE b ))
ZONESPAN:th "a b"/2 ⇒ (ZONESPAN:(th) "a b"/2)
a | (ZONESPAN:th b) ⇒ ( a | (ZONESPAN:(th) b) )
c -(ZONESPAN:th b) ⇒ ( c -(ZONESPAN:(th) b) )
ZONESPAN:th ((a b) c) ⇒ (ZONESPAN:(th) ( ( a b ) c ))
ZONESPAN:th (a (b << c)) d ⇒ (ZONESPAN:(th) ( ( a ( b << c ) ) d ))
x @title a ZONESPAN:th b ⇒ ( x (@(title) a) (ZONESPAN:(th) (@(title) b)) )
# index rt {
type = rt
path = a
rt_field = title
rt_field = content
}

ZONE:nozone a ⇒ a
ZONESPAN:nozone a << b ⇒ ( a << b )
ZONESPAN:th -a b ⇒ ( -a b )
ZONESPAN:th a b ⇒ ( a b )
-x ZONESPAN:th a ⇒ ( -x a )
@title ZONE:th a ⇒ (@(title) a)
@title[5] ZONESPAN:(a,b) a ⇒ (@(title)[5] a)
ZONESPAN:th a NEAR/3 b ⇒ ( a NEAR/3 b )
# index rt {
type = rt
path = a
rt_field = title
rt_field = content
charset_table = a..z, U+2D
}

foo-bar ⇒ foo\-bar
foo -bar ⇒ ( foo -bar )
foo - bar ⇒ ( foo \- bar )
foo - ⇒ ( foo \- )
foo\-bar ⇒ foo\-bar
\-foo ⇒ \-foo
-foo bar ⇒ ( -foo bar )
--foo bar ⇒ ( -\-foo bar )
-- foo ⇒ ( -\- foo )
^-foo ⇒ ^\-foo
- ⇒ \-
"-a b" ⇒ "\-a b"
foo- bar ⇒ ( foo\- bar )
"a"-b ⇒ ( a -b )
foo -- bar ⇒ ( foo -\- bar )
(a)-b ⇒ ( a \-b )
a \-b ⇒ ( a \-b )
@title-b ⇒ (@(title) \-b)
# index rt {
type = rt
path = a
rt_field = title
rt_field = content
charset_table = a..z, !
}

a!b ⇒ a\!b
a !b ⇒ ( a -b )
a! b ⇒ ( a\! b )
a ! b ⇒ ( a \! b )
@!title a ⇒ (@(content) a)
@! a ⇒ ( \! a )
a -!b ⇒ ( a -\!b )
# index rt {
type = rt
path = a
rt_field = title
rt_field = content
charset_table = a..z, @
}

a@ b ⇒ ( a\@ b )
\@title ⇒ \@title
@ a ⇒ ( \@ a )
@@title a ⇒ ( \@ (@(title) a) )
user\@host ⇒ user\@host
@@relaxed a ⇒ a
@title a ⇒ (@(title) a)
@@ a ⇒ ( \@\@ a )
"a@title" ⇒ a\@title
@(a b) ⇒ ( \@ ( a b ) )
-@ b ⇒ ( -\@ b )
# index rt {
type = rt
path = a
rt_field = title
rt_field = content
charset_table = a..z, <
}

a<b ⇒ a\<b
a<<b ⇒ ( a << b )
a<<<b ⇒ ( a << \<b )
a \<\< b ⇒ ( a \<\< b )
^<a ⇒ ^\<a
a < ⇒ ( a \< )
"a << b" ⇒ "a \<\< b"
a \<<b ⇒ ( a \<\<b )
# index rt {
type = rt
path = a
rt_field = title
rt_field = content
charset_table = a..z, "
}

"a b" ⇒ "a b"
\"a ⇒ \"a
"a\"b ⇒ ( a b )
a\"b c ⇒ ( a\"b c )
"" ⇒ 
# index rt {
type = rt
path = a
rt_field = title
rt_field = content
charset_table = a..z, (, ), |, ^, $
}

(a) ⇒ a
\(a\) ⇒ \(a\)
a|b ⇒ ( a | b )
a\|b ⇒ a\|b
a^b ⇒ ( a ^b )
a\^b ⇒ a\^b
a$b ⇒ ( a$ b )
a\$b ⇒ a\$b
\$ ⇒ \$
\^a ⇒ \^a
^\^a\$$ ⇒ ^\^a\$$
"(a) b|c" ⇒ "\(a\) b\|c"
^ ⇒ 
$ ⇒ 
"a\$ \^b" ⇒ "a\$ \^b"
# index rt {
type = rt
path = a
rt_field = title
rt_field = content
charset_table = 0..9, a..z, ~, U+2F
}

a~3 ⇒ a\~3
"a b"~3 ⇒ "a b"~3
"a b" ~3 ⇒ ( "a b" \~3 )
a/b ⇒ a\/b
"a b"/2 ⇒ "a b"/2
"a b"~x ⇒ ( "a b" \~x )
"a/b c" ⇒ "a\/b c"
a NEAR/3 b ⇒ ( a NEAR/3 b )
a NEAR/3, b ⇒ ( a \/3 b )
"a b"~3~4 ⇒ ( "a b"~3 \~4 )
"a b"/0.5/ ⇒ ( "a b"/0.5 \/ )
""~3 ⇒ 
# index pages {
type = rt
path = a
rt_field = title
rt_field = content
charset_table = 0..9, a..z, &, =, :, *, [, ]
html_strip = 1
index_zones = th, td, x-a:b_1
}

a&b ⇒ a\&b
=a ⇒ \=a
@*a ⇒ a
a* ⇒ a\*
@title[x] ⇒ (@(title) \[x\])
@title[5]a ⇒ (@(title)[5] a)
zone:th ⇒ zone\:th
ZONE:th a ⇒ (@* ZONE:(th) a)
[5] ⇒ \[5\]
aZONE:th b ⇒ ( a \:th b )
@* * ⇒ \*
@title[5 ⇒ (@(title) \[5)
# index rt {
type = rt
path = a
rt_field = title
rt_field = content
charset_table = a..z, U+20
}

a b ⇒ a\ b
a⟨tab⟩b ⇒ ( a b )
a  MAYBE⟨tab⟩b ⇒ ( a\ \  MAYBE b )
a -b ⇒ ( a\  -b )
  ⇒ \ 
# index rt {
type = rt
path = a
rt_field = title
rt_field = content
charset_table = a..z, U+5C
}

a\b ⇒ ab
\\ ⇒ \\
a\\b ⇒ a\\b
a\ b ⇒ ( a b )
a \- b ⇒ ( a b )
a\ ⇒ a
\ ⇒ 
"a\" ⇒ a
"\\ b" ⇒ "\\ b"
# index rt {
type = rt
path = a
rt_field = title
rt_field = content
charset_table = a..z, Z->"
}

aZ ⇒ a\"
"aZ b" ⇒ "a\" b"
# index rt {
type = rt
path = a
rt_field = title
rt_field = content
charset_table = A..Z, a..z
}

a \MAYBE ⇒ ( a \MAYBE )
"MAYBE b" ⇒ "\MAYBE b"
"a SENTENCE" ⇒ "a \SENTENCE"
PARAGRAPH, ⇒ \PARAGRAPH
NEAR ⇒ NEAR
MAYBEX ⇒ MAYBEX
^MAYBE ⇒ ^\MAYBE
ZONE ⇒ ZONE
"MAYBE" ⇒ \MAYBE
a|SENTENCE ⇒ ( a | \SENTENCE )
b -MAYBE$ ⇒ ( b -\MAYBE$ )
ZONE: a ⇒ ( ZONE a )
"NEAR"~3 ⇒ "NEAR"~3
# index pages {
type = rt
path = a
rt_field = title
rt_field = content
charset_table = a..z
html_strip = 1
index_zones = th, td, x-a:b_1
}

Hello ⇒ ello
HZONE:th a ⇒ (@* ZONE:(th) a)
aZONE:th b ⇒ ( a th b )
a MAYBE b ⇒ ( a MAYBE b )
aMAYBE b ⇒ ( a b )
^ZONE:th ⇒ th
a NEAR/3 b ⇒ ( a NEAR/3 b )
a NEAR/3, b ⇒ ( a b )
# index rt {
type = rt
path = a
rt_field = title
rt_field = content
}

⟨a  × 254⟩a ⇒ (⟨ a × 255⟩ )
"⟨a  × 254⟩a" ⇒ "⟨a  × 254⟩a"
⟨a  × 255⟩"" "&" ⇒ (⟨ a × 255⟩ )
( a -b ) ⇒ ( a -b )
⟨a × 42⟩ ⇒ ⟨a × 42⟩
⟨ж × 42⟩ ⇒ ⟨ж × 42⟩
( -a b ) ⇒ ( -a b )
⟨(a)  × 255⟩ ⇒ (⟨ a × 255⟩ )
a⟨ | a × 254⟩ ⇒ ( a⟨ | a × 254⟩ )
a⟨ MAYBE a × 254⟩ ⇒ ( a⟨ MAYBE a × 254⟩ )
a⟨ << a × 254⟩ ⇒ ( a⟨ << a × 254⟩ )
a⟨ NEAR/2 a × 254⟩ ⇒ ( a⟨ NEAR/2 a × 254⟩ )
a⟨ SENTENCE a × 254⟩ ⇒ ( a⟨ SENTENCE a × 254⟩ )
a⟨ PARAGRAPH "a b" × 127⟩ ⇒ ( a⟨ PARAGRAPH "a b" × 127⟩ )
⟨(a | × 32⟩b⟨) × 32⟩ ⇒ ⟨( a |  × 32⟩b⟨ ) × 32⟩
⟨(a - × 31⟩(a b)⟨) × 31⟩ ⇒ ⟨( a - × 31⟩( a b )⟨ ) × 31⟩
"a b"~7 ⇒ "a b"~7
( a NEAR/3 b ) ⇒ ( a NEAR/3 b )
(@(title)[5] a) ⇒ (@(title)[5] a)
( (@(title) ⟨5 × 42⟩) (@(title) a) ) ⇒ ( (@(title) ⟨5 × 42⟩) (@(title) a) )
(@(title) a) ⇒ (@(title) a)
(@(content) a) ⇒ (@(content) a)
a⟨ -a × 254⟩ ⇒ ( a⟨ -a × 254⟩ )
a⟨ -b × 253⟩ c ⇒ ( a⟨ -b × 253⟩ c )
# index pages {
type = rt
path = a
rt_field = title
rt_field = content
html_strip = 1
index_zones = th, td, x-a:b_1
}

(@* ZONE:(th) a) ⇒ (@* ZONE:(th) a)
(@* ZONE:(⟨th, × 10000⟩td) a) ⇒ (@* ZONE:(⟨th, × 10000⟩td) a)
(ZONESPAN:(⟨th, × 10000⟩td) a) ⇒ (ZONESPAN:(⟨th, × 10000⟩td) a)
a ⇒ a
a b c ⇒ ( a b c )
a -b c ⇒ ( a -b c )
-a b ⇒ ( -a b )
a -(b c) d ⇒ ( a -( b c ) d )
a "b c" d ⇒ ( a "b c" d )
a -"b c"~2 d ⇒ ( a -"b c"~2 d )
a "" b ⇒ ( a b )
a a a ⇒ ( a a a )
a << b | c ⇒ ( a << ( b | c ) )
((a) b) c ⇒ ( ( a b ) c )
@title a @content b ⇒ ( (@(title) a) (@(content) b) )
a MAYBE (b -c) NEAR/2 d ⇒ ( ( a MAYBE ( b -c ) ) NEAR/2 d )
a SENTENCE "b c" SENTENCE d ⇒ ( a SENTENCE "b c" SENTENCE d )
ZONESPAN:th a -b c ⇒ (ZONESPAN:(th) ( a -b c ))
 ⇒ 
"&" ⇒ 
"a b c d"/0.5 e ⇒ ( "a b c d"/0.5 e )
a (-b c) d ⇒ ( a ( -b c ) d )
NEAR MAYBE, a ⇒ ( near maybe a )
# index prefix2 {
type = rt
path = a
rt_field = title
rt_field = content
min_prefix_len = 2
}

wor* ⇒ wor*
WOR* ⇒ wor*
wo* ⇒ wo*
wor** ⇒ wor*
wor*** ⇒ wor*
wor * ⇒ wor
*wor ⇒ wor
*wor* ⇒ wor*
* ⇒ 
** ⇒ 
* wor* ⇒ wor*
wor*ld ⇒ ( wor* ld )
wo*rl* ⇒ ( wo* rl* )
wor*, wide ⇒ ( wor* wide )
wor* wor ⇒ ( wor* wor )
wor* wor* ⇒ ( wor* wor* )
42* ⇒ 42*
__* ⇒ __*
жу* ⇒ жу*
ЖУ* ⇒ жу*
é* ⇒ 
wé* ⇒ w
wor-* ⇒ wor
wor&* ⇒ wor
wor.* ⇒ wor
⟨a × 43⟩* ⇒ ⟨a × 42⟩*
⟨Ж × 50⟩* ⇒ ⟨ж × 42⟩*
wor*⟨tab⟩* ⇒ wor*
^wor* ⇒ ^wor*
^^wor* ⇒ ^wor*
^ wor* ⇒ wor*
wor*$ ⇒ wor*
^wor*$ ⇒ ^wor*
wor*$$ ⇒ wor*
wor* $ ⇒ wor*
wor$* ⇒ wor$
wor$** ⇒ wor$
^wor$* ⇒ ^wor$
w$* ⇒ w$
wor*^ld ⇒ ( wor* ^ld )
wor*$ld ⇒ ( wor* ld )
wor*ld$ ⇒ ( wor* ld$ )
^wor*ld ⇒ ( ^wor* ld )
wor^* ⇒ wor
^* ⇒ 
$* ⇒ 
^*wor ⇒ wor
\wor* ⇒ wor*
wo\r* ⇒ wor*
wor\* ⇒ wor
wor\** ⇒ wor
wor*\* ⇒ wor*
w\*or* ⇒ ( w or* )
wor\\* ⇒ wor
\*wor* ⇒ wor*
^\wor* ⇒ ^wor*
"wor*" ⇒ wor
"w*" ⇒ w
"wor* ld" ⇒ "wor ld"
"wor*ld" ⇒ "wor ld"
"wor"* ⇒ wor
"wor ld"* ⇒ "wor ld"
"wor* ld"~3* ⇒ "wor ld"~3
"wor ld*"/2* ⇒ "wor ld"/2
"w* x*"/0.5 ⇒ "w x"/0.5
"*" ⇒ 
"*"* ⇒ 
wor*"a b" ⇒ ( wor* "a b" )
"a b"wor* ⇒ ( "a b" wor* )
"a b"-wor* ⇒ ( "a b" -wor* )
wor* | wid* ⇒ ( wor* | wid* )
wor*|wid* ⇒ ( wor* | wid* )
hello wor* | wid* one ⇒ ( hello ( wor* | wid* ) one )
hello -wor* ⇒ ( hello -wor* )
hello !wor* ⇒ ( hello -wor* )
-wor* hello ⇒ ( -wor* hello )
hello -^wor* ⇒ ( hello -^wor* )
hello -(wor* | wid*) ⇒ ( hello -( wor* | wid* ) )
wor*-ld ⇒ ( wor* ld )
wor* -ld ⇒ ( wor* -ld )
wor* - ld ⇒ ( wor* ld )
*-wor hello ⇒ ( wor hello )
wor* << wid* ⇒ ( wor* << wid* )
wor*<<wid* ⇒ ( wor* << wid* )
hello wor* << wid* << one ⇒ ( ( hello wor* ) << wid* << one )
wor* NEAR/3 wid* ⇒ ( wor* NEAR/3 wid* )
wor* MAYBE wid* ⇒ ( wor* MAYBE wid* )
wor* MAYBE *wid ⇒ ( wor* MAYBE wid )
wor*MAYBE wid ⇒ ( wor* maybe wid )
wor* SENTENCE wid* ⇒ ( wor* SENTENCE wid* )
wor* SENTENCE "a b" SENTENCE wid* ⇒ ( wor* SENTENCE "a b" SENTENCE wid* )
wor* PARAGRAPH ^wid* ⇒ ( wor* PARAGRAPH ^wid* )
a MAYBE* b ⇒ ( a maybe* b )
SENTENCE* a ⇒ ( sentence* a )
a NEAR* b ⇒ ( a near* b )
a NEAR/33* b ⇒ ( a near 33* b )
wor*~3 ⇒ ( wor* 3 )
wor*/2 ⇒ ( wor* 2 )
=wor* ⇒ wor*
(wor*) ⇒ wor*
(wor)* ⇒ wor
(wor*)* ⇒ wor*
(wor* | wid*) hello ⇒ ( ( wor* | wid* ) hello )
@title wor* ⇒ (@(title) wor*)
@title wor* wid* ⇒ ( (@(title) wor*) (@(title) wid*) )
@title* wor* ⇒ (@(title) wor*)
@title[2] ^wor* ⇒ (@(title)[2] ^wor*)
@(title,content)[3] wor* ⇒ (@*[3] wor*)
@* wor* ⇒ wor*
@*wor* ⇒ wor*
@!* wor* ⇒ (@!* wor*)
@!title wor* ⇒ (@(content) wor*)
wor*@title wide ⇒ ( wor* (@(title) wide) )
@title a (wor* @content wid*) oth* ⇒ ( (@(title) a) ( (@(title) wor*) (@(content) wid*) ) (@(title) oth*) )
@title wor* SENTENCE wid* ⇒ (@(title) ( wor* SENTENCE wid* ))
@@relaxed wor* ⇒ wor*
@@relaxed* wor* ⇒ wor*
@@relaxed @nofield wor* ⇒ (@!* wor*)
ZONE:th wor* ⇒ wor*
ZONESPAN:nozone wor* ⇒ wor*
# index zoned2 {
type = rt
path = a
rt_field = title
rt_field = content
html_strip = 1
index_zones = th, td
min_prefix_len = 2
}

ZONE:th wor* ⇒ (@* ZONE:(th) wor*)
ZONE:th* wor* ⇒ (@* ZONE:(th) wor*)
ZONE:(th,td)*wor* ⇒ (@* ZONE:(th,td) wor*)
@title ZONE:td wor* ⇒ (@(title) ZONE:(td) wor*)
wor*ZONE:th wide ⇒ ( wor* (@* ZONE:(th) wide) )
ZONESPAN:th wor* wid* ⇒ (ZONESPAN:(th) ( wor* wid* ))
ZONESPAN:(th,td) wor* ⇒ (ZONESPAN:(th,td) wor*)
ZONESPAN:th wor* -wid* ⇒ (ZONESPAN:(th) ( wor* -wid* ))
hello ZONESPAN:th wor* ⇒ ( hello (ZONESPAN:(th) wor*) )
(ZONESPAN:th wor*) << wid* ⇒ ( (ZONESPAN:(th) wor*) << wid* )
# index prefix2 {
type = rt
path = a
rt_field = title
rt_field = content
min_prefix_len = 2
}

⟨a  × 254⟩wo* ⇒ (⟨ a × 254⟩ wo* )
# index prefix1 {
type = rt
path = a
rt_field = title
rt_field = content
min_prefix_len = 1
}

w* ⇒ w*
ж* ⇒ ж*
^w*$ ⇒ ^w*
w*r ⇒ ( w* r )
w*r*l* ⇒ ( w* r* l* )
* ⇒ 
a NEAR/3* b ⇒ ( a near 3* b )
"w*" w* ⇒ ( w w* )
# index prefix3 {
type = rt
path = a
rt_field = title
rt_field = content
min_prefix_len = 3
}

wor* ⇒ wor*
жук* ⇒ жук*
^wor* ⇒ ^wor*
# index prefix42 {
type = rt
path = a
rt_field = title
rt_field = content
min_prefix_len = 42
}

⟨a × 42⟩* ⇒ ⟨a × 42⟩*
⟨a × 43⟩* ⇒ ⟨a × 42⟩*
⟨ж × 42⟩* ⇒ ⟨ж × 42⟩*
# index prefix0 {
type = rt
path = a
rt_field = title
rt_field = content
}

wor* ⇒ wor
w* ⇒ w
^wor* ⇒ ^wor
wor*$ ⇒ wor
wor$* ⇒ wor$
wor*ld ⇒ ( wor ld )
-wor* a ⇒ ( -wor a )
"wor*" ⇒ wor
# index prefix2 {
type = rt
path = a
rt_field = title
rt_field = content
charset_table = a..z, *
min_prefix_len = 2
}

wor* ⇒ wor*
wor\* ⇒ wor\*
wor\** ⇒ wor\**
wor** ⇒ ( wor* \* )
wor*ld ⇒ ( wor* ld )
wor\*ld ⇒ wor\*ld
*wor ⇒ \*wor
*wor* ⇒ \*wor*
* ⇒ \*
\*\* ⇒ \*\*
\*\** ⇒ \*\**
wor * ⇒ ( wor \* )
"wor*" ⇒ wor\*
"wor* ld" ⇒ "wor\* ld"
wor*$ ⇒ wor*
wor$* ⇒ ( wor$ \* )
^*wor ⇒ ^\*wor
^*wor* ⇒ ^\*wor*
@title* wor ⇒ ( (@(title) \*) (@(title) wor) )
@** ⇒ \*
"a"* ⇒ ( a \* )
# index prefix0 {
type = rt
path = a
rt_field = title
rt_field = content
charset_table = a..z, *
}

wor* ⇒ wor\*
wor** ⇒ wor\*\*
wor\* ⇒ wor\*
wor*ld ⇒ wor\*ld
# index prefix2 {
type = rt
path = a
rt_field = title
rt_field = content
charset_table = a..z, U+2D, ^, $
min_prefix_len = 2
}

foo-ba* ⇒ foo\-ba*
-foo* ba-* ⇒ ( -foo* ba\-* )
wor*-ld ⇒ ( wor* \-ld )
wor*$ ⇒ wor*
wor$* ⇒ wor$
wor\$* ⇒ wor\$*
^wor\^* ⇒ ^wor\^*
# index prefix2 {
type = rt
path = a
rt_field = title
rt_field = content
charset_table = A..Z, a..z
min_prefix_len = 2
}

Wor* wor* ⇒ ( Wor* wor* )
MAYBE* a ⇒ ( \MAYBE* a )
a MAYBE* ⇒ ( a \MAYBE* )
^SENTENCE* ⇒ ^\SENTENCE*
NEAR* a ⇒ ( NEAR* a )
a MAYBE MAYBE* ⇒ ( a MAYBE \MAYBE* )
# index prefix2 {
type = rt
path = a
rt_field = title
rt_field = content
min_prefix_len = 2
}

wor* a wor* ⇒ ( wor* a wor* )
-(wid* a) wor* ⇒ ( -( wid* a ) wor* )
"a b" wor* c ⇒ ( "a b" wor* c )
wor* wor wor ⇒ ( wor* wor wor )
wor*ld wid* ⇒ ( wor* ld wid* )
wor* | wid* MAYBE "" oth* ⇒ ( wor* | wid* MAYBE oth* )
"#;
