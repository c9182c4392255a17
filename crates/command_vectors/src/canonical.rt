//! Statements as clients write them, and their canonical texts: keywords in capitals, names between backquotes, texts
//! between `'`, one space between two tokens. All texts are worked out by hand from these rules.

/// Statements as clients write them, and their canonical texts.
pub(crate) const CANONICAL: &str = r#"
delete from rt where id=5 ⇒ DELETE FROM `rt` WHERE ID = 5
DELETE FROM `From` WHERE id IN (1,2 , 18446744073709551615) ⇒ DELETE FROM `from` WHERE ID IN ( 1 , 2 , 18446744073709551615 )
delete from id where id in(0) ⇒ DELETE FROM `id` WHERE ID IN ( 0 )
begin ⇒ BEGIN
Start /* now */ Transaction ⇒ START TRANSACTION
commit; ⇒ COMMIT
rollback ⇒ ROLLBACK
set autocommit=01 ⇒ SET AUTOCOMMIT = 1
set names utf8 ⇒ SET NAMES `utf8`
set names "it's" ⇒ SET NAMES 'it\'s'
set a=b ⇒ SET `a` = `b`
set global `Names`=null ⇒ SET GLOBAL `names` = NULL
set session @@Sql.Mode = '' ⇒ SET SESSION @@sql.mode = ''
set @@x=-5 ⇒ SET @@x = - 5
set `autocommit` = -0 ⇒ SET `autocommit` = 0
set session = 1 ⇒ SET `session` = 1
set global global = global ⇒ SET GLOBAL `global` = `global`
set x = -18446744073709551615 ⇒ SET `x` = - 18446744073709551615
flush ramchunk rt ⇒ FLUSH RAMCHUNK `rt`
flush rtindex rt ⇒ FLUSH RTINDEX `rt`
optimize index rt ⇒ OPTIMIZE INDEX `rt`
truncate rtindex `Rt_2` ⇒ TRUNCATE RTINDEX `rt_2`
describe rt ⇒ DESCRIBE `rt`
show index status status ⇒ SHOW INDEX `status` STATUS
show meta ⇒ SHOW META
show tables ⇒ SHOW TABLES
show warnings ⇒ SHOW WARNINGS
show variables ⇒ SHOW VARIABLES
show databases ⇒ SHOW DATABASES
select database() ⇒ SELECT DATABASE ( )
select @@Version_Comment ⇒ SELECT @@version_comment
select @@a.b limit 007 ⇒ SELECT @@a.b LIMIT 7
insert into rt values (1,'a',-2) ⇒ INSERT INTO `rt` VALUES ( 1 , 'a' , - 2 )
replace into rt(Id,title) values(1,'\'\\\"') ⇒ REPLACE INTO `rt` ( `id` , `title` ) VALUES ( 1 , '\'\\"' )
insert into rt (a) values ('Привет, мир'),("") ⇒ INSERT INTO `rt` ( `a` ) VALUES ( 'Привет, мир' ) , ( '' )
insert into rt values ('a\nb\tc') ⇒ INSERT INTO `rt` VALUES ( 'a⟨0a⟩b⟨09⟩c' )
select * from rt ⇒ SELECT * FROM `rt`
select a b, c as D from rt ⇒ SELECT `a` AS `b` , `c` AS `d` FROM `rt`
select count(*), COUNT(distinct a), min(a), max(a), sum(a), weight(), groupby() from rt ⇒ SELECT COUNT ( * ) , COUNT ( DISTINCT `a` ) , MIN ( `a` ) , MAX ( `a` ) , SUM ( `a` ) , WEIGHT ( ) , GROUPBY ( ) FROM `rt`
select count, min m from max ⇒ SELECT `count` , `min` AS `m` FROM `max`
select *,count(*) n from rt ⇒ SELECT * , COUNT ( * ) AS `n` FROM `rt`
select id from rt where match('@title "a b"') ⇒ SELECT `id` FROM `rt` WHERE MATCH ( '@title "a b"' )
select id from rt where a=1 and b!=2 and c<>3 ⇒ SELECT `id` FROM `rt` WHERE `a` = 1 AND `b` != 2 AND `c` != 3
select id from rt where a<1 and b>2 and c<=-3 and d>=4 ⇒ SELECT `id` FROM `rt` WHERE `a` < 1 AND `b` > 2 AND `c` <= - 3 AND `d` >= 4
select id from rt where a in(1) and b not in (-1,2) ⇒ SELECT `id` FROM `rt` WHERE `a` IN ( 1 ) AND `b` NOT IN ( - 1 , 2 )
select id from rt where a between -5 and 6 and b=7 ⇒ SELECT `id` FROM `rt` WHERE `a` BETWEEN - 5 AND 6 AND `b` = 7
select id from rt group by a ⇒ SELECT `id` FROM `rt` GROUP BY `a`
select id from rt group by a within group order by weight() desc, b ⇒ SELECT `id` FROM `rt` GROUP BY `a` WITHIN GROUP ORDER BY WEIGHT ( ) DESC , `b`
select id from rt group by a having count(*)>1 ⇒ SELECT `id` FROM `rt` GROUP BY `a` HAVING COUNT ( * ) > 1
select id from rt group by a having n<>-1 order by n asc ⇒ SELECT `id` FROM `rt` GROUP BY `a` HAVING `n` != - 1 ORDER BY `n` ASC
select id from rt order by weight() asc, id desc, count(*) ⇒ SELECT `id` FROM `rt` ORDER BY WEIGHT ( ) ASC , `id` DESC , COUNT ( * )
select id from rt limit 20 ⇒ SELECT `id` FROM `rt` LIMIT 20
select id from rt limit 5,20 ⇒ SELECT `id` FROM `rt` LIMIT 5 , 20
select id from rt option ranker=none, max_matches=10, comment='x' ⇒ SELECT `id` FROM `rt` OPTION `ranker` = `none` , `max_matches` = 10 , `comment` = 'x'
select id from rt option field_weights=(title=5,body=2) ⇒ SELECT `id` FROM `rt` OPTION `field_weights` = ( `title` = 5 , `body` = 2 )
select id from rt facet a ⇒ SELECT `id` FROM `rt` FACET `a`
select id from rt facet a order by count(*) desc limit 1,2 facet b order by b limit 3 facet c ⇒ SELECT `id` FROM `rt` FACET `a` ORDER BY COUNT ( * ) DESC LIMIT 1 , 2 FACET `b` ORDER BY `b` LIMIT 3 FACET `c`
select id from rt where a=1 group by b having c=2 order by d limit 3 option e=4 facet f ⇒ SELECT `id` FROM `rt` WHERE `a` = 1 GROUP BY `b` HAVING `c` = 2 ORDER BY `d` LIMIT 3 OPTION `e` = 4 FACET `f`
set names '' ⇒ SET NAMES ''
set names 'a b' ⇒ SET NAMES 'a b'
set names "it's" ⇒ SET NAMES 'it\'s'
set names '\n\r\t\0' ⇒ SET NAMES '⟨0a⟩⟨0d⟩⟨09⟩⟨00⟩'
set names '\'\"\\' ⇒ SET NAMES '\'"\\'
set names '\N\x\%' ⇒ SET NAMES 'Nx%'
set names '\\n' ⇒ SET NAMES '\\n'
set names '\п\⟨0d⟩' ⇒ SET NAMES 'п⟨0d⟩'
set x = 0 ⇒ SET `x` = 0
set x = 007 ⇒ SET `x` = 7
set x = 18446744073709551615 ⇒ SET `x` = 18446744073709551615
"#;
