//! Packets, and the canonical texts of the statements that they are read as, worked out by hand from the grammar. A
//! canonical text shows each part of its statement, so that one row tells a whole value.

/// Packets, and the canonical texts of their statements with `; ` between them.
pub(crate) const PACKETS: &str = r#"
select * from rt ⇒ SELECT * FROM `rt`
SELECT Id FROM Rt; ⇒ SELECT `id` FROM `rt`
select a, b as c, d e from rt ⇒ SELECT `a` , `b` AS `c` , `d` AS `e` FROM `rt`
select *, *, count(*) from rt ⇒ SELECT * , * , COUNT ( * ) FROM `rt`
select count(distinct a) as b from rt ⇒ SELECT COUNT ( DISTINCT `a` ) AS `b` FROM `rt`
select min(a), max(b) m, sum(c) from rt ⇒ SELECT MIN ( `a` ) , MAX ( `b` ) AS `m` , SUM ( `c` ) FROM `rt`
select weight(), groupby ( ) from rt ⇒ SELECT WEIGHT ( ) , GROUPBY ( ) FROM `rt`
select count, min, max, sum, weight, groupby from rt ⇒ SELECT `count` , `min` , `max` , `sum` , `weight` , `groupby` FROM `rt`
select count count, min(min) min from begin ⇒ SELECT `count` AS `count` , MIN ( `min` ) AS `min` FROM `begin`
select `select`, `From` from `where` ⇒ SELECT `select` , `from` FROM `where`
select database from rt ⇒ SELECT `database` FROM `rt`
select database, id from database ⇒ SELECT `database` , `id` FROM `database`
select database d from rt ⇒ SELECT `database` AS `d` FROM `rt`
select/**/a/* b */from⟨0d⟩⟨0a⟩rt /* c */ ⇒ SELECT `a` FROM `rt`
select a from rt where match('Привет "мир"') ⇒ SELECT `a` FROM `rt` WHERE MATCH ( 'Привет "мир"' )
select a from rt where match("it's") ⇒ SELECT `a` FROM `rt` WHERE MATCH ( 'it\'s' )
select a from rt where a <> -1 and b != 2 ⇒ SELECT `a` FROM `rt` WHERE `a` != - 1 AND `b` != 2
select a from rt where a<1 and b>2 and c<=3 and d>=4 and e=5 ⇒ SELECT `a` FROM `rt` WHERE `a` < 1 AND `b` > 2 AND `c` <= 3 AND `d` >= 4 AND `e` = 5
select a from rt where a = 18446744073709551615 and b = -18446744073709551615 ⇒ SELECT `a` FROM `rt` WHERE `a` = 18446744073709551615 AND `b` = - 18446744073709551615
select a from rt where price > -5 ⇒ SELECT `a` FROM `rt` WHERE `price` > - 5
select a from rt where a between -18446744073709551615 and -18446744073709551615 ⇒ SELECT `a` FROM `rt` WHERE `a` BETWEEN - 18446744073709551615 AND - 18446744073709551615
select a from rt where a in (1) ⇒ SELECT `a` FROM `rt` WHERE `a` IN ( 1 )
select a from rt where a not in (1,-2, 3) ⇒ SELECT `a` FROM `rt` WHERE `a` NOT IN ( 1 , - 2 , 3 )
select a from rt where a between -2 and -1 ⇒ SELECT `a` FROM `rt` WHERE `a` BETWEEN - 2 AND - 1
select a from rt where a between 1 and 2 and b between 3 and 4 ⇒ SELECT `a` FROM `rt` WHERE `a` BETWEEN 1 AND 2 AND `b` BETWEEN 3 AND 4
select a from rt where count = 1 and `and` = 2 ⇒ SELECT `a` FROM `rt` WHERE `count` = 1 AND `and` = 2
select a from rt group by count ⇒ SELECT `a` FROM `rt` GROUP BY `count`
select a from rt within group order by a ⇒ SELECT `a` FROM `rt` WITHIN GROUP ORDER BY `a`
select a from rt within group order by weight() asc, weight desc ⇒ SELECT `a` FROM `rt` WITHIN GROUP ORDER BY WEIGHT ( ) ASC , `weight` DESC
select a from rt having count(*) >= 2 ⇒ SELECT `a` FROM `rt` HAVING COUNT ( * ) >= 2
select a from rt having count = -2 ⇒ SELECT `a` FROM `rt` HAVING `count` = - 2
select a from rt order by a ⇒ SELECT `a` FROM `rt` ORDER BY `a`
select a from rt order by count(*) desc, weight(), id asc, count ⇒ SELECT `a` FROM `rt` ORDER BY COUNT ( * ) DESC , WEIGHT ( ) , `id` ASC , `count`
select a from rt limit 0 ⇒ SELECT `a` FROM `rt` LIMIT 0
select a from rt limit 1, 18446744073709551615 ⇒ SELECT `a` FROM `rt` LIMIT 1 , 18446744073709551615
select a from rt option ranker=bm25 ⇒ SELECT `a` FROM `rt` OPTION `ranker` = `bm25`
select a from rt option ranker=Expr ( 'sum(lcs)' ) ⇒ SELECT `a` FROM `rt` OPTION `ranker` = `expr` ( 'sum(lcs)' )
select a from rt option `a`=b('c'), d=`e`(''), f=g facet h ⇒ SELECT `a` FROM `rt` OPTION `a` = `b` ( 'c' ) , `d` = `e` ( '' ) , `f` = `g` FACET `h`
select a from rt option a=1, b='c', c=(d=1), e=(f=2,g=3) ⇒ SELECT `a` FROM `rt` OPTION `a` = 1 , `b` = 'c' , `c` = ( `d` = 1 ) , `e` = ( `f` = 2 , `g` = 3 )
select a from rt facet a ⇒ SELECT `a` FROM `rt` FACET `a`
select a from rt facet a order by a facet b limit 1 facet c order by count(*) asc limit 2,3 ⇒ SELECT `a` FROM `rt` FACET `a` ORDER BY `a` FACET `b` LIMIT 1 FACET `c` ORDER BY COUNT ( * ) ASC LIMIT 2 , 3
SELECT *, Count(DISTINCT Gid) AS n FROM Rt WHERE x <= -3 GROUP BY g WITHIN GROUP ORDER BY w HAVING h <> 9 ORDER BY o DESC LIMIT 10, 11 OPTION p = 12 FACET f ⇒ SELECT * , COUNT ( DISTINCT `gid` ) AS `n` FROM `rt` WHERE `x` <= - 3 GROUP BY `g` WITHIN GROUP ORDER BY `w` HAVING `h` != 9 ORDER BY `o` DESC LIMIT 10 , 11 OPTION `p` = 12 FACET `f`
select @@a ⇒ SELECT @@a
select @@Session.Tx_Isolation limit 1; ⇒ SELECT @@session.tx_isolation LIMIT 1
select database(); ⇒ SELECT DATABASE ( )
insert into rt values (1) ⇒ INSERT INTO `rt` VALUES ( 1 )
insert into rt (id) values (1), (-2), ('') ⇒ INSERT INTO `rt` ( `id` ) VALUES ( 1 ) , ( - 2 ) , ( '' )
replace into replace (set, show) values ('a\\b', 007) ⇒ REPLACE INTO `replace` ( `set` , `show` ) VALUES ( 'a\\b' , 7 )
insert into rt values ('\n\t\0\x') ⇒ INSERT INTO `rt` VALUES ( '⟨0a⟩⟨09⟩⟨00⟩x' )
delete from rt where id = 0 ⇒ DELETE FROM `rt` WHERE ID = 0
delete from delete where ID in (1, 2) ⇒ DELETE FROM `delete` WHERE ID IN ( 1 , 2 )
begin ⇒ BEGIN
start transaction ⇒ START TRANSACTION
commit ⇒ COMMIT
rollback ⇒ ROLLBACK
set autocommit = 0 ⇒ SET AUTOCOMMIT = 0
set names 'utf8' ⇒ SET NAMES 'utf8'
set names names ⇒ SET NAMES `names`
set a = null ⇒ SET `a` = NULL
set global a = -1 ⇒ SET GLOBAL `a` = - 1
set session @@a.b = 'c' ⇒ SET SESSION @@a.b = 'c'
set global = session ⇒ SET `global` = `session`
set session = 1 ⇒ SET `session` = 1
set global global = 2 ⇒ SET GLOBAL `global` = 2
set `names` = names ⇒ SET `names` = `names`
set `autocommit` = 1 ⇒ SET `autocommit` = 1
set @@autocommit = 1 ⇒ SET @@autocommit = 1
flush ramchunk ramchunk ⇒ FLUSH RAMCHUNK `ramchunk`
flush rtindex rt ⇒ FLUSH RTINDEX `rt`
optimize index index ⇒ OPTIMIZE INDEX `index`
truncate rtindex rt ⇒ TRUNCATE RTINDEX `rt`
describe `Rt_1` ⇒ DESCRIBE `rt_1`
show index status status ⇒ SHOW INDEX `status` STATUS
show meta ⇒ SHOW META
show tables ⇒ SHOW TABLES
show warnings ⇒ SHOW WARNINGS
show variables ⇒ SHOW VARIABLES
show databases ⇒ SHOW DATABASES
BEGIN ; Start Transaction;ROLLBACK ; ⇒ BEGIN; START TRANSACTION; ROLLBACK
select @@a; select a from rt;select database() ⇒ SELECT @@a; SELECT `a` FROM `rt`; SELECT DATABASE ( )
set names a; set a = names;show meta ⇒ SET NAMES `a`; SET `a` = `names`; SHOW META
"#;
