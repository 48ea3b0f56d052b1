use crate::asserts::same;
use pfs_digest::*;
use pfs_lexer::LexFault;
use std::alloc::Global;
use std::test::Fail;

// Statements and their digest texts: of the first part a MySQL server gives the same.
const ROWS: [(&str, &str); 50] = [
    ("SELECT f(1)", "SELECT `f` (?)"),
    ("SELECT f((1))", "SELECT `f` ( (?) )"),
    ("SELECT 1 , 2 , a , 3 , 4", "SELECT ?, ... , `a` , ?, ..."),
    (
        "SELECT a FROM t FOR UPDATE",
        "SELECT `a` FROM `t` FOR UPDATE",
    ),
    ("SELECT `a` FROM `t`", "SELECT `a` FROM `t`"),
    (
        "SELECT a.b.c FROM a.b",
        "SELECT `a` . `b` . `c` FROM `a` . `b`",
    ),
    ("BEGIN", "BEGIN"),
    (
        "SELECT a FROM t GROUP BY a HAVING COUNT(*) > 3",
        "SELECT `a` FROM `t` GROUP BY `a` HAVING COUNT ( * ) > ?",
    ),
    (
        "SELECT a FROM t LIMIT 5, 10",
        "SELECT `a` FROM `t` LIMIT ?, ...",
    ),
    ("SELECT 1 # c", "SELECT ?"),
    ("SELECT /* c */ 1 -- x", "SELECT ?"),
    ("TRUNCATE TABLE t", "TRUNCATE TABLE `t`"),
    ("INSERT INTO t VALUES (1)", "INSERT INTO `t` VALUES (?)"),
    (
        "SELECT a FROM t WHERE a IN (1,b)",
        "SELECT `a` FROM `t` WHERE `a` IN ( ? , `b` )",
    ),
    (
        "SELECT count(*), sum(a), max(a) FROM t",
        "SELECT COUNT ( * ) , SUM ( `a` ) , MAX ( `a` ) FROM `t`",
    ),
    ("SELECT 'a' 'b'", "SELECT ? ?"),
    (
        "SELECT a FROM t WHERE (a,b) IN ((1,2),(3,4))",
        "SELECT `a` FROM `t` WHERE ( `a` , `b` ) IN ( (...) /* , ... */ )",
    ),
    (
        "SELECT a FROM t WHERE a IN (1,2,3)",
        "SELECT `a` FROM `t` WHERE `a` IN (...)",
    ),
    (
        "SELECT a FROM t WHERE a LIKE 'x%' AND NOT b",
        "SELECT `a` FROM `t` WHERE `a` LIKE ? AND NOT `b`",
    ),
    ("SELECT 1 UNION ALL SELECT 2", "SELECT ? UNION ALL SELECT ?"),
    ("SELECT 1,2,3", "SELECT ?, ..."),
    ("SELECT 1;", "SELECT ?"),
    ("SELECT !a FROM t", "SELECT ! `a` FROM `t`"),
    ("SELECT a FROM t AS u", "SELECT `a` FROM `t` AS `u`"),
    ("SET autocommit = 0", "SET `autocommit` = ?"),
    (
        "SELECT CASE a WHEN 1 THEN 'x' ELSE 'y' END FROM t",
        "SELECT CASE `a` WHEN ? THEN ? ELSE ? END FROM `t`",
    ),
    ("SELECT f(1,2)", "SELECT `f` (...)"),
    (
        "SELECT * FROM t LEFT OUTER JOIN u USING (a)",
        "SELECT * FROM `t` LEFT OUTER JOIN `u` USING ( `a` )",
    ),
    ("SELECT (1,2)=(3,4)", "SELECT (...) = (...)"),
    (
        "SELECT * FROM t JOIN u ON t.a = u.a",
        "SELECT * FROM `t` JOIN `u` ON `t` . `a` = `u` . `a`",
    ),
    ("SELECT -1", "SELECT - ?"),
    (
        "SELECT * FROM t NATURAL JOIN u",
        "SELECT * FROM `t` `NATURAL` JOIN `u`",
    ),
    (
        "SELECT a FROM t WHERE a = -5",
        "SELECT `a` FROM `t` WHERE `a` = - ?",
    ),
    ("SELECT 1, -2, 3", "SELECT ? , - ?, ..."),
    ("SELECT - 1", "SELECT - ?"),
    (
        "INSERT INTO t SET a = 1, b = NULL",
        "INSERT INTO `t` SET `a` = ? , `b` = NULL",
    ),
    ("SELECT TRUE, FALSE", "SELECT `TRUE` , `FALSE`"),
    (
        "CREATE TABLE t (a INT, KEY (a))",
        "CREATE TABLE `t` ( `a` `INT` , KEY ( `a` ) )",
    ),
    ("SELECT +1", "SELECT + ?"),
    (
        "SELECT a FROM t WHERE a DIV 2 = 0",
        "SELECT `a` FROM `t` WHERE `a` `DIV` ? = ?",
    ),
    (
        "SELECT INTERVAL 1 DAY + a FROM t",
        "SELECT `INTERVAL` ? `DAY` + `a` FROM `t`",
    ),
    (
        "SELECT a FROM t WHERE a MOD 2 = 0",
        "SELECT `a` FROM `t` WHERE `a` `MOD` ? = ?",
    ),
    ("DO 1", "`DO` ?"),
    (
        "SELECT date, time, status, name, type FROM t",
        "SELECT `date` , `time` , `status` , `name` , `type` FROM `t`",
    ),
    ("", ""),
    (
        "SELECT * FROM orders WHERE customer_id=10 AND quantity>20",
        "SELECT * FROM `orders` WHERE `customer_id` = ? AND `quantity` > ?",
    ),
    (
        "select a from t where a in (1,2,3)",
        "SELECT `a` FROM `t` WHERE `a` IN (...)",
    ),
    (
        "INSERT INTO t VALUES (1,2),(3,4)",
        "INSERT INTO `t` VALUES (...) /* , ... */",
    ),
    ("SELECT f(1), 'x' -- note", "SELECT `f` (?) , ?"),
    ("SELECT /* a */ 1 -- b", "SELECT ?"),
];

fn shows(alloc: Global, statement: &str, shown: &str) -> Result<bool, DigestFault> {
    let text = digest_text(alloc, statement)?;
    Ok(text.as_bytes() == shown.as_bytes())
}

#[test]
fn texts_of_the_table(rt: HostRuntime) -> Result<(), Fail> {
    for (statement, shown) in &ROWS {
        assert!(rt; shows(rt.alloc(), statement, shown)?, "{statement}");
    }
    Ok(())
}

const FAULTS: [(&str, LexFault); 3] = [
    ("SELECT 'abc", LexFault::OpenString(7)),
    ("SELECT /* a", LexFault::OpenComment(7)),
    ("SELECT \\", LexFault::BadByte(7)),
];

#[test]
fn faults_of_the_lexer(rt: HostRuntime) -> Result<(), Fail> {
    for (text, fault) in &FAULTS {
        let found = digest_text(rt.alloc(), text).err();
        same(&rt, text, found, Some(DigestFault::Lex(*fault)));
    }
    Ok(())
}

#[test]
fn digest_of_the_empty_text(rt: HostRuntime) {
    let expected = [
        0xe3, 0xb0, 0xc4, 0x42, 0x98, 0xfc, 0x1c, 0x14, 0x9a, 0xfb, 0xf4, 0xc8, 0x99, 0x6f, 0xb9,
        0x24, 0x27, 0xae, 0x41, 0xe4, 0x64, 0x9b, 0x93, 0x4c, 0xa4, 0x95, 0x99, 0x1b, 0x78, 0x52,
        0xb8, 0x55,
    ];
    assert_eq!(rt; digest(b""), expected);
}
