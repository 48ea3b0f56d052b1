//! Reports of sessions at once with one change each, and the line at which the cut of each stops. Each was made and
//! judged by a program that has nothing of this one. Here it is cut down to its fault: other sessions, and whole lines
//! of the script before it, are left out with their entries, and of long lists of changes and readings all but the
//! first and the last; the line is the one that was judged, less the lines left out before it. What follows the fault,
//! which decides nothing, is left out too.

use crate::cut::stops_at;

/// What events bring: additions and puts.
const BROUGHT: [(&[u8], &[u8], u64); 16] = [
    // A put twice, at the start of a transaction.
    (
        b"phase\nsession 1 v h\nstart transaction ro\nend\nstart transaction rw\nstart statement/sp/stmt\nsql select * from performance_schema.events_transactions_summary_by_thread_by_event_name\n",
        b"pfs-report 1\nphase 1\nsession 1\nconnect 2 1 1 0 1\ntag 2 1\ntag 34 1\ntag 65 2\ntag 98 1\nset 2 1 3\nstart 1 attributed 0 1 0 -\nring 8521 1\nend 1 1 0 1\nadd 256 1\nring 8521 2\nring 8552 1\nstart 2 attributed 0 1 0 -\nring 8521 3\nring 8521 3\nfinal\nend\n",
        18,
    ),
    // A put to a long history among starts.
    (
        b"phase\nsession 2 w g\nstart transaction rw\nstart statement/sql/select UPDATE t SET a = -1;;\nphase\nsession 2\nend 1 2 3 4 5 6\nend\nstart transaction ro\nstart statement/sql/insert\nspend 7\nstart wait/io/file/sql/binlog\nstart wait/synch/mutex/sql/LOCK_open\nstart wait/synch/mutex/sql/LOCK_open\n",
        b"pfs-report 1\nphase 1\nsession 2\nconnect 1 0 0 0 0\ntag 1 1\ntag 33 1\ntag 65 1\ntag 97 1\nset 1 1 3\nstart 10 attributed 0 2 0 -\nring 8465 3\nstart 12 attributed 0 2 0 -\nring 8455 9\nfinal\nphase 2\nsession 2\nend 12 12 0 2\nadd 146 4\nadd 8385 9\nring 8455 10\nend 10 12 0 2\nadd 191 4\nring 8465 4\nstart - off-class 0 2 1 -\nstart - off-class 0 2 1 -\nstart - off-class 0 2 1 -\nlong 10244 1 2\nfinal\nend\n",
        27,
    ),
    // An addition to the row of another class.
    (
        b"phase\nsession 3 v h\nstart statement/sql/select \nspend 3\nend\n",
        b"pfs-report 1\nphase 1\nsession 3\nconnect 6 2 1 1 0\ntag 3 1\ntag 34 2\ntag 66 2\ntag 97 3\nset 3 1 3\nstart 15 attributed 0 1 0 -\nring 8567 19\nend 15 15 0 1\nadd 273 11\nfinal\nend\n",
        13,
    ),
    // An addition that isn't there, in a thread's ring.
    (
        b"phase\nsession 1 v h\nstart transaction rw\nstart statement/sql/select SELECT 1\nstart statement/sql/insert SELECT 1\nstage stage/sql/init\nstart wait/lock/table/sql/handler mysql.t\nstart wait/io/file/innodb/innodb_data_file\nstart wait/io/socket/sql/client_connection\nend\nspend 120\nend\nstart wait/io/file/innodb/innodb_data_file\nsql TRUNCATE TABLE setup_instruments\n",
        b"pfs-report 1\nphase 1\nsession 1\nconnect 2 1 1 1 0\ntag 2 1\ntag 34 1\ntag 66 1\ntag 97 2\nset 2 1 3\nstart 1 attributed 0 1 0 -\nring 8521 1\nstart 2 attributed 0 1 0 -\nring 8511 1\nstart 3 attributed 0 1 0 -\nring 8512 1\nstart 4 attributed 0 1 0 -\nring 8510 1\nstart - off-table 0 1 0 0\nstart 9 attributed 0 1 0 -\nring 8506 5\nstart - off-class 0 1 0 -\nend - - - -\nend 9 10 0 1\nring 8506 6\nfinal\nend\n",
        24,
    ),
    // An addition twice, to a transaction's row.
    (
        b"phase\nsession 1 u h\nstart transaction ro\nstart statement/sql/select UPDATE t SET a = -1;;\nend\nend\nquit\n",
        b"pfs-report 1\nphase 1\nsession 1\nconnect 1 0 0 0 0\ntag 1 1\ntag 33 1\ntag 65 1\ntag 97 1\nset 1 1 3\nstart 1 attributed 0 1 0 -\nring 8465 1\nstart 2 attributed 0 1 0 -\nring 8455 1\nend 2 4 0 1\nadd 146 2\nadd 8386 1\nring 8455 2\nring 8487 1\nlong 12243 1 1\nend 1 4 0 1\nadd 192 1\nadd 192 1\nfinal\nend\n",
        22,
    ),
    // An addition to another row, of a session without a thread's consumers.
    (
        b"phase\nsession 1 u h\nstart transaction rw\nspend 2\nend\nsql TRUNCATE events_waits_summary_global_by_event_name\nstart statement/sql/select SELECT 1\n",
        b"pfs-report 1\nphase 1\nsession 1\nconnect 1 0 0 0 0\ntag 1 1\ntag 33 1\ntag 65 1\ntag 97 1\nset 1 1 3\nstart 5 aside 1 1 0 -\nend 5 5 1 1\nadd 8382 1\nfinal\nend\n",
        12,
    ),
    // A put before its start.
    (
        b"phase\nsession 3 v g\nstart transaction ro\nstart wait/synch/mutex/sql/LOCK_open\n",
        b"pfs-report 1\nphase 1\nsession 3\nconnect 3 2 2 2 0\ntag 3 1\ntag 35 1\ntag 67 1\ntag 97 2\nset 3 1 3\nring 8577 1\nfinal\nend\n",
        10,
    ),
    // A put of a statement before its start.
    (
        b"phase\nsession 1 u h\nstart statement/sql/select SELECT 1\nspend 3\nend\nstart statement/sql/select \nend\n",
        b"pfs-report 1\nphase 1\nsession 1\nconnect 1 0 0 0 0\ntag 1 1\ntag 33 1\ntag 65 1\ntag 97 1\nset 1 1 3\nstart 2 attributed 0 1 0 -\nring 8455 3\nend 2 2 0 1\nadd 146 2\nadd 8386 2\nring 8455 4\nring 8487 1\nring 8455 5\nfinal\nend\n",
        17,
    ),
    // A put of another thread's place.
    (
        b"phase\nsession 4 u h\nstart statement/sql/select SELECT * FROM t WHERE a IN (1,2,3)\nspend 3\nend\nstart wait/io/file/sql/binlog\nend\n",
        b"pfs-report 1\nphase 1\nsession 4\nconnect 4 3 0 0 0\ntag 4 1\ntag 33 3\ntag 65 3\ntag 97 4\nset 4 1 3\nstart 1 attributed 0 1 0 -\nring 8623 1\nend 1 1 0 1\nadd 338 1\nadd 8388 3\nring 8623 2\nring 8654 1\nring 8610 1\nfinal\nend\n",
        17,
    ),
    // An addition twice, before a held one.
    (
        b"phase\nsession 2 v h\nstart statement/sql/select \nspend 3\nend\nstart statement/sql/select SELECT 1\nend\n",
        b"pfs-report 1\nphase 1\nsession 2\nconnect 1 0 0 0 0\ntag 1 1\ntag 33 1\ntag 65 1\ntag 97 1\nset 1 1 3\nstart 3 attributed 0 1 0 -\nring 8455 3\nend 3 3 0 1\nadd 146 3\nadd 146 3\nheld 8387 9 9\nfinal\nend\n",
        15,
    ),
    // An addition to the row of another class, behind a held one.
    (
        b"phase\nsession 2 v h\nstart statement/sql/select \nend\nstart statement/sql/select \nspend 3\nend\nstart wait/io/file/sql/binlog\nend\n",
        b"pfs-report 1\nphase 1\nsession 2\nconnect 3 1 1 1 0\ntag 2 1\ntag 34 1\ntag 66 1\ntag 97 2\nset 2 1 3\nstart 1 attributed 0 1 0 -\nring 8511 1\nend 1 1 0 1\nadd 210 1\nheld 8387 6 10\nring 8511 2\nring 8542 1\nstart 3 attributed 0 1 0 -\nring 8511 3\nend 3 3 0 1\nadd 214 2\nfinal\nend\n",
        20,
    ),
    // An addition that isn't there, before that of a digest.
    (
        b"phase\nsession 2 v h\nphase\nsession 2\nstart statement/sql/select SELECT 1\nspend 3\nend\nstart statement/sql/select \nend\n",
        b"pfs-report 1\nphase 1\nsession 2\nconnect 2 1 1 1 0\ntag 2 1\ntag 34 1\ntag 66 1\ntag 97 2\nset 2 1 3\nfinal\nphase 2\nsession 2\nstart 14 attributed 0 1 0 -\nring 8511 19\nend 14 14 0 1\nadd 8387 7\nfinal\nend\n",
        16,
    ),
    // A put to the long history before that to the thread's.
    (
        b"class wait/io/file/own/x YES YES\nclass stage/own/y YES NO\nclass statement/own/z YES YES\nphase\nsession 2 v h\nstart transaction rw\nsql TRUNCATE TABLE events_transactions_current\nspend 0\nend\nstart statement/own/z\nend\n",
        b"pfs-report 1\nphase 1\nsession 2\nconnect 3 2 2 1 1\ntag 3 1\ntag 35 1\ntag 66 2\ntag 98 1\nset 3 1 3\nstart 12 attributed 1 1 0 -\nring 8577 1\nact 10\nfree 8521 1\nfree 8577 1\nreply 0\nend 12 12 1 1\nadd 319 1\nring 8577 2\nlong 13243 1 1\nring 8608 1\nfinal\nend\n",
        20,
    ),
    // A put to the place of an event one deeper.
    (
        b"phase\nsession 6 w h\nstart transaction ro\nstart wait/io/file/sql/binlog\nspend 0\nstart wait/synch/mutex/sql/LOCK_open\nend\nend\n",
        b"pfs-report 1\nphase 1\nsession 6\nconnect 6 5 2 2 1\ntag 6 1\ntag 35 2\ntag 67 2\ntag 98 2\nset 6 1 3\nstart 1 attributed 0 1 0 -\nring 8745 1\nstart 2 attributed 0 1 0 -\nstart 3 attributed 0 1 0 -\nring 8730 1\nring 8731 1\nfinal\nend\n",
        15,
    ),
    // A put to a long history behind the number of an action.
    (
        b"phase\nsession 6 w h\nstart transaction ro\nstart wait/io/file/sql/binlog\nend\nend\nquit\n",
        b"pfs-report 1\nphase 1\nsession 6\nconnect 6 5 2 2 1\ntag 6 1\ntag 35 2\ntag 67 2\ntag 98 2\nset 6 1 3\nstart 1 attributed 0 1 0 -\nring 8745 1\nstart 2 attributed 0 1 0 -\nring 8730 1\nend 2 3 0 1\nadd 455 1\nring 8730 2\nring 8747 1\nlong 10245 1 3\nend 1 3 0 1\nadd 512 1\nring 8745 2\nring 8776 1\nact 7\nlong 13243 1 1\nfinal\nend\n",
        24,
    ),
    // An addition to row 0, behind events that end across phases.
    (
        b"class wait/io/file/own/x YES YES\nclass stage/own/y YES NO\nclass statement/own/z YES YES\nphase\nsession 1 w h\nstart statement/own/z UPDATE t SET a = -1;;\nstage stage/sql/end\nstart wait/io/socket/sql/client_connection\nstart wait/io/file/innodb/innodb_data_file\nstart wait/io/file/sql/binlog\nstart wait/io/file/innodb/innodb_data_file\nstart wait/io/table/sql/handler mysql.t\nphase\nsession 1\nend\nend\nend\nend\nend\nend\nquit\n",
        b"pfs-report 1\nphase 1\nsession 1\nconnect 3 2 2 2 1\ntag 3 1\ntag 35 1\ntag 67 1\ntag 98 1\nset 3 1 3\nstart 1 attributed 0 1 0 -\nring 8567 1\nstart 2 attributed 0 1 0 -\nring 8566 1\nstart - off-class 0 1 0 -\nstart 3 attributed 0 1 0 -\nring 8562 1\nstart 4 attributed 0 1 0 -\nring 8563 1\nstart 5 attributed 0 1 0 -\nring 8564 1\nstart - off-table 0 1 0 0\nfinal\nphase 2\nsession 1\nend - - - -\nend 5 6 0 1\nadd 264 1\nring 8564 2\nring 8579 1\nlong 10247 1 5\nend 4 10 0 1\nadd 263 2\nring 8563 2\nring 8584 1\nlong 10252 1 10\nend 3 10 0 1\nadd 264 4\nring 8562 2\nring 8585 1\nlong 10253 1 11\nend - - - -\nend 2 10 0 1\nadd 273 1\nring 8566 2\nring 8588 1\nlong 11243 1 1\nend 1 10 0 1\nadd 0 1\nfinal\nend\n",
        48,
    ),
];

/// Starts, ends, and blocks.
const EVENTS: [(&[u8], &[u8], u64); 9] = [
    // The end of a refused event twice.
    (
        b"phase\nsession 2 w g\nstart transaction rw\nstart statement/sql/select UPDATE t SET a = -1;;\nphase\nsession 2\nend 1 2 3 4 5 6\nend\nstart transaction ro\nstart statement/sql/insert\nend\nend\nquit\n",
        b"pfs-report 1\nphase 1\nsession 2\nconnect 1 0 0 0 0\ntag 1 1\ntag 33 1\ntag 65 1\ntag 97 1\nset 1 1 3\nstart 10 attributed 0 2 0 -\nring 8465 3\nstart 12 attributed 0 2 0 -\nring 8455 9\nfinal\nphase 2\nsession 2\nend 12 12 0 2\nadd 146 4\nadd 8385 9\nring 8455 10\nend 10 12 0 2\nadd 191 4\nring 8465 4\nstart - off-class 0 2 1 -\nstart - off-class 0 2 1 -\nend - - - -\nend - - - -\nend - - - -\nfinal\nend\n",
        28,
    ),
    // A start there.
    (
        b"phase\nsession 4 v g\nstart transaction rw\nstart wait/io/socket/sql/client_connection\nphase\nsession 4\nend\nend\nstart transaction rw\nspend 120\nspend 18446744073709551615\nsql SELECT * FROM users LIMIT 3\nstart statement/sql/insert select a, 'x''y' from `b` -- c\nstart statement/sp/stmt INSERT INTO t VALUES (1,2),(3,4)\n",
        b"pfs-report 1\nphase 1\nsession 4\nconnect 4 2 2 0 1\ntag 3 1\ntag 35 1\ntag 65 2\ntag 98 2\nset 3 1 3\nstart 2 aside 1 1 0 -\nstart 3 aside 1 1 0 -\nfinal\nphase 2\nsession 4\nend 3 3 1 1\nadd 8330 3\nend 2 3 1 1\nadd 8383 1\nstart 5 aside 1 1 0 -\nquery\nseen 65 2\nvacant 95\nstart 16 aside 1 1 0 -\nfinal\nend\n",
        23,
    ),
    // An end before its start.
    (
        b"phase\nsession 5 v h\nphase\nsession 5\nstart statement/sql/select SELECT * FROM t WHERE a IN (1,2,3)\nend\nsql SELECT * FROM events_statements_summary_by_digest\nstart wait/io/file/sql/binlog\nend\n",
        b"pfs-report 1\nphase 1\nsession 5\nconnect 9 4 1 1 0\ntag 5 1\ntag 34 1\ntag 66 1\ntag 97 5\nset 5 1 3\nfinal\nphase 2\nsession 5\nstart 15 attributed 0 1 0 -\nring 8679 9\nend 15 15 0 1\nadd 402 10\nadd 8388 10\nring 8679 10\nring 8714 1\nquery\nseen 8385 2\nseen 8388 10\nrows 1\nrow 1\nend 16 16 0 1\nfinal\nend\n",
        25,
    ),
    // A start that is told as refused, so that its end has no numbers.
    (
        b"phase\nsession 2 u h\nstart statement/sql/select \nend\nstart statement/sql/select \nend\nstart statement/sql/select SELECT * FROM t WHERE a IN (1,2,3)\n",
        b"pfs-report 1\nphase 1\nsession 2\nconnect 6 3 0 0 0\ntag 4 1\ntag 33 4\ntag 65 4\ntag 97 4\nset 4 1 3\nstart 2 attributed 0 1 0 -\nring 8623 3\nend 2 2 0 1\nadd 338 3\nheld 8387 25 25\nring 8623 4\nring 8655 1\nstart 3 lost-nested 0 1 0 -\nring 8623 5\nend 3 3 0 1\nfinal\nend\n",
        19,
    ),
    // An end twice.
    (
        b"phase\nsession 1 u h\nstart wait/io/file/sql/binlog\nspend 5\nend\nstart wait/io/file/sql/binlog\nend\n",
        b"pfs-report 1\nphase 1\nsession 1\nconnect 2 1 0 0 0\ntag 2 1\ntag 33 2\ntag 65 2\ntag 97 2\nset 2 1 3\nstart 6 attributed 1 1 0 -\nend 6 6 1 1\nend 6 6 1 1\nfinal\nend\n",
        12,
    ),
    // A start on a table without the version of its word.
    (
        b"class wait/io/file/own/x YES YES\nclass stage/own/y YES NO\nclass statement/own/z YES YES\nphase\nsession 4 v g\nstart wait/io/file/own/x\nstart wait/synch/mutex/sql/LOCK_open\nstart wait/lock/table/sql/handler db.t\nstart wait/io/file/own/x\nstart wait/io/socket/sql/client_connection\nphase\nsession 4\nend\nstart wait/io/table/sql/handler db.u\nstart wait/io/table/sql/handler mysql.t\nend\nstart wait/io/file/own/x\nstart wait/io/file/sql/binlog\nstart wait/lock/table/sql/handler db.u\n",
        b"pfs-report 1\nphase 1\nsession 4\nconnect 2 1 1 1 0\ntag 2 1\ntag 34 1\ntag 66 1\ntag 97 2\nset 2 1 3\nstart 1 attributed 0 1 0 -\nring 8506 1\nstart 3 attributed 0 1 0 -\nring 8507 3\nstart 4 attributed 0 1 0 0\nring 8508 1\nstart 5 attributed 0 1 0 -\nring 8509 1\nstart - off-class 0 1 0 -\nfinal\nphase 2\nsession 4\nend - - - -\nstart - lost-locker 0 1 0 0\nstart - off-table 0 1 0 0\nend - - - -\nstart - lost-locker 0 1 1 -\nstart - lost-locker 0 1 0 0\nfinal\nend\n",
        27,
    ),
    // A refused start twice.
    (
        b"class wait/io/file/own/x YES YES\nclass stage/own/y YES NO\nclass statement/own/z YES YES\nphase\nsession 4 v g\nstart wait/io/file/own/x\nstart wait/synch/mutex/sql/LOCK_open\nstart wait/lock/table/sql/handler db.t\nstart wait/io/file/own/x\nstart wait/io/socket/sql/client_connection\nphase\nsession 4\nend\nstart wait/io/table/sql/handler db.u\nstart wait/io/file/own/x\nstart wait/io/file/sql/binlog\nstart wait/lock/table/sql/handler db.u\nend\nstart wait/synch/mutex/sql/LOCK_open\n",
        b"pfs-report 1\nphase 1\nsession 4\nconnect 2 1 1 1 0\ntag 2 1\ntag 34 1\ntag 66 1\ntag 97 2\nset 2 1 3\nstart 1 attributed 0 1 0 -\nring 8506 1\nstart 3 attributed 0 1 0 -\nring 8507 3\nstart 4 attributed 0 1 0 0\nring 8508 1\nstart 5 attributed 0 1 0 -\nring 8509 1\nstart - off-class 0 1 0 -\nfinal\nphase 2\nsession 4\nend - - - -\nstart - lost-locker 0 1 0 0\nstart - lost-locker 0 1 1 -\nstart - lost-locker 0 1 1 -\nstart - lost-locker 0 1 0 0\nstart - lost-locker 0 1 0 0\nfinal\nend\n",
        27,
    ),
    // The start of an event of no table, where one of a table is due.
    (
        b"class wait/io/file/own/x YES YES\nclass stage/own/y YES NO\nclass statement/own/z YES YES\nphase\nsession 4 v g\nstart wait/io/file/own/x\nstart wait/synch/mutex/sql/LOCK_open\nstart wait/lock/table/sql/handler db.t\nstart wait/io/file/own/x\nstart wait/io/socket/sql/client_connection\nphase\nsession 4\nend\nstart wait/synch/mutex/sql/LOCK_open\nend\nspend 7\nstart wait/io/table/sql/handler db.u\nstart wait/io/table/sql/handler mysql.t\nstart wait/io/file/innodb/innodb_data_file\n",
        b"pfs-report 1\nphase 1\nsession 4\nconnect 2 1 1 1 0\ntag 2 1\ntag 34 1\ntag 66 1\ntag 97 2\nset 2 1 3\nstart 1 attributed 0 1 0 -\nring 8506 1\nstart 3 attributed 0 1 0 -\nring 8507 3\nstart 4 attributed 0 1 0 0\nring 8508 1\nstart 5 attributed 0 1 0 -\nring 8509 1\nstart - off-class 0 1 0 -\nfinal\nphase 2\nsession 4\nend - - - -\nstart - lost-locker 0 1 0 -\nend - - - -\nstart - off-table 0 1 0 0\nstart - lost-locker 0 1 0 -\nfinal\nend\n",
        26,
    ),
    // Another session's block in a second phase.
    (
        b"phase\nsession 2 u g\nsession 3 u g\nsession 5 v g\nsession 1 w h\nphase\nsession 5\nsession 1\nsession 3\nsession 2\n",
        b"pfs-report 1\nphase 1\nsession 2\nconnect 1 0 0 0 0\nsession 3\nconnect 2 1 0 0 0\nsession 5\nconnect 3 2 1 1 0\nsession 1\nconnect 4 3 2 2 1\nfinal\nphase 2\nsession 5\nsession 1\nsession 5\nsession 2\nfinal\nend\n",
        15,
    ),
];

/// Actions and readings.
const ACTIONS: [(&[u8], &[u8], u64); 10] = [
    // A reading among the tags of a connect.
    (
        b"phase\nsession 3 w h\nstart statement/sql/select INSERT INTO t VALUES (1,2),(3,4)\nend\n",
        b"pfs-report 1\nphase 1\nsession 3\nconnect 5 0 0 0 0\ntag 1 2\ntag 33 3\nseen 6284 0\nfinal\nend\n",
        7,
    ),
    // What is vacant, outside a SELECT.
    (
        b"phase\nsession 1 v h\nstart transaction rw\nsql SELECT * FROM events_waits_current LIMIT 3\nspend 0\nstart statement/sp/stmt INSERT INTO t VALUES (1,2),(3,4)\nend\nstart statement/sp/stmt SELECT * FROM t WHERE a IN (1,2,3)\n",
        b"pfs-report 1\nphase 1\nsession 1\nconnect 2 1 - 1 1\ntag 2 1\ntag 66 1\ntag 98 1\nset 2 1 3\nstart 4 aside 0 1 0 -\nquery\nseen 1 1\nvacant 8509\nrows 0\nstart 5 aside 0 1 0 -\nvacant 10411\nfinal\nend\n",
        15,
    ),
    // What is vacant, among the moves of an action.
    (
        b"phase\nsession 1 u h\nphase\nsession 1\nstart wait/io/socket/sql/client_connection\nstart wait/io/file/sql/binlog\nsql UPDATE setup_objects SET TIMED='NO' WHERE OBJECT_TYPE='TABLE'\nsql TRUNCATE TABLE accounts\nstart wait/io/socket/sql/client_connection\nsql UPDATE setup_consumers SET ENABLED='YES'\n",
        b"pfs-report 1\nphase 1\nsession 1\nconnect 6 3 3 - 1\ntag 4 1\ntag 36 1\ntag 98 2\nset 4 1 3\nfinal\nphase 2\nsession 1\nstart - off-class 1 1 0 -\nstart 1 attributed 1 1 0 -\nring 8618 1\nact 16\nset 96 1 1\nset 98 2 0\nreply 5\nact 17\ntake 129 2\ntake 2367 2\nvacant 11073\nfinal\nend\n",
        22,
    ),
    // A move among the readings of a SELECT.
    (
        b"phase\nsession 1 u h\nstart transaction rw\nend\nsql SELECT * FROM events_statements_summary_by_host_by_event_name\nsql SELECT * FROM threads\nstart wait/io/file/sql/binlog\n",
        b"pfs-report 1\nphase 1\nsession 1\nconnect 5 3 1 1 0\ntag 4 1\ntag 34 3\ntag 66 3\ntag 97 4\nset 4 1 3\nstart 8 attributed 0 1 0 -\nring 8633 5\nend 8 8 0 1\nadd 383 3\nring 8633 6\nring 8666 1\nquery\nseen 1 1\nvacant 44\ntake 150 1\nfinal\nend\n",
        19,
    ),
    // A move with its source there.
    (
        b"phase\nsession 2 u h\nphase\nsession 2\nstart transaction rw\nend\nsql SELECT * FROM events_statements_history\nstart statement/sql/select \nend\n",
        b"pfs-report 1\nphase 1\nsession 2\nconnect 3 2 0 0 0\ntag 3 1\ntag 33 3\ntag 65 3\ntag 97 3\nset 3 1 3\nfinal\nphase 2\nsession 2\nstart 18 attributed 0 1 0 -\nring 8577 3\nend 18 18 0 1\nadd 319 2\nring 8577 4\nring 8609 1\nquery\nseen 1 1\nvacant 8546\ngive 4242 6 2194\nfinal\nend\n",
        22,
    ),
    // A reading among the releases of an action.
    (
        b"class wait/io/file/own/x YES YES\nclass stage/own/y YES NO\nclass statement/own/z YES YES\nphase\nsession 3 v g\nstart transaction ro\nstart statement/sql/select SELECT 1\nstart statement/own/z SELECT * FROM t WHERE a IN (1,2,3)\nstart statement/sql/select select a, 'x''y' from `b` -- c\nstart wait/lock/table/sql/handler mysql.t\nend\nsql TRUNCATE TABLE events_statements_history_long\nend\nsql TRUNCATE TABLE events_stages_history\n",
        b"pfs-report 1\nphase 1\nsession 3\nconnect 2 1 1 - 1\ntag 2 1\ntag 34 1\ntag 98 1\nset 2 1 3\nstart 2 aside 0 1 0 -\nstart 3 aside 0 1 0 -\nstart 4 aside 0 1 0 -\nstart 5 attributed 1 1 0 -\nring 8513 1\nstart - off-table 1 1 0 0\nend - - - -\nact 8\nfree 12242 1\nfree 12437 0\nseen 2311 1\nfinal\nend\n",
        19,
    ),
    // A reading among the releases of an action, with events open across phases.
    (
        b"limit thread_instances 1\nlimit hosts 1\nlimit digests 1\nlimit file_classes 2\nlimit stage_classes 3\nclass wait/io/file/own/x YES YES\nclass stage/own/y YES NO\nclass statement/own/z YES YES\nphase\nsession 1 w h\nstart transaction ro\nstart statement/own/z DELETE FROM orders\nstart wait/io/file/own/x\nstart wait/io/file/innodb/innodb_data_file\nstart wait/io/socket/sql/client_connection\nstart wait/io/file/own/x\nstart wait/io/file/sql/binlog\nstart wait/synch/mutex/sql/LOCK_open\nphase\nsession 1\nend\nend\nend\nstart wait/io/file/sql/binlog\nstart wait/synch/mutex/sql/LOCK_open\nend\nstart wait/io/table/sql/handler db.t\nstart wait/io/socket/sql/client_connection\nend\nsql TRUNCATE TABLE events_statements_history_long\nend\nstart wait/io/file/innodb/innodb_data_file\n",
        b"pfs-report 1\nphase 1\nsession 1\nconnect 1 0 0 0 0\ntag 1 1\ntag 33 1\ntag 65 1\ntag 97 1\nset 1 1 3\nstart 1 attributed 0 1 0 -\nring 8465 1\nstart 2 attributed 0 1 0 -\nring 8455 1\nstart - lost-class - - - -\nstart 3 attributed 0 1 0 -\nring 8450 1\nstart 4 attributed 0 1 1 -\nring 8451 1\nstart - lost-class - - - -\nstart 5 attributed 0 1 0 -\nring 8452 1\nstart 6 attributed 0 1 1 -\nring 8453 1\nfinal\nphase 2\nsession 1\nend 6 6 1 1\nheld 129 2 1\nring 8453 2\nend 5 6 1 1\nadd 135 1\nring 8452 2\nend - - - -\nstart 9 attributed 1 1 0 -\nstart 10 attributed 1 1 1 -\nend 10 10 1 1\nadd 129 2\nstart 11 attributed 1 1 0 0\nstart - lost-locker 1 1 1 -\nend - - - -\nact 11\nfree 12242 0\nfree 12836 0\nseen 144 1\nfinal\nend\n",
        44,
    ),
    // A reading among the moves of an action.
    (
        b"phase\nsession 1 u h\nstart transaction rw\nend\nsql TRUNCATE hosts\nsql TRUNCATE accounts\nstart transaction rw\n",
        b"pfs-report 1\nphase 1\nsession 1\nconnect 2 1 1 1 0\ntag 2 1\ntag 34 1\ntag 66 1\ntag 97 2\nset 2 1 3\nstart - off-thread 0 2 0 -\nend - - - -\nact 13\ntake 129 5\ntake 6289 2\nseen 212 7\nfinal\nend\n",
        15,
    ),
    // A SELECT's readings without its `query`.
    (
        b"phase\nsession 4 v h\nphase\nsession 4\nstart wait/io/file/sql/binlog\nspend 5\nend\nsql SELECT * FROM events_statements_history\nstart statement/sql/select \n",
        b"pfs-report 1\nphase 1\nsession 4\nconnect 2 1 1 1 0\ntag 2 1\ntag 34 1\ntag 66 1\ntag 97 2\nset 2 1 3\nfinal\nphase 2\nsession 4\nstart 26 attributed 0 1 0 -\nend 26 26 0 1\nadd 199 12\nseen 1 1\nfinal\nend\n",
        16,
    ),
    // What is vacant, among the moves of a second action.
    (
        b"phase\nsession 2 u g\nphase\nsession 2\nstart transaction ro\nstart wait/io/table/sql/handler db.u\nstart wait/lock/table/sql/handler db.u\nsql INSERT INTO setup_objects VALUES ('TABLE','mysql','t','YES','NO')\nsql TRUNCATE TABLE events_transactions_summary_by_thread_by_event_name\nstart wait/lock/table/sql/handler mysql.t\nstart wait/io/file/innodb/innodb_data_file\n",
        b"pfs-report 1\nphase 1\nsession 2\nconnect 5 4 0 0 0\ntag 5 1\ntag 33 2\ntag 65 2\ntag 97 4\nset 5 1 3\nfinal\nphase 2\nsession 2\nstart 4 attributed 0 1 0 -\nring 8689 5\nstart 7 attributed 0 1 1 0\nring 8674 3\nstart 8 attributed 0 1 0 0\nring 8675 1\nact 13\nset 97 1 1\nreply 1\nact 14\ntake 191 1\ntake 192 1\nvacant 13197\nfinal\nend\n",
        25,
    ),
];

#[test]
fn what_events_bring(rt: HostRuntime) {
    for (script, report, line) in &BROUGHT {
        assert_eq!(rt; stops_at(rt.alloc(), script, report), Some(*line));
    }
}

#[test]
fn starts_and_ends_and_blocks(rt: HostRuntime) {
    for (script, report, line) in &EVENTS {
        assert_eq!(rt; stops_at(rt.alloc(), script, report), Some(*line));
    }
}

#[test]
fn actions_and_readings(rt: HostRuntime) {
    for (script, report, line) in &ACTIONS {
        assert_eq!(rt; stops_at(rt.alloc(), script, report), Some(*line));
    }
}
