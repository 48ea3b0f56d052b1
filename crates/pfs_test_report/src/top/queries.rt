//! Reports of SELECTs: what is read of the store, what the administration holds, and texts that are refused.

use super::{reports, reports_by};
use std::test::Fail;

const READINGS: [(&str, &[u8], &[u8]); 3] = [
    // A row of those that count.
    (
        "run",
        b"phase\nsession 1 u h\nstart wait/io/file/sql/binlog\nspend 5\nend\nsql SELECT EVENT_NAME, COUNT_STAR FROM events_waits_summary_global_by_event_name WHERE COUNT_STAR > 0\n",
        b"pfs-report 1\nphase 1\nsession 1\nconnect 1 0 0 0 0\ntag 1 1\ntag 33 1\ntag 65 1\ntag 97 1\nset 1 1 3\nstart 1 attributed 0 1 0 -\nend 1 1 0 1\nadd 135 1\nquery\nseen 1 1\nvacant 2\nvacant 3\nvacant 4\nvacant 5\nvacant 6\nvacant 7\nvacant 8\nvacant 9\nvacant 10\nvacant 11\nvacant 12\nvacant 13\nvacant 14\nvacant 15\nvacant 16\nvacant 17\nvacant 18\nvacant 19\nvacant 20\nvacant 21\nvacant 22\nvacant 23\nvacant 24\nvacant 25\nvacant 26\nvacant 27\nvacant 28\nvacant 29\nvacant 30\nvacant 31\nvacant 32\nseen 33 1\nvacant 34\nvacant 35\nvacant 36\nvacant 37\nvacant 38\nvacant 39\nvacant 40\nvacant 41\nvacant 42\nvacant 43\nvacant 44\nvacant 45\nvacant 46\nvacant 47\nvacant 48\nvacant 49\nvacant 50\nvacant 51\nvacant 52\nvacant 53\nvacant 54\nvacant 55\nvacant 56\nvacant 57\nvacant 58\nvacant 59\nvacant 60\nvacant 61\nvacant 62\nvacant 63\nvacant 64\nseen 97 1\nvacant 98\nvacant 99\nvacant 100\nvacant 101\nvacant 102\nvacant 103\nvacant 104\nvacant 105\nvacant 106\nvacant 107\nvacant 108\nvacant 109\nvacant 110\nvacant 111\nvacant 112\nvacant 113\nvacant 114\nvacant 115\nvacant 116\nvacant 117\nvacant 118\nvacant 119\nvacant 120\nvacant 121\nvacant 122\nvacant 123\nvacant 124\nvacant 125\nvacant 126\nvacant 127\nvacant 128\nseen 129 0\nseen 130 0\nseen 131 0\nseen 132 0\nseen 133 0\nseen 134 0\nseen 135 1\nseen 136 0\nseen 137 0\nseen 138 0\nseen 139 0\nseen 140 0\nseen 2177 0\nseen 2178 0\nseen 2179 0\nseen 2180 0\nseen 2181 0\nseen 2182 0\nseen 2183 0\nseen 2184 0\nseen 2185 0\nseen 2186 0\nseen 2187 0\nseen 2188 0\nseen 6273 0\nseen 6274 0\nseen 6275 0\nseen 6276 0\nseen 6277 0\nseen 6278 0\nseen 6279 0\nseen 6280 0\nseen 6281 0\nseen 6282 0\nseen 6283 0\nseen 6284 0\nseen 8321 0\nseen 8322 0\nseen 8323 0\nseen 8324 0\nseen 8325 0\nseen 8326 0\nseen 8327 0\nseen 8328 0\nseen 8329 0\nseen 8330 0\nseen 8331 0\nseen 8332 0\nrows 1\nrow 'wait/io/file/sql/binlog' 1\nfinal\ntable threads\nrow 1 'u' 'h' 'YES' 'YES'\ntable accounts\nrow 'u' 'h' 1 1\ntable users\nrow 'u' 1 1\ntable hosts\nrow 'h' 1 1\ntable events_waits_summary_by_thread_by_event_name\nrow 1 'wait/io/file/sql/binlog' 1 5 5 5 5\ntable events_waits_summary_by_account_by_event_name\nrow 'u' 'h' 'wait/io/file/sql/binlog' 1 5 5 5 5\ntable events_waits_summary_by_user_by_event_name\nrow 'u' 'wait/io/file/sql/binlog' 1 5 5 5 5\ntable events_waits_summary_by_host_by_event_name\nrow 'h' 'wait/io/file/sql/binlog' 1 5 5 5 5\ntable events_waits_summary_global_by_event_name\nrow 'wait/io/file/sql/binlog' 1 5 5 5 5\nend\n",
    ),
    // Statements that are open, the inner one first; and who has a history.
    (
        "plain",
        b"phase\nsession 1 u h\nsql UPDATE threads SET HISTORY = 'NO'\nstart statement/sql/select\nspend 3\nstart statement/sp/stmt\nsql SELECT EVENT_ID, EVENT_NAME, TIMER_START, TIMER_END, NESTING_EVENT_TYPE FROM events_statements_current WHERE TIMER_END IS NULL ORDER BY NESTING_EVENT_TYPE DESC\nsession 2 v h\nsql SELECT PROCESSLIST_USER, THREAD_ID FROM threads WHERE HISTORY = 'YES' ORDER BY THREAD_ID DESC\n",
        b"pfs-report 1\nphase 1\nsession 1\nconnect 1 0 0 0 0\ntag 1 1\ntag 33 1\ntag 65 1\ntag 97 1\nset 1 1 3\nact 2\nset 1 2 1\nreply 1\nstart 1 attributed 0 2 0 -\nring 8455 1\nstart 2 attributed 0 2 0 -\nring 8456 1\nquery\nseen 1 1\nvacant 2\nvacant 3\nvacant 4\nvacant 5\nvacant 6\nvacant 7\nvacant 8\nvacant 9\nvacant 10\nvacant 11\nvacant 12\nvacant 13\nvacant 14\nvacant 15\nvacant 16\nvacant 17\nvacant 18\nvacant 19\nvacant 20\nvacant 21\nvacant 22\nvacant 23\nvacant 24\nvacant 25\nvacant 26\nvacant 27\nvacant 28\nvacant 29\nvacant 30\nvacant 31\nvacant 32\nseen 8455 1\nseen 8456 1\nvacant 8457\nvacant 8458\nvacant 8459\nvacant 8460\nvacant 8461\nvacant 8462\nvacant 8463\nvacant 8464\nrows 2\nrow 2 'statement/sp/stmt' 3 NULL 'STATEMENT'\nrow 1 'statement/sql/select' 0 NULL NULL\nsession 2\nconnect 3 1 1 1 0\ntag 2 1\ntag 34 1\ntag 66 1\ntag 97 2\nset 2 1 3\nquery\nseen 1 1\nseen 2 1\nvacant 3\nvacant 4\nvacant 5\nvacant 6\nvacant 7\nvacant 8\nvacant 9\nvacant 10\nvacant 11\nvacant 12\nvacant 13\nvacant 14\nvacant 15\nvacant 16\nvacant 17\nvacant 18\nvacant 19\nvacant 20\nvacant 21\nvacant 22\nvacant 23\nvacant 24\nvacant 25\nvacant 26\nvacant 27\nvacant 28\nvacant 29\nvacant 30\nvacant 31\nvacant 32\nsaw 1 2\nsaw 2 1\nrows 1\nrow 'v' 2\nfinal\ntable threads\nrow 1 'u' 'h' 'YES' 'NO'\nrow 2 'v' 'h' 'YES' 'YES'\ntable accounts\nrow 'u' 'h' 1 1\nrow 'v' 'h' 1 1\ntable users\nrow 'u' 1 1\nrow 'v' 1 1\ntable hosts\nrow 'h' 2 2\ntable events_statements_current\nrow 1 1 NULL 'statement/sql/select' 0 NULL NULL NULL NULL 0 0 0 0 0 0 'e3b0c44298fc1c149afbf4c8996fb92427ae41e4649b934ca495991b7852b855'\nrow 1 2 NULL 'statement/sp/stmt' 3 NULL NULL 1 'STATEMENT' 0 0 0 0 0 0 'e3b0c44298fc1c149afbf4c8996fb92427ae41e4649b934ca495991b7852b855'\nend\n",
    ),
    // Consumers before a change and behind it; rows that are equal stay in the order of the table.
    (
        "run",
        b"phase\nsession 1 u h\nrepeat 2\nsql SELECT NAME FROM setup_consumers WHERE NAME LIKE 'events\\_%\\_current' AND ENABLED = 'NO'\nsql UPDATE setup_consumers SET ENABLED = 'YES' WHERE NAME LIKE '%waits_current'\ndone\nsql SELECT ENABLED, NAME FROM setup_consumers WHERE NAME < 'events_t' ORDER BY ENABLED LIMIT 4\n",
        b"pfs-report 1\nphase 1\nsession 1\nconnect 1 0 0 0 0\ntag 1 1\ntag 33 1\ntag 65 1\ntag 97 1\nset 1 1 3\nquery\nsaw 0 0\nrows 2\nrow 'events_stages_current'\nrow 'events_waits_current'\nact 2\nset 0 1 29400\nreply 1\nquery\nsaw 0 1\nrows 1\nrow 'events_stages_current'\nact 3\nreply 1\nquery\nsaw 0 1\nrows 4\nrow 'NO' 'events_stages_current'\nrow 'NO' 'events_stages_history'\nrow 'NO' 'events_stages_history_long'\nrow 'NO' 'events_statements_history_long'\nfinal\ntable threads\nrow 1 'u' 'h' 'YES' 'YES'\ntable accounts\nrow 'u' 'h' 1 1\ntable users\nrow 'u' 1 1\ntable hosts\nrow 'h' 1 1\nend\n",
    ),
];

#[test]
fn a_select_shows_what_its_readings_found(rt: HostRuntime) -> Result<(), Fail> {
    for (word, script, report) in &READINGS {
        assert!(rt; reports_by(&rt, rt.alloc(), word, script, report)?);
    }
    Ok(())
}

const RULES: [(&[u8], &[u8]); 2] = [
    // In the midst of changes: in any letter case, from the last row to the first, none, all, and none with NULL.
    (
        b"phase\nsession 1 u h\nsql SELECT * FROM setup_actors\nsql INSERT INTO setup_actors (USER, HISTORY) VALUES ('root', 'NO')\nsql \tselect History , USER from Performance_Schema.SETUP_Actors order by user desc ; \nsql SELECT USER FROM setup_actors LIMIT 0\nsql SELECT USER FROM setup_actors WHERE USER LIKE 'r_o%' LIMIT 18446744073709551615\nsql SELECT USER FROM setup_actors WHERE ROLE IS NULL\nsql DELETE FROM setup_actors WHERE USER = '%'\nsql SELECT USER, ENABLED FROM setup_actors WHERE USER <> 'ROOT' AND ROLE IS NOT NULL\nsql SELECT OBJECT_TYPE, ENABLED FROM setup_objects WHERE OBJECT_SCHEMA = 'mysql' ORDER BY ENABLED, OBJECT_TYPE DESC LIMIT 2\n",
        b"pfs-report 1\nphase 1\nsession 1\nconnect 1 0 0 0 0\ntag 1 1\ntag 33 1\ntag 65 1\ntag 97 1\nset 1 1 3\nact 2\nrows 1\nrow '%' '%' '%' 'YES' 'YES'\nact 3\nreply 1\nact 4\nrows 2\nrow 'NO' 'root'\nrow 'YES' '%'\nact 5\nrows 0\nact 6\nrows 1\nrow 'root'\nact 7\nrows 0\nact 8\nreply 1\nact 9\nrows 1\nrow 'root' 'YES'\nact 10\nrows 2\nrow 'TRIGGER' 'NO'\nrow 'TABLE' 'NO'\nfinal\ntable threads\nrow 1 'u' 'h' 'YES' 'YES'\ntable accounts\nrow 'u' 'h' 1 1\ntable users\nrow 'u' 1 1\ntable hosts\nrow 'h' 1 1\nend\n",
    ),
    // A session without a slot is answered all the same; in texts letter case counts.
    (
        b"limit thread_instances 0\nphase\nsession 1 u h\nsql SELECT NAME FROM setup_consumers WHERE ENABLED <> 'NO' ORDER BY NAME LIMIT 1\nsql SELECT NAME FROM setup_consumers WHERE ENABLED <> 'no' AND NAME LIKE 'GLOBAL%'\nsql SELECT USER FROM setup_actors\n",
        b"pfs-report 1\nphase 1\nsession 1\nconnect 1 - - - -\nquery\nsaw 0 0\nrows 1\nrow 'events_statements_current'\nquery\nsaw 0 0\nrows 0\nact 2\nrows 1\nrow '%'\nfinal\nlost Performance_schema_thread_instances_lost 1\nend\n",
    ),
];

#[test]
fn a_select_on_a_rule_table_is_an_action(rt: HostRuntime) -> Result<(), Fail> {
    for (script, report) in &RULES {
        assert!(rt; reports(&rt, rt.alloc(), script, report)?);
    }
    Ok(())
}

/// Refused for the grammar; the table; a column before a type; a type; a column; types; another schema, OR and a limit;
/// and a type. The last one is read.
const REFUSED: &[u8] =
    b"phase\nsession 1 u h\nsql SELECT\nsql SELECT * FROM nothing WHERE a = 1\nsql SELECT NAME, a FROM setup_consumers WHERE NAME = 1\nsql SELECT * FROM setup_consumers WHERE NAME = 1\nsql SELECT * FROM setup_consumers WHERE NAME = 'x' ORDER BY a\nsql SELECT * FROM threads WHERE THREAD_ID = '1'\nsql SELECT * FROM threads WHERE THREAD_ID LIKE '1'\nsql SELECT * FROM other.threads\nsql SELECT * FROM setup_actors WHERE USER = 'u' OR USER = 'v'\nsql SELECT * FROM setup_actors LIMIT 18446744073709551616\nsql SELECT * FROM setup_objects WHERE OBJECT_NAME >= 5\nsql SELECT NAME, NAME FROM setup_consumers WHERE NAME = 'statements_digest' LIMIT 01\n";

const REFUSED_REPORT: &[u8] =
    b"pfs-report 1\nphase 1\nsession 1\nconnect 1 0 0 0 0\ntag 1 1\ntag 33 1\ntag 65 1\ntag 97 1\nset 1 1 3\nerror 1064\nerror 1146\nerror 1054\nerror 1064\nerror 1054\nerror 1064\nerror 1064\nerror 1064\nerror 1064\nerror 1064\nerror 1064\nquery\nsaw 0 0\nrows 1\nrow 'statements_digest' 'statements_digest'\nfinal\ntable threads\nrow 1 'u' 'h' 'YES' 'YES'\ntable accounts\nrow 'u' 'h' 1 1\ntable users\nrow 'u' 1 1\ntable hosts\nrow 'h' 1 1\nend\n";

#[test]
fn a_select_is_refused_with_the_first_reason(rt: HostRuntime) -> Result<(), Fail> {
    assert!(rt; reports(&rt, rt.alloc(), REFUSED, REFUSED_REPORT)?);
    Ok(())
}
