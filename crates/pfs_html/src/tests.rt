//! A page as it is written, of what no clause says: its layout.

use crate::Page;
use pfs_outside::{MemorySink, MemorySource};
use pfs_view::{Status, view};
use std::alloc::Global;
use std::fmt::Debug;
use std::process::Abort;
use std::test::Fail;

// Behind a call a test knows no more than before, so a proof of many assertions stays short.
fn same<T: PartialEq + Debug + Drop>(rt: &impl Abort, what: &str, got: T, want: T) {
    assert_eq!(rt; got, want, "{what}");
}

/// The page of a text, and how writing it ended.
fn written(alloc: Global, text: &[u8]) -> Result<(Status, MemorySink), Fail> {
    let mut source = MemorySource::new(alloc, text, &[])?;
    let mut sink = MemorySink::new(alloc, 8_000, &[])?;
    let status = view(alloc, &Page, 0, &mut source, &mut sink);
    Ok((status, sink))
}

const REPORT: &[u8] = b"pfs-report 1
phase 1
session 1
settle
query
rows 2
row 'a<b' 7
row NULL 8
final
table accounts
row 'u' 'h' 1 1
table events_waits_summary_global_by_event_name
row 'wait/io/file/sql/binlog' 1 1000 1000 1000 1000
row 'wait/io/file/a\"b&c''d<e>' 2 3000 1000 1500 2000
lost Performance_schema_users_lost 3
end
";

const WRITTEN: &str = "<section>
<h2>Phase 1</h2>
<h3>Who was connected</h3>
<div><table>
<tr><th>USER</th><th>HOST</th><th>CURRENT_CONNECTIONS</th><th>TOTAL_CONNECTIONS</th></tr>
<tr><td>u</td><td>h</td><td class=\"n\">1</td><td class=\"n\">1</td></tr>
</table></div>
<h3>Waits by time</h3>
<div><table>
<tr><th></th><th>EVENT_NAME</th><th>COUNT_STAR</th><th>SUM_TIMER_WAIT</th><th>AVG_TIMER_WAIT</th><th>MAX_TIMER_WAIT</th></tr>
<tr><td><meter max=\"3000\" value=\"3000\"></meter></td><td>wait/io/file/a&quot;b&amp;c&#39;d&lt;e&gt;</td><td class=\"n\">2</td><td class=\"n\">3.00 ns</td><td class=\"n\">1.50 ns</td><td class=\"n\">2.00 ns</td></tr>
<tr><td><meter max=\"3000\" value=\"1000\"></meter></td><td>wait/io/file/sql/binlog</td><td class=\"n\">1</td><td class=\"n\">1.00 ns</td><td class=\"n\">1.00 ns</td><td class=\"n\">1.00 ns</td></tr>
</table></div>
<h3>All tables</h3>
<details><summary>accounts <i>1</i></summary>
<div><table>
<tr><th>USER</th><th>HOST</th><th>CURRENT_CONNECTIONS</th><th>TOTAL_CONNECTIONS</th></tr>
<tr><td>u</td><td>h</td><td class=\"n\">1</td><td class=\"n\">1</td></tr>
</table></div>
</details>
<details><summary>events_waits_summary_global_by_event_name <i>2</i></summary>
<div><table>
<tr><th>EVENT_NAME</th><th>COUNT_STAR</th><th>SUM_TIMER_WAIT</th><th>MIN_TIMER_WAIT</th><th>AVG_TIMER_WAIT</th><th>MAX_TIMER_WAIT</th></tr>
<tr><td>wait/io/file/sql/binlog</td><td class=\"n\">1</td><td class=\"n\">1.00 ns</td><td class=\"n\">1.00 ns</td><td class=\"n\">1.00 ns</td><td class=\"n\">1.00 ns</td></tr>
<tr><td>wait/io/file/a&quot;b&amp;c&#39;d&lt;e&gt;</td><td class=\"n\">2</td><td class=\"n\">3.00 ns</td><td class=\"n\">1.00 ns</td><td class=\"n\">1.50 ns</td><td class=\"n\">2.00 ns</td></tr>
</table></div>
</details>
<details><summary>lost <i>1</i></summary>
<div><table>
<tr><th>COUNTER</th><th>NUMBER</th></tr>
<tr><td>Performance_schema_users_lost</td><td class=\"n\">3</td></tr>
</table></div>
</details>
<h3>Journals</h3>
<details><summary>Session 1 <i>3</i></summary>
<pre>settle
query
rows 2
</pre>
<h4>Answer 1</h4>
<div><table>
<tr><th>1</th><th>2</th></tr>
<tr><td>a&lt;b</td><td class=\"n\">7</td></tr>
<tr><td>NULL</td><td class=\"n\">8</td></tr>
</table></div>
</details>
</section>
</body>
</html>
";

#[test]
fn a_report_is_written_whole(rt: HostRuntime) -> Result<(), Fail> {
    let (status, sink) = written(rt.alloc(), REPORT)?;
    same(&rt, "status", status, Status::Done);
    same(
        &rt,
        "page",
        sink.bytes().ends_with(WRITTEN.as_bytes()),
        true,
    );
    Ok(())
}

#[test]
fn the_first_wrong_line_is_told(rt: HostRuntime) -> Result<(), Fail> {
    let (status, sink) = written(rt.alloc(), b"pfs-report 1\nphase 1\n<script>\n")?;
    same(&rt, "status", status, Status::BadReport { at: 3 });
    same(
        &rt,
        "text",
        sink.bytes(),
        b"this is no report: line 3 is wrong\n".as_slice(),
    );
    Ok(())
}
