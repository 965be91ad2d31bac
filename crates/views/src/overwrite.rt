// Putting the same bytes over each marked record, from the same byte of it on; in place, in one pass.
ghost use Rattle.std.specs.Prelude.{◌≡◌, ◌++◌, true, cond, not, ◌+◌, ◌*◌, ◌≤◌, ◌<◌, length, get_or, take, drop, eqb};
ghost use Rattle.rights.specs.Table.{count, records, table_ok, level};
ghost use Rattle.rights.specs.Marks.{marks_of};
ghost use Rattle.views.specs.Change.{rename, changed};
ghost use Rattle.views.specs.How.Pass.{overwritten};

use rights::limits::{COUNT_BYTES, RECORD_BYTES};
use rights::table::count_of;

// Puts x over record i from its byte k on, where it is marked.
fn overwrite_one(t: &mut [u8], marks: &[u8], x: &[u8], k: usize, i: usize)
    requires { (4 + i * 32 + 32 ≤ length t.old) × (i < length marks.now) × (k + length x.now ≤ 32) }
    ensures { (take (4 + i * 32 + 32) t.new ≡ take (4 + i * 32) t.old
        ++ cond (not (eqb (get_or marks.now i 0) 0)) (overwritten k x.now
        (take 32 (drop (4 + i * 32) t.old))) (take 32 (drop (4 + i * 32) t.old)))
        × (drop (4 + i * 32 + 32) t.new ≡ drop (4 + i * 32 + 32) t.old) }
{
    if marks[i] != 0 {
        let at = COUNT_BYTES + i * RECORD_BYTES + k;
        t[at..at + x.len()].copy_from_slice(x);
    }
}

// Puts x over every marked record from its byte k on.
pub(crate) fn overwrite_marked(t: &mut [u8], marks: &[u8], x: &[u8], k: usize)
    requires { (table_ok t.old ≡ true) × (count t.old ≤ length marks.now) × (k + length x.now ≤ 32) }
    ensures { t.new ≡ changed t.old
        (rename level (overwritten k x.now) (marks_of marks.now) (records t.old)) }
{
    for i in 0..count_of(t) {
        overwrite_one(t, marks, x, k, i);
    }
}
