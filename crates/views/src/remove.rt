// remove (document 01, "Changes"): the records that are done go, with all below them; in place, in one pass.
ghost use Rattle.std.specs.Prelude.{◌≡◌, true, ◌+◌, ◌-◌, ◌*◌, ◌≤◌, ◌<◌, ltb, length, drop};
ghost use Rattle.rights.specs.Table.{count, records, level, table_ok};
ghost use Rattle.rights.specs.Marks.{marks_of};
ghost use Rattle.views.specs.Change.{chunks, removed, changed};
ghost use Rattle.views.specs.How.Pass.{going, cut_level};
ghost use Rattle.views.specs.Nodes.{Under};

use crate::moves::{clear_from, move_record};
use rights::limits::{COUNT_BYTES, RECORD_BYTES};
use rights::table::{count_of, put_count};

// How many records stay so far, and the level of the record whose descendants are being left out, where there is one.
#[derive(Clone, Copy)]
struct Kept {
    w: usize,
    cut: Option<u8>,
}

impl Kept {
    // Whether a record at this level is left out.
    fn is_below(self, level: u8) -> bool
        requires { level < 12 }
        ensures { result ≡ ltb (cut_level self.cut) level }
    {
        self.cut.is_some_and(|cut| cut < level)
    }
}

// Takes record i.
fn step(t: &mut [u8], marks: &[u8], n: usize, i: usize, kept: Kept) -> Kept
    requires { (4 + n * 32 ≤ length t.old) × (n ≤ length marks.now) × (i < n) × (kept.w ≤ i)
        × (Under level 12 (chunks (n - i) (drop (4 + i * 32) t.old))) }
    ensures { (result.w ≤ i + 1) × (Under level 12 (chunks (n - (i + 1)) (drop (4 + (i + 1) * 32) t.new)))
        × (going n (i + 1) result.w (cut_level result.cut) t.new marks.now
        ≡ going n i kept.w (cut_level kept.cut) t.old marks.now) }
{
    let at = COUNT_BYTES + i * RECORD_BYTES;
    let level = t[at];
    if kept.is_below(level) {
        return kept;
    }
    if marks[i] != 0 {
        return Kept {
            w: kept.w,
            cut: Some(level),
        };
    }
    move_record(t, at, COUNT_BYTES + kept.w * RECORD_BYTES);
    Kept {
        w: kept.w + 1,
        cut: None,
    }
}

// Moves the records that stay to the front; answers how many.
fn compact(t: &mut [u8], marks: &[u8], n: usize) -> usize
    requires { (4 + n * 32 ≤ length t.old) × (n ≤ length marks.now) × (Under level 12 (chunks n (drop 4 t.old))) }
    ensures { (result ≤ n) × (chunks result (drop 4 t.new) ≡ removed (marks_of marks.now) (chunks n (drop 4 t.old))) }
{
    let mut kept = Kept { w: 0, cut: None };
    for i in 0..n {
        kept = step(t, marks, n, i, kept);
    }
    kept.w
}

// Removes each marked record with the records below it. The freed records are zeroed.
pub fn remove_marked(t: &mut [u8], marks: &[u8])
    requires { (table_ok t.old ≡ true) × (count t.old ≤ length marks.now) }
    ensures { t.new ≡ changed t.old (removed (marks_of marks.now) (records t.old)) }
{
    let n = count_of(t);
    let w = compact(t, marks, n);
    clear_from(t, COUNT_BYTES + w * RECORD_BYTES);
    put_count(t, w);
}
