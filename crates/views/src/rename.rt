// rename and update (document 01, "Changes"), window (document 02, card 7): the records that are done get another label, or another window; in place, in one pass.
ghost use Rattle.std.specs.Prelude.{◌≡◌, true, ◌≤◌, length};
ghost use Rattle.rights.specs.Limits.{label_max};
ghost use Rattle.rights.specs.Table.{count, records, window_ok, table_ok};
ghost use Rattle.rights.specs.Marks.{marks_of};
ghost use Rattle.views.specs.Change.{renamed, redated, changed};

use crate::overwrite::overwrite_marked;
use rights::limits::{RECORD_BYTES, SPARE_AT, WINDOW_AT};
use rights::record::put_label;

// Stores a label in every marked record: its length and its padded bytes, which are bytes 1 to 25 of a record.
pub fn rename_marked(t: &mut [u8], marks: &[u8], label: &[u8])
    requires { (table_ok t.old ≡ true) × (count t.old ≤ length marks.now) × (length label.now ≤ label_max) }
    ensures { t.new ≡ changed t.old
        (renamed label.now (marks_of marks.now) (records t.old)) }
{
    let mut record = [0; RECORD_BYTES];
    put_label(&mut record, 0, label);
    overwrite_marked(t, marks, &record[1..SPARE_AT], 1);
}

// Stores the window of the days first and last in every marked record.
pub fn redate_marked(t: &mut [u8], marks: &[u8], first: usize, last: usize)
    requires { (table_ok t.old ≡ true) × (count t.old ≤ length marks.now) × (window_ok first last ≡ true) }
    ensures { t.new ≡ changed t.old
        (redated first last (marks_of marks.now) (records t.old)) }
{
    let [a, b] = (first as u16).to_le_bytes();
    let [c, d] = (last as u16).to_le_bytes();
    let window = [a, b, c, d];
    overwrite_marked(t, marks, &window, WINDOW_AT);
}
