// What a user is shown of a table on a day (document 01, "View"; document 02, card 7): the numbers of the shown nodes, in document order.
ghost use Rattle.std.specs.Prelude.{◌≡◌, true, cond, ◌&&◌, ◌++◌, ◌+◌, ◌*◌, ◌≤◌, ◌<◌, leb, length, drop, set};
ghost use Rattle.rights.specs.Limits.{records_max};
ghost use Rattle.rights.specs.Policy.{read};
ghost use Rattle.rights.specs.Rights.{holds};
ghost use Rattle.rights.specs.Table.{rec_at, level, records_from, count, table_ok};
ghost use Rattle.views.specs.Shown.{grants, in_window, stored_from, stored};
ghost use Rattle.views.specs.How.Numbers.{depth_after, numbers_from, shown_numbers};

use rights::limits::{COUNT_BYTES, POSITION, READ, RECORD_BYTES, RECORDS_MAX, WINDOW_AT};
use rights::rights::holds_right;
use rights::table::{count_of, day_at};

// Whether these rights grant a node. Nothing else decides it.
fn is_granted(set: u8) -> bool
    ensures { result ≡ grants set }
{
    holds_right(set, READ) || holds_right(set, POSITION)
}

// Whether the window of the record at byte `at` takes in a day.
fn in_window(table: &[u8], at: usize, day: usize) -> bool
    requires { at + 32 ≤ length table.now }
    ensures { result ≡ in_window day (rec_at table.now at) }
{
    day_at(table, at + WINDOW_AT) <= day && day <= day_at(table, at + WINDOW_AT + 2)
}

// Whether the node of the record at byte `at` is shown on a day, below a shown chain of this depth.
fn is_shown(depth: usize, table: &[u8], at: usize, set: u8, day: usize) -> bool
    requires { at + 32 ≤ length table.now }
    ensures { result ≡ ((grants set && in_window day (rec_at table.now at)) && leb (level (rec_at table.now at)) depth) }
{
    usize::from(table[at]) <= depth && is_granted(set) && in_window(table, at, day)
}

// The depth of the shown chain after a node at this level.
fn depth_after(depth: usize, level: u8, shown: bool) -> usize
    ensures { result ≡ depth_after depth level shown }
{
    let level = usize::from(level);
    if shown { level + 1 } else { depth.min(level) }
}

// The number that stands for a shown node: its record's, and 16,384 more where the label stays hidden.
fn number_of(i: usize, set: u8) -> u16
    requires { i < records_max }
    ensures { result ≡ cond (holds read set) i (i + records_max) }
{
    let number = if holds_right(set, READ) {
        i
    } else {
        i + RECORDS_MAX
    };
    number as u16
}

// The shown ones of the first n nodes, by the depth of the shown chain.
fn show_first(table: &[u8], n: usize, rights: &[u8], day: usize, shown: &mut [u16]) -> usize
    requires { (4 + n * 32 ≤ length table.now) × (n ≤ records_max) × (n ≤ length rights.now) × (n ≤ length shown.old) }
    ensures { (result ≡ length (numbers_from 0 (stored_from day 0 (records_from table.now n 0) rights.now)))
        × (shown.new ≡ numbers_from 0 (stored_from day 0 (records_from table.now n 0) rights.now) ++ drop result
        shown.old) }
{
    let mut depth = 0;
    let mut k = 0;
    for i in 0..n {
        let at = COUNT_BYTES + i * RECORD_BYTES;
        let on = is_shown(depth, table, at, rights[i], day);
        depth = depth_after(depth, table[at], on);
        if on {
            shown[k] = number_of(i, rights[i]);
            k += 1;
        }
    }
    k
}

// Writes the numbers of the nodes shown on a day to the front of `shown` and returns how many there are.
pub fn show(table: &[u8], rights: &[u8], day: usize, shown: &mut [u16]) -> usize
    requires { (table_ok table.now ≡ true) × (count table.now ≤ length rights.now) × (count table.now ≤ length shown.old) }
    ensures { (result ≡ length (shown_numbers (stored day table.now rights.now)))
        × (shown.new ≡ shown_numbers (stored day table.now rights.now) ++ drop result shown.old) }
{
    let n = count_of(table);
    show_first(table, n, rights, day, shown)
}
