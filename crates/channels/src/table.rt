ghost use Rattle.channels.specs.Table.{fresh_table, has_channel, judged_table, present as present_rows};
ghost use Rattle.channels.specs.Table.{inactive_table, row_at, rows_present, signals_octet, with_row};
ghost use Rattle.std.specs.Prelude.{◌≡◌, length};

use super::range::Range;
use super::reading::Reading;
use super::row::Row;
use kinds::Kind;

/// The channel table: eight rows, of which the first `count` are present.
// Eight rows are kept, as there is no heap, and a count of those that are present. It has no invariant: the definitions
// give every count a meaning.
#[derive(Drop)]
pub struct Table<K> {
    /// The channel count, 1 to 8 in a sensor that is set up.
    pub count: u8,
    /// The row of channel 1 first.
    // That they are eight is said by clauses: as a ghost field it would be a proof in every definition that gives a
    // table.
    pub rows: [Row<K>; 8],
}

impl<K: Kind> Table<K> {
    /// The table after set-up: SP1 and SP2 at the range's ends, logic 0, Single Point, hysteresis 0, inactive.
    pub fn fresh(count: u8, range: Range<K>) -> Table<K>
        ensures { result ≡ fresh_table count range.low range.high }
    {
        let row = Row {
            sp1: range.low,
            sp2: range.high,
            hysteresis: 0,
            logic: 0,
            mode: 1,
            active: false,
        };
        Table {
            rows: [row; 8],
            count,
        }
    }

    /// How many rows are present: `count`, and 8 where it is over 8.
    pub fn len(&self) -> usize
        ensures count { result ≡ rows_present self.now }
        ensures eight { length self.now.rows ≡ 8 }
    {
        // As a slice the rows are known to be eight.
        let rows = &self.rows[..];
        usize::from(self.count).min(rows.len())
    }

    /// The rows of the channels that are present, channel 1 first.
    pub fn present(&self) -> &[Row<K>]
        ensures { result.now ≡ present_rows self.now }
    {
        &self.rows[..self.len()]
    }

    /// Judges every channel by a reading that the range has counted, and answers the octet of the signals that follow:
    /// bit k-1 is the signal of channel k, so 03 where channels 1 and 2 are on. Bits of absent channels are 0.
    pub fn judge(&mut self, reading: Reading<K>) -> u8
        ensures table { self.new ≡ judged_table K.meaning reading self.old }
        ensures signals { result ≡ signals_octet self.new }
    {
        let mut signals = 0;
        let n = self.len();
        for i in (0..n).rev() {
            let row = &mut self.rows[i];
            row.judge(reading);
            signals = 2 * signals + u8::from(row.signal());
        }
        signals
    }

    /// Makes every channel inactive. All settings stay.
    pub fn make_inactive(&mut self)
        ensures { self.new ≡ inactive_table self.old }
    {
        let n = self.len();
        for row in &mut self.rows[..n] {
            row.active = false;
        }
    }

    /// Whether a channel, counted from 1, is present.
    pub fn has(&self, channel: u8) -> bool
        ensures present { result ≡ has_channel self.now channel }
        ensures eight { length self.now.rows ≡ 8 }
    {
        // As a slice the rows are known to be eight. Compared with both, as the lesser of the two takes longer.
        let rows = &self.rows[..];
        channel >= 1 && channel <= self.count && usize::from(channel) <= rows.len()
    }

    /// The row of a channel, counted from 1, if it is present.
    pub fn row(&self, channel: u8) -> Option<Row<K>>
        ensures { result ≡ row_at self.now channel }
    {
        if !self.has(channel) {
            return None;
        }
        self.rows.get(usize::from(channel) - 1).copied()
    }

    /// Gives a channel, counted from 1, another row. If it is not present nothing changes.
    // Rows are read and put back, not lent: the clause of a lent row, by `get_mut` too, would have to say what each
    // write through it leaves.
    pub fn replace(&mut self, channel: u8, row: Row<K>)
        ensures { self.new ≡ with_row self.old channel row }
    {
        if self.has(channel) {
            self.rows[usize::from(channel) - 1] = row;
        }
    }
}
