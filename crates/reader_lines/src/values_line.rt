// A line of a table's values, in the order of its line of names.
ghost use Rattle.std.specs.Prelude.{◌≡◌, ◌-◌, ◌<◌};
ghost use Rattle.reader_lines.specs.ValuesLine.{stop_of, values_at};

use crate::columns::{Cells, Order};
use crate::places::after;
use reader_cells::Span;

// The byte after cell i of n, counted from 1.
fn stop_of(i: usize, n: usize) -> u8
    ensures value { result ≡ stop_of (n - i) }
    ensures byte { 0 < result }
{
    if i < n { b' ' } else { b'\n' }
}

// The cells of the line at a place; none where it is broken.
pub fn values_at(text: &[u8], at: usize, table: usize, order: Order) -> Option<Span<Cells>>
    ensures { result ≡ values_at text.now at table order }
{
    let n = reader_schema::count_of(table) as usize;
    let mut cells = Cells::none();
    let mut next = at;
    for i in 0..n {
        let column = order.column(i) as usize;
        let cell = reader_cells::cell_at(text, next, reader_schema::kind_of(table, column))?;
        next = after(text, cell.next, stop_of(i + 1, n))?;
        cells.keep(column, cell.value);
    }
    Some(Span { value: cells, next })
}
