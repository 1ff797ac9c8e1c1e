// A table's line of names, after the table's own name.
ghost use Rattle.std.specs.Prelude.{◌≡◌};
ghost use Rattle.reader_lines.specs.NamesLine.{column_at, head_at};

use crate::columns::{Due, Order};
use crate::places::after;
use reader_cells::Span;

// A space, then a name: the column of that name; none where no space stands, or the name is no column's.
#[tactic(auto, unfolding(crate::specs::NamesLine::column_at))]
fn column_at(text: &[u8], at: usize, table: usize) -> Option<Span<u8>>
    ensures { result ≡ column_at text.now at table }
{
    let name = reader_cells::name_at(text, after(text, at, b' ')?);
    let column = reader_schema::place_of(table, name.value)?;
    Some(Span {
        value: column,
        next: name.next,
    })
}

// The columns of a table in the order in which its line of names has them, each once, from the place after the table's name on; none where the line is
// broken. As many due names as there are columns leave none missing, and a name too many is no LF.
pub fn head_at(text: &[u8], at: usize, table: usize) -> Option<Span<Order>>
    ensures { result ≡ head_at text.now at table }
{
    let n = reader_schema::count_of(table) as usize;
    let mut due = Due::all(n);
    let mut order = Order::none();
    let mut next = at;
    for i in 0..n {
        let named = column_at(text, next, table)?;
        let column = named.value as usize;
        if !due.has(column) {
            return None;
        }
        order.name(i, named.value);
        due.meet(column);
        next = named.next;
    }
    let next = after(text, next, b'\n')?;
    Some(Span { value: order, next })
}
