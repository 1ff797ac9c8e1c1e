// A table's columns: which are still to be named, in which order the text has them, and a line's cells by column.
// Eight places serve every table. Past the eighth a read gives the default, and a write changes nothing. There are three structs and no `Slots<T>`: of
// that each use still needs a name, its value at first and its read, so it came out no shorter, and in the definitions, where both hold numbers, an order
// and a line's cells would be of one type.
ghost use Rattle.std.specs.Prelude.{◌≡◌, set};
ghost use Rattle.reader_lines.specs.Columns.{no_order, no_cells, all_due, is_due, met_in, ordered_by, ordered_column, valued_by, cell_of};

use reader_schema::tables::COLUMNS_MOST;

// The column of each word of a line, in the text's order.
#[derive(Clone, Copy, Debug, PartialEq, Eq)]
pub struct Order {
    pub of: [u8; COLUMNS_MOST],
}

// The cell of each column, in the schema's order, whatever the text's.
#[derive(Clone, Copy, Debug, PartialEq, Eq)]
pub struct Cells {
    pub of: [u64; COLUMNS_MOST],
}

// The columns that are still to be named.
#[derive(Clone, Copy, Debug, PartialEq, Eq)]
pub struct Due {
    pub of: [bool; COLUMNS_MOST],
}

// Writes an element; past the end nothing.
pub fn put<T: Copy>(list: &mut [T], i: usize, value: T)
    ensures { list.new ≡ set list.old i value }
{
    if i < list.len() {
        list[i] = value;
    }
}

impl Order {
    pub(crate) fn none() -> Order
        ensures { result ≡ no_order }
    {
        Order {
            of: [0; COLUMNS_MOST],
        }
    }

    // Names the column of word i.
    pub(crate) fn name(&mut self, i: usize, column: u8)
        ensures { self.new ≡ ordered_by self.old i column }
    {
        put(&mut self.of, i, column);
    }

    // The column of word i.
    pub(crate) fn column(&self, i: usize) -> u8
        ensures { result ≡ ordered_column self.now i }
    {
        self.of.get(i).copied().unwrap_or(0)
    }
}

impl Cells {
    pub(crate) fn none() -> Cells
        ensures { result ≡ no_cells }
    {
        Cells {
            of: [0; COLUMNS_MOST],
        }
    }

    // Keeps the cell of a column.
    pub(crate) fn keep(&mut self, column: usize, cell: u64)
        ensures { self.new ≡ valued_by self.old column cell }
    {
        put(&mut self.of, column, cell);
    }

    // The cell of a column.
    pub fn at(&self, column: usize) -> u64
        ensures { result ≡ cell_of self.now column }
    {
        self.of.get(column).copied().unwrap_or(0)
    }
}

impl Due {
    // The first n columns are due.
    pub(crate) fn all(n: usize) -> Due
        ensures { result ≡ all_due n }
    {
        Due {
            of: std::array::from_fn(|column| column < n),
        }
    }

    // Takes a column that was named off.
    pub(crate) fn meet(&mut self, column: usize)
        ensures { self.new ≡ met_in self.old column }
    {
        put(&mut self.of, column, false);
    }

    pub(crate) fn has(&self, column: usize) -> bool
        ensures { result ≡ is_due self.now column }
    {
        self.of.get(column).copied().unwrap_or(false)
    }
}
