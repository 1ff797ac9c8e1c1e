// The cells of line k of a table, each put where its column is kept.
ghost use Rattle.std.specs.Prelude.{◌≡◌, ℕ};
ghost use Rattle.reader_store.specs.Layout.{line_of, cells_kept, numbers_kept, codes_kept, wants_kept};

use crate::layout::{KeptColumns, Lines, WANT_S_COLUMN, WANT_T_COLUMN, codes_of, numbers_of};
use crate::memory::code;
use reader_lines::{Cells, put};
use reader_schema::tables::WANT_TABLE;
use records::layout::WANT_STRIDE;

// Line k of a table, counted from 0, and its cells. Definitions take the three one by one: the laws go over the lines of a table by k.
#[derive(Clone, Copy, Debug, PartialEq, Eq)]
pub struct TableLine {
    pub table: usize,
    pub k: u16,
    pub cells: Cells,
}

// What a cell is kept as: a number of an f64's pattern, a word of a code.
trait Kept: Copy {
    ghost of_cell: { ℕ → Self };

    fn of_cell(cell: u64) -> Self
        ensures { result ≡ of_cell cell };
}

impl Kept for f64 {
    ghost use Rattle.std.specs.Float.{binary64};
    ghost use Rattle.std.specs.Float.Ieee.{of_bits};

    ghost of_cell = { of_bits binary64 };

    fn of_cell(cell: u64) -> f64 {
        reader_hex::of_bits(cell)
    }
}

impl Kept for u16 {
    ghost use Rattle.reader_store.specs.Layout.{code_of};

    ghost of_cell = { code_of };

    fn of_cell(cell: u64) -> u16 {
        code(cell)
    }
}

// Keeps the cells of columns one after another.
fn put_cells<T: Kept>(list: &mut [T], kept: KeptColumns, line: TableLine)
    ensures { list.new ≡ cells_kept T.of_cell line.cells kept.columns.now (line_of kept.lines line.k) list.old }
{
    let first = kept.lines.line(line.k as u32);
    for (i, column) in kept.columns.iter().enumerate() {
        put(list, first + i, T::of_cell(line.cells.at(*column as usize)));
    }
}

// Keeps the f64 cells.
#[tactic(auto, unfolding(crate::specs::Layout::numbers_kept))]
pub(crate) fn put_numbers(numbers: &mut [f64], line: TableLine)
    ensures { numbers.new ≡ numbers_kept line.table line.k line.cells numbers.old }
{
    put_cells(numbers, numbers_of(line.table), line);
}

// Keeps the codes.
#[tactic(auto, unfolding(crate::specs::Layout::codes_kept))]
pub(crate) fn put_codes(words: &mut [u16], line: TableLine)
    ensures { words.new ≡ codes_kept line.table line.k line.cells words.old }
{
    put_cells(words, codes_of(line.table), line);
}

// Keeps a want: the patterns of s and t as they were read, a NaN's too.
#[tactic(auto, unfolding(crate::specs::Layout::wants_kept))]
pub(crate) fn put_wants(wants: &mut [u64], line: TableLine)
    ensures { wants.new ≡ wants_kept line.table line.k line.cells wants.old }
{
    if line.table == WANT_TABLE {
        let i = Lines::spaced(0, WANT_STRIDE).line(line.k as u32);
        put(wants, i, line.cells.at(WANT_S_COLUMN));
        put(wants, i + 1, line.cells.at(WANT_T_COLUMN));
    }
}
