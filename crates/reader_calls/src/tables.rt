// The tables of a text, in their order, taken into zeroed slices. A reference or an order that is wrong is remembered and the form goes on.
// The three slices are handed along one by one; why, job.rt says.
ghost use Rattle.std.specs.Prelude.{◌≡◌};
ghost use Rattle.reader_schema.specs.Schema.{limit_of};
ghost use Rattle.reader_schema.specs.Tables.{road_table, table_count};
ghost use Rattle.reader_store.specs.Progress.{start_progress};
ghost use Rattle.reader_calls.specs.Reading.{lines_from, table_at, tables_from, counted_progress};
ghost use Rattle.reader_calls.specs.Parts.{Agrees};

use reader_lines::Order;
use reader_schema::tables::{ROAD_TABLE, TABLE_COUNT};
use reader_store::{Progress, TableLine};
use refusals::Refusal;

#[derive(Clone, Copy, Debug, PartialEq, Eq)]
pub struct Taken {
    // the place after what was taken
    pub next: usize,
    // how many lines the last table had
    pub lines: u16,
    pub progress: Progress,
}

// Takes the lines of a table up to an empty one, which may also follow the last line that is allowed. A line past it is tested for its form (1) before it is
// one too many (2).
fn table_lines(
    text: &[u8],
    from: usize,
    table: usize,
    order: Order,
    words: &mut [u16],
    numbers: &mut [f64],
    wants: &mut [u64],
    start: Progress,
) -> Result<Taken, Refusal>
    ensures { Agrees (lines_from (limit_of table) table order text.now from 0 start words.old numbers.old wants.old) result words.new numbers.new wants.new }
{
    let limit = reader_schema::limit_of(table);
    let mut progress = start;
    let mut at = from;
    for k in 0..=limit {
        if reader_hex::byte_at(text, at) == b'\n' {
            return Ok(Taken {
                next: at + 1,
                lines: k,
                progress: reader_store::end_table(words, table, k, progress),
            });
        }
        let row = reader_lines::values_at(text, at, table, order).ok_or(Refusal::Form)?;
        if k == limit {
            break;
        }
        let line = TableLine {
            table,
            k,
            cells: row.value,
        };
        progress = reader_store::keep_line(words, numbers, wants, line, progress);
        at = row.next;
    }
    Err(Refusal::Capacity)
}

// Takes a table, if its name stands here.
fn table_at(
    text: &[u8],
    at: usize,
    table: usize,
    words: &mut [u16],
    numbers: &mut [f64],
    wants: &mut [u64],
    progress: Progress,
) -> Result<Taken, Refusal>
    ensures { Agrees (table_at table text.now at progress words.old numbers.old wants.old) result words.new numbers.new wants.new }
{
    let name = reader_cells::name_at(text, at);
    if name.value != reader_schema::table_name(table) {
        return Ok(Taken {
            next: at,
            lines: 0,
            progress,
        });
    }
    let head = reader_lines::head_at(text, name.next, table).ok_or(Refusal::Form)?;
    table_lines(
        text, head.next, table, head.value, words, numbers, wants, progress,
    )
}

// What is remembered after a table of so many lines: a road without its line has too few. Admission tests the counts of the other tables.
#[tactic(auto, unfolding(crate::specs::Reading::counted_progress))]
fn road_there(table: usize, lines: u16, progress: Progress) -> Progress
    ensures { result ≡ counted_progress table lines progress }
{
    if (table == ROAD_TABLE) & (lines == 0) {
        progress.unsound()
    } else {
        progress
    }
}

// Takes all tables, in their order.
pub(crate) fn tables(
    text: &[u8],
    words: &mut [u16],
    numbers: &mut [f64],
    wants: &mut [u64],
) -> Result<Taken, Refusal>
    ensures { Agrees (tables_from table_count road_table text.now 0 0 start_progress words.old numbers.old wants.old) result words.new numbers.new wants.new }
{
    let mut so_far = Taken {
        next: 0,
        lines: 0,
        progress: reader_store::start_progress(),
    };
    for table in ROAD_TABLE..TABLE_COUNT {
        let taken = table_at(
            text,
            so_far.next,
            table,
            words,
            numbers,
            wants,
            so_far.progress,
        )?;
        so_far = Taken {
            progress: road_there(table, taken.lines, taken.progress),
            ..taken
        };
    }
    if so_far.next < text.len() {
        return Err(Refusal::Form);
    }
    Ok(so_far)
}
