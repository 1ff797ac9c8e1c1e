// A line kept: its cells at their places, and the line under its parent.
ghost use Rattle.std.specs.Prelude.{◌≡◌, ◌+◌};
ghost use Rattle.reader_store.specs.Layout.{numbers_kept, wants_kept, count_kept, rule_of};
ghost use Rattle.reader_store.specs.Progress.{bit_in, ended_progress};
ghost use Rattle.reader_store.specs.Keep.{added, under_progress, under_words, strip_progress, strips_kept, mark_kind, mark_put, own_words, ruled_progress, ruled_words, kept_progress, kept_words};

use crate::columns::{TableLine, put_codes, put_numbers, put_wants};
use crate::layout::{
    Family, Lines, MARK_KIND_COLUMN, PLACE_COLUMN, RELATIVE_COLUMN, Rule, SIDE_COLUMN, count_place,
    rule_of,
};
use crate::memory::{code, one_more, put_at};
use crate::parents::{Counted, lane_turn, mark_lane, parent_of, ranked_at};
use crate::progress::{Progress, strip_of};
use reader_cells::WHOLE_BIAS;
use reader_lines::put;
use records::layout::{
    ABSOLUTE_CODE, MARK_KIND_WORDS, MARK_STRIDE, MARK_WORDS, RELATIVE_CODE, STRIP_STRIDE,
    STRIP_WORDS,
};
use records_lent::raw_word;

// Counts line k under its parent.
#[tactic(auto, unfolding(crate::specs::Keep::added))]
fn add(words: &mut [u16], k: u16, parent: Counted)
    ensures { words.new ≡ added words.old k parent }
{
    let n = one_more(raw_word(words, parent.count));
    put_at(words, parent.first, k);
    put(words, parent.count, n);
}

// Counts line k under its parent, if it has one that does not come before that of the last line.
#[tactic(auto, unfolding(crate::specs::Keep::under_progress, crate::specs::Keep::under_words, crate::specs::Keep::in_order))]
fn keep_under(words: &mut [u16], k: u16, parent: Option<Counted>, progress: Progress) -> Progress
    ensures value { result ≡ under_progress parent progress }
    ensures words_after { words.new ≡ under_words words.old k parent progress }
{
    match parent {
        Some(parent) if progress.last <= parent.rank => {
            add(words, k, parent);
            Progress {
                last: parent.rank,
                ..progress
            }
        }
        _ => progress.unsound(),
    }
}

// The code of a strip that is there.
fn presence(relative: u64) -> u16
    ensures { result ≡ bit_in relative + 1 }
{
    if relative % 2 == 0 {
        ABSOLUTE_CODE as u16
    } else {
        RELATIVE_CODE as u16
    }
}

// Keeps a strip at its fixed place and remembers its line, if it was not there yet.
#[tactic(auto, unfolding(crate::specs::Keep::strip_progress, crate::specs::Keep::strips_kept))]
fn keep_strip(words: &mut [u16], line: TableLine, progress: Progress) -> Progress
    ensures value { result ≡ strip_progress line.k line.cells progress }
    ensures words_after { words.new ≡ strips_kept words.old line.cells progress }
{
    let strip = strip_of(line.cells.at(SIDE_COLUMN), line.cells.at(PLACE_COLUMN));
    if progress.strips[strip].is_some() {
        return progress.unsound();
    }
    let place = Lines::spaced(STRIP_WORDS, STRIP_STRIDE).line(strip as u32);
    put(words, place, presence(line.cells.at(RELATIVE_COLUMN)));
    let mut strips = progress.strips;
    strips[strip] = Some(line.k);
    Progress { strips, ..progress }
}

// A mark's kind as a word. One below 0 becomes 0, which is no kind either, and never comes round to one.
fn mark_kind(cell: u64) -> u16
    ensures { result ≡ mark_kind cell }
{
    code(cell.saturating_sub(WHOLE_BIAS))
}

// Keeps a mark's lane, by its place in its section, and its kind.
#[tactic(auto, unfolding(crate::specs::Keep::mark_put))]
fn put_mark(words: &mut [u16], line: TableLine)
    ensures { words.new ≡ mark_put words.old line.k line.cells }
{
    let lane = mark_lane(words, line.cells).unwrap_or(ranked_at(0));
    let k = line.k as u32;
    let place = Lines::spaced(MARK_WORDS, MARK_STRIDE).line(k);
    let kind = Lines::spaced(MARK_KIND_WORDS, MARK_STRIDE).line(k);
    put(words, place, code(lane.index as u64));
    put(words, kind, mark_kind(line.cells.at(MARK_KIND_COLUMN)));
}

// Keeps a mark's own words; other lines under a parent have none.
#[tactic(auto, unfolding(crate::specs::Keep::own_words))]
fn put_own(words: &mut [u16], family: Family, line: TableLine)
    ensures { words.new ≡ own_words words.old family line.k line.cells }
{
    if family == Family::Mark {
        put_mark(words, line);
    }
}

// Keeps a line under its parent, or as a strip, by the rule of its table. The parent is found before the line's own words are written.
#[tactic(auto, unfolding(crate::specs::Keep::ruled_progress, crate::specs::Keep::ruled_words))]
fn keep_ruled(words: &mut [u16], line: TableLine, progress: Progress) -> Progress
    ensures value { result ≡ ruled_progress words.old (rule_of line.table) line.k line.cells progress }
    ensures words_after { words.new ≡ ruled_words words.old (rule_of line.table) line.k line.cells progress }
{
    let TableLine { table, k, cells } = line;
    match rule_of(table) {
        None => progress,
        Some(Rule::Strip) => keep_strip(words, line, progress),
        Some(Rule::Lane) => {
            let parent = lane_turn(words, cells);
            keep_under(words, k, parent, progress)
        }
        Some(Rule::Child(family)) => {
            let parent = parent_of(words, family, cells, progress.strips);
            put_own(words, family, line);
            keep_under(words, k, parent, progress)
        }
    }
}

// Keeps a line. One that is out of its order or has no parent is remembered in the progress; its cells are kept all the same.
// The slices are three as the C call lends them, each of its own type, and each is written by itself.
#[tactic(auto, unfolding(crate::specs::Keep::kept_progress, crate::specs::Keep::kept_words))]
pub fn keep_line(
    words: &mut [u16],
    numbers: &mut [f64],
    wants: &mut [u64],
    line: TableLine,
    progress: Progress,
) -> Progress
    ensures value { result ≡ kept_progress line.table line.k line.cells progress words.old }
    ensures words_after { words.new ≡ kept_words line.table line.k line.cells progress words.old }
    ensures numbers_after { numbers.new ≡ numbers_kept line.table line.k line.cells numbers.old }
    ensures wants_after { wants.new ≡ wants_kept line.table line.k line.cells wants.old }
{
    put_numbers(numbers, line);
    put_wants(wants, line);
    put_codes(words, line);
    keep_ruled(words, line, progress)
}

// Ends a table of k lines: keeps its count, where the layout has a word for it, and lets the next table's parents begin anew.
#[tactic(auto, unfolding(crate::specs::Layout::count_kept))]
pub fn end_table(words: &mut [u16], table: usize, k: u16, progress: Progress) -> Progress
    ensures value { result ≡ ended_progress progress }
    ensures words_after { words.new ≡ count_kept table k words.old }
{
    put_at(words, count_place(table), k);
    progress.ended()
}
