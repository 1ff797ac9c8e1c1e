// The parent of a line: a lane's or a mark's section, an extent's or a height's lane, a shape's profile, a cubic's strip and term.
ghost use Rattle.std.specs.Prelude.{◌≡◌, ◌+◌, ◌<◌, cond, leb, Some, None};
ghost use Rattle.reader_lines.specs.Columns.{cell_of};
ghost use Rattle.reader_store.specs.Parents.{index_at, ranked_among, section_at, section_word, section_record, side_word, lane_turn, lane_among, lane_index, mark_lane, mark_index, term_of, index_of, range_of, parent_of};

use crate::layout::{
    Family, ID_COLUMN, Lines, PLACE_COLUMN, PROFILE_COLUMN, SECTION_COLUMN, SIDE_COLUMN,
    TERM_COLUMN,
};
use crate::progress::{Strips, strip_of};
use reader_cells::WHOLE_BIAS;
use reader_lines::Cells;
use records::layout::{
    COLUMN_STRIDE, COLUMNS_A_STRIP, LEFT_WORDS, PROFILE_COUNT_AT, PROFILE_WORDS, RIGHT_WORDS,
    SECTION_COUNT_AT, SECTION_STRIDE, SECTION_WORDS, SHAPE_COUNT_WORDS, STRIP_STRIDE,
};
use records_lent::raw_word;

// The ids 1 and -1, the first of each side, as they are kept.
const FIRST_LEFT: u64 = WHOLE_BIAS + 1;

const FIRST_RIGHT: u64 = WHOLE_BIAS - 1;

// A parent: its rank in the order that children follow, and its index in memory.
#[derive(Clone, Copy, Debug, PartialEq, Eq)]
pub struct Ranked {
    pub rank: u32,
    pub index: u32,
}

// Where a line is counted: the rank of its parent, the word for the parent's first line where that has none yet, and the word for the count.
#[derive(Clone, Copy, Debug, PartialEq, Eq)]
pub struct Counted {
    pub rank: u32,
    pub first: Option<usize>,
    pub count: usize,
}

// A parent whose rank is its index.
pub(crate) fn ranked_at(i: u32) -> Ranked
    ensures { result ≡ index_at i }
{
    Ranked { rank: i, index: i }
}

// The k-th of n parents that stand one after the other from `first` on.
fn ranked_from(first: u32, n: u16, k: u64) -> Option<Ranked>
    requires { first < 131072 }
    ensures { result ≡ cond (leb n k) None (Some (index_at (first + k))) }
{
    if n as u64 <= k {
        return None;
    }
    Some(ranked_at(first + k as u32))
}

// A whole number, kept with its bias, as one of n parents counted from 0.
#[tactic(auto, unfolding(crate::specs::Parents::ranked_among))]
fn ranked_among(number: u64, n: u16) -> Option<Ranked>
    ensures { result ≡ ranked_among number n }
{
    ranked_from(0, n, number.checked_sub(WHOLE_BIAS)?)
}

// The section that a line names.
fn section_of(words: &[u16], section: u64) -> Option<Ranked>
    ensures { result ≡ section_at words.now section }
{
    ranked_among(section, raw_word(words, SECTION_COUNT_AT))
}

// A section's record among the words: its first lane, how many left, how many right.
#[derive(Clone, Copy, Debug, PartialEq, Eq)]
pub struct SectionRecord {
    pub first: u16,
    pub left: u16,
    pub right: u16,
}

// Which words of a section's record count its left lanes and its right ones.
const LEFT_WORD: usize = LEFT_WORDS - SECTION_WORDS;

const RIGHT_WORD: usize = RIGHT_WORDS - SECTION_WORDS;

// Where the record of section s begins.
fn section_word(s: u32) -> usize
    ensures { result ≡ section_word s }
{
    Lines::spaced(SECTION_WORDS, SECTION_STRIDE).line(s)
}

// The record of section s.
fn section_record(words: &[u16], s: u32) -> SectionRecord
    ensures { result ≡ section_record words.now s }
{
    let at = section_word(s);
    SectionRecord {
        first: raw_word(words, at),
        left: raw_word(words, at + LEFT_WORD),
        right: raw_word(words, at + RIGHT_WORD),
    }
}

// The word of a section's record that counts the side which a lane of this id adds to; none where it is not this id's turn.
#[tactic(auto, unfolding(crate::specs::Parents::side_word))]
fn side_word(section: SectionRecord, id: u64) -> Option<usize>
    ensures { result ≡ side_word section id }
{
    if (id == section.left as u64 + FIRST_LEFT) & (section.right == 0) {
        return Some(LEFT_WORD);
    }
    let next_right = WHOLE_BIAS.checked_sub(id) == Some(section.right as u64 + 1);
    next_right.then_some(RIGHT_WORD)
}

// Where a lane is counted under its section; none where it is not its id's turn, or the section is not there.
#[tactic(auto, unfolding(crate::specs::Parents::lane_turn))]
pub(crate) fn lane_turn(words: &[u16], cells: Cells) -> Option<Counted>
    ensures { result ≡ lane_turn words.now (cell_of cells 0) (cell_of cells 1) }
{
    let s = section_of(words, cells.at(SECTION_COLUMN))?;
    let at = section_word(s.index);
    let record = section_record(words, s.index);
    let side = side_word(record, cells.at(ID_COLUMN))?;
    let fresh = (record.left == 0) & (record.right == 0);
    Some(Counted {
        rank: s.rank,
        first: fresh.then_some(at),
        count: at + side,
    })
}

// The lane of a section with an id. From the centre out: left ones count up from 1, right ones down from -1, so the id 0 is on neither side.
#[tactic(auto, unfolding(crate::specs::Parents::lane_among))]
fn lane_by(section: SectionRecord, id: u64) -> Option<Ranked>
    ensures { result ≡ lane_among section id }
{
    let SectionRecord { first, left, right } = section;
    if let Some(k) = id.checked_sub(FIRST_LEFT) {
        return ranked_from(first as u32, left, k);
    }
    let k = FIRST_RIGHT.checked_sub(id)?;
    ranked_from(first as u32 + left as u32, right, k)
}

// The lane with an id, of the section that a line names.
#[tactic(auto, unfolding(crate::specs::Parents::lane_index))]
fn lane_of(words: &[u16], cells: Cells) -> Option<Ranked>
    ensures { result ≡ lane_index words.now (cell_of cells 0) (cell_of cells 1) }
{
    let s = section_of(words, cells.at(SECTION_COLUMN))?;
    lane_by(section_record(words, s.index), cells.at(ID_COLUMN))
}

// The place of a mark's lane in its section, counted from 0, left ones first. Where the section is not there section 0 stands in for it.
#[tactic(auto, unfolding(crate::specs::Parents::mark_lane))]
pub(crate) fn mark_lane(words: &[u16], cells: Cells) -> Option<Ranked>
    ensures { result ≡ mark_lane words.now (cell_of cells 0) (cell_of cells 1) }
{
    let s = section_of(words, cells.at(SECTION_COLUMN)).unwrap_or(ranked_at(0));
    let record = SectionRecord {
        first: 0,
        ..section_record(words, s.index)
    };
    lane_by(record, cells.at(ID_COLUMN))
}

// The section that a mark names, if it has the mark's lane.
#[tactic(auto, unfolding(crate::specs::Parents::mark_index, crate::specs::Parents::mark_lane))]
fn mark_index(words: &[u16], cells: Cells) -> Option<Ranked>
    ensures { result ≡ mark_index words.now (cell_of cells 0) (cell_of cells 1) }
{
    let s = section_of(words, cells.at(SECTION_COLUMN))?;
    mark_lane(words, cells)?;
    Some(s)
}

// A column of a strip: its width, or one of its terms. A cell that names one is its place among them. Its rank goes by the strip's line, its index by the
// strip's fixed place.
#[tactic(auto, unfolding(crate::specs::Parents::term_of))]
fn term_of(strips: Strips, side: u64, place: u64, term: u64) -> Option<Ranked>
    ensures { result ≡ term_of strips side place term }
{
    let strip = strip_of(side, place);
    let line = strips[strip]?;
    let column = (term % COLUMNS_A_STRIP as u64) as u32;
    Some(Ranked {
        rank: line as u32 * COLUMNS_A_STRIP as u32 + column,
        index: strip as u32 * STRIP_STRIDE as u32 + column * COLUMN_STRIDE as u32,
    })
}

// The parent that a line's first columns name, by the table's family.
#[tactic(auto, unfolding(crate::specs::Parents::index_of))]
fn index_of(words: &[u16], family: Family, cells: Cells, strips: Strips) -> Option<Ranked>
    ensures { result ≡ index_of words.now family cells strips }
{
    match family {
        Family::Cubic => term_of(
            strips,
            cells.at(SIDE_COLUMN),
            cells.at(PLACE_COLUMN),
            cells.at(TERM_COLUMN),
        ),
        Family::Shape => ranked_among(cells.at(PROFILE_COLUMN), raw_word(words, PROFILE_COUNT_AT)),
        Family::Mark => mark_index(words, cells),
        Family::Extent | Family::Height => lane_of(words, cells),
    }
}

// Which word of a range counts its lines: all families' ranges are made as a profile's.
const COUNT_WORD: usize = SHAPE_COUNT_WORDS - PROFILE_WORDS;

// Where a line is counted in the range (first, count) of its parent.
#[tactic(auto, unfolding(crate::specs::Parents::range_of))]
fn range_of(words: &[u16], ranges: Lines, at: Ranked) -> Counted
    ensures { result ≡ range_of words.now ranges at }
{
    let first = ranges.line(at.index);
    let count = first + COUNT_WORD;
    let fresh = raw_word(words, count) == 0;
    Counted {
        rank: at.rank,
        first: fresh.then_some(first),
        count,
    }
}

// Where a line is counted under the parent that its first columns name, by the table's family.
#[tactic(auto, unfolding(crate::specs::Parents::parent_of, crate::specs::Parents::range_of))]
pub(crate) fn parent_of(
    words: &[u16],
    family: Family,
    cells: Cells,
    strips: Strips,
) -> Option<Counted>
    ensures { result ≡ parent_of words.now family cells strips }
{
    let at = index_of(words, family, cells, strips)?;
    Some(range_of(words, family.ranges(), at))
}
