// The layout of a lent road's memory by table: its places and strides are those of crate records. A function answers each question; a struct for each table
// would name four things, of most tables two of them none.
ghost use Rattle.std.specs.Prelude.{◌≡◌, ◌<◌};
ghost use Rattle.reader_store.specs.Layout.{spaced, line_of, number_lines, word_lines, number_columns, word_columns, count_place, rule_of, ranges_of};

use reader_schema::tables::{
    BANK_TABLE, CUBIC_TABLE, ELEV_TABLE, EXTENT_TABLE, GEOM_TABLE, HEIGHT_TABLE, LANE_TABLE,
    MARK_TABLE, OFFSET_TABLE, PROFILE_TABLE, ROAD_TABLE, SECTION_TABLE, SHAPE_TABLE, STRIP_TABLE,
    TSHIFT_TABLE,
};
use records::HeightDef;
use records::layout::{
    BANK_BASE, BANK_COUNT_AT, COLUMN_WORDS, CUBIC_BASE, ELEV_BASE, ELEV_COUNT_AT, EXTENT_BASE,
    EXTENT_WORDS, GEOM_BASE, GEOM_COUNT_AT, GEOM_STRIDE, HEIGHT_BASE, HEIGHT_WORDS, KIND_WORDS,
    LANE_STRIDE, LANE_WORDS, LENGTH_PLACE, OFFSET_BASE, OFFSET_COUNT_AT, PROFILE_BASE,
    PROFILE_COUNT_AT, PROFILE_STRIDE, PROFILE_WORDS, SECTION_BASE, SECTION_COUNT_AT,
    SECTION_MARK_STRIDE, SECTION_MARK_WORDS, SHAPE_BASE, SPAN_BASE, SPAN_STRIDE, TSHIFT_BASE,
    TSHIFT_COUNT_AT,
};
use records_cubic::Cubic;
use records_lent::Record;

// Where lines stand in a slice: the first, and how far each is from the one before. By their type both are small, so that each place leaves room for what
// stands beside it, as `line` says.
#[derive(Clone, Copy, Debug, PartialEq, Eq)]
pub(crate) struct Lines {
    pub first: u16,
    pub stride: u16,
}

// Where the cells of a line are kept: where the lines stand, and the columns, in the order of a line's places.
#[derive(Clone, Copy, Debug)]
pub(crate) struct KeptColumns {
    pub lines: Lines,
    pub columns: &'static [u8],
}

impl Lines {
    // Lines from a place on.
    pub(crate) fn spaced(first: usize, stride: usize) -> Lines
        requires first_word { first < 65536 }
        requires stride_word { stride < 65536 }
        ensures { result ≡ spaced first stride }
    {
        Lines {
            first: first as u16,
            stride: stride as u16,
        }
    }

    // Such lines, which hold the cells of these columns one after another.
    fn holding(self, columns: &'static [u8]) -> KeptColumns
        ensures lines { result.lines ≡ self }
        ensures columns { result.columns.now ≡ columns.now }
    {
        KeptColumns {
            lines: self,
            columns,
        }
    }

    // Where line k begins.
    pub(crate) fn line(self, k: u32) -> usize
        ensures { (result ≡ line_of self k) × (result < 1000000000000000) }
    {
        self.first as usize + k as usize * self.stride as usize
    }
}

// The columns that hold a line's numbers, in the order in which they are kept; lanes, strips and wants have none.
const ONE_NUMBER: &[u8] = &[0]; // road, section, profile

const GEOM_NUMBERS: &[u8] = &[0, 1, 2, 3, 4, 6, 7];

const ALONG_NUMBERS: &[u8] = &[0, 1, 2, 3, 4]; // elev, bank, offset, tshift

const EXTENT_NUMBERS: &[u8] = &[2, 3, 4, 5, 6];

const HEIGHT_NUMBERS: &[u8] = &[2, 3, 4];

const SHAPE_NUMBERS: &[u8] = &[1, 2, 3, 4, 5];

const CUBIC_NUMBERS: &[u8] = &[3, 4, 5, 6, 7];

const MARK_NUMBERS: &[u8] = &[2, 3];

// The columns that hold words: a geometry's kind, a lane's extent and level.
const GEOM_CODE_COLUMNS: &[u8] = &[5];

const LANE_CODE_COLUMNS: &[u8] = &[2, 3];

// The columns that are read one by one: those that name a line's parent, then a strip's own, a mark's and a want's.
pub(crate) const SECTION_COLUMN: usize = 0;

pub(crate) const ID_COLUMN: usize = 1;

pub(crate) const PROFILE_COLUMN: usize = 0;

pub(crate) const SIDE_COLUMN: usize = 0;

pub(crate) const PLACE_COLUMN: usize = 1;

pub(crate) const TERM_COLUMN: usize = 2;

pub(crate) const RELATIVE_COLUMN: usize = 2;

pub(crate) const MARK_KIND_COLUMN: usize = 4;

pub(crate) const WANT_S_COLUMN: usize = 0;

pub(crate) const WANT_T_COLUMN: usize = 1;

// Whose children the lines of a table are, where a parent has a range of them: a lane's extents, its heights, a profile's shapes, a strip's cubics, a section's marks.
#[derive(Clone, Copy, Debug, PartialEq, Eq)]
pub enum Family {
    Extent,
    Height,
    Shape,
    Cubic,
    Mark,
}

// What the lines of a table are, beside their cells: strips, a section's lanes, by its record of them, or children in ranges.
#[derive(Clone, Copy, Debug, PartialEq, Eq)]
pub enum Rule {
    Strip,
    Lane,
    Child(Family),
}

impl Family {
    // Where the ranges (first, count) of the parents stand among the words.
    #[tactic(auto, unfolding(crate::specs::Layout::ranges_of))]
    pub(crate) fn ranges(self) -> Lines
        ensures { result ≡ ranges_of self }
    {
        match self {
            Family::Extent => Lines::spaced(EXTENT_WORDS, LANE_STRIDE),
            Family::Height => Lines::spaced(HEIGHT_WORDS, LANE_STRIDE),
            Family::Shape => Lines::spaced(PROFILE_WORDS, PROFILE_STRIDE),
            Family::Cubic => Lines::spaced(COLUMN_WORDS, 1),
            Family::Mark => Lines::spaced(SECTION_MARK_WORDS, SECTION_MARK_STRIDE),
        }
    }
}

// The numbers of a table: where its lines stand, and which columns hold one. No column of a lane, a strip or a want does, and nothing is kept wherever such
// lines are said to stand; an Option would say that a second time.
#[tactic(auto, unfolding(crate::specs::Layout::number_lines, crate::specs::Layout::number_columns))]
pub(crate) fn numbers_of(table: usize) -> KeptColumns
    ensures lines { result.lines ≡ number_lines table }
    ensures columns { result.columns.now ≡ number_columns table }
{
    match table {
        ROAD_TABLE => Lines::spaced(LENGTH_PLACE, 1).holding(ONE_NUMBER),
        GEOM_TABLE => Lines::spaced(GEOM_BASE, GEOM_STRIDE).holding(GEOM_NUMBERS),
        ELEV_TABLE => Lines::spaced(ELEV_BASE, Cubic::STRIDE).holding(ALONG_NUMBERS),
        BANK_TABLE => Lines::spaced(BANK_BASE, Cubic::STRIDE).holding(ALONG_NUMBERS),
        OFFSET_TABLE => Lines::spaced(OFFSET_BASE, Cubic::STRIDE).holding(ALONG_NUMBERS),
        TSHIFT_TABLE => Lines::spaced(TSHIFT_BASE, Cubic::STRIDE).holding(ALONG_NUMBERS),
        SECTION_TABLE => Lines::spaced(SECTION_BASE, 1).holding(ONE_NUMBER),
        EXTENT_TABLE => Lines::spaced(EXTENT_BASE, Cubic::STRIDE).holding(EXTENT_NUMBERS),
        HEIGHT_TABLE => Lines::spaced(HEIGHT_BASE, HeightDef::STRIDE).holding(HEIGHT_NUMBERS),
        PROFILE_TABLE => Lines::spaced(PROFILE_BASE, 1).holding(ONE_NUMBER),
        SHAPE_TABLE => Lines::spaced(SHAPE_BASE, Cubic::STRIDE).holding(SHAPE_NUMBERS),
        CUBIC_TABLE => Lines::spaced(CUBIC_BASE, Cubic::STRIDE).holding(CUBIC_NUMBERS),
        MARK_TABLE => Lines::spaced(SPAN_BASE, SPAN_STRIDE).holding(MARK_NUMBERS),
        _ => Lines::spaced(0, 0).holding(&[]),
    }
}

// The words of a table that its columns hold: a geometry's kind, and of a lane the first words of its record; the words of the other tables have rules of
// their own.
#[tactic(auto, unfolding(crate::specs::Layout::word_lines, crate::specs::Layout::word_columns))]
pub(crate) fn codes_of(table: usize) -> KeptColumns
    ensures lines { result.lines ≡ word_lines table }
    ensures columns { result.columns.now ≡ word_columns table }
{
    match table {
        GEOM_TABLE => Lines::spaced(KIND_WORDS, 1).holding(GEOM_CODE_COLUMNS),
        LANE_TABLE => Lines::spaced(LANE_WORDS, LANE_STRIDE).holding(LANE_CODE_COLUMNS),
        _ => Lines::spaced(0, 0).holding(&[]),
    }
}

// The word that holds a table's count of lines, where one does.
#[tactic(auto, unfolding(crate::specs::Layout::count_place))]
pub(crate) fn count_place(table: usize) -> Option<usize>
    ensures { result ≡ count_place table }
{
    match table {
        GEOM_TABLE => Some(GEOM_COUNT_AT),
        ELEV_TABLE => Some(ELEV_COUNT_AT),
        BANK_TABLE => Some(BANK_COUNT_AT),
        OFFSET_TABLE => Some(OFFSET_COUNT_AT),
        TSHIFT_TABLE => Some(TSHIFT_COUNT_AT),
        SECTION_TABLE => Some(SECTION_COUNT_AT),
        PROFILE_TABLE => Some(PROFILE_COUNT_AT),
        _ => None,
    }
}

// What a table's lines are beside their cells.
#[tactic(auto, unfolding(crate::specs::Layout::rule_of))]
pub(crate) fn rule_of(table: usize) -> Option<Rule>
    ensures { result ≡ rule_of table }
{
    match table {
        LANE_TABLE => Some(Rule::Lane),
        EXTENT_TABLE => Some(Rule::Child(Family::Extent)),
        HEIGHT_TABLE => Some(Rule::Child(Family::Height)),
        SHAPE_TABLE => Some(Rule::Child(Family::Shape)),
        STRIP_TABLE => Some(Rule::Strip),
        CUBIC_TABLE => Some(Rule::Child(Family::Cubic)),
        MARK_TABLE => Some(Rule::Child(Family::Mark)),
        _ => None,
    }
}
