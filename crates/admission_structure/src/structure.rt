// Counts, codes and ranges of the lent words. Each count is tested before anything loops over it, so that a broken road is refused at once.
// They are over the words, and no LentRoad, whose model hides them. A count is a u16 as it is lent, and so is the number of a line below it: no place of
// such a line is past a usize, so a function of it asks for no bound. A lane's line is a sum, its section's first and its place, and has one.
ghost use Rattle.std.specs.Prelude.{◌≡◌, ◌+◌, ◌^◌, ◌<◌, ◌≤◌, get_or};
ghost use Rattle.records_lent.specs.Lists.{all_below};
ghost use Rattle.records.specs.Layout.{section_count_at, profile_count_at, most_lanes};
ghost use Rattle.admission_structure.specs.Structure.{range_ok, counts_ok, kinds_ok, lane_ok, section_ok, profile_ok, column_ok, strip_ok, structured};

use crate::marks::all_marks_ok;
use records::layout::{
    ABSENT_CODE, BANK_COUNT_AT, COLUMN_STRIDE, COLUMN_WORDS, COLUMNS_A_STRIP, ELEV_COUNT_AT,
    EXTENT_CODES, EXTENT_WORDS, GEOM_CODES, GEOM_COUNT_AT, HEIGHT_WORDS, KIND_WORDS, LANE_STRIDE,
    LANE_WORDS, LEFT_WORDS, LEVEL_CODES, LEVEL_WORDS, MOST_BANKS, MOST_CUBICS, MOST_CUBICS_A_TERM,
    MOST_ELEVS, MOST_EXTENTS, MOST_EXTENTS_A_LANE, MOST_GEOMS, MOST_HEIGHTS, MOST_HEIGHTS_A_LANE,
    MOST_LANES, MOST_LANES_A_SIDE, MOST_OFFSETS, MOST_PROFILES, MOST_SECTIONS, MOST_SHAPES,
    MOST_SHAPES_A_PROFILE, MOST_SHIFTS, NUMBERS_NEEDED, OFFSET_COUNT_AT, PROFILE_COUNT_AT,
    PROFILE_STRIDE, PROFILE_WORDS, RIGHT_WORDS, SECTION_COUNT_AT, SECTION_STRIDE, SECTION_WORDS,
    STRIP_CODES, STRIP_STRIDE, STRIP_WORDS, STRIPS, TSHIFT_COUNT_AT, WORDS_NEEDED,
};
use records_lent::{raw_word, word};

// The range whose first line and count are the words from k on: least to most lines, inside a table of limit lines.
pub(crate) fn range_ok(words: &[u16], k: usize, least: usize, most: usize, limit: usize) -> bool
    requires { k < 2 ^ 32 }
    ensures { result ≡ range_ok least most limit (get_or words.now k 0) (get_or words.now (k + 1) 0) }
{
    let count = word(words, k + 1);
    (least..=most).contains(&count) & (word(words, k) + count <= limit)
}

#[tactic(auto, unfolding(crate::specs::Structure::counts_ok))]
fn counts_ok(words: &[u16]) -> bool
    ensures { result ≡ counts_ok words.now }
{
    (1..=MOST_GEOMS).contains(&word(words, GEOM_COUNT_AT))
        && (word(words, ELEV_COUNT_AT) <= MOST_ELEVS)
        && (word(words, BANK_COUNT_AT) <= MOST_BANKS)
        && (word(words, OFFSET_COUNT_AT) <= MOST_OFFSETS)
        && (word(words, TSHIFT_COUNT_AT) <= MOST_SHIFTS)
        && (1..=MOST_SECTIONS).contains(&word(words, SECTION_COUNT_AT))
        && (word(words, PROFILE_COUNT_AT) <= MOST_PROFILES)
}

fn kinds_ok(words: &[u16]) -> bool
    ensures { result ≡ kinds_ok words.now }
{
    let n = word(words, GEOM_COUNT_AT);
    (0..n).all(|i| word(words, KIND_WORDS + i) < GEOM_CODES)
}

// The j-th lane's codes and ranges.
#[tactic(auto, unfolding(crate::specs::Structure::lane_ok))]
fn lane_ok(words: &[u16], j: usize) -> bool
    requires { j < most_lanes }
    ensures { result ≡ lane_ok words.now j }
{
    let line = j * LANE_STRIDE;
    let extents = EXTENT_WORDS + line;
    let heights = HEIGHT_WORDS + line;
    (word(words, LANE_WORDS + line) < EXTENT_CODES)
        & (word(words, LEVEL_WORDS + line) < LEVEL_CODES)
        & range_ok(words, extents, 0, MOST_EXTENTS_A_LANE, MOST_EXTENTS)
        & range_ok(words, heights, 0, MOST_HEIGHTS_A_LANE, MOST_HEIGHTS)
}

fn lanes_ok(words: &[u16], first: usize, n: usize) -> bool
    requires { first + n ≤ most_lanes }
    ensures { result ≡ all_below (λ j. lane_ok words.now (first + j)) n }
{
    (0..n).all(|j| lane_ok(words, first + j))
}

// A section's lanes: their number first, then each.
#[tactic(auto, unfolding(crate::specs::Structure::section_ok))]
fn section_ok(words: &[u16], i: u16) -> bool
    ensures { result ≡ section_ok words.now i }
{
    let line = usize::from(i) * SECTION_STRIDE;
    let first = word(words, SECTION_WORDS + line);
    let left = word(words, LEFT_WORDS + line);
    let right = word(words, RIGHT_WORDS + line);
    (left <= MOST_LANES_A_SIDE)
        && (right <= MOST_LANES_A_SIDE)
        && (first + (left + right) <= MOST_LANES)
        && lanes_ok(words, first, left + right)
}

fn sections_ok(words: &[u16]) -> bool
    ensures { result ≡ all_below (section_ok words.now) (get_or words.now section_count_at 0) }
{
    let n = raw_word(words, SECTION_COUNT_AT);
    (0..n).all(|i| section_ok(words, i))
}

#[tactic(auto, unfolding(crate::specs::Structure::profile_ok))]
fn profile_ok(words: &[u16], i: u16) -> bool
    ensures { result ≡ profile_ok words.now i }
{
    let k = PROFILE_WORDS + usize::from(i) * PROFILE_STRIDE;
    range_ok(words, k, 1, MOST_SHAPES_A_PROFILE, MOST_SHAPES)
}

fn profiles_ok(words: &[u16]) -> bool
    ensures { result ≡ all_below (profile_ok words.now) (get_or words.now profile_count_at 0) }
{
    let n = raw_word(words, PROFILE_COUNT_AT);
    (0..n).all(|i| profile_ok(words, i))
}

#[tactic(auto, unfolding(crate::specs::Structure::column_ok))]
fn column_ok(words: &[u16], i: u16, column: u16) -> bool
    ensures { result ≡ column_ok words.now i column }
{
    let line = usize::from(i) * STRIP_STRIDE;
    let k = COLUMN_WORDS + line + usize::from(column) * COLUMN_STRIDE;
    range_ok(words, k, 0, MOST_CUBICS_A_TERM, MOST_CUBICS)
}

fn columns_ok(words: &[u16], i: u16) -> bool
    ensures { result ≡ all_below (column_ok words.now i) 5 }
{
    (0..COLUMNS_A_STRIP as u16).all(|column| column_ok(words, i, column))
}

// A strip's code, then its columns; those of a strip that is not there are not read.
#[tactic(auto, unfolding(crate::specs::Structure::strip_ok))]
fn strip_ok(words: &[u16], i: u16) -> bool
    ensures { result ≡ strip_ok words.now i }
{
    let code = word(words, STRIP_WORDS + usize::from(i) * STRIP_STRIDE);
    (code < STRIP_CODES) && ((code == ABSENT_CODE) || columns_ok(words, i))
}

fn strips_ok(words: &[u16]) -> bool
    ensures { result ≡ all_below (strip_ok words.now) 4 }
{
    (0..STRIPS as u16).all(|i| strip_ok(words, i))
}

// Whether the lent slices hold a road at all: long enough, counts within their limits, codes listed, ranges inside their tables.
#[tactic(auto, unfolding(crate::specs::Structure::structured))]
pub fn structured(words: &[u16], numbers: &[f64]) -> bool
    ensures { result ≡ structured words.now numbers.now }
{
    words.len() >= WORDS_NEEDED
        && numbers.len() >= NUMBERS_NEEDED
        && counts_ok(words)
        && kinds_ok(words)
        && sections_ok(words)
        && profiles_ok(words)
        && strips_ok(words)
        && all_marks_ok(words)
}
