// Where a lent road's tables stand, by the names of specs/Layout.antt; docs/MEMORY.md is the same table for whoever lends a road.
// A table has a first place and a stride, the places that a line takes: those of a cubic and of a height are their types' `STRIDE`. What the words of a
// line are is said beside its table, and each has the name of where it stands in the first line.

// ---- numbers: the road's length, then the tables
pub const LENGTH_PLACE: usize = 0;

pub const GEOM_BASE: usize = 1;

pub const GEOM_STRIDE: usize = 7;

pub const ELEV_BASE: usize = 449;

pub const BANK_BASE: usize = 769;

pub const OFFSET_BASE: usize = 1089;

pub const TSHIFT_BASE: usize = 1409;

pub const SECTION_BASE: usize = 1729;

pub const EXTENT_BASE: usize = 1745;

pub const HEIGHT_BASE: usize = 4305;

pub const PROFILE_BASE: usize = 5841;

pub const SHAPE_BASE: usize = 5857;

pub const CUBIC_BASE: usize = 7137;

pub const SPAN_BASE: usize = 7937;

pub const NUMBERS_NEEDED: usize = 8449;

pub const SPAN_STRIDE: usize = 2;

// ---- words: how many lines seven tables have, then the tables
pub const GEOM_COUNT_AT: usize = 0;

pub const ELEV_COUNT_AT: usize = 1;

pub const BANK_COUNT_AT: usize = 2;

pub const OFFSET_COUNT_AT: usize = 3;

pub const TSHIFT_COUNT_AT: usize = 4;

pub const SECTION_COUNT_AT: usize = 5;

pub const PROFILE_COUNT_AT: usize = 6;

pub const KIND_WORDS: usize = 7;

// a section: first lane, left lanes, right lanes
pub const SECTION_WORDS: usize = 71;

pub const LEFT_WORDS: usize = SECTION_WORDS + 1;

pub const RIGHT_WORDS: usize = SECTION_WORDS + 2;

pub const SECTION_STRIDE: usize = 3;

// a lane: extent code, level code, first extent, extents, first height, heights
pub const LANE_WORDS: usize = 119;

pub const LEVEL_WORDS: usize = LANE_WORDS + 1;

pub const EXTENT_WORDS: usize = LANE_WORDS + 2;

pub const EXTENT_COUNT_WORDS: usize = LANE_WORDS + 3;

pub const HEIGHT_WORDS: usize = LANE_WORDS + 4;

pub const HEIGHT_COUNT_WORDS: usize = LANE_WORDS + 5;

pub const LANE_STRIDE: usize = 6;

// a profile: first shape, shapes
pub const PROFILE_WORDS: usize = 1271;

pub const SHAPE_COUNT_WORDS: usize = PROFILE_WORDS + 1;

pub const PROFILE_STRIDE: usize = 2;

// a strip: presence code, then first and count of its width's cubics and of its four terms'
pub const STRIP_WORDS: usize = 1303;

pub const COLUMN_WORDS: usize = STRIP_WORDS + 1;

pub const COLUMN_COUNT_WORDS: usize = STRIP_WORDS + 2;

pub const COLUMN_STRIDE: usize = 2;

pub const STRIP_STRIDE: usize = 11;

// left inner, left outer, right inner, right outer
pub const STRIPS: usize = 4;

pub const STRIP_TERMS: usize = 4;

// the width, then the terms
pub const COLUMNS_A_STRIP: usize = STRIP_TERMS + 1;

// a section's marks: first mark, marks
pub const SECTION_MARK_WORDS: usize = 1347;

pub const MARK_COUNT_WORDS: usize = SECTION_MARK_WORDS + 1;

pub const SECTION_MARK_STRIDE: usize = 2;

// a mark: the place of its lane among those of its section, its kind
pub const MARK_WORDS: usize = 1379;

pub const MARK_KIND_WORDS: usize = MARK_WORDS + 1;

pub const MARK_STRIDE: usize = 2;

pub const WORDS_NEEDED: usize = 1891;

// ---- codes: what a word stands for, counted from 0; after a list's codes how many it has

// a geometry's kind: line, arc, spiral
pub const LINE_CODE: usize = 0;

pub const ARC_CODE: usize = 1;

pub const SPIRAL_CODE: usize = 2;

pub const GEOM_CODES: usize = 3;

// a lane's extents: width, border
pub const BORDER_CODE: usize = 1;

pub const EXTENT_CODES: usize = 2;

// a lane's level: 0, 1
pub const LEVEL_CODE: usize = 1;

pub const LEVEL_CODES: usize = 2;

// a strip: absent, absolute, relative
pub const ABSENT_CODE: usize = 0;

pub const ABSOLUTE_CODE: usize = 1;

pub const RELATIVE_CODE: usize = 2;

pub const STRIP_CODES: usize = 3;

// ---- wants: s and t of each
pub const WANT_STRIDE: usize = 2;

pub const WANTS_NEEDED: usize = 32;

// ---- how many lines each table has at most, and a parent under it
pub const MOST_GEOMS: usize = 64;

pub const MOST_ELEVS: usize = 64;

pub const MOST_BANKS: usize = 64;

pub const MOST_OFFSETS: usize = 64;

pub const MOST_SHIFTS: usize = 64;

pub const MOST_SECTIONS: usize = 16;

pub const MOST_LANES_A_SIDE: usize = 6;

pub const MOST_LANES: usize = 192;

pub const MOST_EXTENTS_A_LANE: usize = 16;

pub const MOST_EXTENTS: usize = 512;

pub const MOST_HEIGHTS_A_LANE: usize = 8;

pub const MOST_HEIGHTS: usize = 512;

pub const MOST_PROFILES: usize = 16;

pub const MOST_SHAPES_A_PROFILE: usize = 16;

pub const MOST_SHAPES: usize = 256;

pub const MOST_CUBICS_A_TERM: usize = 8;

pub const MOST_CUBICS: usize = 160;

pub const MOST_MARKS_A_SECTION: usize = 16;

pub const MOST_MARKS: usize = 256;
