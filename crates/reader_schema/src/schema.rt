// The schema of the job text, as data. A word of at most eight bytes is one number, its bytes base 256, as the text's words are read: so two words
// compare by one comparison. It is written as that number and not as its text, since a constant calls no function that would work the number out.
// Constants that are read for a place are lent slices: an array by value would be made anew wherever it is read (docs/PERFORMANCE.md).
ghost use Rattle.std.specs.Prelude.{◌≡◌, ◌+◌, ◌<◌, ℕ, get_or, map};
ghost use Rattle.reader_schema.specs.declared.schema.Column.{Column};
ghost use Rattle.reader_schema.specs.Tables.{table_count};
ghost use Rattle.reader_schema.specs.Schema.{kind_by, list_words, word_count, column_kind, listed_place, name_of, limit_of};

use crate::tables::Kind::{self, Bit, ExtentKind, GeomKind, Number, Side, Term, Whole};
use crate::tables::TABLE_COUNT;
use records::layout::{
    MOST_BANKS, MOST_CUBICS, MOST_ELEVS, MOST_EXTENTS, MOST_GEOMS, MOST_HEIGHTS, MOST_LANES,
    MOST_MARKS, MOST_OFFSETS, MOST_PROFILES, MOST_SECTIONS, MOST_SHAPES, MOST_SHIFTS, STRIPS,
    WANT_STRIDE, WANTS_NEEDED,
};

// A column: its name, as a number, and what it holds.
#[derive(Clone, Copy)]
struct Column {
    title: u64,
    holds: Kind,
}

// A table: its name, as a number, the most lines of it, and its columns.
#[derive(Clone, Copy)]
struct Table {
    name: u64,
    limit: u16,
    columns: &'static [Column],
}

// ---- columns
// length
const LENGTH: Column = Column {
    title: 0x6c656e677468,
    holds: Number,
};

// s
const S: Column = Column {
    title: 0x73,
    holds: Number,
};

// x
const X: Column = Column {
    title: 0x78,
    holds: Number,
};

// y
const Y: Column = Column {
    title: 0x79,
    holds: Number,
};

// hdg
const HDG: Column = Column {
    title: 0x686467,
    holds: Number,
};

// kind
const GEOM_KIND: Column = Column {
    title: 0x6b696e64,
    holds: GeomKind,
};

// k0
const K0: Column = Column {
    title: 0x6b30,
    holds: Number,
};

// k1
const K1: Column = Column {
    title: 0x6b31,
    holds: Number,
};

// start
const START: Column = Column {
    title: 0x7374617274,
    holds: Number,
};

// a
const A: Column = Column {
    title: 0x61,
    holds: Number,
};

// b
const B: Column = Column {
    title: 0x62,
    holds: Number,
};

// c
const C: Column = Column {
    title: 0x63,
    holds: Number,
};

// d
const D: Column = Column {
    title: 0x64,
    holds: Number,
};

// section
const SECTION: Column = Column {
    title: 0x73656374696f6e,
    holds: Whole,
};

// id
const ID: Column = Column {
    title: 0x6964,
    holds: Whole,
};

// extent
const EXTENT: Column = Column {
    title: 0x657874656e74,
    holds: ExtentKind,
};

// level
const LEVEL: Column = Column {
    title: 0x6c6576656c,
    holds: Bit,
};

// inner
const INNER: Column = Column {
    title: 0x696e6e6572,
    holds: Number,
};

// outer
const OUTER: Column = Column {
    title: 0x6f75746572,
    holds: Number,
};

// profile
const PROFILE: Column = Column {
    title: 0x70726f66696c65,
    holds: Whole,
};

// t
const T: Column = Column {
    title: 0x74,
    holds: Number,
};

// side
const SIDE: Column = Column {
    title: 0x73696465,
    holds: Side,
};

// place
const PLACE: Column = Column {
    title: 0x706c616365,
    holds: Bit,
};

// relative
const RELATIVE: Column = Column {
    title: 0x72656c6174697665,
    holds: Bit,
};

// term
const TERM: Column = Column {
    title: 0x7465726d,
    holds: Term,
};

// end
const END: Column = Column {
    title: 0x656e64,
    holds: Number,
};

// kind
const MARK_KIND: Column = Column {
    title: 0x6b696e64,
    holds: Whole,
};

// A cubic along the road: the elevation, the bank, the offset, the shift.
const ALONG: &[Column] = &[START, A, B, C, D];

// The tables by number, in their order.
const TABLES: &[Table] = &[
    // road
    Table {
        name: 0x726f6164,
        limit: 1,
        columns: &[LENGTH],
    },
    // geom
    Table {
        name: 0x67656f6d,
        limit: MOST_GEOMS as u16,
        columns: &[S, X, Y, HDG, LENGTH, GEOM_KIND, K0, K1],
    },
    // elev
    Table {
        name: 0x656c6576,
        limit: MOST_ELEVS as u16,
        columns: ALONG,
    },
    // bank
    Table {
        name: 0x62616e6b,
        limit: MOST_BANKS as u16,
        columns: ALONG,
    },
    // offset
    Table {
        name: 0x6f6666736574,
        limit: MOST_OFFSETS as u16,
        columns: ALONG,
    },
    // tshift
    Table {
        name: 0x747368696674,
        limit: MOST_SHIFTS as u16,
        columns: ALONG,
    },
    // section
    Table {
        name: 0x73656374696f6e,
        limit: MOST_SECTIONS as u16,
        columns: &[START],
    },
    // lane
    Table {
        name: 0x6c616e65,
        limit: MOST_LANES as u16,
        columns: &[SECTION, ID, EXTENT, LEVEL],
    },
    // extent
    Table {
        name: 0x657874656e74,
        limit: MOST_EXTENTS as u16,
        columns: &[SECTION, ID, START, A, B, C, D],
    },
    // height
    Table {
        name: 0x686569676874,
        limit: MOST_HEIGHTS as u16,
        columns: &[SECTION, ID, START, INNER, OUTER],
    },
    // profile
    Table {
        name: 0x70726f66696c65,
        limit: MOST_PROFILES as u16,
        columns: &[S],
    },
    // shape
    Table {
        name: 0x7368617065,
        limit: MOST_SHAPES as u16,
        columns: &[PROFILE, T, A, B, C, D],
    },
    // strip
    Table {
        name: 0x7374726970,
        limit: STRIPS as u16,
        columns: &[SIDE, PLACE, RELATIVE],
    },
    // cubic
    Table {
        name: 0x6375626963,
        limit: MOST_CUBICS as u16,
        columns: &[SIDE, PLACE, TERM, START, A, B, C, D],
    },
    // mark
    Table {
        name: 0x6d61726b,
        limit: MOST_MARKS as u16,
        columns: &[SECTION, ID, START, END, MARK_KIND],
    },
    // want
    Table {
        name: 0x77616e74,
        limit: (WANTS_NEEDED / WANT_STRIDE) as u16,
        columns: &[S, T],
    },
];

// Past the last table.
const NO_TABLE: Table = Table {
    name: 0,
    limit: 0,
    columns: &[],
};

// ---- the words of keyword columns
const LINE: u64 = 0x6c696e65; // line

const ARC: u64 = 0x617263; // arc

const SPIRAL: u64 = 0x73706972616c; // spiral

const WIDTH: u64 = 0x7769647468; // width

const BORDER: u64 = 0x626f72646572; // border

const ZERO: u64 = 0x30; // 0

const ONE: u64 = 0x31; // 1

const TWO: u64 = 0x32; // 2

const THREE: u64 = 0x33; // 3

const LEFT: u64 = 0x6c656674; // left

const RIGHT: u64 = 0x7269676874; // right

// The keyword lists, in the order of their numbers: a geometry's kind, an extent's, a bit, a side, a term.
const KEYWORDS: &[&[u64]] = &[
    &[LINE, ARC, SPIRAL],
    &[WIDTH, BORDER],
    &[ZERO, ONE],
    &[LEFT, RIGHT],
    &[WIDTH, ZERO, ONE, TWO, THREE],
];

// A table; past the last one it has the name 0, no lines and no columns. No Option: the reader asks of the tables in their order alone, so that each
// question would open one that never is none.
fn table_of(table: usize) -> Table
    ensures named { (result.name ≡ name_of table) × (result.limit ≡ limit_of table) }
    ensures titles { table < table_count → map (λ (c : Column). c.title) result.columns.now ≡ list_words table }
    ensures kinds { (i : ℕ) → get_or (map (λ (c : Column). kind_by c.holds) result.columns.now) i 0 ≡ column_kind table i }
{
    TABLES.get(table).copied().unwrap_or(NO_TABLE)
}

// The name of a table as a number; 0, which no word is, past the last table.
pub fn table_name(table: usize) -> u64
    ensures { result ≡ name_of table }
{
    table_of(table).name
}

// The most lines of a table, 0 past the last table.
pub fn limit_of(table: usize) -> u16
    ensures { result ≡ limit_of table }
{
    table_of(table).limit
}

// What a column of a table holds: past the last column, or the last table, an f64.
pub fn kind_of(table: usize, column: usize) -> Kind
    ensures { kind_by result ≡ column_kind table column }
{
    let columns = table_of(table).columns;
    columns.get(column).map_or(Number, |column| column.holds)
}

// The words of a keyword list, counted from the first such list; none past the last.
fn keywords_of(list: usize) -> &'static [u64]
    ensures { result.now ≡ list_words (table_count + list) }
{
    KEYWORDS.get(list).copied().unwrap_or(&[])
}

// How many words a list has: for a table's number, how many columns. 0 past the last list.
pub fn count_of(list: usize) -> u8
    ensures { result ≡ word_count list }
{
    if list < TABLE_COUNT {
        table_of(list).columns.len() as u8
    } else {
        keywords_of(list - TABLE_COUNT).len() as u8
    }
}

// The place of a name among the columns of a table.
fn column_named(table: usize, name: u64) -> Option<u8>
    requires { table < table_count }
    ensures { result ≡ listed_place table name }
{
    let columns = table_of(table).columns;
    let column = columns.iter().position(|column| column.title == name)?;
    Some(column as u8)
}

// The place of a word in a keyword list, counted from the first such list.
fn keyword_place(list: usize, word: u64) -> Option<u8>
    ensures { result ≡ listed_place (table_count + list) word }
{
    let words = keywords_of(list);
    let place = words.iter().position(|listed| *listed == word)?;
    Some(place as u8)
}

// The place of a word in a list: for a table's number, of a column by its name.
pub fn place_of(list: usize, word: u64) -> Option<u8>
    ensures { result ≡ listed_place list word }
{
    if list < TABLE_COUNT {
        column_named(list, word)
    } else {
        keyword_place(list - TABLE_COUNT, word)
    }
}
