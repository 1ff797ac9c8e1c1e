// The tables of a job text by number, in their order, the most columns that one of them has, and what a column holds.
// A table is its number, not a variant of an enum: the public functions take any number and must stay as wide, and an enum would narrow their parameter;
// and the reader counts through the tables in their order.
ghost use Rattle.std.specs.Prelude.{◌≡◌};
ghost use Rattle.reader_schema.specs.Schema.{kind_by};
ghost use Rattle.reader_schema.specs.Kinds.{IsNumbered};

pub const ROAD_TABLE: usize = 0;

pub const GEOM_TABLE: usize = 1;

pub const ELEV_TABLE: usize = 2;

pub const BANK_TABLE: usize = 3;

pub const OFFSET_TABLE: usize = 4;

pub const TSHIFT_TABLE: usize = 5;

pub const SECTION_TABLE: usize = 6;

pub const LANE_TABLE: usize = 7;

pub const EXTENT_TABLE: usize = 8;

pub const HEIGHT_TABLE: usize = 9;

pub const PROFILE_TABLE: usize = 10;

pub const SHAPE_TABLE: usize = 11;

pub const STRIP_TABLE: usize = 12;

pub const CUBIC_TABLE: usize = 13;

pub const MARK_TABLE: usize = 14;

pub const WANT_TABLE: usize = 15;

pub const TABLE_COUNT: usize = 16;

pub const COLUMNS_MOST: usize = 8;

// The lists of words by number: lists 0 to 15 are the columns of that table, the words of keyword columns follow. A list is a number and no variant of an
// enum: a table's number is its list's, and `place_of` and `count_of` take any number and must stay as wide.
pub const GEOM_KINDS: usize = TABLE_COUNT;

pub const EXTENT_KINDS: usize = GEOM_KINDS + 1;

pub const BITS: usize = GEOM_KINDS + 2;

pub const SIDES: usize = GEOM_KINDS + 3;

pub const TERMS: usize = GEOM_KINDS + 4;

pub const LIST_COUNT: usize = TABLE_COUNT + 5;

// What a column holds, by its number: an f64, a whole number, or a word of a list: a geometry's kind; an extent's; the words 0 and 1; a side; a term.
#[derive(Clone, Copy, Debug, PartialEq, Eq)]
pub enum Kind {
    Number = NUMBERS as isize,
    Whole = WHOLES as isize,
    GeomKind = GEOM_KINDS as isize,
    ExtentKind = EXTENT_KINDS as isize,
    Bit = BITS as isize,
    Side = SIDES as isize,
    Term = TERMS as isize,
}

// The numbers of the kinds that have no list of words: an f64 and a whole number.
pub const NUMBERS: usize = 0;

pub const WHOLES: usize = 1;

// The same two, and the first list of keywords, as bytes.
pub const NUMBER: u8 = NUMBERS as u8;

pub const WHOLE: u8 = WHOLES as u8;

pub const SHAPE_KINDS: u8 = GEOM_KINDS as u8;

// The number of a kind: the list of its words, `NUMBERS` or `WHOLES` where it has none. Those two are also the lists of two tables' column
// names: no column holds such a name, so as a kind's number each has one meaning.
impl From<Kind> for usize {
    ghost from_gives = { λ kind number. number ≡ kind_by kind };

    fn from(kind: Kind) -> usize {
        kind as usize
    }
}

// A number that no kind has.
#[derive(Clone, Copy, Debug, PartialEq, Eq)]
pub struct NoKind(pub usize);

impl TryFrom<usize> for Kind {
    type Error = NoKind;

    ghost try_from_gives = { IsNumbered };

    fn try_from(number: usize) -> Result<Kind, NoKind> {
        match number {
            NUMBERS => Ok(Kind::Number),
            WHOLES => Ok(Kind::Whole),
            GEOM_KINDS => Ok(Kind::GeomKind),
            EXTENT_KINDS => Ok(Kind::ExtentKind),
            BITS => Ok(Kind::Bit),
            SIDES => Ok(Kind::Side),
            TERMS => Ok(Kind::Term),
            _ => Err(NoKind(number)),
        }
    }
}
