// The types that every crate shares. They follow document 01, 'Sheet and panels', 'Line search', 'Descent and guidance' and
// 'When a call says no', and document 02; what the words mean is defined in specs/. Each limit stands here once, under the name that specs/
// has for it.
#![tactic(auto)]

// The most rows of a sheet.
pub const ROW_BOUND: usize = 512;

// The most columns of a sheet.
pub const COLUMN_BOUND: usize = 4096;

// The most pixels of a sheet, and of all boxes together.
pub const AREA_BOUND: usize = 65536;

// The most pieces of a job.
pub const PIECE_BOUND: usize = 64;

// The most pairs of them.
pub const PAIR_BOUND: usize = PIECE_BOUND * (PIECE_BOUND - 1) / 2;

// The most pixels along a box side.
pub const SIDE_BOUND: usize = 255;

// The largest sum of turns.
pub const TURNS_BOUND: usize = 15;

// The largest lock: 1 locked, 0 free.
pub const LOCK_BOUND: usize = 1;

// The farthest that an offset of a no-fit line goes either way.
pub const OFFSET_BOUND: u32 = 262;

// The largest weight of a pair.
pub const WEIGHT_BOUND: u32 = 65535;

// The most trials of a run.
pub const BUDGET_BOUND: u32 = 1000000000;

// The most rounds of a run.
pub const ROUND_BOUND: u32 = 1000;

// The largest pitch, in sixty-fourths of a millimetre.
pub const PITCH_BOUND: u32 = 4096;

ghost use Rattle.std.specs.Prelude.{◌≡◌, Err};
ghost use Rattle.model.specs.Refusal.{plain_refusal};

// A column number x, along the length of the sheet.
#[derive(Clone, Copy)]
pub struct Column(pub u16);

// A row number y, across the width of the sheet.
#[derive(Clone, Copy)]
pub struct Row(pub u16);

// A difference of two column numbers.
#[derive(Clone, Copy)]
pub struct ColumnOffset(pub i32);

// A difference of two row numbers.
#[derive(Clone, Copy)]
pub struct RowOffset(pub i32);

// A counterclockwise turn by 0, 90, 180 or 270 degrees.
#[derive(Clone, Copy)]
pub enum Turn {
    Zero,
    Quarter,
    Half,
    ThreeQuarters,
}

// The direction of a shift: along the rows or along the columns.
#[derive(Clone, Copy)]
pub enum Direction {
    Horizontal,
    Vertical,
}

// The line that a line search runs on: a held row, searched horizontally, or a held column, searched vertically.
#[derive(Clone, Copy)]
pub enum Line {
    InRow(Row),
    InColumn(Column),
}

// A coordinate on such a line, with its axis: a column where a row is held, a row where a column is held.
#[derive(Clone, Copy)]
pub enum Coordinate {
    AtColumn(Column),
    AtRow(Row),
}

// Where a piece lies: its turn, and the sheet pixel of its turned box's bottom-left pixel, the corner.
#[derive(Clone, Copy)]
pub struct Placement {
    pub turn: Turn,
    pub x: Column,
    pub y: Row,
}

// A job's numbers: the sheet's rows (W) and columns (L), how many pieces there are (n), and the gap between them (g). Its table and its
// pixels are lent beside it.
#[derive(Clone, Copy)]
pub struct JobSize {
    pub rows: usize,
    pub columns: usize,
    pub count: usize,
    pub gap: usize,
}

// An entry of a piece table: l columns, w rows, o, the sum of the allowed turns, and the lock, 1 locked or 0 free.
pub type PieceEntry = [u8; 4];

// A strip in a store: its line, its first pixel and its count of pixels.
pub type StripEntry = [u8; 3];

// A placement in a layout buffer: degrees, column and row.
pub type PlaceEntry = [u16; 3];

// A line to cut in a line buffer: its direction (0 horizontal, 1 vertical), its pixel line, and the pixel lines at which it begins and ends.
pub type LineEntry = [u16; 4];

// A refusal: its number and two places, 0 unless named. A call that may be refused answers a Result with it.
#[derive(Clone, Copy)]
pub struct Refusal {
    pub number: u8,
    pub first: u32,
    pub second: u32,
}

// What a preview shows of a layout: its weighted sum and its used length.
#[derive(Clone, Copy)]
pub struct Figures {
    pub sum: u64,
    pub length: u64,
}

// A step of the knife, its point in millimetres: lift to (x, y), cut to (x, y), or done.
#[derive(Clone, Copy)]
pub enum CutStep {
    Lift(f64, f64),
    Cut(f64, f64),
    Done,
}

// The refusal with this number and no places.
pub fn plain_refusal(number: u8) -> Refusal
    ensures { result ≡ plain_refusal number }
{
    Refusal {
        number: number,
        first: 0,
        second: 0,
    }
}

// What a call answers that is refused by this number and no places.
pub fn refused(number: u8) -> Result<(), Refusal>
    ensures { result ≡ Err (plain_refusal number) }
{
    Err(plain_refusal(number))
}

// How a descent ends: sum zero, all trials quiet, or budget used up.
#[derive(Clone, Copy)]
pub enum End {
    Clear,
    Settled,
    Spent,
}

// One piece's entry in the sheet record: whether it is laid and where. One that is not laid has turn 0 and corner (0, 0).
#[derive(Clone, Copy)]
pub struct Entry {
    pub laid: bool,
    pub place: Placement,
}

// The sheet record: an entry for each of the 64 piece numbers. Those from n on are of pieces that are not laid.
#[derive(Clone, Copy)]
pub struct Record {
    pub pieces: [Entry; PIECE_BOUND],
}
