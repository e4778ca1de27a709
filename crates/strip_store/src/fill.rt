// Filling a store and its starts, piece after piece.
ghost use Rattle.std.specs.Prelude.{◌≡◌, ◌<◌, ◌^◌, set};
ghost use Rattle.model.specs.Lent.{lent_by, job_of};
ghost use Rattle.strip_store.specs.Made.{StoreReady, StoreFilled};
ghost use Rattle.strip_store.specs.Rooms.{store_fits};

use model::{Direction, JobSize, PieceEntry, StripEntry};

// How many strips and starts a store has room for.
#[derive(Clone, Copy)]
pub struct Room {
    pub strips: usize,
    pub starts: usize,
}

// Room for so many strips and starts.
pub fn room_for(strips: usize, starts: usize) -> Room
    ensures { result ≡ record { strips = strips; starts = starts } }
{
    Room { strips, starts }
}

// Stores where a piece's strips begin, where there is room for it.
fn put_start(starts: &mut [u32], i: usize, at: usize)
    requires { at < 2 ^ 32 }
    ensures { starts.new ≡ set starts.old i at }
{
    if i < starts.len() {
        starts[i] = at as u32;
    }
}

// Fills a store and its starts, as far as there is room, and tells how many strips there are.
pub fn fill(
    size: JobSize,
    table: &[PieceEntry],
    pixels: &[u8],
    turns: &[u16],
    direction: Direction,
    strips: &mut [StripEntry],
    starts: &mut [u32],
) -> usize
    requires { StoreReady (lent_by size table.now pixels.now) turns.now }
    ensures { StoreFilled direction (job_of (lent_by size table.now pixels.now)) turns.now strips.old starts.old strips.new starts.new result }
{
    let mut at = 0;
    for i in 0..size.count {
        put_start(starts, i, at);
        let start = job_check::pixel_start(table, i);
        let turn = layout_places::turn_or_zero(turns[i]);
        at = strip_scan::put::put_piece(table, pixels, i, start, turn, direction, strips, at);
    }
    put_start(starts, size.count, at);
    at
}

// A store with its starts has room for the job's.
pub fn has_room(
    size: JobSize,
    table: &[PieceEntry],
    pixels: &[u8],
    turns: &[u16],
    direction: Direction,
    room: Room,
) -> bool
    requires { StoreReady (lent_by size table.now pixels.now) turns.now }
    ensures { result ≡ store_fits direction (job_of (lent_by size table.now pixels.now)) turns.now room }
{
    let mut no_strips = [[0u8; 3]; 1];
    let mut no_starts = [0u32; 1];
    let needed = fill(
        size,
        table,
        pixels,
        turns,
        direction,
        &mut no_strips[..0],
        &mut no_starts[..0],
    );
    if room.strips < needed {
        return false;
    }
    size.count < room.starts
}
