// Setting a lock: document 02, point 6. The one call beside the reader that writes a piece table.
#![tactic(auto)]

ghost use Rattle.std.specs.Prelude.{[], ◌∷◌, ◌≡◌};
ghost use Rattle.model.specs.Answers.{done_answer};
ghost use Rattle.model.specs.Lent.{lent_by};
ghost use Rattle.model.specs.Calls.{set_lock_call, locked_after};
ghost use Rattle.call_laws.specs.Locks.{lock_call, LocksClaims};

use model::{JobSize, PieceEntry, Refusal, refused};
use piece_table::lock_piece;

// The planner's station, which may not set a lock.
pub const PLANNERS_STATION: usize = 0;

// The cutter's station, which may. It is the last one.
pub const CUTTERS_STATION: usize = 1;

// The lock of a piece set, all else in the table as it was; a piece that is locked stays so. Refused: 8 the job, 2 a station that is none,
// 9 no such piece, 16 the planner's station.
pub fn set_lock(
    size: JobSize,
    table: &mut [PieceEntry],
    pixels: &[u8],
    piece: usize,
    station: usize,
) -> Result<(), Refusal>
    ensures answer { result ≡ done_answer (set_lock_call (lent_by size table.old pixels.now) piece station) }
    ensures memory { table.new ≡ locked_after table.old (set_lock_call (lent_by size table.old pixels.now) piece station) }
    ensures locks { LocksClaims (lent_by size table.old pixels.now) (lock_call piece station ∷ []) (lent_by size table.new pixels.now) }
{
    if !job_check::check_job(size, table, pixels) {
        return refused(8);
    }
    let unknown = CUTTERS_STATION < station;
    if unknown {
        return refused(2);
    }
    let missing = size.count <= piece;
    if missing {
        return refused(9);
    }
    let planner = station == PLANNERS_STATION;
    if planner {
        return refused(16);
    }
    lock_piece(table, piece);
    Ok(())
}
