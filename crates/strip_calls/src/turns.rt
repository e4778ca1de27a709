// The list of turns that a store is made in.

ghost use Rattle.std.specs.Prelude.{◌≡◌, List, ℕ, ◌≤◌, length};
ghost use Rattle.model.specs.Lent.{lent_by, job_of};
ghost use Rattle.model.specs.Calls.{turn_list_wrong};

use model::{JobSize, PieceEntry};

// Cause 9 of a list of turns: it is not n long, or a turn is not allowed to its piece.
pub fn wrong(size: JobSize, table: &[PieceEntry], turns: &[u16]) -> bool
    requires { size.count ≤ length table.now }
    ensures { (pixels : List ℕ) → result ≡ turn_list_wrong (job_of (lent_by size table.now pixels)) turns.now }
{
    if turns.len() != size.count {
        return true;
    }
    (0..size.count).any(|i| !layout_places::allowed_degrees(table, i, turns[i]))
}
