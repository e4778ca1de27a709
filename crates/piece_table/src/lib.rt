// The piece table of a job: an entry holds l columns, w rows, o, the sum of the allowed turns, and the lock. Only this crate knows the order
// of an entry's numbers.
#![tactic(auto)]

ghost use Rattle.std.specs.Prelude.{[], ◌∷◌, ◌≡◌, ◌<◌, ◌≤◌, length, eqb};
ghost use Rattle.model.specs.Lent.{entry_columns, entry_rows, entry_turns, entry_lock, entry_area};
ghost use Rattle.model.specs.Calls.{with_lock};

use model::PieceEntry;

// The columns of piece i's box.
pub fn columns_of(table: &[PieceEntry], i: usize) -> usize
    requires { i < length table.now }
    ensures { (result ≡ entry_columns table.now i) × (result ≤ 255) }
{
    usize::from(table[i][0])
}

// The rows of piece i's box.
pub fn rows_of(table: &[PieceEntry], i: usize) -> usize
    requires { i < length table.now }
    ensures { (result ≡ entry_rows table.now i) × (result ≤ 255) }
{
    usize::from(table[i][1])
}

// The sum of the turns allowed to piece i.
pub fn turns_of(table: &[PieceEntry], i: usize) -> u8
    requires { i < length table.now }
    ensures { result ≡ entry_turns table.now i }
{
    table[i][2]
}

// The lock of piece i: 1 locked, 0 free.
pub fn lock_of(table: &[PieceEntry], i: usize) -> u8
    requires { i < length table.now }
    ensures { result ≡ entry_lock table.now i }
{
    table[i][3]
}

// Piece i is locked.
pub fn is_locked(table: &[PieceEntry], i: usize) -> bool
    requires { i < length table.now }
    ensures { result ≡ eqb (entry_lock table.now i) 1 }
{
    lock_of(table, i) == 1
}

// Sets the lock of piece i.
pub fn lock_piece(table: &mut [PieceEntry], i: usize)
    requires { i < length table.old }
    ensures { table.new ≡ with_lock table.old i }
{
    let entry = table[i];
    table[i] = [entry[0], entry[1], entry[2], 1];
}

// The area of piece i's box.
pub fn area_of(table: &[PieceEntry], i: usize) -> usize
    requires { i < length table.now }
    ensures { (result ≡ entry_area table.now i) × (result ≤ 65025) }
{
    columns_of(table, i) * rows_of(table, i)
}

// The entry of a piece with these sides, this sum of turns and this lock.
pub fn piece_entry(columns: usize, rows: usize, turns: usize, lock: usize) -> PieceEntry
    requires { (columns ≤ 255) × (rows ≤ 255) × (turns ≤ 255) × (lock ≤ 255) }
    ensures { result ≡ columns ∷ rows ∷ turns ∷ lock ∷ [] }
{
    [columns as u8, rows as u8, turns as u8, lock as u8]
}
