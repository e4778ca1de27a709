// Numbers that the placements need.
ghost use Rattle.std.specs.Prelude.{◌≡◌, ◌≤◌, length};
ghost use Rattle.model.specs.Layout.{pairs};
ghost use Rattle.model.specs.Lent.{piece_bound};

// How many pairs n pieces have.
pub fn pair_count(n: usize) -> usize
    requires { n ≤ piece_bound }
    ensures { result ≡ length (pairs n) }
{
    if n == 0 {
        // A job that passed its check has a piece: this does not happen.
        return 0;
    }
    n * (n - 1) / 2
}
