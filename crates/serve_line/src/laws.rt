//! Laws of the definitions. Each function does nothing: its contract is the law.
ghost use Rattle.std.specs.Prelude.{◌≡◌, ◌≤◌, ◌++◌, ℕ, List, length, map, take};
ghost use Rattle.std.specs.List.{flat_map};
ghost use Rattle.serve_line.specs.Line.{Opened, Phase, Run, Turn};

use crate::Answerer;

/// The bytes of a connection are read in one way: two runs of turns over the same bytes read the same packets, as far as both go.
pub fn a_line_is_read_in_one_way<A: Answerer>()
    ensures { (connection : ℕ) (start : A) (turns more : List (Turn A.Event)) (new other : Phase A) (rest left : List ℕ)
        → Run A.machine (Opened connection start) turns new → Run A.machine (Opened connection start) more other
        → flat_map (λ t. t.read) turns ++ rest ≡ flat_map (λ t. t.read) more ++ left → length turns ≤ length more
        → map (λ t. t.read) turns ≡ take (length turns) (map (λ t. t.read) more) }
{
    mysql_wire::bytes_begin_in_one_way();
}
