//! Whether keywords stand near each other, by their places alone. Places ascend, so that for each place of the one keyword the
//! first of the other that could be close to it is found by binary search, and tells of those behind it.
ghost use Rattle.std.specs.Prelude.{◌≡◌, [], true, not, map};
ghost use Rattle.std.specs.List.{list_any};
ghost use Rattle.occ_lists.specs.Joined.{near};
ghost use Rattle.occ_lists.specs.Places.{ArePlaces, at_place};
ghost use Rattle.occ_lists.specs.Close.{is_close};

use crate::places::from_on;

/// Whether no place of the one keyword stands in one field with a place of the other, at most n positions apart. Then `NEAR/n` makes
/// nothing of the two. Of keywords with a place in common it may make nothing either.
pub fn stand_apart(n: u32, xs: &[(u16, u32)], ys: &[(u16, u32)]) -> bool
    requires { ArePlaces ys.now }
    ensures told { result ≡ not (list_any (λ x. list_any (is_close n x) ys.now) xs.now) }
    ensures nothing { result ≡ true → near n (map at_place xs.now) (map at_place ys.now) ≡ [] }
{
    !are_close(n, xs, ys)
}

/// Whether a place of the one list is close to one of the other.
fn are_close(n: u32, xs: &[(u16, u32)], ys: &[(u16, u32)]) -> bool
    requires { ArePlaces ys.now }
    ensures { result ≡ list_any (λ x. list_any (is_close n x) ys.now) xs.now }
{
    for x in xs {
        if has_close(n, *x, ys) {
            return true;
        }
    }
    false
}

/// Whether one of the places is close to x.
fn has_close(n: u32, x: (u16, u32), ys: &[(u16, u32)]) -> bool
    requires { ArePlaces ys.now }
    ensures { result ≡ list_any (is_close n x) ys.now }
{
    match from_on(ys, (x.0, x.1.saturating_sub(n))).split_first() {
        None => false,
        Some((first, _)) => is_close(n, x, *first),
    }
}

/// Whether the places stand in one field, at most n positions apart.
fn is_close(n: u32, x: (u16, u32), y: (u16, u32)) -> bool
    ensures { result ≡ is_close n x y }
{
    x.0 == y.0 && x.1.saturating_sub(y.1) <= n && y.1.saturating_sub(x.1) <= n
}
