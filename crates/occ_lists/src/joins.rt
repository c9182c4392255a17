//! Two lists of occurrences joined by `<<`, NEAR, SENTENCE or PARAGRAPH. The lists are in order, so that those which can go with
//! an occurrence stand side by side and are found by binary search; the work is in proportion to what is found.
ghost use Rattle.std.specs.Prelude.{◌≡◌, ℕ, ◌≤◌, ◌++◌, length, nat_lt, All, OnOk, true, false};
ghost use Rattle.std.specs.List.{filter};
ghost use Rattle.std.specs.List.Sorted.{IsPartitionPoint};
ghost use Rattle.occ_lists.specs.Joined.{before, crosses, hull, near, together};
ghost use Rattle.occ_lists.specs.OccLists.{Ascend, SameMembers};
ghost use Rattle.occ_lists.specs.Places.{ArePlaces};
ghost use Rattle.occ_lists.specs.steps.Beside.{beside, from_to, goes_before, goes_soon, goes_together};
ghost use Rattle.occ_lists.specs.steps.Boundaries.{begins_by, begins_within, comes_before, has_between};
ghost use Rattle.occ_lists.specs.Sound.{IsForward};

use crate::occ::Occ;
use srch_base::NoMemory;

/// Those of the field of x that begin after x ends.
fn following(occs: &[Occ], x: Occ) -> &[Occ]
    requires { Ascend occs.now }
    ensures { result.now ≡ filter (goes_before x) occs.now }
{
    let from = occs.partition_point(|occ| occ.field < x.field
        || occ.field == x.field && occ.first <= x.last);
    let to = occs.partition_point(|occ| occ.field <= x.field);
    occs.get(from..to).unwrap_or(&[])
}

/// Those of the field of x that begin after x ends, at most n positions after it.
fn soon_after(occs: &[Occ], x: Occ, n: u32) -> &[Occ]
    requires { Ascend occs.now }
    ensures { result.now ≡ filter (goes_soon n x) occs.now }
{
    let from = occs.partition_point(|occ| occ.field < x.field
        || occ.field == x.field && occ.first <= x.last);
    let to = occs.partition_point(|occ| {
        occ.field < x.field || occ.field == x.field && occ.first.saturating_sub(x.last) <= n
    });
    occs.get(from..to).unwrap_or(&[])
}

/// Appends what `<<` makes of the two lists.
pub fn put_before(xs: &[Occ], ys: &[Occ], out: &mut Vec<Occ>) -> Result<(), NoMemory>
    requires { Ascend ys.now }
    ensures { OnOk result (out.new.items ≡ out.old.items ++ before xs.now ys.now) }
{
    for x in xs {
        put_after(*x, ys, out)?;
    }
    Ok(())
}

/// Appends, for each that begins after x ends, the occurrence from the beginning of x to its end.
fn put_after(x: Occ, ys: &[Occ], out: &mut Vec<Occ>) -> Result<(), NoMemory>
    requires { Ascend ys.now }
    ensures { OnOk result (out.new.items ≡ out.old.items ++ beside goes_before from_to x ys.now) }
{
    for y in following(ys, x) {
        out.push(Occ {
            field: x.field,
            first: x.first,
            last: y.last,
        })?;
    }
    Ok(())
}

/// Appends what `NEAR/n` makes of the two lists.
pub fn put_near(n: u32, xs: &[Occ], ys: &[Occ], out: &mut Vec<Occ>) -> Result<(), NoMemory>
    requires xs { Ascend xs.now }
    requires ys { Ascend ys.now }
    ensures { OnOk result (SameMembers out.new.items (out.old.items ++ near n xs.now ys.now)) }
{
    for x in xs {
        put_soon(n, *x, ys, out)?;
    }
    for y in ys {
        put_soon(n, *y, xs, out)?;
    }
    Ok(())
}

/// Appends the hulls of x and of each that begins after x ends, at most n positions after it.
fn put_soon(n: u32, x: Occ, ys: &[Occ], out: &mut Vec<Occ>) -> Result<(), NoMemory>
    requires { Ascend ys.now }
    ensures { OnOk result (out.new.items ≡ out.old.items ++ beside (goes_soon n) hull x ys.now) }
{
    for y in soon_after(ys, x, n) {
        out.push(hull(x, *y))?;
    }
    Ok(())
}

/// From the earlier beginning to the later end.
fn hull(x: Occ, y: Occ) -> Occ
    ensures { result ≡ hull x y }
{
    Occ {
        field: x.field,
        first: x.first.min(y.first),
        last: x.last.max(y.last),
    }
}

/// Whether one of the boundaries lies strictly between the ends.
fn crosses(boundaries: &[(u16, u32)], occ: Occ) -> bool
    requires { ArePlaces boundaries.now }
    ensures { result ≡ crosses boundaries.now occ }
{
    match next_boundary(boundaries, occ.field, occ.first) {
        Some(next) => next < occ.last,
        None => false,
    }
}

/// The position of the field's first boundary after a position; `None` where there is none.
fn next_boundary(boundaries: &[(u16, u32)], field: u16, position: u32) -> Option<u32>
    requires { ArePlaces boundaries.now }
    ensures { (limit : ℕ) → has_between boundaries.now field position limit ≡ comes_before result limit }
{
    let at = boundaries.partition_point(|end| end.0 < field || end.0 == field && end.1 <= position);
    match boundaries.get(at) {
        Some(end) if end.0 == field => Some(end.1),
        _ => None,
    }
}

/// The position of the field's last boundary before a position; 0 where there is none.
fn last_boundary(boundaries: &[(u16, u32)], field: u16, position: u32) -> u32
    requires { ArePlaces boundaries.now }
    ensures { (limit : ℕ) → has_between boundaries.now field limit position ≡ nat_lt limit result }
{
    let at = boundaries.partition_point(|end| end.0 < field || end.0 == field && end.1 < position);
    match boundaries.split_at(at).0.last() {
        Some(end) if end.0 == field => end.1,
        _ => 0,
    }
}

/// Those of a field that begin at a position or after it, and not after the last position where one is given.
fn beginning(occs: &[Occ], field: u16, first: u32, last: Option<u32>) -> &[Occ]
    requires { Ascend occs.now }
    ensures { result.now ≡ filter (begins_within field first last) occs.now }
{
    let from = occs.partition_point(|occ| occ.field < field
        || occ.field == field && occ.first < first);
    let to = end_of(occs, field, last);
    occs.get(from..to).unwrap_or(&[])
}

/// How many are of an earlier field, or of this one and begin at the last position or before it, where one is given.
fn end_of(occs: &[Occ], field: u16, last: Option<u32>) -> usize
    requires { Ascend occs.now }
    ensures bound { result ≤ length occs.now }
    ensures parted { IsPartitionPoint (λ o. begins_by field last o ≡ true) (λ o. begins_by field last o ≡ false) occs.now result }
{
    match last {
        Some(last) => occs.partition_point(|occ| occ.field < field
            || occ.field == field && occ.first <= last),
        None => occs.partition_point(|occ| occ.field <= field),
    }
}

/// Appends what SENTENCE or PARAGRAPH makes of the two lists, by the boundaries of its kind.
pub fn put_together(
    boundaries: &[(u16, u32)],
    xs: &[Occ],
    ys: &[Occ],
    out: &mut Vec<Occ>,
) -> Result<(), NoMemory>
    requires boundaries { ArePlaces boundaries.now }
    requires ascend { Ascend ys.now }
    requires xs { All IsForward xs.now }
    requires ys { All IsForward ys.now }
    ensures { OnOk result (out.new.items ≡ out.old.items ++ together boundaries.now xs.now ys.now) }
{
    for x in xs {
        put_beside(boundaries, *x, ys, out)?;
    }
    Ok(())
}

/// Appends the hulls of x and of each in whose hull with x no boundary lies. Those begin in the sentence of x.
fn put_beside(
    boundaries: &[(u16, u32)],
    x: Occ,
    ys: &[Occ],
    out: &mut Vec<Occ>,
) -> Result<(), NoMemory>
    requires boundaries { ArePlaces boundaries.now }
    requires ascend { Ascend ys.now }
    requires ys { All IsForward ys.now }
    ensures { OnOk result (out.new.items ≡ out.old.items ++ beside (goes_together boundaries.now) hull x ys.now) }
{
    let first = last_boundary(boundaries, x.field, x.last);
    let last = next_boundary(boundaries, x.field, x.first);
    for y in beginning(ys, x.field, first, last) {
        let both = hull(x, *y);
        if !crosses(boundaries, both) {
            out.push(both)?;
        }
    }
    Ok(())
}
