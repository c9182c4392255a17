//! How many of some listed keywords a quorum wants.
ghost use Rattle.std.specs.Prelude.{◌≡◌, ◌*◌, ◌^◌, nat_le};
ghost use Rattle.op_eval.specs.Finding.{is_enough};

use query_tree::How;

/// Whether so many of n listed keywords are enough for a quorum.
pub(crate) fn is_enough(how: How, n: usize, matched: usize) -> bool
    ensures { result ≡ is_enough how n matched }
{
    match how {
        How::AtLeast(k) => matched >= n.min(k as usize),
        How::Share { digits, places } => has_share(digits, places, n, matched),
        How::Phrase | How::Within(_) => false,
    }
}

/// Whether `matched` of n are at least the share of these digits and decimal places: `matched * 10^places >= digits * n`.
fn has_share(digits: u32, places: u8, n: usize, matched: usize) -> bool
    ensures { result ≡ nat_le (digits * n) (matched * (10 ^ places)) }
{
    let wanted = u128::from(digits) * n as u128;
    let mut had = matched as u128;
    for place in 0..places {
        if had >= wanted {
            return true;
        }
        had *= 10;
    }
    had >= wanted
}
