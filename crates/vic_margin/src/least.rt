//! The least margin of the UIDs that a log doesn't list.

ghost use Rattle.std.specs.Prelude.{◌≡◌, ◌^◌, ◌<◌, ◌≤◌, ◌&&◌, ◌||◌, ℕ, Bool};
ghost use Rattle.vic_margin.specs.inner.Least.{IsLeastOf, is_free, lesser};
ghost use Rattle.vic_margin.specs.inner.Trees.{within};

use crate::margins::PartMargins;
use vic_frame::UID_BITS;
use vic_frame::low_bits_first::UidKey;
use vic_tree::SortedKeys;

/// The least margin of the UIDs without those with some keys; `None` if there is no other key.
pub(crate) fn least_besides(margins: &PartMargins, keys: &SortedKeys) -> Option<u32>
    ensures { IsLeastOf margins.now.parts margins.now.each.items
        (is_free keys.now (2 ^ UID_BITS)) result }
{
    let keys = keys.as_slice();
    let mut least = None;
    let mut from = 0;
    for key in keys {
        least = least_between(margins, from, *key, least);
        from = *key + 1;
    }
    least_between(margins, from, 1 << UID_BITS, least)
}

/// The least margin of those up to now and of the UIDs with keys from `from` on and before `end`;
/// `None` if there is neither.
fn least_between(margins: &PartMargins, from: u64, end: u64, least: Option<u32>) -> Option<u32>
    requires { end ≤ 2 ^ UID_BITS }
    ensures { (wanted : ℕ → Bool)
        → IsLeastOf margins.now.parts margins.now.each.items wanted least
        → IsLeastOf margins.now.parts margins.now.each.items
        (λ k. wanted k || within from end k) result }
{
    if end <= from {
        return least;
    }
    let mut found = least;
    let first = UidKey::new(from);
    let last = UidKey::new(end - 1);
    for part in margins.parts.at(first)..margins.parts.at(last) + 1 {
        found = Some(lesser(found, margins.each[part]));
    }
    found
}

/// The lesser of two numbers, if the first is there.
fn lesser(least: Option<u32>, margin: u32) -> u32
    ensures { result ≡ lesser least margin }
{
    match least {
        Some(least) => if least < margin { least } else { margin },
        None => margin,
    }
}
