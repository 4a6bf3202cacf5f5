ghost use Rattle.std.specs.Prelude.{◌≡◌, ◌≤◌, ◌^◌, IfSome, IfNone};
ghost use Rattle.chronicle.specs.Views.{sum_of};

/// How many calls all allotments allow together; `None` where a `u64` can't hold the number.
pub(crate) fn sum(allotments: &[u64]) -> Option<u64>
    ensures sum { IfSome result (λ calls. calls ≡ sum_of allotments.now) }
    ensures none { IfNone result (2 ^ 64 ≤ sum_of allotments.now) }
{
    let mut calls = 0u64;
    for i in 0..allotments.len() {
        calls = calls.checked_add(allotments[i])?;
    }
    Some(calls)
}
