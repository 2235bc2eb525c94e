//! Quantiles of numbers, in percents.
ghost use Rattle.std.specs.Prelude.{◌≡◌, ◌≤◌, ℕ, length};
ghost use Rattle.std.specs.List.Sorted.{IsNonDecreasing};
ghost use Rattle.run_counts.specs.Ensembles.{most_runs};
ghost use Rattle.run_counts.specs.Quantiles.{quantile};

/// Puts numbers in order. Their quantiles stay.
pub(crate) fn sort(numbers: &mut Vec<u64>)
    requires some { 1 ≤ length numbers.old.items }
    ensures length { length numbers.new.items ≡ length numbers.old.items }
    ensures sorted { IsNonDecreasing numbers.new.items }
    ensures same { (percent : ℕ) → percent ≤ 100 → quantile percent numbers.new.items ≡ quantile percent numbers.old.items }
{
    numbers.sort_unstable();
}

/// A quantile of numbers that stand by rising size.
pub(crate) fn quantile_of(sorted: &[u64], percent: u8) -> u64
    requires sorted { IsNonDecreasing sorted.now }
    requires some { 1 ≤ length sorted.now }
    requires few { length sorted.now ≤ most_runs }
    requires percent { percent ≤ 100 }
    ensures exact { result ≡ quantile percent sorted.now }
{
    let rank = (usize::from(percent) * sorted.len() + 99) / 100;
    sorted[rank.max(1) - 1]
}
