// Whether extents, each a pair of numbers (start and length), share no byte: sorted, then neighbours compared.
#![tactic(auto)]

ghost use Rattle.std.specs.Prelude.{◌≡◌};
ghost use Rattle.records.specs.Stages.{pairs, neighbours};
ghost use Rattle.ref_sort.specs.Order.{pair_refs};
ghost use Rattle.plan_apart.specs.Spacing.{apart, ends_by};

use records::sum_at_most;

// Whether each extent ends at most where the next starts.
fn are_spaced(extents: &[(u64, u64)]) -> bool
    ensures { result ≡ neighbours ends_by (pair_refs extents.now) }
{
    extents.is_sorted_by(|a, b| sum_at_most(a.0, a.1, b.0))
}

// Whether every two extents share no byte. They are left sorted.
pub fn are_apart(extents: &mut [(u64, u64)]) -> bool
    ensures { result ≡ pairs apart (pair_refs extents.old) }
{
    ref_sort::sort_refs(extents);
    are_spaced(extents)
}
