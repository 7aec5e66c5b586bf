// The references of a list to two extents, sorted, less those of another list: one pass over each list, two sorts, and one
// walk along both.
#![tactic(auto)]

pub mod compared;

ghost use Rattle.std.specs.Prelude.{◌≡◌, true, [], ◌∷◌, ◌+◌, ◌<◌, ◌≤◌, ◌^◌, length, take};
ghost use Rattle.records.specs.Lent.{old, new};
ghost use Rattle.item.specs.Items.{items};
ghost use Rattle.ref_def.specs.Compared.{refs_among, minus};
ghost use Rattle.plan_def.specs.Outputs.{ref_numbers};
ghost use Rattle.plan_lines.specs.Lines.{Laid};
ghost use Rattle.ref_sort.specs.Order.{ordered, upward, pair_ref, pair_refs};
ghost use Rattle.ref_minus.specs.Walk.{past};
ghost use Rattle.ref_minus.specs.Compared.{more_of};

pub use compared::Compared;

// ---- the references of a list

// Those of all items to two extents in order, as the first pairs of a buffer; how many there are.
fn sorted_refs(list: &[u8], one: u64, two: u64, buf: &mut [(u64, u64)]) -> usize
    requires { length (items list.now) ≤ length buf.old }
    ensures { (result ≤ length (items list.now)) × (pair_refs (take result buf.new) ≡ refs_among (one ∷ two ∷ []) (items list.now)) }
{
    let mut n: usize = 0;
    for item in item::items(list) {
        if !ref_def::is_among(one, two, item) {
            continue;
        }
        buf[n] = (item.extent_start(), item.reference());
        n += 1;
    }
    ref_sort::sort_refs(&mut buf[..n]);
    n
}

// ---- two lists in order

// Pairs from the first on that is not before x.
fn skip<'a>(ys: &'a [(u64, u64)], x: (u64, u64)) -> &'a [(u64, u64)]
    ensures { pair_refs result.now ≡ past (pair_ref x) (pair_refs ys.now) }
{
    let is_on = |y: &(u64, u64)| -> bool
        ensures { result ≡ upward (pair_ref x) (pair_ref y.now) }
    { *y >= x };
    let at = ys.iter().position(is_on).unwrap_or(ys.len());
    &ys[at..]
}

// The pairs of xs that are left without those of ys, as lines; both are in order.
fn put_minus(xs: &[(u64, u64)], ys: &[(u64, u64)], out: &mut [u64], n: usize) -> usize
    requires { (ordered (pair_refs xs.now) ≡ true) × (ordered (pair_refs ys.now) ≡ true) × (n + length xs.now < 2 ^ 64) }
    ensures { Laid ref_numbers 2 n (minus (pair_refs xs.now) (pair_refs ys.now)) out.old result out.new }
{
    let mut m = n;
    let mut left = ys;
    for x in xs {
        left = skip(left, *x);
        if let Some(behind) = left.strip_prefix(&[*x]) {
            left = behind;
            continue;
        }
        m = plan_lines::put_ref(out, m, x.0, x.1);
    }
    m
}

impl<'a> Compared<'a> {
    // The lines, where x has at most N records and y 32. It is not built into its caller, so a call with few records does not
    // touch the stack that the buffer of a larger N takes.
    #[inline(never)]
    fn put_sized<const N: usize>(self, out: &mut [u64]) -> usize
        requires { (length (items self.x.now) ≤ N) × (length (items self.y.now) ≤ 32) × (N ≤ 65536) }
        ensures { Laid ref_numbers 2 self.entry.n (more_of self.entry) out.old result out.new }
    {
        let mut xs = [(0u64, 0u64); N];
        let mut ys = [(0u64, 0u64); 32];
        let k = sorted_refs(self.x, self.one, self.two, &mut xs);
        let m = sorted_refs(self.y, self.one, self.two, &mut ys);
        put_minus(&xs[..k], &ys[..m], out, self.n)
    }

    // The same for at most 65,536 records of x and 32 of y. The buffer is no longer than it need be, as it is zeroed.
    pub fn put_sorted(self, out: &mut [u64]) -> usize
        requires { (length (items self.x.now) ≤ 65536) × (length (items self.y.now) ≤ 32) }
        ensures { Laid ref_numbers 2 self.entry.n (more_of self.entry) out.old result out.new }
    {
        let k = self.x.len() / item::RECORD;
        if k <= 32 {
            self.put_sized::<32>(out)
        } else if k <= 1024 {
            self.put_sized::<1024>(out)
        } else if k <= 8192 {
            self.put_sized::<8192>(out)
        } else {
            self.put_sized::<65536>(out)
        }
    }
}
