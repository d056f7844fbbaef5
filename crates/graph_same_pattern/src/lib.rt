// Whether two samples have one pattern. The samples of a step come each with row starts and columns of its own (01, part 6); where they are
// the same numbers, one walk over the pattern serves both.
#![tactic(auto)]

ghost use Rattle.std.specs.Prelude.{◌≡◌, ◌↔◌, true};
ghost use Rattle.std.specs.Cmp.Lexicographic.{pointwise};

// Whether two lists are equal. The walk goes on behind a difference, where that of `==` stops, so that several places are compared at once.
fn all_equal<T: PartialEq>(xs: &[T], ys: &[T]) -> bool
    ensures { result ≡ pointwise T.eq xs.now ys.now }
{
    if xs.len() != ys.len() {
        return false;
    }
    xs.iter()
        .zip(ys.iter())
        .fold(true, |same, (x, y)| same & (x == y))
}

// Whether two patterns are the same: their row starts, and their columns. Any four lists may be compared: a `Pattern` of graph_rows in place of two of
// them would ask more of callers, namely that the checks have accepted it.
pub fn same_pattern(
    row_ptr1: &[usize],
    col_idx1: &[u32],
    row_ptr2: &[usize],
    col_idx2: &[u32],
) -> bool
    ensures { (result ≡ true) ↔ ((row_ptr1.now ≡ row_ptr2.now) × (col_idx1.now ≡ col_idx2.now)) }
{
    all_equal(row_ptr1, row_ptr2) && all_equal(col_idx1, col_idx2)
}
