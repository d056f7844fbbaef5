// The row starts that the checks have accepted, and the walk over their entries to the first one that fails a test.
ghost use Rattle.std.specs.Prelude.{◌≡◌, ◌<◌, ℕ, Bool, length, slice_index};
ghost use Rattle.graph_shape.specs.Rows.{Rows};

// The n + 1 row starts of n rows, which `check_shape` has accepted: they never fall, and the last is the number of entries.
#[derive(Clone, Copy)]
pub struct RowStarts<'a> {
    pub n: usize,
    pub row_ptr: &'a [usize],
    pub ghost accepted: { Rows n row_ptr.now (slice_index row_ptr.now n) },
}

impl<'a> RowStarts<'a> {
    ghost use Rattle.graph_shape.specs.First.{find_first, Tests};
    ghost use Rattle.graph_shape.specs.RowStarts.{entry_count};

    // The first entry k at which `fails(k)`. The walk goes over the n + 1 row starts, and at each over the entries up to it, so that it meets
    // those before the first row start too. At the entry found both loops are left by name (01).
    pub fn first_entry<F: Fn(usize) -> bool>(self, fails: F) -> Option<usize>
        requires callable { (k : ℕ) → k < entry_count self → F.pre fails k }
        ensures { let entries = entry_count self.entry in
            (p : ℕ → Bool) → Tests (F.post fails) p entries → result ≡ find_first p entries }
    {
        let mut found = None;
        let mut start = 0;
        'rows: for &end in &self.row_ptr[..self.n + 1] {
            for k in start..end {
                if fails(k) {
                    found = Some(k);
                    break 'rows;
                }
            }
            start = end;
        }
        found
    }
}

// A list that has an element for each entry of accepted row starts: the columns or the values.
#[derive(Drop)]
pub struct Entries<'r, 'a, T> {
    pub row_starts: RowStarts<'r>,
    pub list: &'a [T],
    pub ghost count: { length list.now ≡ slice_index row_starts.row_ptr.now row_starts.n },
}
