// The square roots of vectors, block by block, so that an estimate that fails its test costs its own block more time and not the whole vector.
ghost use Rattle.std.specs.Prelude.{◌≡◌, map, ◌+◌, ◌≤◌, length};
ghost use Rattle.std.specs.Float.{binary64};
ghost use Rattle.scratch.specs.Parts.{part, put, Apart};
ghost use Rattle.ieee_square_root.specs.SquareRoot.{square_root};

use square_roots_blocks::kernel::block_into_slice;

// How many roots make up a block: so many that its passes are long, and so few that a third pass over them costs little.
const BLOCK: usize = 256;

// The square roots of src's elements, to dst. Two slices of one length, here and in the crates below, are two arguments, as those of `copy_from_slice`:
// a struct of both would be made at one place and taken apart at the next.
pub fn sqrt_into_slice(src: &[f64], dst: &mut [f64])
    requires { length dst.old ≡ length src.now }
    ensures { dst.new ≡ map (square_root binary64) src.now }
{
    let count = src.len();
    // By place: after a loop over `dst.chunks_mut(BLOCK)` nothing can be proved of dst's elements.
    for done in (0..count).step_by(BLOCK) {
        let end = done + BLOCK.min(count - done);
        block_into_slice(&src[done..end], &mut dst[done..end]);
    }
}

// The vector at `target` becomes the square roots of the one at `source`.
pub fn roots_in(work: &mut [f64], count: usize, source: usize, target: usize)
    requires { (source + count ≤ length work.old) × (target + count ≤ length work.old) × Apart count source target }
    ensures { let w = work.old in
        work.new ≡ put target (map (square_root binary64) (part source count w)) w }
{
    if source < target {
        let (front, back) = work.split_at_mut(target);
        sqrt_into_slice(&front[source..source + count], &mut back[..count]);
    } else {
        let (front, back) = work.split_at_mut(source);
        sqrt_into_slice(&back[..count], &mut front[target..target + count]);
    }
}
