// The entries of a good matrix file, added up row by row.
ghost use Rattle.std.specs.Prelude.{◌≡◌, ◌<◌, ◌≤◌, length, set};
ghost use Rattle.algebra.specs.Mod.{add_mod, mul_mod};
ghost use Rattle.vector.specs.Vector.{at};
ghost use Rattle.vector.specs.Slice.{overwrite};
ghost use Rattle.r1cs.specs.Product.{Fits, matrix_in, times};

use wire::matrix::Entry;

// The first `size` places become zero.
fn clear(out: &mut [u32], size: usize)
    requires { size ≤ length out.old }
    ensures { out.new ≡ overwrite (λ i. 0) size out.old }
{
    out[..size].fill(0);
}

// A value at a row and a column: its product with the column's item is added to the row's place.
fn add_entry(p: u32, row: u32, column: u32, value: u32, z: &[u32], out: &mut [u32])
    requires { (row < length out.old) × (column < length z.now) }
    ensures { out.new ≡ set out.old row (add_mod p (at out.old row) (mul_mod p value (at z.now column))) }
{
    let i = row as usize;
    let j = column as usize;
    let sum = out[i];
    out[i] = field::modular::add_mul(p, sum, value, z[j]);
}

// One pass over the entries.
pub(crate) fn sum_rows(p: u32, matrix: &[u8], size: usize, count: u32, z: &[u32], out: &mut [u32])
    requires { Fits size count matrix.now z.now out.old }
    ensures { out.new ≡ overwrite (times p size (matrix_in matrix.now) (at z.now)) size out.old }
{
    clear(out, size);
    for k in 0..count {
        let Some(Entry { row, column, value }) = wire::matrix::matrix_entry(matrix, k) else {
            // Not reached: the file has the entry.
            return;
        };
        add_entry(p, row, column, value, z, out);
    }
}
