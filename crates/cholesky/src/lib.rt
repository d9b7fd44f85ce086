// Cholesky's factor of six equations in six unknowns, and the two solves with it.
#![tactic(auto)]

ghost use Rattle.std.specs.Prelude.{◌≡◌, ◌<◌};
ghost use Rattle.cholesky.specs.Cholesky.{reduced, factor_entry, factor_column, forward_entry, forward, backward_entry, backward};
ghost use Rattle.cholesky.specs.ColumnOrder.{Factored, Tested};

// A matrix by its columns: m[k][i] is the entry in row i and column k.
pub type Columns = [[f32; 6]; 6];

// ---- the factor
// A row i and a column j below 6 are asked for where they are read: the definitions name them so, and a struct of the two would be taken apart at each use.

// Entry (i, j) less the columns of L before j.
fn reduced_entry(l: &Columns, i: usize, j: usize, start: f32) -> f32
    requires { (i < 6) × (j < 6) }
    ensures { result ≡ reduced l.now i j start j }
{
    l[..j]
        .iter()
        .fold(start, |e, column| -column[j] * column[i] + e)
}

// L(i, j) from the matrix, the columns of L before j and L(j, j).
#[tactic(auto, unfolding(crate::specs::Cholesky::factor_entry))]
fn factor_entry(a: &Columns, l: &Columns, i: usize, j: usize, diagonal: f32) -> f32
    requires { (i < 6) × (j < 6) }
    ensures { result ≡ factor_entry a.now i j l.now diagonal }
{
    if i < j {
        0.0
    } else if i == j {
        diagonal
    } else {
        reduced_entry(l, i, j, a[j][i]) / diagonal
    }
}

// Column j of L from the matrix and the columns of L before j.
#[tactic(auto, unfolding(float::specs::Series::fill))]
fn factor_column(a: &Columns, l: &Columns, j: usize) -> [f32; 6]
    requires { j < 6 }
    ensures { result ≡ factor_column a.now j l.now }
{
    let diagonal = float::root(reduced_entry(l, j, j, a[j][j]));
    std::array::from_fn(|i| factor_entry(a, l, i, j, diagonal))
}

// Cholesky's factor of a matrix.
#[tactic(auto, using(crate::proofs::ColumnOrder::in_order), unfolding(float::specs::Series::fill, crate::specs::Cholesky::factor))]
pub fn factored(a: &Columns) -> Columns
    ensures { Factored a.now result }
{
    let mut l = [[0.0f32; 6]; 6];
    // By index: each column reads the ones before it in the same array.
    for j in 0..6 {
        l[j] = factor_column(a, &l, j);
    }
    l
}

// Whether every diagonal is above 0 where its root is taken.
pub fn diagonals_above_zero(a: &Columns, l: &Columns) -> bool
    ensures { Tested a.now l.now result }
{
    (0..6).all(|j| reduced_entry(l, j, j, a[j][j]) > 0.0)
}

// ---- the two solves

// z(i) from the z before it.
fn forward_entry(l: &Columns, b: &[f32; 6], z: &[f32; 6], i: usize) -> f32
    requires { i < 6 }
    ensures { result ≡ forward_entry l.now b.now i z.now }
{
    let before = l[..i].iter().zip(z);
    before.fold(b[i], |e, (column, z)| e - column[i] * z) / l[i][i]
}

// L z = b.
#[tactic(auto, unfolding(float::specs::Series::fill, crate::specs::Cholesky::forward))]
pub fn forward_solved(l: &Columns, b: &[f32; 6]) -> [f32; 6]
    ensures { result ≡ forward l.now b.now }
{
    let mut z = [0.0f32; 6];
    // By index: each entry reads the ones before it in the same array.
    for i in 0..6 {
        z[i] = forward_entry(l, b, &z, i);
    }
    z
}

// s(i) from the s after it.
fn backward_entry(l: &Columns, z: &[f32; 6], s: &[f32; 6], i: usize) -> f32
    requires { i < 6 }
    ensures { result ≡ backward_entry l.now z.now i s.now }
{
    let after = l[i][i + 1..].iter().zip(&s[i + 1..]);
    after.fold(z[i], |e, (entry, s)| e - entry * s) / l[i][i]
}

// The transpose of L times s is z.
#[tactic(auto, unfolding(crate::specs::Cholesky::fill_down, crate::specs::Cholesky::backward))]
pub fn backward_solved(l: &Columns, z: &[f32; 6]) -> [f32; 6]
    ensures { result ≡ backward l.now z.now }
{
    let mut s = [0.0f32; 6];
    // By index: each entry reads the ones after it in the same array.
    for i in (0..6).rev() {
        s[i] = backward_entry(l, z, &s, i);
    }
    s
}
