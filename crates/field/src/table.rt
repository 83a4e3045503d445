// The tables: responses summed over the samples, for each centre, radius and channel.
ghost use Rattle.std.specs.Prelude.{◌≡◌, ℕ, ◌+◌, ◌-◌, ◌*◌, ◌/◌, ◌%◌, ◌≤◌, ◌<◌};
ghost use Rattle.std.specs.Prelude.{length, get_or, take};
ghost use Rattle.std.specs.Float.{nan};
ghost use Rattle.doubles.specs.Arithmetic.{zero64};
ghost use Rattle.extent.specs.Kernel.{kernel_of};
ghost use Rattle.field.specs.Knots.{Z, steps};
ghost use Rattle.field.specs.Tables.{sampled_over, knot_number, number_xy, row};
ghost use Rattle.field.specs.Patched.{patched, within, either};
ghost use Rattle.field.specs.Steps.Columns.{in_columns};
ghost use Rattle.field.specs.Steps.Sums.{products_of, sum_from};

use crate::columns::Columns;
use crate::knots::{radius_knot, step};
use approximations::approx_powers;
use extent::{compact_quartic_kernel, shaping_exponent};

// The numbers added up, from 0: std's `sum` begins at -0.
fn sum_of(y: &[f64]) -> f64
    ensures { result ≡ sum_from zero64 y.now }
{
    y.iter().fold(0.0, |sum, x| sum + *x)
}

// The products of kernel and response that are above 0, over the samples in rising order, and
// how many; a sample whose kernel is at most 0 has none.
// Into lent numbers, with how many: std's `collect` allocates, and a library crate has no heap. By sample,
// as `products_of` has them: a zip would have to say which sample it stands at.
fn products<const SAMPLES: usize>(
    y: &mut [f64; SAMPLES],
    kernels: &[f64; SAMPLES],
    column: &[f64; SAMPLES],
) -> usize
    ensures { (result ≤ SAMPLES) × (take result y.new
        ≡ products_of (λ (s : ℕ). get_or kernels.now s nan)
        (λ (s : ℕ). get_or column.now s nan) SAMPLES) }
{
    let mut m = 0usize;
    for s in 0..SAMPLES {
        let kernel = kernels[s];
        let product = kernel * column[s];
        if !(kernel <= 0.0) & (product > 0.0) {
            y[m] = product;
            m += 1;
        }
    }
    m
}

// The number of a channel: the shaped products of kernel and response, added over the samples.
fn sampled<const SAMPLES: usize>(
    kernels: &[f64; SAMPLES],
    column: &[f64; SAMPLES],
    exponent: f64,
) -> f64
    ensures { result ≡ sampled_over (λ (s : ℕ). get_or kernels.now s nan)
        (λ (s : ℕ). get_or column.now s nan) exponent SAMPLES }
{
    let mut y = [0.0f64; SAMPLES];
    let n = products(&mut y, kernels, column);
    let y = &mut y[..n];
    approx_powers(y, exponent);
    sum_of(y)
}

impl<const SAMPLES: usize> Columns<SAMPLES> {
    // The numbers of all n channels. Channels with one column have one number, which is worked out
    // for the first of them. By number: a channel's may be that of an earlier one in the same row.
    fn write(&self, row: &mut [f64], kernels: &[f64; SAMPLES], exponent: f64)
        requires { length row.old ≡ self.now.n }
        ensures { (k : ℕ) → k < self.now.n → get_or row.new k nan
            ≡ sampled_over (λ (s : ℕ). get_or kernels.now s nan)
            (λ (s : ℕ). in_columns self.now.columns s k) exponent SAMPLES }
    {
        for k in 0..self.n {
            let j = self.firsts[k];
            row[k] = if j < k {
                row[j]
            } else {
                sampled(kernels, &self.columns[k], exponent)
            };
        }
    }
}

// One centre and radius of X and of Y.
// Apart from `knot_z`: X and Y share each kernel; a function of one axis would work it out twice.
// The kernels are made here and in knot_z: a function for both would hand on the flag for Z.
fn knot_xy(place: &mut [f64], x: &Columns<20>, y: &Columns<20>, knot: usize)
    requires { (1400 * x.now.n ≤ length place.old) × (y.now.n ≡ x.now.n) × (knot < 700) }
    ensures { place.new ≡ patched (either (row x.now.n knot) (row x.now.n (700 + knot)))
        (λ (i : ℕ). number_xy x.now.columns y.now.columns (i / x.now.n) (i % x.now.n))
        place.old }
{
    let n = x.n;
    let radius = radius_knot(knot % 20);
    let exponent = shaping_exponent(radius);
    let centre = step(knot / 20, 34);
    let kernels: [f64; 20] = std::array::from_fn(|s| compact_quartic_kernel(
        step(s, 19),
        centre,
        radius,
        false,
    ));
    x.write(&mut place[knot * n..(knot + 1) * n], &kernels, exponent);
    y.write(
        &mut place[(700 + knot) * n..(701 + knot) * n],
        &kernels,
        exponent,
    );
}

// The tables of X and Y: 35 centres of 20 radii.
// Apart from `table_z`, as `knot_xy` from `knot_z`: these rows are of two axes, knot by knot.
pub(crate) fn table_xy(place: &mut [f64], x: &Columns<20>, y: &Columns<20>)
    requires { (1400 * x.now.n ≤ length place.old) × (y.now.n ≡ x.now.n) }
    ensures { place.new ≡ patched (within 0 (1400 * x.now.n))
        (λ (i : ℕ). number_xy x.now.columns y.now.columns (i / x.now.n) (i % x.now.n))
        place.old }
{
    for knot in 0..700 {
        knot_xy(place, x, y, knot);
    }
}

// One centre and radius of Z.
fn knot_z(place: &mut [f64], z: &Columns<8>, knot: usize)
    requires { (1480 * z.now.n ≤ length place.old) × (knot < 80) }
    ensures { place.new ≡ patched (row z.now.n (1400 + knot))
        (λ (i : ℕ). knot_number Z z.now.columns (i / z.now.n - 1400) (i % z.now.n)) place.old }
{
    let n = z.n;
    let radius = radius_knot(knot % 20);
    let centre = step(knot / 20, 3);
    let kernels: [f64; 8] = std::array::from_fn(|s| compact_quartic_kernel(
        step(s, 7),
        centre,
        radius,
        true,
    ));
    z.write(
        &mut place[(1400 + knot) * n..(1401 + knot) * n],
        &kernels,
        shaping_exponent(radius),
    );
}

// The table of Z: 4 centres of 20 radii.
pub(crate) fn table_z(place: &mut [f64], z: &Columns<8>)
    requires { 1480 * z.now.n ≤ length place.old }
    ensures { place.new ≡ patched (within (1400 * z.now.n) (1480 * z.now.n))
        (λ (i : ℕ). knot_number Z z.now.columns (i / z.now.n - 1400) (i % z.now.n)) place.old }
{
    for knot in 0..80 {
        knot_z(place, z, knot);
    }
}
