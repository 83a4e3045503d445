// The responses of the channels at the samples: a row for each sample, and a column for each channel.
// Channels with one column have one number in the tables.
ghost use Rattle.std.specs.Prelude.{◌≡◌, ℕ, ◌+◌, ◌-◌, ◌*◌, ◌≤◌, ◌<◌, length, get_or, []};
ghost use Rattle.std.specs.Float.{nan};
ghost use Rattle.field.specs.Steps.Columns.{in_rows, in_columns, Transposed, Doubles};
ghost use Rattle.field.specs.Steps.Columns.{same_column, first_same, Firsts};

use doubles::bits_of;

// The responses of n channels, a row of 24 numbers for each sample.
// Room for 24 channels, of which n are used: memory is fixed.
#[derive(Drop)]
pub(crate) struct Responses<const SAMPLES: usize> {
    pub(crate) rows: [[f64; 24]; SAMPLES],
    pub(crate) n: usize,
    ghost some: { 1 ≤ SAMPLES },
    ghost few: { n ≤ 24 },
    ghost doubles: { Doubles (in_rows rows) SAMPLES n },
}

impl<const SAMPLES: usize> Responses<SAMPLES> {
    // The responses of channel k at the samples.
    fn column(&self, k: usize) -> [f64; SAMPLES]
        requires { k < 24 }
        ensures { (s : ℕ) → s < SAMPLES → get_or result s nan ≡ in_rows self.now.rows s k }
    {
        std::array::from_fn(
            |s| -> f64
                requires { (s < SAMPLES) × (k < 24) }
                ensures { result ≡ in_rows self.entry.now.rows s k }
            { self.rows[s][k] },
        )
    }

    // The n responses at sample s.
    fn write_row(&self, row: &mut [f64], s: usize)
        requires { (length row.old ≡ self.now.n) × (s < SAMPLES) }
        ensures { (k : ℕ) → k < self.now.n → get_or row.new k nan ≡ in_rows self.now.rows s k }
    {
        let responses = &self.rows[s];
        row.copy_from_slice(&responses[..self.n]);
    }

    // The two end responses: at the first and the last sample.
    pub(crate) fn write_ends(&self, ends: &mut [f64])
        requires { length ends.old ≡ 2 * self.now.n }
        ensures first { (k : ℕ) → k < self.now.n
            → get_or ends.new k nan ≡ in_rows self.now.rows 0 k }
        ensures last { (k : ℕ) → k < self.now.n
            → get_or ends.new (self.now.n + k) nan ≡ in_rows self.now.rows (SAMPLES - 1) k }
    {
        let n = self.n;
        self.write_row(&mut ends[..n], 0);
        self.write_row(&mut ends[n..2 * n], SAMPLES - 1);
    }
}

// Whether two columns are the same, bit for bit.
fn same_column(a: &[f64], b: &[f64]) -> bool
    requires { length a.now ≡ length b.now }
    ensures { result ≡ same_column (length a.now) a.now b.now }
{
    a.iter().zip(b).all(|(x, y)| bits_of(*x) == bits_of(*y))
}

// The first channel with the column of channel k: k itself, or one before it.
fn first_same<const SAMPLES: usize>(columns: &[[f64; SAMPLES]; 24], k: usize) -> usize
    requires { k < 24 }
    ensures { result ≡ first_same SAMPLES columns.now k }
{
    let column = &columns[k];
    columns[..k]
        .iter()
        .position(
            |c| -> bool
                ensures { result ≡ same_column SAMPLES c.now column.entry.now }
            { same_column(c, column) },
        )
        .unwrap_or(k)
}

// The columns of n channels, and for each the first channel with the same one.
// Room for 24 channels, of which n are used: memory is fixed.
#[derive(Drop)]
pub(crate) struct Columns<const SAMPLES: usize> {
    pub(crate) columns: [[f64; SAMPLES]; 24],
    pub(crate) n: usize,
    pub(crate) firsts: [usize; 24],
    ghost few: { n ≤ 24 },
    ghost doubles: { Doubles (in_columns columns) SAMPLES n },
    ghost found: { Firsts columns SAMPLES n firsts },
}

impl<const SAMPLES: usize> Columns<SAMPLES> {
    pub(crate) fn new(responses: &Responses<SAMPLES>) -> Columns<SAMPLES>
        ensures { (result.n ≡ responses.now.n)
            × Transposed responses.now.rows result.columns SAMPLES responses.now.n }
    {
        let n = responses.n;
        // By number, as `Transposed` and `Firsts` count channels; `firsts` apart, for a column is an array of
        // its own.
        let mut columns = [[0.0f64; SAMPLES]; 24];
        for k in 0..n {
            columns[k] = responses.column(k);
        }
        let mut firsts = [0usize; 24];
        for k in 0..n {
            firsts[k] = first_same(&columns, k);
        }
        Columns { columns, n, firsts }
    }
}
