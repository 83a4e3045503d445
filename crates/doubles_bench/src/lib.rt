// The loops that tools/bench time: each function of `doubles` over a slice, exported. They promise nothing.
#![tactic(auto)]

// The sum of f over v. Each caller makes a closure: where a function of another crate stood there by its
// name, its proof did not find that crate's contract.
fn sum_of<F: Fn(f64) -> f64>(v: &[f64], f: F) -> f64
    requires { F.IsAlwaysCallable f }
{
    v.iter().fold(0.0, |sum, x| sum + f(*x))
}

// The sum of the floors of v.
#[unsafe(no_mangle)]
pub extern "C" fn rug_sum_floor(v: &[f64]) -> f64 {
    sum_of(v, |x| doubles::floor(x))
}

// The sum of the roots of v.
#[unsafe(no_mangle)]
pub extern "C" fn rug_sum_sqrt(v: &[f64]) -> f64 {
    sum_of(v, |x| doubles::sqrt(x))
}

// The sum of approx_exp2 over v.
#[unsafe(no_mangle)]
pub extern "C" fn rug_sum_exp2(v: &[f64]) -> f64 {
    sum_of(v, |x| approximations::approx_exp2(x))
}

// The sum of approx_log2 over v.
#[unsafe(no_mangle)]
pub extern "C" fn rug_sum_log2(v: &[f64]) -> f64 {
    sum_of(v, |x| approximations::approx_log2(x))
}

// A dependent chain: each root is of the next number of v and the root before.
#[unsafe(no_mangle)]
pub extern "C" fn rug_chain_sqrt(v: &[f64]) -> f64 {
    v.iter().fold(0.0, |y, x| doubles::sqrt(*x + y))
}
