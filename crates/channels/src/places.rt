// The place of a number in a list.
ghost use Rattle.std.specs.Prelude.{◌≡◌, ◌==◌, position};

// The place of the first w in v.
pub fn index_of(v: &[u64], w: u64) -> Option<usize>
    ensures { result ≡ position (λ x. x == w) v.now }
{
    v.iter().position(|x| *x == w)
}
