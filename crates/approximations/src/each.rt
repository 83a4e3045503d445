// A change of each of several values.
ghost use Rattle.std.specs.Prelude.{◌≡◌, ℕ, ◌<◌, Float, length, get_or, map};
ghost use Rattle.std.specs.Float.{nan};

// Value k becomes f of k and of itself.
pub fn change_each<F: Fn(usize, f64) -> f64>(values: &mut [f64], f: F)
    requires { (k : ℕ) → k < length values.old → F.pre f k (get_or values.old k nan) }
    ensures length { length values.new ≡ length values.old }
    ensures each { (k : ℕ) → k < length values.old
        → F.post f k (get_or values.old k nan) (get_or values.new k nan) }
    ensures mapped { (g : Float → Float) → ((k : ℕ) (x y : Float) → F.post f k x y → y ≡ g x)
        → values.new ≡ map g values.old }
{
    for (k, x) in values.iter_mut().enumerate() {
        *x = f(k, *x);
    }
}
