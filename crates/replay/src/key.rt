// The key of a layout.
ghost use Rattle.std.specs.Prelude.{◌≡◌};
ghost use Rattle.keys.specs.Steps.{packed_numbers};

use layout::Layout;

// The key of a layout, of epoch 0.
pub fn key_of(l: Layout) -> [u64; 156]
    ensures { result ≡ packed_numbers l 0 }
{
    let mut key = [0; 156];
    keys::pack(l, 0, &mut key);
    key
}
