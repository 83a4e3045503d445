// The nearest wall.
ghost use Rattle.std.specs.Prelude.{◌≡◌};
ghost use Rattle.gains.specs.Walls.{distance_of, nearer_of, nearest_wall};

use crate::Wall;
use layout::Centre;

pub(crate) fn distance_of(w: Wall) -> f64
    ensures { result ≡ distance_of w }
{
    match w {
        Wall::X(_, d) | Wall::Y(_, d) | Wall::Z(d) => d,
    }
}

// The first of two where it is no farther. Not by min_by_key: an order of floats puts a NaN last, and here
// one that comes first stays.
fn nearer(a: Wall, b: Wall) -> Wall
    ensures { result ≡ nearer_of a b }
{
    if distance_of(b) < distance_of(a) {
        b
    } else {
        a
    }
}

// The nearest wall: x, 1 - x, y, 1 - y and, with Z, 1 - z only; a tie to the first. `deep` is a flag, as in
// `project`: the look-up and this test it once each.
pub(crate) fn nearest_wall(c: Centre, deep: bool) -> Wall
    ensures { result ≡ nearest_wall c deep }
{
    let on_x = nearer(Wall::X(false, c.x), Wall::X(true, 1.0 - c.x));
    let on_y = nearer(Wall::Y(false, c.y), Wall::Y(true, 1.0 - c.y));
    let w = nearer(on_x, on_y);
    if deep {
        nearer(w, Wall::Z(1.0 - c.z))
    } else {
        w
    }
}
