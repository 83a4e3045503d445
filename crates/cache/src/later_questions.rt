// Questions 11 to 14.
ghost use Rattle.std.specs.Prelude.{◌≡◌, ◌++◌};
ghost use Rattle.std.specs.List.{list_all};
ghost use Rattle.layout.specs.Questions.{first_no};
ghost use Rattle.layout.specs.Refusals.{answer_by};
ghost use Rattle.cache.specs.Questions.{is_gain, question11, question12, question13, question14, lent_questions, state_questions};

use crate::Ring;
use doubles::{is_between, is_finite};
use field::STORE;
use layout::{Centre, Refusal, ask};

// Question 11.
fn is_finite_centre(c: Centre) -> bool
    ensures { result ≡ question11 c }
{
    is_finite(c.x) & is_finite(c.y) & is_finite(c.z)
}

// Whether a gain is finite and from 0 to 5/4.
fn is_gain(g: f64) -> bool
    ensures { result ≡ is_gain g }
{
    is_between(0.0, 1.25, g)
}

// Question 12, its second half.
fn are_gains(points: &[f64]) -> bool
    ensures { result ≡ list_all is_gain points.now }
{
    points.iter().all(|g| is_gain(*g))
}

// Question 12. n is the room's, no length of points: whether they are equal is what is asked.
fn are_point_gains(n: usize, points: &[f64]) -> bool
    ensures { result ≡ question12 n points.now }
{
    points.len() == n && are_gains(points)
}

// Question 13.
fn is_room(n: usize, room: usize, size: usize) -> bool
    ensures { result ≡ question13 n room size }
{
    (n <= room) & (STORE <= size)
}

// Question 14.
fn is_ring(r: Ring) -> bool
    ensures { result ≡ question14 r.count r.oldest }
{
    (r.count <= 8) & (r.oldest < 8)
}

// The first no of questions 11 to 14, for n gains in a slice with this room and a store of this size.
#[tactic(auto, unfolding(crate::specs::Questions::lent_questions, crate::specs::Questions::state_questions))]
pub fn later_no(
    c: Centre,
    points: &[f64],
    n: usize,
    room: usize,
    size: usize,
    r: Ring,
) -> Result<(), Refusal>
    ensures { result ≡ answer_by (first_no (lent_questions c points.now n room size
        ++ state_questions r.count r.oldest)) tt }
{
    ask(is_finite_centre(c), Refusal::Centre)?;
    ask(are_point_gains(n, points), Refusal::Points)?;
    ask(is_room(n, room, size), Refusal::Slices)?;
    ask(is_ring(r), Refusal::State)
}
