// Sine and cosine are right: the law that they lie near their series. No code.
#![tactic(auto)]

ghost use Rattle.circular_law.specs.Law.{CircularLaw};

// For every double from 0 to H both are finite, not negative, and within 1 / 2^50 of the first 13 terms
// of their series.
pub fn circular_law()
    ensures { CircularLaw }
{}
