// The selector: eight kept fields, and the call for gains.
#![tactic(auto)]

ghost use Rattle.std.specs.Prelude.{◌≡◌};
ghost use Rattle.selector.specs.Call.{outcome_of, found_in, fresh_selector};
ghost use Rattle.selector.specs.Steps.{answer_to, selector_of};

mod call;
mod planning;
mod room_key;

pub use cache::{Ring, Word};
pub use call::project_outcome_with_epoch;
use extent::Extent;
use layout::{Centre, Layout, Refusal};

// What an accepted call answers: how many gains, and a word on its field.
#[derive(Clone, Copy, Debug, PartialEq, Eq)]
pub struct Gains {
    pub n: usize,
    pub word: Word,
}

// The answer of a call, or the first question that refuses it.
pub type Outcome = Result<Gains, Refusal>;

// What a call answers, with the ring that it leaves.
#[derive(Clone, Copy)]
pub struct Reply {
    pub outcome: Outcome,
    pub ring: Ring,
}

// A selector: the numbers of eight keys, 156 to a key, how many are held, and the oldest place. Its fields
// are document 01's state, plain values that anything may stand in; a `Ring` goes beside lent keys.
#[derive(Clone, Copy)]
pub struct Selector {
    pub keys: [u64; 1248],
    pub count: usize,
    pub oldest: usize,
}

// What a call answers, with the selector that it leaves. Apart from `Reply`: one type over what is left would
// call ring and selector by one name.
#[derive(Clone, Copy)]
pub struct SelectorReply {
    pub outcome: Outcome,
    pub selector: Selector,
}

impl Selector {
    // The empty selector.
    pub fn new() -> Selector
        ensures { result ≡ fresh_selector }
    {
        Selector {
            keys: [0u64; 1248],
            count: 0,
            oldest: 0,
        }
    }

    // The call for gains, with a selector by value.
    pub fn project_outcome_with_epoch(
        self,
        store: &mut [f64],
        l: Layout,
        epoch: u64,
        e: Extent,
        flags: [bool; 6],
        c: Centre,
        points: &[f64],
        gains: &mut [f64],
    ) -> SelectorReply
        ensures outcome_value { result.outcome ≡ outcome_of (answer_to l epoch e flags c points.now gains.old
            (found_in self store.old)) }
        ensures selector { result.selector ≡ selector_of (answer_to l epoch e flags c points.now gains.old
            (found_in self store.old)) }
        ensures store { store.new ≡ (answer_to l epoch e flags c points.now gains.old
            (found_in self store.old)).found.store }
        ensures gains { gains.new ≡ (answer_to l epoch e flags c points.now gains.old
            (found_in self store.old)).gains }
    {
        let mut keys = self.keys;
        // By its two fields, here and in `rugvocse`: a method would be public for these two.
        let r = Ring {
            count: self.count,
            oldest: self.oldest,
        };
        let Reply { outcome, ring } = project_outcome_with_epoch(
            &mut keys, r, store, l, epoch, e, flags, c, points, gains,
        );
        SelectorReply {
            outcome,
            selector: Selector {
                keys,
                count: ring.count,
                oldest: ring.oldest,
            },
        }
    }
}
