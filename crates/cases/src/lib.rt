// The cases that document 01 marks with a star, as one table of the definitions, shown true as a
// whole by one computation.
#![tactic(auto)]

ghost use Rattle.std.specs.Prelude.{◌≡◌, true};
ghost use Rattle.std.specs.List.{list_all};
ghost use Rattle.cases.specs.Cases.{cases, holds};

// Each case of the table holds.
pub fn cases_hold()
    ensures { list_all holds cases ≡ true }
{}
