// The worked figures, proved on the definitions that the contracts use.
#![tactic(auto)]

ghost use Rattle.figures.specs.Examples.{Examples};
ghost use Rattle.figures.specs.Figures.{Figures};
ghost use Rattle.figures.specs.Listed.{IsListing};

// The figures hold.
pub fn figures_hold()
    ensures { Figures }
{}

// Small examples come out as they should, each refusal among them.
pub fn examples_hold()
    ensures { Examples }
{}

// There are listings.
pub fn listing_is_one()
    ensures { IsListing }
{}
