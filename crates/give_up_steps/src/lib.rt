// The steps of a give-up (document 02, K3), apart from the tables' code: what every step names, with its test 3; and the laws of a step's tests and of what it leaves.
#![tactic(auto)]

ghost use Rattle.std.specs.Prelude.{◌≡◌};
ghost use Rattle.give_up_steps.specs.Terms.{terms_valid};

// What every step names: process, transaction, both accounts and series.
#[derive(Clone, Copy)]
pub struct Terms {
    pub process: i64,
    pub id: i64,
    pub suffix: i64,
    pub giving: i64,
    pub taking: i64,
    pub series: i64,
}

// 3: every figure in its range, and two different accounts.
#[tactic(auto, unfolding(rules::specs::GiveUp::give_up_figures))]
pub fn figures_valid(g: Terms) -> bool
    ensures { result ≡ terms_valid g }
{
    figures::valid_id(g.process)
        && transfer::figures_valid(g.id, g.suffix, g.giving, g.taking, g.series)
}
