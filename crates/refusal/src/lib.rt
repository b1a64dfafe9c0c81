// 01's refusals: a case for each row of its table, and the row's number.
#![tactic(auto)]

ghost use Rattle.std.specs.Prelude.{◌≡◌};
ghost use Rattle.refusal.specs.Number.{number_of, number_told};

// What a row refuses, in the order of the numbers 1 to 11.
#[derive(Clone, Copy, Debug, PartialEq, Eq)]
pub enum Refusal {
    Length,
    Blocks,
    Layout,
    Fields,
    Levels,
    Settings,
    Start,
    Sizes,
    Entries,
    Clock,
    Rate,
}

impl Refusal {
    // The number that 01 gives the row.
    pub fn number(self) -> u8
        ensures { result ≡ number_of self }
    {
        match self {
            Refusal::Length => 1,
            Refusal::Blocks => 2,
            Refusal::Layout => 3,
            Refusal::Fields => 4,
            Refusal::Levels => 5,
            Refusal::Settings => 6,
            Refusal::Start => 7,
            Refusal::Sizes => 8,
            Refusal::Entries => 9,
            Refusal::Clock => 10,
            Refusal::Rate => 11,
        }
    }
}

// The number of what refused, 0 where nothing did.
pub fn number_told(told: Result<(), Refusal>) -> u8
    ensures { result ≡ number_told told }
{
    match told {
        Ok(()) => 0,
        Err(r) => r.number(),
    }
}
