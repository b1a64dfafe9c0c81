// What the searches answer where no row refuses them.
#![tactic(auto)]

ghost use Rattle.std.specs.Prelude.{◌≡◌};
ghost use Rattle.table.specs.declared.Stats.{Stats};
ghost use Rattle.results.specs.Told.{told_node, told_root, node_found, root_found};

use refusal::Refusal;

// A node search's.
#[derive(Clone, Copy, PartialEq, Eq, Debug, Default)]
pub struct NodeAnswer {
    pub score: i16,
    pub nodes: u64,
    pub stopped: bool,
}

// A root search's. `depth` is the last one whose move was saved; where none was, score, move and depth are 0.
#[derive(Clone, Copy, PartialEq, Eq, Debug, Default)]
pub struct RootAnswer {
    pub score: i16,
    pub mv: u16,
    pub depth: u8,
    pub nodes: u64,
    pub stopped: bool,
}

// What a node search found: where it was refused nothing, every number 0.
pub fn node_found(told: Result<NodeAnswer, Refusal>) -> NodeAnswer
    ensures { (c : Stats) → result ≡ node_found (told_node told c) }
{
    match told {
        Ok(a) => a,
        Err(_) => NodeAnswer {
            score: 0,
            nodes: 0,
            stopped: false,
        },
    }
}

// The same of a root search.
pub fn root_found(told: Result<RootAnswer, Refusal>) -> RootAnswer
    ensures { (c : Stats) → result ≡ root_found (told_root told c) }
{
    match told {
        Ok(a) => a,
        Err(_) => RootAnswer {
            score: 0,
            mv: 0,
            depth: 0,
            nodes: 0,
            stopped: false,
        },
    }
}
