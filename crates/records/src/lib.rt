// Plans as records and the files that are written of them: definitions in specs/, laws in proofs/. Of code it has the types of the answers alone.
#![tactic(auto)]

ghost use Rattle.std.specs.Prelude.{◌≡◌};
ghost use Rattle.records.specs.PlanAnswer.{step_count};

use types::{Axis, Dim, Refusal, Sharding, Step};

// How many sizes the mesh and the table have; how many device numbers and how many bytes of step records were written.
#[derive(Clone, Copy)]
pub struct ReadCounts {
    pub n: usize,
    pub rank: usize,
    pub order: usize,
    pub steps: usize,
}

// The reading call's answer: beside the outcome, the sizes of the mesh and of the table, and the starting sharding. Places that are not used are 0, and so is
// every place beside a refusal.
#[derive(Clone, Copy)]
pub struct Opened {
    pub outcome: Result<ReadCounts, Refusal>,
    pub mesh: [u16; Axis::MOST],
    pub table: [u16; Dim::MOST],
    pub start: Sharding,
}

// At most three steps, from the first place on; the places behind them hold none.
#[derive(Clone, Copy)]
pub struct Steps(pub [Option<Step>; 3]);

impl Steps {
    pub fn count(self) -> usize
        ensures { result ≡ step_count self }
    {
        self.0.iter().filter(|step| step.is_some()).count()
    }
}

// The planner's answer: the steps stand beside the outcome; there are none beside a refusal.
#[derive(Clone, Copy)]
pub struct Planned {
    pub outcome: Result<(), Refusal>,
    pub plan: Steps,
}
