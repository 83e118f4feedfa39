//! Prices in cycles and waits.
ghost use Rattle.std.specs.Prelude.{◌≡◌, ◌<◌, ◌≤◌, ◌^◌};
ghost use Rattle.micro_flow.specs.Walk.{times_of};
ghost use Rattle.micro_flow.specs.Costs.{worth, total};

use crate::CostParams;
use microcode::isa::Turns;

/// So many cycles, and the waits of so many reads and writes.
#[derive(Clone, Copy)]
pub struct Price {
    pub fixed: u16,
    pub reads: u8,
    pub writes: u8,
}

/// What a row costs: the larger of two prices, and one more for each turn of its loop. The two are the same
/// unless the longest of its paths depends on the waits.
#[derive(Clone, Copy)]
pub struct RowCost {
    pub one: Price,
    pub other: Price,
    pub turn: Price,
    pub turns: Turns,
}

impl Price {
    fn worth(self, p: CostParams) -> u64
        requires r { p.r ≤ 63 }
        requires w { p.w ≤ 63 }
        ensures worth { result ≡ worth p self }
        ensures small { result < 2 ^ 17 }
    {
        let reads = self.reads as u64 * p.r as u64;
        let writes = self.writes as u64 * p.w as u64;
        self.fixed as u64 + reads + writes
    }
}

impl RowCost {
    pub fn total(self, p: CostParams) -> u64
        requires r { p.r ≤ 63 }
        requires w { p.w ≤ 63 }
        ensures { result ≡ total p self }
    {
        let most = self.one.worth(p).max(self.other.worth(p));
        most + times(self.turns, p) as u64 * self.turn.worth(p)
    }
}

fn times(turns: Turns, p: CostParams) -> u32
    ensures { result ≡ times_of p turns }
{
    match turns {
        Turns::Count(n) => n,
        Turns::PerPair => p.pairs,
        Turns::PerEntry => p.entries,
    }
}
