// The first least-cost choice of preemption points, an edge at a time from the last to the first. Of a region the caller says whether it fits, what
// it costs, and a tally: a number that is added up along the list and that no choice depends on.
#![tactic(auto)]

ghost use Rattle.std.specs.Prelude.{◌≡◌, ◌^◌, ◌<◌, ◌≤◌};
ghost use Rattle.placement.specs.Rows.{none, Tries, Rising, Followed};

// The mark of an edge from which no list leads to the end. It is a number and no Option, which would double the arrays of costs.
pub const NONE: u64 = 18446744073709551615;

// At an edge: the least cost from it to the end, or NONE; the next edge on the way; and the sum of the tallies on it, modulo 2^64.
#[derive(Clone, Copy)]
pub struct Choice {
    pub cost: u64,
    pub next: usize,
    pub tally: u64,
}

// A list of points; those beyond the count are zero. A count beside an array is document 01's form for a plan, and there is no heap.
#[derive(Clone, Copy)]
pub struct Points {
    pub count: usize,
    pub points: [u16; 64],
}

impl Choice {
    // Before an edge is tried.
    pub fn untried(n: usize) -> Self
        ensures { result ≡ record { cost = none; next = n; tally = 0 } }
    {
        Choice {
            cost: NONE,
            next: n,
            tally: 0,
        }
    }

    // One edge more is tried, after those below it: edge b, with the cost and the tally of the region that ends there and fits. It is taken where it
    // costs less, and the end also where it costs the same. The arrays hold the costs and tallies of later edges.
    pub fn with(
        self,
        costs: &[u64; 65],
        tallies: &[u64; 65],
        n: usize,
        b: usize,
        cost: u64,
        tally: u64,
    ) -> Self
        requires { (b ≤ n) × (n ≤ 64) × (cost < 2 ^ 56) }
        ensures { Tries costs.now tallies.now n b cost tally self result }
    {
        let rest = costs[b];
        if self.cost < rest {
            return self;
        }
        let most = self.cost - rest;
        if most < cost || most == cost && b < n {
            return self;
        }
        let sum = cost + rest;
        Choice {
            cost: sum,
            next: b,
            tally: std::num::wrapping_add_u64(tally, tallies[b]),
        }
    }
}

// The points on the way from edge 0 to edge n.
pub fn follow(nexts: &[usize; 65], n: usize) -> Points
    requires { (1 ≤ n) × (n ≤ 64) × Rising nexts.now n }
    ensures { Followed nexts.now n result.count result.points }
{
    let mut points = [0u16; 64];
    let mut count = 0;
    let mut at = nexts[0];
    // The edge is no index that is counted: each names the next.
    while at < n {
        points[count] = at as u16;
        count += 1;
        at = nexts[at];
    }
    Points { count, points }
}
