// The planner's calls. Each takes any bytes and numbers, and answers a value or a refusal.
#![tactic(auto)]

ghost use Rattle.std.specs.Prelude.{◌≡◌, IfOk};
ghost use Rattle.model.specs.Answers.{answered};
ghost use Rattle.answers.specs.Places.{placed};
ghost use Rattle.planblock.specs.Plans.{store_verdict, stored, read_verdict, plan_of};
ghost use Rattle.planner.specs.Calls.{edge_verdict, useful_words, next_read_of, looked_of, region_verdict, loaded_words, length_of, price_verdict, price_lines, price_cost, price_charges, block_verdict, block_place, block_plan, PlanAnswer, plan_in, plan_charges};

use answers::Refused;
use lineset::LineSet;
use model::{Plan, Refusal};
use pricing::ChargedPrice;
use reuse::Search;

// A region's loaded lines and its length.
#[derive(Clone, Copy)]
pub struct RegionLines {
    pub loaded: LineSet,
    pub length: u64,
}

// A plan of a file, and what each preempter is charged of its lines, from 0.
#[derive(Clone, Copy)]
pub struct ChargedPlan {
    pub plan: Plan,
    pub charges: [u32; 32],
}

// Whether k is an edge of an accepted file: the file's refusal, or 7 for k above N.
#[tactic(auto, unfolding(crate::specs::Calls::edge_verdict))]
fn check_edge(file: &[u8], k: usize) -> Result<(), Refusal>
    ensures { result ≡ edge_verdict file.now k }
{
    taskfile::check(file)?;
    if taskfile::block_count(file) < k {
        return Err(Refusal::Argument(0));
    }
    Ok(())
}

// U(k) of a file.
pub fn useful(file: &[u8], k: usize) -> Result<LineSet, Refusal>
    ensures { result ≡ answered (edge_verdict file.now k) (record { words = useful_words file.now k }) }
{
    check_edge(file, k)?;
    Ok(reuse::useful_lines(file, k))
}

// The next read of a line after block k; nothing lies on a line that the cache has not.
pub fn next_read(file: &[u8], line: usize, k: usize) -> Result<Search, Refusal>
    ensures { result ≡ answered (edge_verdict file.now k) (record { next = next_read_of file.now line k; looked = looked_of file.now line k }) }
{
    check_edge(file, k)?;
    Ok(reuse::next_read(file, k, line))
}

// The loaded lines and the length of a region (a, b).
pub fn region(file: &[u8], a: usize, b: usize) -> Result<RegionLines, Refusal>
    ensures { result ≡ answered (region_verdict file.now a b) (record { loaded = record { words = loaded_words file.now a b }; length = length_of file.now a b }) }
{
    taskfile::check(file)?;
    if b <= a {
        return Err(Refusal::Argument(0));
    }
    if taskfile::block_count(file) < b {
        return Err(Refusal::Argument(0));
    }
    let found = regions::measure(file, a, b);
    let loaded = found.loaded;
    Ok(RegionLines {
        loaded,
        length: found.length,
    })
}

// The lines and the cost of a list of points, and what each preempter is charged of the lines.
#[tactic(auto, unfolding(crate::specs::Calls::price_verdict, crate::specs::Calls::price_lines, crate::specs::Calls::price_cost, crate::specs::Calls::price_charges))]
pub fn price(file: &[u8], points: &[u16]) -> Result<ChargedPrice, Refusal>
    ensures { result ≡ answered (price_verdict file.now points.now) (record { lines = price_lines file.now points.now; cost = price_cost file.now points.now; charges = price_charges file.now points.now }) }
{
    taskfile::check(file)?; // 1 to 5 come before 7 and 8.
    pricing::charged_price_of(file, points)
}

// The plan of the points of a plan block, with the file's N and id. The file is the first input, and the block's own refusals are a second input's.
pub fn price_block(file: &[u8], block: &[u8]) -> Result<Plan, Refused>
    ensures { result ≡ placed (block_verdict file.now block.now) (block_place file.now block.now) (block_plan file.now block.now) }
{
    taskfile::check(file)?; // The file's refusals come first.
    let first = planblock::read(block).map_err(answers::of_second)?;
    Ok(planning::price_points(file, first)?)
}

// The plan of the first of the fitting lists that cost least, and what each preempter is charged of its lines.
pub fn plan(file: &[u8]) -> Result<ChargedPlan, Refusal>
    ensures plan_answer { PlanAnswer file.now (plan_in result) }
    ensures charges_value { IfOk result (λ answer. answer.charges ≡ plan_charges file.now answer.plan) }
{
    let plan = least_plan(file)?;
    let points = plan.points;
    let count = plan.count as usize;
    let charges = pricing::charges_of(file, &points[..count]);
    Ok(ChargedPlan { plan, charges })
}

// The same plan without charges, for whoever has no use for them.
pub fn least_plan(file: &[u8]) -> Result<Plan, Refusal>
    ensures { PlanAnswer file.now result }
{
    taskfile::check(file)?; // 1 to 5 come before 6.
    planning::least_plan(file)
}

// Stores a plan in a lent block.
pub fn store(plan: Plan, block: &mut [u8]) -> Result<(), Refusal>
    ensures value { result ≡ store_verdict plan block.old }
    ensures block_after { block.new ≡ stored plan block.old }
{
    planblock::store(plan, block)
}

// Reads a plan from a lent block.
pub fn read(block: &[u8]) -> Result<Plan, Refusal>
    ensures { result ≡ answered (read_verdict block.now) (plan_of block.now) }
{
    planblock::read(block)
}
