// The firmware's two calls: planning and pricing on bytes, the plan in a lent block. The crate `firmware_c` exports them to C.
#![tactic(auto)]

ghost use Rattle.std.specs.Prelude.{◌≡◌, ◌<◌, length, Err};
ghost use Rattle.model.specs.Answers.{accept};
ghost use Rattle.planvalue.specs.Values.{plan_verdict};
ghost use Rattle.planblock.specs.Plans.{plan_bytes};
ghost use Rattle.firmware.specs.Calls as Calls;
ghost use Rattle.firmware.specs.Calls.{PlanCall, price_returned, price_left};

use model::{Plan, Refusal};

// Plans a task file and leaves its one plan in the block.
pub fn preempt_plan(file: &[u8], block: &mut [u8]) -> u32
    ensures { PlanCall file.now block.old result block.new }
{
    if let Err(refusal) = answers::check_output(512, block.len()) {
        return returned(refusal, 0);
    }
    match planner::least_plan(file) {
        Ok(plan) => leave(plan, block),
        Err(refusal) => returned(refusal, refusal.place()),
    }
}

// Prices the points of a plan block and leaves their plan in the other block.
pub fn preempt_price(file: &[u8], points: &[u8], block: &mut [u8]) -> u32
    ensures value { result ≡ price_returned file.now points.now block.old }
    ensures block_after { block.new ≡ price_left file.now points.now block.old }
{
    if let Err(refusal) = answers::check_output(512, block.len()) {
        return returned(refusal, 0);
    }
    match planner::price_block(file, points) {
        Ok(plan) => leave(plan, block),
        Err(refused) => returned(refused.refusal, refused.place),
    }
}

// What a call returns for a refusal: number and place in one number.
fn returned(refusal: Refusal, place: usize) -> u32
    requires { place < 65536 }
    ensures { result ≡ Calls.returned (Err refusal) place }
{
    refusal.number() * 65536 + place as u32
}

// Leaves a plan in the block, and answers what the call then returns.
fn leave(plan: Plan, block: &mut [u8]) -> u32
    requires { (length block.old ≡ 512) × (plan_verdict plan ≡ accept) }
    ensures value { result ≡ 0 }
    ensures block_after { block.new ≡ plan_bytes plan }
{
    planblock::put_plan(plan, block);
    0
}
