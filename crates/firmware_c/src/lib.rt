// The two calls of `firmware` under their names in C, for the static library.
#![tactic(auto)]

ghost use Rattle.std.specs.Prelude.{◌≡◌};
ghost use Rattle.firmware.specs.Calls.{PlanCall, price_returned, price_left};

// Plans a task file and leaves its one plan in the block.
#[unsafe(no_mangle)]
pub extern "C" fn preempt_plan(file: &[u8], block: &mut [u8]) -> u32
    ensures { PlanCall file.now block.old result block.new }
{
    firmware::preempt_plan(file, block)
}

// Prices the points of a plan block and leaves their plan in the other block.
#[unsafe(no_mangle)]
pub extern "C" fn preempt_price(file: &[u8], points: &[u8], block: &mut [u8]) -> u32
    ensures value { result ≡ price_returned file.now points.now block.old }
    ensures block_after { block.new ≡ price_left file.now points.now block.old }
{
    firmware::preempt_price(file, points, block)
}
