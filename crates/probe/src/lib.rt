// For tests: the useful lines of an edge, the next read of a line, the loaded lines and the length of a region, the charges of a list and of a plan,
// the misses of a replay, files from a seed, joined files, files from a trace, texts of files and files of texts, the next fitting list and the deadlines of a
// task set, through the public calls. Each call returns the number of its refusal and leaves the place, 0 and 0 where it accepts.
// A set is left as its eight words; every number takes eight bytes, the lowest first.
#![tactic(auto)]

ghost use Rattle.std.specs.Prelude.{[], ◌∷◌, ◌++◌, ◌≡◌, ◌*◌, ◌≤◌, length, get_or};
ghost use Rattle.std.specs.Option.{option_map};
ghost use Rattle.std.specs.Result.{result_unwrap_or};
ghost use Rattle.model.specs.Answers.{accept, verdict_number, verdict_place};
ghost use Rattle.block.specs.Bytes.{les};
ghost use Rattle.planner.specs.Calls.{edge_verdict, useful_words, next_read_of, looked_of, region_verdict, loaded_words, length_of, price_verdict, price_lines, price_cost, price_charges};
ghost use Rattle.replaying.specs.Calls.{replay_verdict, misses_alone_of, misses_with_of};
ghost use Rattle.testload.specs.Calls.{generate_verdict, generated};
ghost use Rattle.joining.specs.Calls.{join_verdict, join_place, join_left};
ghost use Rattle.tracing.specs.Calls.{trace_answer, trace_output};
ghost use Rattle.showing.specs.Calls.{show_answer, show_output};
ghost use Rattle.assembling.specs.Calls.{assemble_answer, assemble_output};
ghost use Rattle.listing.specs.Calls.{list_verdict, next_of, next_points, in_array};
ghost use Rattle.demand.specs.Calls.{answer as answerTo};
ghost use Rattle.probe.specs.Calls.{probed, left, verdict_of, next_numbers, PlanLeft, settings_of, list_numbers, points_in, deadlines_numbers, DeadlinesLeft};

use demand::TaskRecord;
use lineset::LineSet;
use listing::NextList;
use model::Refusal;
use tracing::Settings;

// The useful lines at edge k, in 64 bytes.
#[unsafe(no_mangle)]
pub extern "C" fn probe_useful(file: &[u8], k: usize, out: &mut [u8], place: &mut usize) -> u32
    ensures value { result ≡ verdict_number (probed 64 (edge_verdict file.now k) out.old) }
    ensures place_after { place.new ≡ verdict_place (probed 64 (edge_verdict file.now k) out.old) }
    ensures out_after { out.new ≡ left 64 (edge_verdict file.now k) (useful_words file.now k) out.old }
{
    match planner::useful(file, k) {
        Ok(lines) => leave(&lines.words, out, place),
        Err(refusal) => refuse(refusal, 64, out, place),
    }
}

// The next read of a line after block k, in 24 bytes: 1 and its number or two zeros, and how many reads were looked at.
#[unsafe(no_mangle)]
pub extern "C" fn probe_next_read(
    file: &[u8],
    line: usize,
    k: usize,
    out: &mut [u8],
    place: &mut usize,
) -> u32
    ensures value { result ≡ verdict_number (probed 24 (edge_verdict file.now k) out.old) }
    ensures place_after { place.new ≡ verdict_place (probed 24 (edge_verdict file.now k) out.old) }
    ensures out_after { out.new ≡ left 24 (edge_verdict file.now k) (next_numbers (next_read_of file.now line k) (looked_of file.now line k)) out.old }
{
    match planner::next_read(file, line, k) {
        Ok(found) => leave(&next_numbers(found.next, found.looked), out, place),
        Err(refusal) => refuse(refusal, 24, out, place),
    }
}

// The loaded lines of a region and its length, in 72 bytes.
#[unsafe(no_mangle)]
pub extern "C" fn probe_region(
    file: &[u8],
    a: usize,
    b: usize,
    out: &mut [u8],
    place: &mut usize,
) -> u32
    ensures value { result ≡ verdict_number (probed 72 (region_verdict file.now a b) out.old) }
    ensures place_after { place.new ≡ verdict_place (probed 72 (region_verdict file.now a b) out.old) }
    ensures out_after { out.new ≡ left 72 (region_verdict file.now a b) (loaded_words file.now a b ++ (length_of file.now a b ∷ [])) out.old }
{
    match planner::region(file, a, b) {
        Ok(found) => leave(&region_numbers(found.loaded, found.length), out, place),
        Err(refusal) => refuse(refusal, 72, out, place),
    }
}

// The lines, the cost and the 32 charges of a list of points, in 272 bytes.
#[unsafe(no_mangle)]
pub extern "C" fn probe_price(file: &[u8], points: &[u16], out: &mut [u8], place: &mut usize) -> u32
    ensures value { result ≡ verdict_number (probed 272 (price_verdict file.now points.now) out.old) }
    ensures place_after { place.new ≡ verdict_place (probed 272 (price_verdict file.now points.now) out.old) }
    ensures out_after { out.new ≡ left 272 (price_verdict file.now points.now) (price_lines file.now points.now ∷ price_cost file.now points.now ∷ price_charges file.now points.now) out.old }
{
    match planner::price(file, points) {
        Ok(price) => leave(
            &charge_numbers(price.lines, price.cost, price.charges),
            out,
            place,
        ),
        Err(refusal) => refuse(refusal, 272, out, place),
    }
}

// The same of the plan.
#[unsafe(no_mangle)]
pub extern "C" fn probe_plan(file: &[u8], out: &mut [u8], place: &mut usize) -> u32
    ensures { PlanLeft file.now out.old result place.new out.new }
{
    match planner::plan(file) {
        Ok(answer) => {
            let plan = answer.plan;
            leave(
                &charge_numbers(plan.lines as u64, plan.cost, answer.charges),
                out,
                place,
            )
        }
        Err(refusal) => refuse(refusal, 272, out, place),
    }
}

// The misses of the file's reads, alone and with the points, in 16 bytes.
#[unsafe(no_mangle)]
pub extern "C" fn probe_replay(
    file: &[u8],
    points: &[u16],
    out: &mut [u8],
    place: &mut usize,
) -> u32
    ensures value { result ≡ verdict_number (probed 16 (replay_verdict file.now points.now) out.old) }
    ensures place_after { place.new ≡ verdict_place (probed 16 (replay_verdict file.now points.now) out.old) }
    ensures out_after { out.new ≡ left 16 (replay_verdict file.now points.now) (misses_alone_of file.now points.now ∷ misses_with_of file.now points.now ∷ []) out.old }
{
    match replaying::replay(file, points) {
        Ok(misses) => leave(&[misses.alone as u64, misses.preempted as u64], out, place),
        Err(refusal) => refuse(refusal, 16, out, place),
    }
}

// The task file of a seed.
#[unsafe(no_mangle)]
pub extern "C" fn probe_generate(
    seed: u32,
    blocks: u32,
    preempters: u32,
    lines: u32,
    limit: u32,
    reload: u32,
    out: &mut [u8],
    place: &mut usize,
) -> u32
    ensures value { result ≡ verdict_number (generate_verdict blocks preempters lines out.old) }
    ensures place_after { place.new ≡ verdict_place (generate_verdict blocks preempters lines out.old) }
    ensures out_after { out.new ≡ generated seed blocks preempters lines limit reload out.old }
{
    let verdict = testload::generate(seed, blocks, preempters, lines, limit, reload, out);
    *place = answers::verdict_place(verdict);
    answers::verdict_number(verdict)
}

// Two files joined.
#[unsafe(no_mangle)]
pub extern "C" fn probe_join(first: &[u8], second: &[u8], out: &mut [u8], place: &mut usize) -> u32
    ensures value { result ≡ verdict_number (join_verdict first.now second.now out.old) }
    ensures place_after { place.new ≡ join_place first.now second.now out.old }
    ensures out_after { out.new ≡ join_left first.now second.now out.old }
{
    match joining::join(first, second, out) {
        Ok(()) => {
            *place = 0;
            0
        }
        Err(refused) => {
            *place = refused.place;
            refused.refusal.number()
        }
    }
}

// The task file of a trace, and its length.
#[unsafe(no_mangle)]
pub extern "C" fn probe_trace(
    text: &[u8],
    size: u32,
    group: u32,
    ticks: u32,
    lines: u32,
    limit: u32,
    reload: u32,
    id: u32,
    out: &mut [u8],
    length: &mut usize,
    place: &mut usize,
) -> u32
    ensures value { result ≡ verdict_number (verdict_of (trace_answer (settings_of size group ticks lines limit reload id) text.now out.old)) }
    ensures place_after { place.new ≡ verdict_place (verdict_of (trace_answer (settings_of size group ticks lines limit reload id) text.now out.old)) }
    ensures length_after { length.new ≡ result_unwrap_or (trace_answer (settings_of size group ticks lines limit reload id) text.now out.old) 0 }
    ensures out_after { out.new ≡ trace_output (settings_of size group ticks lines limit reload id) text.now out.old }
{
    let settings = Settings {
        size,
        group,
        ticks,
        line_count: lines,
        limit,
        reload,
        id,
    };
    leave_length(tracing::trace(text, settings, out), length, place)
}

// The text of a task file, and its length.
#[unsafe(no_mangle)]
pub extern "C" fn probe_show(
    file: &[u8],
    out: &mut [u8],
    length: &mut usize,
    place: &mut usize,
) -> u32
    ensures value { result ≡ verdict_number (verdict_of (show_answer file.now out.old)) }
    ensures place_after { place.new ≡ verdict_place (verdict_of (show_answer file.now out.old)) }
    ensures length_after { length.new ≡ result_unwrap_or (show_answer file.now out.old) 0 }
    ensures out_after { out.new ≡ show_output file.now out.old }
{
    leave_length(showing::show(file, out), length, place)
}

// The task file of a text, and its length.
#[unsafe(no_mangle)]
pub extern "C" fn probe_assemble(
    text: &[u8],
    out: &mut [u8],
    length: &mut usize,
    place: &mut usize,
) -> u32
    ensures value { result ≡ verdict_number (verdict_of (assemble_answer text.now out.old)) }
    ensures place_after { place.new ≡ verdict_place (verdict_of (assemble_answer text.now out.old)) }
    ensures length_after { length.new ≡ result_unwrap_or (assemble_answer text.now out.old) 0 }
    ensures out_after { out.new ≡ assemble_output text.now out.old }
{
    leave_length(assembling::assemble(text, out), length, place)
}

// The next fitting list from a start on, in 48 bytes: 1, its number, its lines and its cost or four zeros, how many points it has, and its point i, which is 0
// behind the last.
#[unsafe(no_mangle)]
pub extern "C" fn probe_next_list(
    file: &[u8],
    start: u64,
    i: usize,
    out: &mut [u8],
    place: &mut usize,
) -> u32
    ensures value { result ≡ verdict_number (probed 48 (list_verdict file.now) out.old) }
    ensures place_after { place.new ≡ verdict_place (probed 48 (list_verdict file.now) out.old) }
    ensures out_after { out.new ≡ left 48 (list_verdict file.now) (list_numbers (next_of file.now start) (length (next_points file.now start)) (get_or (in_array (next_points file.now start)) i 0)) out.old }
{
    match listing::next_list(file, start) {
        Ok(next) => leave(&list_numbers(next, i), out, place),
        Err(refusal) => refuse(refusal, 48, out, place),
    }
}

// The numbers of the next fitting list, and its point i.
fn list_numbers(next: Option<NextList>, i: usize) -> [u64; 6]
    ensures { result ≡ list_numbers (option_map (λ found. found.list) next) (points_in next).count (get_or (points_in next).points i 0) }
{
    match next {
        None => [0; 6],
        Some(found) => [
            1,
            found.list.number,
            found.list.lines as u64,
            found.list.cost,
            found.points.count as u64,
            point_at(found.points.points, i) as u64,
        ],
    }
}

// Point i of an array, or 0.
fn point_at(points: [u16; 16], i: usize) -> u16
    ensures { result ≡ get_or points i 0 }
{
    if i < 16 { points[i] } else { 0 }
}

// Whether the tasks of a set meet their deadlines up to a horizon, in 16 bytes: two zeros, or 1 and the first time that fails.
#[unsafe(no_mangle)]
pub extern "C" fn probe_deadlines(
    tasks: &[TaskRecord],
    horizon: u32,
    out: &mut [u8],
    place: &mut usize,
) -> u32
    ensures { DeadlinesLeft (answerTo tasks.now horizon) out.old result place.new out.new }
{
    match demand::test_deadlines(tasks, horizon) {
        Ok(missed) => leave(&deadlines_numbers(missed), out, place),
        Err(refusal) => refuse(refusal, 16, out, place),
    }
}

// The numbers of a test of deadlines.
fn deadlines_numbers(missed: Option<u32>) -> [u64; 2]
    ensures { result ≡ deadlines_numbers missed }
{
    match missed {
        None => [0, 0],
        Some(t) => [1, t as u64],
    }
}

// The numbers of a search.
fn next_numbers(next: Option<u32>, looked: usize) -> [u64; 3]
    ensures { result ≡ next_numbers next looked }
{
    match next {
        Some(number) => [1, number as u64, looked as u64],
        None => [0, 0, looked as u64],
    }
}

// The numbers of a region: the words of its loaded lines, and its length.
fn region_numbers(loaded: LineSet, length: u64) -> [u64; 9]
    ensures { result ≡ loaded.words ++ (length ∷ []) }
{
    let words = loaded.words;
    [
        words[0], words[1], words[2], words[3], words[4], words[5], words[6], words[7], length,
    ]
}

// The numbers of a price: lines, cost and charges.
fn charge_numbers(lines: u64, cost: u64, charges: [u32; 32]) -> [u64; 34]
    ensures { result ≡ lines ∷ cost ∷ charges }
{
    let mut numbers = [0u64; 34];
    numbers[0] = lines;
    numbers[1] = cost;
    for k in 0..32 {
        numbers[k + 2] = charges[k] as u64;
    }
    numbers
}

// Leaves numbers in a buffer of their size; returns the number of a refusal, 9 for another size, and leaves its place.
fn leave(numbers: &[u64], out: &mut [u8], place: &mut usize) -> u32
    requires { length numbers.now ≤ 34 }
    ensures value { result ≡ verdict_number (probed (8 * length numbers.now) accept out.old) }
    ensures place_after { place.new ≡ verdict_place (probed (8 * length numbers.now) accept out.old) }
    ensures out_after { out.new ≡ left (8 * length numbers.now) accept numbers.now out.old }
{
    match answers::check_output(8 * numbers.len(), out.len()) {
        Ok(()) => {
            put_numbers(numbers, out);
            *place = 0;
            0
        }
        Err(refusal) => {
            *place = refusal.place();
            refusal.number()
        }
    }
}

// Returns the number of a refusal and leaves its place; 9 comes first, for a buffer of another size.
fn refuse(refusal: Refusal, size: usize, out: &[u8], place: &mut usize) -> u32
    ensures value { result ≡ verdict_number (probed size (Err refusal) out.now) }
    ensures place_after { place.new ≡ verdict_place (probed size (Err refusal) out.now) }
{
    let answer = answers::check_output(size, out.len()).and(Err(refusal));
    *place = answers::verdict_place(answer);
    answers::verdict_number(answer)
}

// Leaves the length of what a call made, or 0 with the number and the place of its refusal.
fn leave_length(made: Result<usize, Refusal>, length: &mut usize, place: &mut usize) -> u32
    ensures value { result ≡ verdict_number (verdict_of made) }
    ensures place_after { place.new ≡ verdict_place (verdict_of made) }
    ensures length_after { length.new ≡ result_unwrap_or made 0 }
{
    *length = made.unwrap_or(0);
    match made {
        Ok(_) => {
            *place = 0;
            0
        }
        Err(refusal) => {
            *place = refusal.place();
            refusal.number()
        }
    }
}

// Stores numbers in a buffer of their size.
fn put_numbers(numbers: &[u64], out: &mut [u8])
    requires { (length numbers.now ≤ 34) × (length out.old ≡ 8 * length numbers.now) }
    ensures { out.new ≡ les 8 numbers.now }
{
    for (i, number) in numbers.iter().enumerate() {
        block::put_u64(out, 8 * i, *number);
    }
}
