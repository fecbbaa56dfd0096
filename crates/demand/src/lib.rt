// Whether the tasks of a set meet their deadlines: at no instant may what they demand and what blocks them be more than the time that has passed.
#![tactic(auto)]

ghost use Rattle.std.specs.Prelude.{true, cond, ◌≡◌, ◌+◌, ◌≤◌, ◌<◌, min, max, ltb, length, get_or, take};
ghost use Rattle.std.specs.List.{list_all};
ghost use Rattle.demand.specs.Demand.{most_ticks, deadlines_of};
ghost use Rattle.demand.specs.Calls.{most_tasks, in_range, right_task, right_set, answer, answer_of};
ghost use Rattle.demand.specs.Loading.{task, no_tasks, with_task, loaded_set};
ghost use Rattle.demand.specs.Lanes.{Holds, Spread, Ranged, below, at_instant, moved, latest, blocked_by, ended_by, BlockedUntil};

use model::Refusal;
use std::cmp::{max, min};

// The most ticks of a field and of the horizon.
const MOST_TICKS: u32 = 16777215;

// A time after all others.
const LATEST: u32 = u32::MAX;

// A task of the set, in ticks: its execution time with reloads, its period, its deadline after a release, and its longest region.
#[repr(C)]
#[derive(Clone, Copy)]
pub struct TaskRecord {
    pub execution: u32,
    pub period: u32,
    pub deadline: u32,
    pub region: u32,
}

// A set by value: how many tasks it has, 17 where they are more than 16, and the first 16 of them. An array, since the libraries have no heap.
#[derive(Clone, Copy)]
pub struct TaskSet {
    pub count: usize,
    pub tasks: [TaskRecord; 16],
}

// Each field of the tasks in an array of its own: the loops over one field are then four tasks at a time. The same loops over one array of tasks, in plain
// Rust, took 1.4 to 2.3 times as long for 16 tasks in two builds of three, and as long in the third.
#[derive(Clone, Copy)]
struct Columns {
    count: usize,
    executions: [u32; 16],
    periods: [u32; 16],
    deadlines: [u32; 16],
    regions: [u32; 16],
}

// What an instant brings: the demand with the execution times that fall due there, and the next instant.
#[derive(Clone, Copy)]
struct Passed {
    demand: u32,
    next: u32,
}

// What blocks from a time on: a region, and the time up to which it stays.
#[derive(Clone, Copy)]
struct Blocked {
    region: u32,
    until: u32,
}

// The first time up to a horizon at which the total of a list of tasks is more than the time, or none where all deadlines are met.
pub fn test_deadlines(tasks: &[TaskRecord], horizon: u32) -> Result<Option<u32>, Refusal>
    ensures { result ≡ answer tasks.now horizon }
{
    test_set(load(tasks), horizon)
}

// The records of a list in a set by value.
pub fn load(tasks: &[TaskRecord]) -> TaskSet
    ensures { result ≡ loaded_set tasks.now }
{
    let mut set = no_tasks();
    for task in tasks {
        set = with_task(set, task.execution, task.period, task.deadline, task.region);
    }
    set
}

// A set without a task.
pub fn no_tasks() -> TaskSet
    ensures { result ≡ no_tasks }
{
    TaskSet {
        count: 0,
        tasks: [TaskRecord {
            execution: 0,
            period: 0,
            deadline: 0,
            region: 0,
        }; 16],
    }
}

// The set with a task added, which is only counted if the set already has 16.
#[tactic(auto, unfolding(crate::specs::Loading::with_task))]
pub fn with_task(set: TaskSet, execution: u32, period: u32, deadline: u32, region: u32) -> TaskSet
    ensures { result ≡ with_task set (task execution period deadline region) }
{
    let count = set.count;
    let mut tasks = set.tasks;
    if 16 <= count {
        return TaskSet { count: 17, tasks };
    }
    tasks[count] = TaskRecord {
        execution,
        period,
        deadline,
        region,
    };
    TaskSet {
        count: count + 1,
        tasks,
    }
}

// The same of a set.
pub fn test_set(set: TaskSet, horizon: u32) -> Result<Option<u32>, Refusal>
    ensures { result ≡ answer_of set.count (take set.count set.tasks) horizon }
{
    if right_set(set) & (horizon <= MOST_TICKS) {
        Ok(first_miss(set, horizon))
    } else {
        Err(Refusal::WrongTaskSet)
    }
}

#[tactic(auto, unfolding(crate::specs::Calls::in_range))]
fn in_range(number: u32) -> bool
    ensures { result ≡ in_range number }
{
    (1 <= number) & (number <= MOST_TICKS)
}

#[tactic(auto, unfolding(crate::specs::Calls::right_task))]
fn right_task(task: TaskRecord) -> bool
    ensures { result ≡ right_task task }
{
    in_range(task.execution)
        & in_range(task.period)
        & in_range(task.deadline)
        & in_range(task.region)
}

fn right_tasks(tasks: &[TaskRecord]) -> bool
    ensures { result ≡ list_all right_task tasks.now }
{
    tasks.iter().all(|task| right_task(*task))
}

// Whether a set has 1 to 16 tasks with every field in its range.
fn right_set(set: TaskSet) -> bool
    ensures { result ≡ right_set set.count (take set.count set.tasks) }
{
    let count = set.count;
    if count < 1 {
        return false;
    }
    if 16 < count {
        return false;
    }
    right_tasks(&set.tasks[..count])
}

// The first time at which the total is more than the time. Between two instants the demand stays and the blocking falls, so only instants are visited,
// in rising order. Until the test fails the demand is at most t, so 32 bits hold it and what an instant adds.
fn first_miss(set: TaskSet, horizon: u32) -> Option<u32>
    requires { (right_set set.count (take set.count set.tasks) ≡ true) × (horizon ≤ most_ticks) }
    ensures { result ≡ deadlines_of (take set.count set.tasks) horizon }
{
    let columns = spread(set);
    let mut instants = columns.deadlines;
    let mut demand = 0u32;
    let mut blocked = Blocked {
        region: 0,
        until: 0,
    };
    let mut t = columns.least_deadline();
    while t <= horizon {
        let passed = columns.pass(&mut instants, demand, t, horizon + 1);
        demand = passed.demand;
        blocked = columns.blocked_from(blocked, t);
        if t < demand + blocked.region {
            return Some(t);
        }
        t = passed.next;
    }
    None
}

// The fields of the tasks, each in its array.
fn spread(set: TaskSet) -> Columns
    requires { set.count ≤ most_tasks }
    ensures spread { Spread (take set.count set.tasks) set.count result }
    ensures count_value { (result.count ≡ set.count) × (set.count ≡ length (take set.count set.tasks)) }
{
    let mut columns = Columns {
        count: set.count,
        executions: [0; 16],
        periods: [0; 16],
        deadlines: [0; 16],
        regions: [0; 16],
    };
    for i in 0..set.count {
        let task = set.tasks[i];
        columns.executions[i] = task.execution;
        columns.periods[i] = task.period;
        columns.deadlines[i] = task.deadline;
        columns.regions[i] = task.region;
    }
    columns
}

impl Columns {
    // The smallest deadline.
    fn least_deadline(&self) -> u32
        requires { self.now.count ≤ most_tasks }
        ensures { result ≡ below min (most_ticks + 1) self.now.count (λ k. get_or self.now.deadlines k 0) }
    {
        let mut smallest = MOST_TICKS + 1;
        for i in 0..self.count {
            smallest = min(smallest, self.deadlines[i]);
        }
        smallest
    }

    // Passes the instant t: the demand there, and the next instant, at most the end. Each task whose instant it is goes on by its period.
    fn pass(&self, instants: &mut [u32; 16], demand: u32, t: u32, end: u32) -> Passed
        requires { Ranged self.now.count self.now.executions × Ranged self.now.count self.now.periods × (length instants.old ≡ most_tasks) × (self.now.count ≤ most_tasks) × (demand ≤ most_ticks) × (t ≤ most_ticks) }
        ensures demand_value { result.demand ≡ demand + below ◌+◌ 0 self.now.count (λ k. at_instant (get_or instants.old k 0) t (get_or self.now.executions k 0)) }
        ensures next_value { result.next ≡ below min end self.now.count (moved instants.old self.now.periods t) }
        ensures holds { Holds (moved instants.old self.now.periods t) self.now.count instants.new }
    {
        let mut demand = demand;
        let mut next = end;
        for i in 0..self.count {
            let instant = instants[i];
            if instant == t {
                let later = instant + self.periods[i];
                instants[i] = later;
                demand += self.executions[i];
                next = min(next, later);
            } else {
                next = min(next, instant);
            }
        }
        Passed { demand, next }
    }

    // What blocks from t on, found again only where a deadline has passed.
    fn blocked_from(&self, blocked: Blocked, t: u32) -> Blocked
        requires { BlockedUntil self.now.count self.now.deadlines self.now.regions t blocked × (self.now.count ≤ most_tasks) × (t ≤ most_ticks) }
        ensures { BlockedUntil self.now.count self.now.deadlines self.now.regions t result × (t < result.until) }
    {
        if blocked.until <= t {
            self.blocked_at(t)
        } else {
            blocked
        }
    }

    // The greatest region among the tasks with a deadline above t, and the least of these deadlines.
    fn blocked_at(&self, t: u32) -> Blocked
        requires { self.now.count ≤ most_tasks }
        ensures region_value { result.region ≡ below max 0 self.now.count (blocked_by self.now.deadlines self.now.regions t) }
        ensures until_value { result.until ≡ below min latest self.now.count (ended_by self.now.deadlines t) }
    {
        let mut region = 0;
        let mut until = LATEST;
        for i in 0..self.count {
            let deadline = self.deadlines[i];
            region = max(region, while_above(deadline, t, self.regions[i], 0));
            until = min(until, while_above(deadline, t, deadline, LATEST));
        }
        Blocked { region, until }
    }
}

// A number that counts while a deadline is above t, and another from then on.
fn while_above(deadline: u32, t: u32, number: u32, other: u32) -> u32
    ensures { result ≡ cond (ltb t deadline) number other }
{
    if t < deadline { number } else { other }
}
