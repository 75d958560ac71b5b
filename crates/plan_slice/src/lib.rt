// The plan in a lent slice: three numbers a ride, boarding row, leaving row and worth, by boarding row rising.
#![tactic(auto)]

ghost use Rattle.std.specs.Prelude.{◌≡◌, ◌+◌, ◌*◌, ◌<◌, length};
ghost use Rattle.plan_slice.specs.Slice.{board_in, leave_in, worth_in, with_ride};

// A ride as the plan says it: the row where it boards, the row where it leaves, and what it is worth, in ticks.
#[derive(Clone, Copy)]
pub struct Ride {
    pub board: u32,
    pub leave: u32,
    pub worth: u32,
}

// Ride number `i` becomes this one.
pub fn write_ride(plan: &mut [u32], i: usize, ride: Ride)
    requires { 3 * i + 2 < length plan.old }
    ensures { plan.new ≡ with_ride plan.old i ride.board ride.leave ride.worth }
{
    let at = 3 * i;
    plan[at] = ride.board;
    plan[at + 1] = ride.leave;
    plan[at + 2] = ride.worth;
}

// Ride number `i`.
pub fn ride_at(plan: &[u32], i: usize) -> Ride
    requires { 3 * i + 2 < length plan.now }
    ensures { (result.board ≡ board_in plan.now i) × (result.leave ≡ leave_in plan.now i) × (result.worth ≡ worth_in plan.now i) }
{
    Ride {
        board: board_of(plan, i),
        leave: leave_of(plan, i),
        worth: worth_of(plan, i),
    }
}

// The row where ride number `i` boards.
pub fn board_of(plan: &[u32], i: usize) -> u32
    requires { 3 * i + 2 < length plan.now }
    ensures { result ≡ board_in plan.now i }
{
    plan[3 * i]
}

// The row where it leaves.
pub fn leave_of(plan: &[u32], i: usize) -> u32
    requires { 3 * i + 2 < length plan.now }
    ensures { result ≡ leave_in plan.now i }
{
    plan[3 * i + 1]
}

// What it is worth, in ticks.
pub fn worth_of(plan: &[u32], i: usize) -> u32
    requires { 3 * i + 2 < length plan.now }
    ensures { result ≡ worth_in plan.now i }
{
    plan[3 * i + 2]
}
