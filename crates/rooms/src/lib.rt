// Room to lend: what the largest sound file, its query and its plan need.
#![tactic(auto)]

ghost use Rattle.std.specs.Prelude.{◌≡◌, length};
ghost use Rattle.rooms.specs.Rooms.{plan_numbers, query_room, sailings_room, work_numbers, zeros};

// 4n + 2,500 numbers for the most rows.
pub const WORK: usize = 10500;

// 3n numbers for the most rows.
pub const PLAN: usize = 6000;

// More than the longest sound file, so that one byte too many is seen.
pub const SAILINGS: usize = 28000;

// More than a query's 12 bytes, so that one byte too many is seen.
pub const QUERY: usize = 16;

// The four rooms keep a function each: one over any size and type would be no plainer than `[0; N]`, and each name needs its contract.
#[tactic(auto, unfolding(crate::specs::Rooms::zeros))]
pub fn work_room() -> [u32; WORK]
    ensures { (result ≡ zeros work_numbers) × (length result ≡ work_numbers) }
{
    [0u32; WORK]
}

#[tactic(auto, unfolding(crate::specs::Rooms::zeros))]
pub fn plan_room() -> [u32; PLAN]
    ensures { (result ≡ zeros plan_numbers) × (length result ≡ plan_numbers) }
{
    [0u32; PLAN]
}

#[tactic(auto, unfolding(crate::specs::Rooms::zeros))]
pub fn sailings_room() -> [u8; SAILINGS]
    ensures { (result ≡ zeros sailings_room) × (length result ≡ sailings_room) }
{
    [0u8; SAILINGS]
}

#[tactic(auto, unfolding(crate::specs::Rooms::zeros))]
pub fn query_room() -> [u8; QUERY]
    ensures { (result ≡ zeros query_room) × (length result ≡ query_room) }
{
    [0u8; QUERY]
}
