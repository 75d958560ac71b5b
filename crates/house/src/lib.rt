// Document 01, "House delay tables", and document 02, E5: the eight house tables, each entry worked out from its pair when wanted.
#![tactic(auto)]

ghost use Rattle.std.specs.Prelude.{◌≡◌, ◌*◌, ◌<◌};
ghost use Rattle.std.specs.List.{slice_get};
ghost use Rattle.timetable.specs.Classes.{share_total};
ghost use Rattle.house.specs.House.{maximum, cumulative, house_pairs};
ghost use Rattle.house.specs.HouseShare.{house_share};

use timetable::Refusal;

// A house pair: change time and parameter.
#[derive(Clone, Copy)]
pub struct Pair {
    pub change: u32,
    pub parameter: u32,
}

// The eight house pairs, by their numbers.
const PAIRS: [Pair; 8] = [
    Pair {
        change: 2,
        parameter: 10,
    },
    Pair {
        change: 5,
        parameter: 30,
    },
    Pair {
        change: 5,
        parameter: 60,
    },
    Pair {
        change: 10,
        parameter: 30,
    },
    Pair {
        change: 10,
        parameter: 60,
    },
    Pair {
        change: 10,
        parameter: 110,
    },
    Pair {
        change: 15,
        parameter: 90,
    },
    Pair {
        change: 20,
        parameter: 100,
    },
];

// What the shares of a table add up to.
const SHARE_TOTAL: u32 = timetable::SHARE_TOTAL as u32;

// Refusal 6, for a pair number or a minute that no house table has.
const OUTSIDE: Refusal<u32> = Refusal {
    number: 6,
    place: 0,
};

// The share, in 4,096ths, of landings at most `minute` late by the house table of this pair.
#[tactic(auto, using(crate::proofs::Answers::pair_missing, crate::proofs::Answers::minute_past, crate::proofs::Answers::share_answered))]
pub fn house_share(pair: u32, minute: u32) -> Result<u32, Refusal<u32>>
    ensures { result ≡ house_share pair minute }
{
    let house = pair_of(pair).ok_or(OUTSIDE)?;
    if minute > house.change + house.parameter {
        return Err(OUTSIDE);
    }
    Ok(cumulative_share(house, minute))
}

// The pair of a pair number.
fn pair_of(pair: u32) -> Option<Pair>
    ensures { result ≡ slice_get house_pairs pair }
{
    PAIRS.get(pair as usize).copied()
}

// The cumulative share by the rule, worked out from a pair: no step makes a number above 4,096 times 33 M.
#[tactic(auto, using(crate::proofs::Rule::at_latest, crate::proofs::Rule::cumulative_past, crate::proofs::Rule::at_zero, crate::proofs::Rule::cumulative_up))]
fn cumulative_share(house: Pair, minute: u32) -> u32
    requires { share_total * (33 * maximum house) < 4294967296 }
    ensures { result ≡ cumulative house.change house.parameter minute }
{
    let Pair { change, parameter } = house;
    if minute >= change + parameter {
        return SHARE_TOTAL;
    }
    if minute > change {
        let over = minute - change;
        return SHARE_TOTAL * (31 * over + 2 * parameter) / (30 * over + 3 * parameter);
    }
    if minute == 0 {
        return 0;
    }
    SHARE_TOTAL * (2 * minute) / (6 * change - 3 * minute)
}
