//! The cases, and the plans that words name.
use crate::rounds::{Deed, Own, Solo, Whose};
use crate::visits::Visit;
use keybits::{MOST_LANES, NARROW_LANES};

/// What is done in each round.
#[derive(Clone, Copy)]
pub enum Case {
    /// Something without a pool that the threads share.
    Solo(Solo),
    /// A deed, in a pool of as many lanes as are used.
    Pool(Deed),
    /// A deed, in a pool of 16 lanes.
    Pool16(Deed),
    /// A deed, in a pool of 64 lanes.
    Pool64(Deed),
    /// The largest wide pool is filled and emptied.
    Fill,
}

/// The cases by name.
pub const CASES: [(&str, Case); 30] = [
    ("bare", Case::Solo(Solo::Bare)),
    ("alu", Case::Solo(Solo::Alu)),
    ("get-own", Case::Pool(Deed::Get(Whose::Own))),
    ("get-shared", Case::Pool(Deed::Get(Whose::Shared))),
    ("get-others", Case::Pool(Deed::Get(Whose::Others))),
    ("get-many", Case::Pool(Deed::Own(Own::GetMany))),
    ("get-two", Case::Pool(Deed::Own(Own::GetTwo))),
    ("get16-own", Case::Pool16(Deed::Get(Whose::Own))),
    ("get16-many", Case::Pool16(Deed::Own(Own::GetMany))),
    ("cycle", Case::Pool(Deed::Own(Own::Cycle))),
    ("cycle-two", Case::Pool(Deed::Own(Own::CycleTwo))),
    ("cycle16", Case::Pool16(Deed::Own(Own::Cycle))),
    ("churn", Case::Pool(Deed::Own(Own::Churn))),
    ("churn16", Case::Pool16(Deed::Own(Own::Churn))),
    ("held", Case::Pool(Deed::Own(Own::Held))),
    ("miss", Case::Pool(Deed::Own(Own::Miss))),
    ("pass", Case::Pool(Deed::Pass)),
    ("pass16", Case::Pool16(Deed::Pass)),
    ("full16", Case::Pool16(Deed::Own(Own::Full))),
    ("cycle64", Case::Pool64(Deed::Own(Own::Cycle))),
    ("full64", Case::Pool64(Deed::Own(Own::Full))),
    ("open", Case::Solo(Solo::Open)),
    ("page", Case::Solo(Solo::Page)),
    ("get-large", Case::Solo(Solo::Large)),
    ("clone", Case::Solo(Solo::Clone)),
    ("look-many", Case::Solo(Solo::Look)),
    ("guest-many", Case::Solo(Solo::Guest(Visit::Many))),
    ("guest-two", Case::Solo(Solo::Guest(Visit::Two))),
    ("guest-cycle", Case::Solo(Solo::Guest(Visit::Cycle))),
    ("guest-cycle-two", Case::Solo(Solo::Guest(Visit::CycleTwo))),
];

/// The name of the case that fills a pool, which is done where it is named alone, as it takes longest.
const FILL: &str = "fill";

/// The case of this name.
fn case_of(name: &str) -> Option<Case> {
    if name == FILL {
        return Some(Case::Fill);
    }
    for (known, case) in &CASES {
        if *known == name {
            return Some(*case);
        }
    }
    None
}

impl Case {
    /// How many lanes the pool has for so many threads. 0 where there is no pool.
    pub fn lanes(self, threads: u32) -> u32 {
        match self {
            Case::Solo(solo) => solo.lanes(),
            Case::Pool(deed) => deed.lanes(threads),
            Case::Pool16(_) => NARROW_LANES,
            Case::Pool64(_) | Case::Fill => MOST_LANES,
        }
    }

    /// Whether so many threads can do it.
    fn fits(self, threads: u32) -> bool {
        match self {
            Case::Pool(Deed::Pass) | Case::Pool16(Deed::Pass) if threads % 2 == 1 => threads == 1,
            Case::Pool16(_) => 0 < threads && threads <= NARROW_LANES,
            _ => 0 < threads && threads <= MOST_LANES,
        }
    }
}

/// A case, on so many threads, so many rounds on each.
#[derive(Clone, Copy)]
pub struct Plan {
    pub case: Case,
    pub threads: u32,
    pub rounds: u64,
}

impl Plan {
    /// The plan that these words name: a case, a number of threads and a number of rounds.
    pub fn read(case: &str, threads: &str, rounds: &str) -> Option<Plan> {
        let case = case_of(case)?;
        let threads = threads.parse::<u32>().ok()?;
        let rounds = rounds.parse::<u64>().ok()?;
        if !case.fits(threads) {
            return None;
        }
        Some(Plan {
            case,
            threads,
            rounds,
        })
    }
}
