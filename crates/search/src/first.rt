ghost use Rattle.std.specs.Prelude.{◌≡◌, ◌+◌, ◌<◌, ◌≤◌, length, Decides};
ghost use Rattle.answer_sets.specs.Rules.{Borne};
ghost use Rattle.rules.specs.Shapes.{way_of, rules_of};
ghost use Rattle.sets.specs.Coming.{to_come};
ghost use Rattle.search.specs.Ahead.{Stops};

use banks::bank::Bank;
use judge::keeping::keeps;
use judge::program::Program;
use sets::set::Set;
use sets::walk::Walk;

// Where a search stopped: at a set, or at none, after so many sets, and with this walk ahead.
#[derive(Clone, Copy)]
pub(crate) struct Stop {
    pub(crate) found: Option<Set>,
    pub(crate) tried: usize,
    pub(crate) ahead: Option<Walk>,
}

// The count with one set more.
fn one_more(tried: usize) -> usize
    requires { tried < 65536 }
    ensures { result ≡ tried + 1 }
{
    tried + 1
}

// Whether some ranks bear a set.
fn is_borne<B: Bank>(program: &Program<B>, set: Set) -> bool
    ensures { Decides result (Borne (B.meaning program.now.bank.now) (way_of program.now.way) (rules_of program.now.rules.now) set) }
{
    program.rank_set(set).is_some()
}

// The walk is kept and stepped, and no iterator: the next search goes on where this one stopped, and is asked how many sets it tried.
// Goes on to the first set that some ranks bear. A set is left at the first rule that it breaks; rounds are computed only of one that breaks none.
pub(crate) fn first_borne<B: Bank>(program: &Program<B>, from: Option<Walk>) -> Stop
    requires { length (to_come from) ≤ 65536 }
    ensures { Stops (B.meaning program.now.bank.now) (way_of program.now.way) (rules_of program.now.rules.now) (to_come from) result }
{
    let mut ahead = from;
    let mut tried = 0;
    let found = 'sets: loop {
        let Some(walk) = ahead else {
            break 'sets None;
        };
        ahead = walk.next();
        tried = one_more(tried);
        let set = walk.set();
        for rule in program.rules {
            if !keeps(program.bank, rule, set) {
                continue 'sets;
            }
        }
        if is_borne(program, set) {
            break 'sets Some(set);
        }
    };
    Stop {
        found,
        tried,
        ahead,
    }
}
