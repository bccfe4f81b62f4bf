use listed::condition::ListedCondition;
use sets::set::Set;
use weighed::condition::WeighedCondition;

// Conditions 0 to 2: decision 0; decision 1; both of 0 and 1 or neither.
pub const LISTED: [ListedCondition; 3] = [
    ListedCondition {
        domain: 0b001,
        first: 0,
        len: 1,
    },
    ListedCondition {
        domain: 0b010,
        first: 1,
        len: 1,
    },
    ListedCondition {
        domain: 0b011,
        first: 2,
        len: 2,
    },
];

pub const SETS: [Set; 4] = [0b001, 0b010, 0b000, 0b011];

// Condition 3: from 1 to 5 kilos out of the decisions 0, 1 and 2.
pub const KILOS: [WeighedCondition<i32>; 1] = [WeighedCondition {
    domain: 0b111,
    low: 1,
    high: 5,
    first: 0,
}];

pub const KILO_WEIGHTS: [i32; 3] = [2, -1, 3];

// Condition 4: no grade above 3 out of the decisions 0 and 2.
pub const GRADES: [WeighedCondition<u8>; 1] = [WeighedCondition {
    domain: 0b101,
    low: 0,
    high: 3,
    first: 0,
}];

pub const GRADE_WEIGHTS: [u8; 2] = [1, 4];
