// Why a call was refused. A case holds the values that are told with it.
#[derive(Clone, Copy, Debug, PartialEq, Eq)]
pub enum Refusal {
    // a number names neither a decision nor no head
    BadHead,
    // a body has more than eight entries
    LongBody,
    // an entry's condition is not one of the bank's
    NoCondition,
    // a text names no way
    NoWay,
    // the ranks are not 64 bytes that are zero exactly outside the set
    BadRanks,
    // a bank's tables are not valid
    BadTables,
    // a text does not begin with a line of hexadecimal digits
    BadLine,
    // a line's bytes spell no frame
    BadFrame,
    // as many rules stand as a book may have
    RulesFull,
    // as many pages stand as a book may have
    PagesFull,
    // a rule is broken: with the lowest one
    Breaks(usize),
    // the set is not borne, by any ranks or by the given ones
    Unborne,
    // there is no rule to withdraw
    NoRule,
    // the last page rests on the last rule
    RuleHeld,
    // the rules have more than sixteen different heads
    ManyHeads,
    // no further set is borne: with the number of sets tried
    NoSet(usize),
    // the memory lent is too short: with how long it has to be
    ShortMemory(usize),
    // there is no such page
    NoPage,
}
