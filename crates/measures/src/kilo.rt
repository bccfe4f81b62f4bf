// A figure in kilos: a weight, a total or a bound.
#[derive(Clone, Copy, PartialEq, Eq, PartialOrd, Ord, Debug)]
pub struct Kilo {
    pub value: i32,
}
