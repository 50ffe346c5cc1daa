// A contract, as calls take it and lines say it.
use crate::direction::Direction;

// Award in kW, price in cent per MWh. Its identifier is handed over beside it.
#[derive(Clone, Copy, Debug, PartialEq, Eq)]
pub struct Contract {
    pub direction: Direction,
    pub award: i32,
    pub price: i32,
}
