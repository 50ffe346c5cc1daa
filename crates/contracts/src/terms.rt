// The contracts of a direction as a quarter hour takes them: awards and prices, and the limits that the awards add up to.
ghost use Rattle.std.specs.Prelude.{◌≡◌, ◌*◌, ◌≤◌, ◌^◌};
ghost use Rattle.contracts.specs.Terms.{terms_of, limits_of};

use crate::book::Awarded;
use arithmetic::power::Power;

// What a contract was awarded, in kW, and its price in cent per MWh.
#[derive(Clone, Copy)]
pub struct Terms {
    pub award: u32,
    pub price: i32,
}

// Those of a contract.
pub(crate) fn terms_of(contract: Awarded) -> Terms
    ensures { result ≡ terms_of contract }
{
    Terms {
        award: contract.award,
        price: contract.price,
    }
}

// A contract's award, in units.
fn award(terms: Terms) -> Power
    ensures { (result.0 ≡ terms.award * 5400) × (result.0 ≤ 2 ^ 45) }
{
    Power(u64::from(terms.award) * 5_400)
}

// The upper limit of each contract, in units: the sum of the awards up to its own.
pub fn limits(terms: [Terms; 32]) -> [u64; 32]
    ensures { result ≡ limits_of terms }
{
    let mut out = [0u64; 32];
    let mut high: u64 = 0;
    for k in 0..32 {
        high += award(terms[k]).0;
        out[k] = high;
    }
    out
}
