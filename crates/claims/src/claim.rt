// A contract's claim of a quarter hour: its energies before any surplus is handed out, and the gap that a surplus may fill.
ghost use Rattle.std.specs.Prelude.{◌≡◌, ◌≤◌, ◌++◌, take, drop};
ghost use Rattle.claims.specs.Claims.{claim_from};
ghost use Rattle.claims.specs.Blank.{no_claims};
ghost use Rattle.claims.specs.Views.{joined_of};

use arithmetic::energy::Kwh;

// A contract's energies before the surplus is handed out.
#[derive(Clone, Copy)]
pub struct Claim {
    pub setpoint: Kwh,
    pub actual: Kwh,
    pub acceptance: Kwh,
    pub shortfall: Kwh,
    pub under_delivery: Kwh,
    pub capped: Kwh,
    pub gap: Kwh,
}

// What no contract claims: the energies above the last limit.
#[derive(Clone, Copy)]
pub struct Rest {
    pub setpoint: Kwh,
    pub actual: Kwh,
    pub acceptance: Kwh,
}

impl Claim {
    // By a contract's energies. The cap is never below 0, since the tolerance never asks for more than the setpoint.
    fn of(setpoint: Kwh, actual: Kwh, acceptance: Kwh, floor: Kwh, shortfall: Kwh) -> Claim
        ensures { result ≡ claim_from setpoint actual acceptance floor shortfall }
    {
        let under_delivery = Kwh(floor.0.saturating_sub(acceptance.0));
        let cap = setpoint.0.saturating_sub(under_delivery.0);
        let capped = Kwh(cap.min(acceptance.0));
        let gap = Kwh(cap.saturating_sub(capped.0).min(shortfall.0));
        Claim {
            setpoint,
            actual,
            acceptance,
            shortfall,
            under_delivery,
            capped,
            gap,
        }
    }
}

// The claims by the energies of the first `count` contracts.
// Five arrays and a count stay: a contract's claim is made at one place of all of them, and the definition takes them so.
pub(crate) fn joined(
    setpoints: [Kwh; 32],
    actuals: [Kwh; 32],
    acceptances: [Kwh; 32],
    floors: [Kwh; 32],
    shortfalls: [Kwh; 32],
    count: usize,
) -> [Claim; 32]
    requires { count ≤ 32 }
    ensures { result ≡ joined_of actuals acceptances floors shortfalls (take count setpoints) ++ drop count no_claims }
{
    let none = Kwh(0);
    let mut out = [Claim::of(none, none, none, none, none); 32]; // what stands in places that have no contract
    for k in 0..count {
        out[k] = Claim::of(
            setpoints[k],
            actuals[k],
            acceptances[k],
            floors[k],
            shortfalls[k],
        );
    }
    out
}
