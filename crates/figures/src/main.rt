// The channel figures of docs/RULES.md, 'A channel that rises': interval 1, lot 5,000 kW, the setpoint 0 to second 99 and another from then on.
#![tactic(auto)]

ghost use Rattle.std.specs.Prelude.{◌≡◌};
ghost use Rattle.channel.specs.Start.{fresh};
ghost use Rattle.channel.specs.Backward.{uga_of};
ghost use Rattle.vocabulary.specs.declared.interval.Interval.TheVariants.{One};
ghost use Rattle.figures.specs.Jump.{setpoint_at, jump};

use arithmetic::power::Units;
use arithmetic::whole::positive_part;
use channel::Channel;
use std::io;
use vocabulary::interval::Interval;

fn setpoint_at(kw: i32, second: u32) -> i32
    ensures { result ≡ setpoint_at kw second }
{
    if second < 100 { 0 } else { kw }
}

// UGA after so many samples, in units.
fn uga_after(kw: i32, samples: u32) -> Units
    ensures { result.0 ≡ uga_of One 5000 fresh (jump kw samples) }
{
    let mut channel = Channel::new(Interval::One, 5_000);
    for second in 0..samples {
        channel = channel.follow(setpoint_at(kw, second));
    }
    channel.uga()
}

// A line: the second, counted from 0, and UGA there, which none of these figures has below 0.
fn line(rt: &impl Print, kw: i32, second: u16) -> io::Result<()> {
    let uga = uga_after(kw, u32::from(second) + 1);
    let units = positive_part(uga.0);
    println!(rt; "UGA {second} {units}")
}

fn main(rt: HostRuntime) -> io::Result<()> {
    println!(rt; "27000 kW from second 100 on")?;
    line(&rt, 27_000, 130)?;
    line(&rt, 27_000, 131)?;
    line(&rt, 27_000, 399)?;
    line(&rt, 27_000, 400)?;
    println!(rt; "2700 kW from second 100 on")?;
    line(&rt, 2_700, 275)?;
    line(&rt, 2_700, 276)
}
