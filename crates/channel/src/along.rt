// What leading a channel along up to 900 setpoints at once is made of: the ring and the setpoints as one line, and the ring after it.
ghost use Rattle.std.specs.Prelude.{◌≡◌, ◌≤◌, ◌<◌, length};
ghost use Rattle.series.specs.Places.{Fills};
ghost use Rattle.channel.specs.Along.{ring_at, Lined};

// A line: the setpoints of the ring, oldest first, and those that follow.
pub(crate) fn lined(ring: [i32; 302], newest: usize, setpoints: [i32; 900], n: usize) -> [i32; 1202]
    requires { (newest < 302) × (n ≤ 900) }
    ensures { Lined ring newest setpoints result n }
{
    let mut line = [0; 1202];
    line[..301 - newest].copy_from_slice(&ring[newest + 1..]);
    line[301 - newest..302].copy_from_slice(&ring[..newest + 1]);
    line[302..302 + n].copy_from_slice(&setpoints[..n]);
    line
}

// The ring that holds the last 302 setpoints of a line.
pub(crate) fn ringed(line: [i32; 1202], n: usize, newest: usize) -> [i32; 302]
    requires { (n ≤ 900) × (newest < 302) }
    ensures { (length result ≡ 302) × Fills (ring_at line n newest) 0 302 result }
{
    let mut ring = [0; 302];
    ring[..newest + 1].copy_from_slice(&line[301 + n - newest..302 + n]);
    ring[newest + 1..].copy_from_slice(&line[n..301 + n - newest]);
    ring
}
