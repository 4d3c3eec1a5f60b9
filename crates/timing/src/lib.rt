// How long a work takes that is done again and again.
#![tactic(auto)]

ghost use Rattle.std.specs.Prelude.{◌<◌, ◌≤◌, IfOk};
ghost use Rattle.std.specs.Duration.{as_nanos};

use std::io;
use std::time::{Clock, Duration, Instant};

// The shortest time of all tries, which says most on a machine that does other work too, and the average.
#[derive(Clone, Copy)]
pub struct Times {
    pub shortest: Duration,
    pub average: Duration,
}

// Does a work so many times. A try that takes longer than a second counts as one of a second among the shortest.
pub fn timed<F: FnMut()>(clock: &impl Clock, tries: u32, mut work: F) -> io::Result<Times>
    requires some { 0 < tries }
    requires callable { F.IsAlwaysCallable work }
    ensures { IfOk result (λ t. as_nanos t.shortest ≤ 1000000000) }
{
    let begin = Instant::now(clock)?;
    let mut shortest = Duration::from_secs(1);
    for _ in 0..tries {
        let start = Instant::now(clock)?;
        work();
        shortest = shortest.min(start.elapsed(clock)?);
    }
    Ok(Times {
        shortest,
        average: begin.elapsed(clock)? / tries,
    })
}
