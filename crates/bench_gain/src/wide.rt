// Cores to measure with.
ghost use Rattle.std.specs.Prelude.{◌<◌, ◌≤◌};

use rules::term::{Rule, WIDTH};

// A core and a price over its literals.
#[derive(Clone, Copy)]
pub struct Wide {
    pub core: Rule,
    pub weights: [i32; 80],
}

impl Wide {
    // A core of so many literals, at most eighty, with coefficients up to a million, half of which reach the degree, and
    // weights that differ from one another.
    pub fn of(literals: usize) -> Wide {
        let mut coefficients = [0; WIDTH];
        let mut weights = [0; WIDTH];
        let mut sum = 0;
        // One pass by numbers: it fills two rows, and adds up the coefficients for the degree.
        for i in 0..WIDTH {
            if i < literals {
                let size = spread(i, 613_579, 1_000_000);
                coefficients[i] = size as i32;
                weights[i] = spread(i, 37, 83) as i32;
                sum += size;
            }
        }
        Wide {
            core: Rule {
                coefficients,
                degree: sum / 2,
            },
            weights,
        }
    }
}

// One of the numbers from 1 to `most`.
fn spread(i: usize, step: u32, most: u32) -> u32
    requires few { i < 80 }
    requires some { 0 < most }
    requires small { most ≤ 1000000 }
    ensures { result ≤ most }
{
    (i as u32).wrapping_mul(step) % most + 1
}
