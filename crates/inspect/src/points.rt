// A design size in points, as TeX's own tools print it.
use std::fmt;

// A number of points in units of 2^-20.
#[derive(Clone, Copy)]
pub struct Points(pub u32);

const UNIT: u32 = 1_048_576;

// The fewest digits after the point, at least one, that tell the number from its neighbours. `rest` is ten times what
// is left to print, and `slack` how far a number may be off and still be nearest to this one.
impl fmt::Display for Points {
    fn fmt<W: fmt::Write>(&self, f: &mut fmt::Formatter<W>) -> fmt::Result {
        let whole = self.0 / UNIT;
        write!(f, "{whole}.")?;
        let mut rest = 10 * (self.0 % UNIT) + 5;
        let mut slack = 10u32;
        for _ in 0..MAX_DIGITS {
            if slack > UNIT {
                rest = rest.saturating_add(UNIT / 2).saturating_sub(slack / 2);
            }
            let digit = rest / UNIT;
            write!(f, "{digit}")?;
            rest = 10 * (rest % UNIT);
            slack = slack.saturating_mul(10);
            if rest <= slack {
                break;
            }
        }
        Ok(())
    }
}

// After seven digits the slack is larger than any rest.
const MAX_DIGITS: u32 = 7;
