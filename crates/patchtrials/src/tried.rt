use anyhow::anyhow;
use points::parameter::Parameter;

// What a line asks: the patch's degrees and allowance, where to cut it, where to take a point of the cut, a tolerance, and the places of the buffer.
#[derive(Clone, Copy)]
pub struct Tried {
    pub m: usize,
    pub n: usize,
    pub allowance: u16,
    pub s: Parameter,
    pub t: Parameter,
    pub tolerance: u16,
    pub places: usize,
}

// The numbers of a line, and the axis values after them.
pub fn tried_of(numbers: &[i32]) -> anyhow::Result<(Tried, &[i32])> {
    let [
        m,
        n,
        allowance,
        sa,
        sk,
        ta,
        tk,
        tolerance,
        places,
        values @ ..,
    ] = numbers
    else {
        return Err(anyhow!("a line of too few words"));
    };
    let tried = Tried {
        m: usize::try_from(*m)?,
        n: usize::try_from(*n)?,
        allowance: u16::try_from(*allowance)?,
        s: Parameter {
            a: u16::try_from(*sa)?,
            k: u8::try_from(*sk)?,
        },
        t: Parameter {
            a: u16::try_from(*ta)?,
            k: u8::try_from(*tk)?,
        },
        tolerance: u16::try_from(*tolerance)?,
        places: usize::try_from(*places)?,
    };
    Ok((tried, values))
}
