ghost use Rattle.workings.specs.declared.working.Working.TheVariants.{Left, Right, Raise, Turn};
ghost use Rattle.strands.specs.States.{state, Step};
ghost use Rattle.strands.specs.Histories.{Continues};

use crate::strand::Strand;
use points::fault::Fault;
use points::kind::Kind;
use points::parameter::Parameter;
use workings::survey::Survey;
use workings::working::Working;

impl Strand {
    // Reworks the polygon. It refuses 1, 3, 4, then 2, and a refused working leaves strand and buffer as found.
    pub fn work<K: Kind>(&mut self, working: Working, buffer: &mut [K]) -> Result<(), Fault>
        ensures step { Step K.coord working (state self.old buffer.old) (state self.new buffer.new) result }
        ensures continues { Continues K.coord working (state self.old buffer.old) (state self.new buffer.new) result }
    {
        let below = Survey {
            degree: self.degree,
            allowance: self.allowance,
            reach: self.degree + 1,
        };
        let above = working.after(below)?;
        working.apply(buffer, self.degree)?;
        self.degree = above.degree;
        self.allowance = above.allowance;
        Ok(())
    }

    // The four workings have a call by name each, as the rules have them, and one body, `work`.
    // The left part at t, charged with the degree.
    pub fn left<K: Kind>(&mut self, t: Parameter, buffer: &mut [K]) -> Result<(), Fault>
        ensures step { Step K.coord (Left t) (state self.old buffer.old) (state self.new buffer.new) result }
        ensures continues { Continues K.coord (Left t) (state self.old buffer.old) (state self.new buffer.new) result }
    {
        self.work(Working::Left(t), buffer)
    }

    // The right part at t, charged with the degree.
    pub fn right<K: Kind>(&mut self, t: Parameter, buffer: &mut [K]) -> Result<(), Fault>
        ensures step { Step K.coord (Right t) (state self.old buffer.old) (state self.new buffer.new) result }
        ensures continues { Continues K.coord (Right t) (state self.old buffer.old) (state self.new buffer.new) result }
    {
        self.work(Working::Right(t), buffer)
    }

    // One degree more, charged with 1.
    pub fn raise<K: Kind>(&mut self, buffer: &mut [K]) -> Result<(), Fault>
        ensures step { Step K.coord Raise (state self.old buffer.old) (state self.new buffer.new) result }
        ensures continues { Continues K.coord Raise (state self.old buffer.old) (state self.new buffer.new) result }
    {
        self.work(Working::Raise, buffer)
    }

    // The points in the other order, without a charge.
    pub fn turn<K: Kind>(&mut self, buffer: &mut [K]) -> Result<(), Fault>
        ensures step { Step K.coord Turn (state self.old buffer.old) (state self.new buffer.new) result }
        ensures continues { Continues K.coord Turn (state self.old buffer.old) (state self.new buffer.new) result }
    {
        self.work(Working::Turn, buffer)
    }
}
