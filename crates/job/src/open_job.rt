// An open job: the planner that its lines ask.
ghost use Rattle.std.specs.Prelude.{◌≡◌, [], length};
ghost use Rattle.command.specs.declared.commands.Command.TheVariants.{Add, TakeBack, Plan, Fewest};
ghost use Rattle.job.specs.Faults.{said_by};
ghost use Rattle.job.specs.Steps.{Asks, Done, Stepped};

use crate::fault::JobFault;
use crate::kind::JobKind;
use crate::reply::{PlanGrades, Reply};
use arrayvec::ArrayVec;
use command::{Command, read_command};
use offers::{Change, Either, Extra, GainBlock, OwnBlock, Weight};
use planner::Planner;
use std::marker::Model;
use terms::Terms;
use trellis::Place;

#[derive(Drop)]
pub(crate) struct OpenJob<'a, K: JobKind> {
    planner: Planner<'a, K>,
}

impl<'a, K: JobKind> Model for OpenJob<'a, K> {
    ghost use Rattle.std.specs.Prelude.{length};
    ghost use Rattle.planner.specs.Standing.{standing_blocks};
    ghost use Rattle.job.specs.Steps.{Job};

    ghost Value = { Job };

    ghost view = { λ job. record { terms = job.planner.tables.terms; lent = length job.planner.places.now; blocks = standing_blocks job.planner.tables } };
}

impl<'a, K: JobKind> OpenJob<'a, K> {
    // A job with no block, planned in the places.
    pub(crate) fn open(terms: Terms, places: &'a mut [Place<K>]) -> Self
        ensures terms { result.terms ≡ terms }
        ensures lent { result.lent ≡ length places.old }
        ensures none { result.blocks ≡ [] }
    {
        OpenJob {
            planner: Planner::open(terms, places),
        }
    }

    // Answers one line.
    pub(crate) fn respond(&mut self, line: &[u8]) -> Result<Reply, JobFault>
        ensures { Stepped K.kind self.old self.new line.now (said_by result) }
    {
        if line.is_empty() {
            return Ok(Reply::Nothing);
        }
        let terms = self.planner.terms();
        let command = read_command(line, Some(&terms))?;
        self.obey(command)
    }

    // Carries a command to an open job out.
    fn obey(&mut self, command: Command) -> Result<Reply, JobFault>
        requires { Asks command }
        ensures { Done K.kind self.old self.new command (said_by result) }
    {
        match command {
            Command::Open { .. } => unreachable(),
            Command::Add {
                weight,
                extra,
                block,
            } => self.add(weight, extra, block),
            Command::TakeBack => self.take_back(),
            Command::Plan(budget) => self.plan(budget),
            Command::Fewest(bound) => self.fewest(bound),
        }
    }

    // Adds the block of a line, under its extra bits and the weight above those.
    fn add(
        &mut self,
        weight: Weight,
        extra: Extra,
        block: Either<OwnBlock, GainBlock>,
    ) -> Result<Reply, JobFault>
        ensures { Done K.kind self.old self.new (Add weight extra block) (said_by result) }
    {
        self.planner.add(&weight.over(extra.over(block)))?;
        Ok(Reply::Nothing)
    }

    fn take_back(&mut self) -> Result<Reply, JobFault>
        ensures { Done K.kind self.old self.new TakeBack (said_by result) }
    {
        self.planner.take_back()?;
        Ok(Reply::Nothing)
    }

    fn plan(&self, budget: u32) -> Result<Reply, JobFault>
        ensures { Done K.kind self.now self.now (Plan budget) (said_by result) }
    {
        let mut list = ArrayVec::from([0; 64]);
        list.truncate(self.planner.standing());
        let (bits, cost) = self.planner.plan(budget, &mut list)?;
        Ok(Reply::Plan {
            budget,
            bits,
            cost: cost.number(),
            grades: PlanGrades { list },
        })
    }

    fn fewest(&self, bound: u32) -> Result<Reply, JobFault>
        ensures { Done K.kind self.now self.now (Fewest bound) (said_by result) }
    {
        let bits = self.planner.fewest(K::of(bound))?;
        Ok(Reply::Bits { bound, bits })
    }
}
