// Why a line of a job is refused, whole as the layer below said it.
ghost use Rattle.std.specs.Prelude.{◌≡◌};
ghost use Rattle.job.specs.declared.fault.JobFault.TheVariants.{Line, Planner};
ghost use Rattle.job.specs.Faults.{job_field, job_layer, job_number};

use command::FieldFault;
use faults::{Fault, Layer};
use planner::PlannerFault;

#[derive(Clone, Copy)]
pub(crate) enum JobFault {
    // of the line itself, in a field
    Line(FieldFault),
    // of what the line asked the planner for, in no field
    Planner(PlannerFault),
}

impl JobFault {
    pub(crate) fn field(self) -> u32
        ensures { result ≡ job_field self }
    {
        match self {
            JobFault::Line(found) => found.field,
            JobFault::Planner(_) => 0,
        }
    }
}

impl Fault for JobFault {
    ghost layers = { job_layer };

    ghost numbers = { job_number };

    fn layer(self) -> Layer {
        match self {
            JobFault::Line(found) => found.fault.layer(),
            JobFault::Planner(fault) => fault.layer(),
        }
    }

    fn number(self) -> u32 {
        match self {
            JobFault::Line(found) => found.fault.number(),
            JobFault::Planner(fault) => fault.number(),
        }
    }
}

impl From<FieldFault> for JobFault {
    ghost from_gives = { λ found r. r ≡ Line found };

    fn from(found: FieldFault) -> JobFault {
        JobFault::Line(found)
    }
}

impl From<PlannerFault> for JobFault {
    ghost from_gives = { λ fault r. r ≡ Planner fault };

    fn from(fault: PlannerFault) -> JobFault {
        JobFault::Planner(fault)
    }
}
