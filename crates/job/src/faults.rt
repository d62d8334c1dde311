ghost use Rattle.std.specs.Prelude.{◌≡◌};
ghost use Rattle.job.specs.Faults.{fault_of};
ghost use Rattle.job.specs.declared.faults.JobFault.TheVariants.{Draft, Output, Page, Table, Tray};

use draft::faults::DraftFault;
use fault::Fault;
use fault::refusal::Refusal;
use output::faults::OutputFault;
use page::faults::PageFault;
use table::faults::TableFault;
use tray::faults::TrayFault;

// Why a job is refused.
#[derive(Clone, Copy, PartialEq, Eq, Debug)]
pub enum JobFault {
    // The output has not the bytes that a fault line may take.
    SmallOutput,
    // The table text is refused.
    Table(TableFault),
    // What is to be written does not fit the output.
    Output(OutputFault),
    // A tray has not the places for its entries.
    Tray(TrayFault),
    // A page does not take a head or a line.
    Page(PageFault),
    // The tray of rules has not the places for the base.
    Draft(DraftFault),
}

impl Refusal for JobFault {
    ghost tells = { fault_of };

    // What the refusal tells; that of another layer is passed up whole.
    fn fault(&self) -> Fault {
        match *self {
            JobFault::SmallOutput => Fault::textless(b'J', 71),
            JobFault::Table(inner) => inner.fault(),
            JobFault::Output(inner) => inner.fault(),
            JobFault::Tray(inner) => inner.fault(),
            JobFault::Page(inner) => inner.fault(),
            JobFault::Draft(inner) => inner.fault(),
        }
    }
}

// Each `From` is by hand: a derived one would have no contract, and clauses name the refusal.
impl From<TableFault> for JobFault {
    ghost from_gives = { λ e r. r ≡ Table e };

    fn from(inner: TableFault) -> JobFault {
        JobFault::Table(inner)
    }
}

impl From<OutputFault> for JobFault {
    ghost from_gives = { λ e r. r ≡ Output e };

    fn from(inner: OutputFault) -> JobFault {
        JobFault::Output(inner)
    }
}

impl From<TrayFault> for JobFault {
    ghost from_gives = { λ e r. r ≡ Tray e };

    fn from(inner: TrayFault) -> JobFault {
        JobFault::Tray(inner)
    }
}

impl From<PageFault> for JobFault {
    ghost from_gives = { λ e r. r ≡ Page e };

    fn from(inner: PageFault) -> JobFault {
        JobFault::Page(inner)
    }
}

impl From<DraftFault> for JobFault {
    ghost from_gives = { λ e r. r ≡ Draft e };

    fn from(inner: DraftFault) -> JobFault {
        JobFault::Draft(inner)
    }
}
