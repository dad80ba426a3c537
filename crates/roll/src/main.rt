// Makes a sheet of forty strips on a flat disk, each begun from the origin that was read back for it, and says which
// strips may be called safe: once on a disk without faults, and once on one whose plan has three.
#![tactic(auto)]

mod counted;
mod job;
mod open_sheet;
mod refused;
mod sheet;
mod verdicts;

use counted::Counted;
use faults::Fault;
use flat::FlatDisk;
use job::{Grid, Job};
use keys::Key;
use open_sheet::EINTR;
use refused::Refused;
use std::alloc::{AllocError, Global};
use std::{fmt, io};

type Disk = Counted<FlatDisk>;

// What is said of a sheet that was made and read back. The job is lent: its disk is too large to be moved for that.
#[derive(Clone, Copy)]
struct Account<'j> {
    job: &'j Job<Disk>,
    grid: Grid,
}

impl<'j> fmt::Display for Account<'j> {
    fn fmt<W: fmt::Write>(&self, f: &mut fmt::Formatter<W>) -> fmt::Result {
        let job = self.job;
        writeln!(f, "{}\n{}\n{}", job.verdicts, job.disk.asked(), job.met)?;
        write!(f, "last origin {}\n{}", job.origin, self.grid)
    }
}

// One sheet on the job's disk.
fn roll(job: &mut Job<Disk>) -> Result<Grid, Fault> {
    let key = Key::new(b"roll", b"sheet-1")?;
    job.make(&key)?;
    job.check(&key)
}

// One sheet on a disk with this plan.
fn show(rt: &impl Print, plan: Vec<u16>) -> io::Result<()> {
    let mut job = Job::new(Counted::new(FlatDisk::new(plan)));
    match roll(&mut job) {
        Ok(grid) => println!(rt; "{}", Account { job: &job, grid }),
        // What stops a roll before it has a sheet.
        Err(fault) => println!(rt; "{}", Refused(fault)),
    }
}

// A job asks so much before its first strip, and so much for each: two writes, a barrier's start and end, and a read.
const BEFORE_STRIPS: usize = 5;

const PER_STRIP: usize = 5;

// Where the barrier's end stands among what a strip asks.
const BARRIER_END: usize = 3;

// Longer than what is asked up to the last planned fault.
const PLANNED: usize = 60;

// An entry of LANDS + n is a write that lands n bytes.
const LANDS: u16 = 4096;

// Input or output failed.
const EIO: u16 = 5;

// The strip 2 meets a short write, the strip 5 an interrupted one, the strip 8 a failed barrier. A short or an interrupted
// write takes one request more, so that what comes after is moved by 1, and then by 2.
fn three_faults(alloc: Global) -> Result<Vec<u16>, AllocError> {
    let mut plan = vec![in alloc; 0u16; PLANNED]?;
    plan[BEFORE_STRIPS + 2 * PER_STRIP] = LANDS + 20;
    plan[BEFORE_STRIPS + 5 * PER_STRIP + 1] = EINTR;
    plan[BEFORE_STRIPS + 8 * PER_STRIP + 2 + BARRIER_END] = EIO;
    Ok(plan)
}

fn main(rt: HostRuntime) -> io::Result<()> {
    println!(rt; "a sheet on a disk without faults")?;
    show(&rt, vec![in rt.alloc()]?)?;
    println!(rt; "a sheet on a disk with three planned faults")?;
    show(&rt, three_faults(rt.alloc())?)
}
