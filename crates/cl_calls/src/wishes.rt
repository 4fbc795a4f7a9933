//! Tests of job tables from wishes, and of how many executions are counted for them.
ghost use Rattle.std.specs.Prelude.{◌≤◌};
ghost use Rattle.cl_model.specs.Ranges.{IsInRange};

use cl_gen::{MOST_RUN_TICKS, Wishes, count_executions, wished_table};
use cl_model::{SystemModel, ValidModel};
use cl_read::read_model;
use cl_runs::{Job, JobTable};
use cl_time::NoMemory;
use cl_valid::validate;
use std::alloc::Global;
use std::test::Fail;

/// A task of each kind of stimulus, of which the sporadic one is alone on its core.
const MODEL: &str = r#"format = "chainlat"
version = 2
core = [{ name = "c0" }, { name = "c1" }]

[[stimulus]]
name = "p"
kind = "periodic"
period = 20
offset = 5
jitter = 2

[[stimulus]]
name = "s"
kind = "sporadic"
least = 5
greatest = 8

[[stimulus]]
name = "b"
kind = "burst"
period = 20
count = 2
distance = 5

[[task]]
name = "P"
core = "c0"
stimulus = "p"
priority = 2
access = "implicit"

[[task.runnable]]
name = "p1"
least = 2
greatest = 3

[[task.runnable]]
name = "p2"
least = 4
greatest = 6

[[task]]
name = "S"
core = "c1"
stimulus = "s"
priority = 1
access = "implicit"
runnable = [{ name = "s1", least = 1, greatest = 4 }]

[[task]]
name = "B"
core = "c0"
stimulus = "b"
priority = 1
access = "implicit"
runnable = [{ name = "b1", least = 1, greatest = 1 }]
"#;

/// Wishes the same number of all.
#[derive(Drop)]
struct Always {
    wish: u64,
}

impl Wishes for Always {
    fn arrival(&mut self, _task: u32, _low: u64, _high: u64) -> u64 {
        self.wish
    }

    fn release(&mut self, _task: u32, _arrival: u64) -> u64 {
        self.wish
    }

    fn time(&mut self, _task: u32, _arrival: u64, _place: u32) -> u64 {
        self.wish
    }
}

fn valid(alloc: Global, model: SystemModel) -> Result<ValidModel, Fail>
    requires { IsInRange model }
{
    match validate(alloc, model) {
        Ok(model) => Ok(model),
        Err((refused, _)) => {
            drop(refused);
            Err(Fail::from("a valid model"))
        }
    }
}

fn read(alloc: Global) -> Result<ValidModel, Fail> {
    match read_model(alloc, MODEL.as_bytes()) {
        Ok(model) => valid(alloc, model),
        Err(_) => Err(Fail::from("a model")),
    }
}

/// Puts the arrival, the release and the times of a job.
fn put_job(text: &mut String, alloc: Global, job: &Job) -> Result<(), NoMemory> {
    let (arrival, release, times) = (job.arrival, job.release, job.times.as_slice());
    Ok(text.push_str(&format!(in alloc; "{arrival} {release} {times:?}; ")?)?)
}

fn put_jobs(text: &mut String, alloc: Global, jobs: &[Job]) -> Result<(), NoMemory> {
    for job in jobs {
        put_job(text, alloc, job)?;
    }
    Ok(text.push_str("\n")?)
}

/// Writes the jobs of each task, a line each.
fn spelled(alloc: Global, table: &JobTable) -> Result<String, NoMemory> {
    let mut text = format!(in alloc; "{} ticks\n", table.ticks)?;
    for jobs in table.jobs.as_slice() {
        put_jobs(&mut text, alloc, jobs.as_slice())?;
    }
    Ok(text)
}

/// Writes the table of 26 ticks of a model in which all is wished to be the same number.
fn wished_of(
    alloc: Global,
    model: &ValidModel,
    cores: &[bool],
    wish: u64,
) -> Result<String, NoMemory> {
    let table = wished_table(alloc, model, 26, cores, &mut Always { wish })?;
    let text = spelled(alloc, &table);
    drop(table);
    text
}

/// Writes the same of the model above. What is large is dropped by a call, since a proof that drops
/// it at an exit is dear.
fn wished(alloc: Global, cores: &[bool], wish: u64) -> Result<String, Fail> {
    let model = read(alloc)?;
    let text = wished_of(alloc, &model, cores, wish);
    drop(model);
    Ok(text?)
}

/// Counts the executions of the model in `ticks` ticks.
fn counted(alloc: Global, cores: &[bool], ticks: u64) -> Result<u64, Fail>
    requires { ticks ≤ MOST_RUN_TICKS }
{
    let model = read(alloc)?;
    let count = count_executions(&model, ticks, cores);
    drop(model);
    Ok(count)
}

#[test]
fn clamps_to_the_least(rt: HostRuntime) -> Result<(), Fail> {
    let text = wished(rt.alloc(), &[true, true], 0)?;
    let wanted = "26 ticks\n\
        5 5 [2, 4]; 25 25 [2, 4]; \n\
        0 0 [1]; 5 5 [1]; 10 10 [1]; 15 15 [1]; 20 20 [1]; 25 25 [1]; \n\
        0 0 [1]; 5 5 [1]; 20 20 [1]; 25 25 [1]; \n";
    assert_eq!(rt; text.as_str(), wanted);
    Ok(())
}

#[test]
fn clamps_to_the_greatest(rt: HostRuntime) -> Result<(), Fail> {
    let text = wished(rt.alloc(), &[true, true], u64::MAX)?;
    let wanted = "26 ticks\n\
        5 7 [3, 6]; 25 27 [3, 6]; \n\
        7 7 [4]; 15 15 [4]; 23 23 [4]; \n\
        0 0 [1]; 5 5 [1]; 20 20 [1]; 25 25 [1]; \n";
    assert_eq!(rt; text.as_str(), wanted);
    Ok(())
}

/// The first sporadic job arrives as is wished, and each further one as early as it may.
#[test]
fn meets_lawful_wishes_on_one_core(rt: HostRuntime) -> Result<(), Fail> {
    let text = wished(rt.alloc(), &[false, true], 6)?;
    let wanted = "26 ticks\n\n6 6 [4]; 11 11 [4]; 16 16 [4]; 21 21 [4]; \n\n";
    assert_eq!(rt; text.as_str(), wanted);
    Ok(())
}

#[test]
fn counts_the_executions_of_some_cores(rt: HostRuntime) -> Result<(), Fail> {
    let alloc = rt.alloc();
    assert_eq!(rt; counted(alloc, &[true, true], 26)?, 14);
    assert_eq!(rt; counted(alloc, &[true, false], 26)?, 8);
    assert_eq!(rt; counted(alloc, &[false, true], 26)?, 6);
    assert_eq!(rt; counted(alloc, &[], 26)?, 0);
    Ok(())
}
