//! The table of jobs.
ghost use Rattle.std.specs.Prelude.{◌≡◌, ◌<◌, ℕ, Option, None, [], get_or, slice_set, length, IfSome};
ghost use Rattle.std.specs.List.{position};
ghost use Rattle.std.specs.Option.{is_some, is_none};
ghost use Rattle.volume_jobs.specs.Jobs as plain;
ghost use Rattle.os8_files.specs.Mounted.{MountState};
ghost use Rattle.volume_jobs.specs.Steps.{without_job, without_jobs};
ghost use Rattle.volume_jobs.specs.Settled as settled;
ghost use Rattle.volume_jobs.specs.declared.kinds.Job as job;
ghost use Rattle.volume_jobs.specs.Settled.{IsSettled};

use crate::{Job, Work};
use os8_files::FileService;
use os8_files::laws::counted_holds;
use std::marker::Model;
use std::mem;
use volume_image::BlockStore;

/// How many jobs there are at most.
const JOBS: usize = 8;

/// The jobs of a session, each at the place of its number: job 1 stands first. They must be ended by [`Jobs::end`], over the
/// files that they hold. A contract sees the jobs with what they keep; `plain_jobs` is what they are without it.
pub struct Jobs {
    places: [Option<Job>; JOBS],
}

impl Model for Jobs {
    ghost use Rattle.std.specs.Coded.{codes};
    ghost use Rattle.pal_sym.specs.SymbolTable.{table_code};
    ghost use Rattle.std.specs.Prelude.{List, Option};
    ghost use Rattle.volume_jobs.specs.declared.kinds.Job as job;

    ghost Value = { List (Option job.Job) };

    ghost view = { λ jobs. jobs.places };

    ghost coded = { Prim.hlevel (codes, table_code) };
}

impl Jobs {
    /// No job.
    pub fn new() -> Jobs
        ensures none { settled.plain_jobs result ≡ plain.no_jobs }
        ensures settled { (volume : MountState) → volume.tentative ≡ None → volume.holds ≡ []
            → IsSettled volume result }
    {
        Jobs {
            places: [None, None, None, None, None, None, None, None],
        }
    }

    /// The lowest place that has no job.
    pub(crate) fn free_place(&self) -> Option<usize>
        ensures place { result ≡ position is_none self.now }
        ensures range { IfSome result (λ place. place < 8) }
    {
        self.places.iter().position(|job| job.is_none())
    }

    /// The lowest place that has a job.
    pub(crate) fn lowest_place(&self) -> Option<usize>
        ensures place { result ≡ position is_some self.now }
        ensures range { IfSome result (λ place. place < 8) }
    {
        self.places.iter().position(|job| job.is_some())
    }

    /// Takes the job at a place out.
    pub(crate) fn take(&mut self, place: usize) -> Option<Job>
        requires { place < length self.old }
        ensures job { result ≡ get_or self.old place None }
        ensures rest { self.new ≡ slice_set self.old place None }
    {
        take_at(&mut self.places, place)
    }

    /// Puts a job, or none, at a place that has none.
    pub(crate) fn put(&mut self, place: usize, job: Option<Job>)
        requires place { place < length self.old }
        requires free { get_or self.old place None ≡ None }
        ensures { self.new ≡ slice_set self.old place job }
    {
        put_at(&mut self.places, place, job);
    }

    /// Ends all jobs: no file is held any longer.
    pub fn end<S: BlockStore>(self, files: &mut FileService<S>)
        requires { IsSettled files.old self }
        ensures { files.new ≡ record files.old { holds = [] } }
    {
        counted_holds();
        let Jobs { places } = self;
        end_all(files, places);
    }

    /// Notes that another entry has changed the directory: no squeezing job is clean from now on.
    pub fn disturb(&mut self)
        ensures { self.new ≡ settled.with_disturbance self.old }
    {
        disturb_all(&mut self.places);
    }
}

fn take_at(places: &mut [Option<Job>], place: usize) -> Option<Job>
    requires { place < length places.old }
    ensures job { result ≡ get_or places.old place None }
    ensures rest { places.new ≡ slice_set places.old place None }
{
    places[place].take()
}

fn disturb_all(places: &mut [Option<Job>])
    ensures { places.new ≡ settled.with_disturbance places.old }
{
    for place in 0..places.len() {
        disturb_at(places, place);
    }
}

fn disturb_at(places: &mut [Option<Job>], place: usize)
    requires { place < length places.old }
    ensures { places.new ≡ slice_set places.old place (settled.disturbed_job (get_or places.old place None)) }
{
    let job = take_at(places, place);
    put_at(places, place, disturbed_job(job));
}

fn disturbed_job(job: Option<Job>) -> Option<Job>
    ensures { result ≡ settled.disturbed_job job }
{
    match job {
        None => None,
        Some(job) => {
            let Job { work, turns: left } = job;
            match work {
                Work::Squeezing { clean: _ } => Some(Job {
                    work: Work::Squeezing { clean: false },
                    turns: left,
                }),
                Work::Assembling(assembly) => Some(Job {
                    work: Work::Assembling(assembly),
                    turns: left,
                }),
                Work::Loading(loading) => Some(Job {
                    work: Work::Loading(loading),
                    turns: left,
                }),
            }
        }
    }
}

fn put_at(places: &mut [Option<Job>], place: usize, job: Option<Job>)
    requires place { place < length places.old }
    requires free { get_or places.old place None ≡ None }
    ensures { places.new ≡ slice_set places.old place job }
{
    match mem::replace(&mut places[place], job) {
        None => {}
        Some(_job) => unreachable!(),
    }
}

fn end_all<S: BlockStore>(files: &mut FileService<S>, places: [Option<Job>; JOBS])
    requires { length places ≡ 8 }
    ensures { files.new ≡ record files.old { holds = without_jobs places files.old.holds } }
{
    let mut places = places;
    let_all_go(files, &mut places);
    let [first, second, third, fourth, fifth, sixth, seventh, eighth] = places;
    let_none_go(first);
    let_none_go(second);
    let_none_go(third);
    let_none_go(fourth);
    let_none_go(fifth);
    let_none_go(sixth);
    let_none_go(seventh);
    let_none_go(eighth);
}

fn let_none_go(job: Option<Job>)
    requires { job ≡ None }
{
    match job {
        None => {}
        Some(_job) => unreachable!(),
    }
}

fn let_all_go<S: BlockStore>(files: &mut FileService<S>, places: &mut [Option<Job>])
    ensures files { files.new ≡ record files.old { holds = without_jobs places.old files.old.holds } }
    ensures none { (place : ℕ) (job : Option job.Job) → place < length places.old
        → get_or places.new place job ≡ None }
{
    for place in 0..places.len() {
        let job = take_at(places, place);
        let_go(files, job);
    }
}

/// Ends a job: its files are held once less.
fn let_go<S: BlockStore>(files: &mut FileService<S>, job: Option<Job>)
    ensures { files.new ≡ record files.old { holds = without_job job files.old.holds } }
{
    match job {
        None => {}
        Some(job) => {
            let Job { work, turns: _ } = job;
            match work {
                Work::Assembling(assembly) => assembly.let_go(files),
                Work::Loading(loading) => loading.let_go(files),
                Work::Squeezing { clean: _ } => {}
            }
        }
    }
}
