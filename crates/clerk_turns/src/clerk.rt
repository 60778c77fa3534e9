// A clerk: the commands that are under way, and what houses are asked for them.
ghost use Rattle.std.specs.Prelude.{◌≡◌, [], None, IfNone, IfSome, is_some};
ghost use Rattle.clerk_turns.specs.Clerks.{IsJobTaken, IsQuestionTaken, TakesJob, TakesQuestion, job_place, question_place, waits_for};

use crate::command::Command;
use cds_clerk::{Heard, Lack};
use cds_stamps::{DirId, HouseNo};
use cell_names::ChildPointer;
use clerk_lines::{Hearing, RootList};
use directory::Update;
use std::alloc::Global;

/// A command that is under way: its number, what was heard for it, the latest list of the root
/// directory that was heard, and the lines of its plan.
#[derive(Drop)]
pub struct Job {
    pub number: u64,
    pub command: Command,
    pub heard: Heard,
    pub latest: Option<RootList>,
    pub sending: Sending,
}

/// The lines of a plan: how many were done, the updates, and the directory; how often it was worked
/// out; and whether a line was sent of which nobody knows whether it was done.
#[derive(Drop)]
pub struct Sending {
    pub done: usize,
    pub list: Vec<Update>,
    pub dir: DirId,
    pub tries: u64,
    pub doubt: bool,
}

/// What a house is asked.
#[derive(Drop)]
pub enum Topic {
    /// Where the root directory is. Of the houses that a clerk asks this, so many come before this
    /// one.
    Root(usize),
    /// What shows of a name, and what was heard of the answer.
    Show(Lack, Hearing),
    /// To make an update: the first line of a plan that is not done.
    Step(HouseNo),
}

/// A question that is under way: its number, that of its command, and what is asked.
#[derive(Drop)]
pub struct Question {
    pub number: u64,
    pub job: u64,
    pub topic: Topic,
}

/// A clerk: the house that is near, the houses that it asks where the root directory is, where that
/// was for the last command, the number of its last question, the commands that are under way, and
/// their questions.
#[derive(Drop)]
pub struct Clerk {
    pub near: HouseNo,
    pub houses: Vec<HouseNo>,
    pub root: Option<ChildPointer>,
    pub asked: u64,
    pub jobs: Vec<Job>,
    pub questions: Vec<Question>,
}

impl Clerk {
    /// A clerk that has no command. It asks these houses where the root directory is, in this
    /// order. Takes no memory.
    pub fn new(alloc: Global, near: HouseNo, houses: Vec<HouseNo>) -> Clerk
        ensures near { result.near ≡ near }
        ensures houses { result.houses ≡ houses }
        ensures root { result.root ≡ None }
        ensures asked { result.asked ≡ 0 }
        ensures jobs { result.jobs.items ≡ [] }
        ensures questions { result.questions.items ≡ [] }
    {
        Clerk {
            near,
            houses,
            root: None,
            asked: 0,
            jobs: Vec::new(alloc),
            questions: Vec::new(alloc),
        }
    }
}

// Where the first question of this number is.
fn place_of_question(questions: &[Question], number: u64) -> Option<usize>
    ensures { result ≡ question_place number questions.now }
{
    questions
        .iter()
        .position(|question| question.number == number)
}

// Takes the first question of this number out.
fn take_question(questions: &mut Vec<Question>, number: u64) -> Option<Question>
    ensures some { IfSome result
        (λ q. IsQuestionTaken number questions.old.items q questions.new.items) }
    ensures none { IfNone result (question_place number questions.old.items ≡ None) }
    ensures stays { IfNone result (questions.new ≡ questions.old) }
{
    match place_of_question(questions, number) {
        Some(place) => Some(questions.remove(place)),
        None => None,
    }
}

// Where the first command of this number is.
fn place_of_job(jobs: &[Job], number: u64) -> Option<usize>
    ensures { result ≡ job_place number jobs.now }
{
    jobs.iter().position(|job| job.number == number)
}

// Takes the first command of this number out.
fn take_job(jobs: &mut Vec<Job>, number: u64) -> Option<Job>
    ensures some { IfSome result (λ j. IsJobTaken number jobs.old.items j jobs.new.items) }
    ensures none { IfNone result (job_place number jobs.old.items ≡ None) }
    ensures stays { IfNone result (jobs.new ≡ jobs.old) }
{
    match place_of_job(jobs, number) {
        Some(place) => Some(jobs.remove(place)),
        None => None,
    }
}

impl Clerk {
    /// Takes the first question of this number out.
    pub(crate) fn take_question(&mut self, number: u64) -> Option<Question>
        ensures some { IfSome result (λ q. TakesQuestion number self.old q self.new) }
        ensures none { IfNone result (question_place number self.old.questions.items ≡ None) }
        ensures stays { IfNone result (self.new ≡ self.old) }
    {
        take_question(&mut self.questions, number)
    }

    /// Takes the first command of this number out.
    pub(crate) fn take_job(&mut self, number: u64) -> Option<Job>
        ensures some { IfSome result (λ j. TakesJob number self.old j self.new) }
        ensures none { IfNone result (job_place number self.old.jobs.items ≡ None) }
        ensures stays { IfNone result (self.new ≡ self.old) }
    {
        take_job(&mut self.jobs, number)
    }

    /// Whether a command of this number is under way.
    pub(crate) fn has_job(&self, number: u64) -> bool
        ensures { result ≡ is_some (job_place number self.now.jobs.items) }
    {
        place_of_job(&self.jobs, number).is_some()
    }
}

/// Whether a question waits that is asked for this command.
pub(crate) fn waits_for(questions: &[Question], job: u64) -> bool
    ensures { result ≡ waits_for job questions.now }
{
    for question in questions {
        if question.job == job {
            return true;
        }
    }
    false
}
