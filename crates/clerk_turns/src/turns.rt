// What a clerk makes of each line that it reads.
ghost use Rattle.std.specs.Prelude.{◌≡◌, true, [], None, IfOk, IsSome, map, slice_get};
ghost use Rattle.clerk_lines.specs.ClerkTexts.{show_text};
ghost use Rattle.cds_base.specs.Counts.{next_count};
ghost use Rattle.cds_clerk.specs.Heards.{heard_root};
ghost use Rattle.cell_script.specs.Words.{words_of};
ghost use Rattle.inquire_forms.specs.Inquired.{inquired_answer};
ghost use Rattle.clerk_turns.specs.Answers.{AreNotReached, ArePlanned, AreWanted, IsAnswer};
ghost use Rattle.clerk_turns.specs.Asking.{Asks, AsksEach, IsWithJob, Puts, PutsEach, name_ask, root_ask};
ghost use Rattle.clerk_turns.specs.ClerkRows.{command_said};
ghost use Rattle.clerk_turns.specs.Commands.{is_high};
ghost use Rattle.clerk_turns.specs.Turns.{AnswersTopic, AsksAt, AsksHouses, AsksOn, Begins, BeginsCommand, BeginsSaid, Goes, GoesIfAll, GoesRooted, HearsLine, HearsMore, Hears, IsDown, IsFirst, IsRootTold, IsTold, IsTurn, Keeps, RootHeard, Settles, StepDown, StepTold, TakesWord, TopicDown, Waits, WithJob, after_answer, answer_to, is_unreached, later_list, place_of, rest_root, root_in, with_root, topic_with, with_answer, with_list};

use crate::clerk::{Clerk, Job, Question, Topic, waits_for};
use crate::command::{Command, parse_command};
use crate::outcomes::{Comes, outcome};
use crate::says::{say_answer, say_fault};
use crate::sending::{in_doubt, no_sending};
use cds_clerk::{Answered, Answers, Heard, Lack, Root};
use cds_stamps::{AllocOr, DirId, HouseNo};
use cell_names::ChildPointer;
use clerk_lines::{
    ClerkLine, ClerkWord, Hearing, RootList, Told, is_last, push_ask, push_show, read_clerk_line,
    read_root,
};
use inquire_forms::InquireAnswer;
use ns_commands::Updates;
use script_answers::{Answer, ScriptRefusal};
use std::alloc::{AllocError, Global};

const STATUS: &[u8] = b"status 1";

// The later one of two lists of the root directory.
fn later_list(latest: Option<RootList>, heard: Option<RootList>) -> Option<RootList>
    ensures { result ≡ later_list latest heard }
{
    match (latest, heard) {
        (None, heard) => heard,
        (latest, None) => latest,
        (Some(latest), Some(heard)) => {
            if latest.epoch.0 < heard.epoch.0 {
                Some(heard)
            } else {
                Some(latest)
            }
        }
    }
}

// Where the root directory is by the latest list.
fn root_in(latest: Option<RootList>) -> Root
    ensures { result ≡ root_in latest }
{
    match latest {
        Some(list) => Root::At(ChildPointer {
            dir: DirId::ROOT,
            houses: list.houses,
        }),
        None => Root::Nowhere,
    }
}

// A copy of where the root directory is, if it is anywhere.
fn place_of(alloc: Global, root: &Root) -> Result<Option<ChildPointer>, AllocError>
    ensures { IfOk result (λ p. p ≡ place_of root.now) }
{
    match root {
        Root::At(place) => Ok(Some(place.copy(alloc)?)),
        Root::Unheard | Root::Nowhere => Ok(None),
    }
}

// Where the root directory was.
fn rest_root(alloc: Global, place: &Option<ChildPointer>) -> Result<Root, AllocError>
    ensures { IfOk result (λ root. root ≡ rest_root place.now) }
{
    match place {
        Some(place) => Ok(Root::At(place.copy(alloc)?)),
        None => Ok(Root::Unheard),
    }
}

// A command that knows where the root directory is, by the latest list that it heard.
fn with_root(mut job: Job) -> Job
    ensures { result ≡ with_root job }
{
    job.heard.root = root_in(job.latest.take());
    job
}

// The question what shows of a name.
fn show_line(alloc: Global, high: bool, lack: &Lack) -> Result<Vec<u8>, AllocError>
    ensures { IfOk result (λ line. line.items ≡ show_text high lack.now.dir.0 lack.now.name) }
{
    let mut line = Vec::new(alloc);
    push_show(&mut line, high, lack.dir, &lack.name)?;
    Ok(line)
}

// The place after this one.
fn next_place(place: usize) -> usize
    ensures { result ≡ next_count place }
{
    place.saturating_add(1)
}

// Nothing is said.
fn nothing(alloc: Global) -> Vec<u8>
    ensures { result.items ≡ [] }
{
    Vec::new(alloc)
}

// A command for which one answer more was heard.
fn with_answer(mut job: Job, answer: Answered) -> Result<Job, AllocError>
    ensures { IfOk result (λ j. j ≡ with_answer job answer) }
{
    job.heard.answers.push(answer)?;
    Ok(job)
}

// A command for which one list more of the root directory was heard, if there is one.
fn with_list(mut job: Job, list: Option<RootList>) -> Job
    ensures { result ≡ with_list job list }
{
    job.latest = later_list(job.latest.take(), list);
    job
}

// What a house said of a name.
fn answer_to(lack: Lack, told: Told) -> Answered
    ensures { result ≡ answer_to lack told }
{
    let Lack { dir, house, name } = lack;
    Answered {
        dir,
        house,
        name,
        told,
    }
}

// A copy of what lacks.
fn copy_of(alloc: Global, lack: &Lack) -> Result<Lack, AllocError>
    ensures { IfOk result (λ q. q ≡ lack.now) }
{
    Ok(Lack {
        dir: lack.dir,
        house: lack.house,
        name: lack.name.copy(alloc)?,
    })
}

// What was heard of an answer with one more line.
fn topic_with(alloc: Global, topic: Topic, line: &[u8]) -> Result<Topic, AllocError>
    ensures { IfOk result (λ t. t ≡ topic_with topic line.now) }
{
    match topic {
        Topic::Show(lack, hearing) => Ok(Topic::Show(lack, hearing.hear(alloc, line)?)),
        Topic::Root(place) => Ok(Topic::Root(place)),
        Topic::Step(house) => Ok(Topic::Step(house)),
    }
}

// Whether an answer says that no house of a directory is reached.
fn is_unreached(answer: &InquireAnswer) -> bool
    ensures { result ≡ is_unreached (inquired_answer answer.now) }
{
    matches!(
        answer,
        InquireAnswer::Plain(Answer::Refused(ScriptRefusal::Unreachable(_)))
    )
}

impl Clerk {
    // Where the root directory is is not known any more, if a directory was not reached.
    fn forget(&mut self, answer: &InquireAnswer)
        ensures { self.new ≡ after_answer (inquired_answer answer.now) self.old }
    {
        if is_unreached(answer) {
            self.root = None;
        }
    }

    // A command has its answer, and ends.
    fn end(
        &mut self,
        alloc: Global,
        job: Job,
        answer: InquireAnswer,
        unreached: Vec<DirId>,
    ) -> Result<Vec<u8>, AllocError>
        requires answer { IsAnswer job.heard job.command (inquired_answer answer) }
        requires unreached { AreNotReached job.heard job.command unreached.items }
        ensures { IfOk result (λ text. GoesRooted self.old job text.items self.new) }
    {
        self.forget(&answer);
        let text = say_answer(alloc, job.number, &answer, &unreached)?;
        in_doubt(job.sending.doubt, text)
    }

    // A command has its plan.
    fn begin_plan(
        &mut self,
        alloc: Global,
        job: Job,
        updates: Updates,
    ) -> Result<Vec<u8>, AllocError>
        requires { ArePlanned job.heard job.command updates }
        ensures { IfOk result (λ text. GoesRooted self.old job text.items self.new) }
    {
        self.send(alloc, job, updates)
    }

    // Asks a house for the command of this number.
    fn put(
        &mut self,
        alloc: Global,
        job: u64,
        house: HouseNo,
        line: &[u8],
        topic: Topic,
    ) -> Result<Vec<u8>, AllocError>
        ensures { IfOk result (λ text. Puts job self.old
            (record { house = house; line = line.now; topic = topic }) text.items self.new) }
    {
        self.asked = self.asked.saturating_add(1);
        self.questions.push(Question {
            number: self.asked,
            job,
            topic,
        })?;
        let mut text = Vec::new(alloc);
        push_ask(&mut text, self.asked, job, house, line)?;
        Ok(text)
    }

    // A command is under way with the others.
    fn join(&mut self, job: Job) -> Result<(), AllocError>
        ensures { IfOk result (λ _. IsWithJob self.old job self.new) }
    {
        Ok(self.jobs.push(job)?)
    }

    // Asks a house for a command, which waits.
    pub(crate) fn ask(
        &mut self,
        alloc: Global,
        job: Job,
        house: HouseNo,
        line: &[u8],
        topic: Topic,
    ) -> Result<Vec<u8>, AllocError>
        ensures { IfOk result (λ text. Asks self.old job
            (record { house = house; line = line.now; topic = topic }) text.items self.new) }
    {
        let text = self.put(alloc, job.number, house, line, topic)?;
        self.join(job)?;
        Ok(text)
    }

    // Asks a house what shows of a name.
    fn put_name(
        &mut self,
        alloc: Global,
        job: u64,
        high: bool,
        lack: &Lack,
    ) -> Result<Vec<u8>, AllocError>
        ensures { IfOk result
            (λ text. Puts job self.old (name_ask high lack.now) text.items self.new) }
    {
        let line = show_line(alloc, high, lack)?;
        let asked = copy_of(alloc, lack)?;
        self.put(
            alloc,
            job,
            lack.house,
            &line,
            Topic::Show(asked, Hearing::Begun),
        )
    }

    // Asks houses what shows of names.
    fn put_names(
        &mut self,
        alloc: Global,
        job: u64,
        high: bool,
        lacks: &[Lack],
    ) -> Result<Vec<u8>, AllocError>
        ensures { IfOk result (λ text.
            PutsEach job self.old (map (name_ask high) lacks.now) text.items self.new) }
    {
        let mut text = Vec::new(alloc);
        for lack in lacks {
            let asks = self.put_name(alloc, job, high, lack)?;
            text.extend_from_slice(&asks)?;
        }
        Ok(text)
    }

    // Asks houses what shows of all names of which something lacks.
    fn ask_names(
        &mut self,
        alloc: Global,
        job: Job,
        lacks: Vec<Lack>,
    ) -> Result<Vec<u8>, AllocError>
        requires { AreWanted job.heard job.command lacks.items }
        ensures { IfOk result (λ text. GoesRooted self.old job text.items self.new) }
    {
        let text = self.put_names(alloc, job.number, job.command.is_high(), &lacks)?;
        self.join(job)?;
        Ok(text)
    }

    // Goes on with a command that knows where the root directory is: it has its answer or its plan,
    // or houses are asked what shows of names.
    fn go_rooted(&mut self, alloc: Global, job: Job) -> Result<Vec<u8>, AllocError>
        requires { IsSome (heard_root job.heard.root) }
        ensures { IfOk result (λ text. GoesRooted self.old job text.items self.new) }
    {
        match outcome(alloc, &job.heard, &job.command)? {
            Comes::Said(answer, unreached) => self.end(alloc, job, answer, unreached),
            Comes::Updates(updates) => self.begin_plan(alloc, job, updates),
            Comes::Lacks(lacks) => self.ask_names(alloc, job, lacks),
            Comes::LacksRoot => unreachable!(),
        }
    }

    // Goes on with a command that heard where the root directory is.
    fn settle(&mut self, alloc: Global, job: Job) -> Result<Vec<u8>, AllocError>
        ensures { IfOk result (λ text. Settles self.old job text.items self.new) }
    {
        let job = with_root(job);
        self.root = place_of(alloc, &job.heard.root)?;
        self.go_rooted(alloc, job)
    }

    // Asks the house at this place where the root directory is; or goes on, if there is none.
    fn ask_at(&mut self, alloc: Global, job: Job, place: usize) -> Result<Vec<u8>, AllocError>
        ensures { IfOk result (λ text. AsksAt self.old job place text.items self.new) }
    {
        match self.house_at(place) {
            Some(house) => self.ask(alloc, job, house, STATUS, Topic::Root(place)),
            None => self.settle(alloc, job),
        }
    }

    // The house at a place of those that are asked where the root directory is.
    fn house_at(&self, place: usize) -> Option<HouseNo>
        ensures { result ≡ slice_get self.now.houses.items place }
    {
        self.houses.get(place).copied()
    }

    // Asks a house where the root directory is, beside others.
    fn put_root(&mut self, alloc: Global, job: u64, house: &HouseNo) -> Result<Vec<u8>, AllocError>
        ensures { IfOk result
            (λ text. Puts job self.old (root_ask 0 house.now) text.items self.new) }
    {
        self.put(alloc, job, *house, STATUS, Topic::Root(0))
    }

    // Asks houses where the root directory is.
    fn put_each(
        &mut self,
        alloc: Global,
        job: u64,
        houses: &[HouseNo],
    ) -> Result<Vec<u8>, AllocError>
        ensures { IfOk result
            (λ text. PutsEach job self.old (map (root_ask 0) houses.now) text.items self.new) }
    {
        let mut text = Vec::new(alloc);
        for house in houses {
            let asks = self.put_root(alloc, job, house)?;
            text.extend_from_slice(&asks)?;
        }
        Ok(text)
    }

    // The houses that are asked where the root directory is.
    fn copied_houses(&self, alloc: Global) -> Result<Vec<HouseNo>, AllocError>
        ensures { IfOk result (λ v. v.items ≡ self.now.houses.items) }
    {
        Vec::from_slice(alloc, &self.houses)
    }

    // Asks all houses where the root directory is, for a command, which waits.
    fn ask_each(&mut self, alloc: Global, job: Job) -> Result<Vec<u8>, AllocError>
        ensures { IfOk result (λ text.
            AsksEach self.old job (map (root_ask 0) self.old.houses.items) text.items self.new) }
    {
        let houses = self.copied_houses(alloc)?;
        let text = self.put_each(alloc, job.number, &houses)?;
        self.join(job)?;
        Ok(text)
    }

    // Asks all houses where the root directory is; or goes on, if there is none.
    fn ask_all(&mut self, alloc: Global, job: Job) -> Result<Vec<u8>, AllocError>
        ensures { IfOk result
            (λ text. AsksHouses self.old.houses.items true self.old job text.items self.new) }
    {
        match self.house_at(0) {
            Some(_) => self.ask_each(alloc, job),
            None => self.settle(alloc, job),
        }
    }

    // Asks where the root directory is: all houses at once, if masters alone are trusted, and else
    // the first one.
    fn ask_root(&mut self, alloc: Global, job: Job) -> Result<Vec<u8>, AllocError>
        ensures { IfOk result (λ text. AsksHouses self.old.houses.items (is_high job.command)
            self.old job text.items self.new) }
    {
        if job.command.is_high() {
            self.ask_all(alloc, job)
        } else {
            self.ask_at(alloc, job, 0)
        }
    }

    // Goes on with a command, by all that was heard for it.
    pub(crate) fn go_on(&mut self, alloc: Global, job: Job) -> Result<Vec<u8>, AllocError>
        ensures { IfOk result (λ text. Goes self.old job text.items self.new) }
    {
        match outcome(alloc, &job.heard, &job.command)? {
            Comes::Said(answer, unreached) => self.end(alloc, job, answer, unreached),
            Comes::Updates(updates) => self.begin_plan(alloc, job, updates),
            Comes::Lacks(lacks) => self.ask_names(alloc, job, lacks),
            Comes::LacksRoot => self.ask_root(alloc, job),
        }
    }

    // What is known at the beginning of a command: where the root directory was, unless masters
    // alone are trusted.
    fn first_heard(&self, alloc: Global, high: bool) -> Result<Heard, AllocError>
        ensures { IfOk result (λ h. IsFirst self.now high h) }
    {
        let (near, root) = if high {
            (None, Root::Unheard)
        } else {
            (Some(self.near), rest_root(alloc, &self.root)?)
        };
        Ok(Heard {
            near,
            root,
            answers: Answers::new(alloc),
        })
    }

    // Begins a command.
    fn begin_command(
        &mut self,
        alloc: Global,
        number: u64,
        command: Command,
    ) -> Result<Vec<u8>, AllocError>
        ensures { IfOk result
            (λ text. BeginsCommand self.old number command text.items self.new) }
    {
        let heard = self.first_heard(alloc, command.is_high())?;
        self.go_on(
            alloc,
            Job {
                number,
                command,
                heard,
                latest: None,
                sending: no_sending(alloc),
            },
        )
    }

    // Begins what a text says, or says its fault.
    fn begin_said(&mut self, alloc: Global, number: u64, text: &[u8]) -> Result<Vec<u8>, AllocError>
        ensures { IfOk result (λ said. BeginsSaid self.old number
            (command_said (words_of text.now)) said.items self.new) }
    {
        match parse_command(alloc, text) {
            Ok(command) => self.begin_command(alloc, number, command),
            Err(AllocOr::Fault(fault)) => say_fault(alloc, number, fault),
            Err(AllocOr::OutOfMemory) => Err(AllocError),
        }
    }

    // Begins what a text says, unless a command of this number is under way.
    fn begin(&mut self, alloc: Global, number: u64, text: &[u8]) -> Result<Vec<u8>, AllocError>
        ensures { IfOk result
            (λ said. Begins self.old number text.now said.items self.new) }
    {
        if self.has_job(number) {
            Ok(nothing(alloc))
        } else {
            self.begin_said(alloc, number, text)
        }
    }

    // A command is under way with the others, and nothing is said.
    fn keep(&mut self, alloc: Global, job: Job) -> Result<Vec<u8>, AllocError>
        ensures { IfOk result (λ text. Keeps self.old job text.items self.new) }
    {
        self.join(job)?;
        Ok(nothing(alloc))
    }

    // Goes on with a command, if all houses have answered that were asked for it.
    fn go_if_all(&mut self, alloc: Global, job: Job) -> Result<Vec<u8>, AllocError>
        ensures { IfOk result (λ text. GoesIfAll self.old job text.items self.new) }
    {
        if waits_for(&self.questions, job.number) {
            self.keep(alloc, job)
        } else {
            self.go_on(alloc, job)
        }
    }

    // Goes on with a command for which one answer more was heard.
    fn go_with(&mut self, alloc: Global, job: Job, answer: Answered) -> Result<Vec<u8>, AllocError>
        ensures { IfOk result
            (λ text. GoesIfAll self.old (with_answer job answer) text.items self.new) }
    {
        let job = with_answer(job, answer)?;
        self.go_if_all(alloc, job)
    }

    // A house said what shows of a name, or is not reached.
    fn take_told(
        &mut self,
        alloc: Global,
        number: u64,
        answer: Answered,
    ) -> Result<Vec<u8>, AllocError>
        ensures { IfOk result (λ text. IsTold self.old number answer text.items self.new) }
    {
        match self.take_job(number) {
            Some(job) => self.go_with(alloc, job, answer),
            None => Ok(nothing(alloc)),
        }
    }

    // Goes on with a command of which all houses were asked where the root directory is, if all
    // have answered.
    fn wait(&mut self, alloc: Global, job: Job) -> Result<Vec<u8>, AllocError>
        ensures { IfOk result (λ text. Waits self.old job text.items self.new) }
    {
        if waits_for(&self.questions, job.number) {
            self.keep(alloc, job)
        } else {
            self.settle(alloc, job)
        }
    }

    // Goes on with a command of which one house was asked where the root directory is: at the next
    // one, if that did not tell it.
    fn ask_on(&mut self, alloc: Global, job: Job, place: usize) -> Result<Vec<u8>, AllocError>
        ensures { IfOk result (λ text. AsksOn self.old job place text.items self.new) }
    {
        if job.latest.is_some() {
            self.settle(alloc, job)
        } else {
            self.ask_at(alloc, job, next_place(place))
        }
    }

    // Goes on with a command for which a house was asked where the root directory is.
    fn root_heard(&mut self, alloc: Global, job: Job, place: usize) -> Result<Vec<u8>, AllocError>
        ensures { IfOk result (λ text. RootHeard self.old job place text.items self.new) }
    {
        if job.command.is_high() {
            self.wait(alloc, job)
        } else {
            self.ask_on(alloc, job, place)
        }
    }

    // A house said where the root directory is, or said nothing of that.
    fn root_told(
        &mut self,
        alloc: Global,
        number: u64,
        place: usize,
        list: Option<RootList>,
    ) -> Result<Vec<u8>, AllocError>
        ensures { IfOk result
            (λ text. IsRootTold self.old number place list text.items self.new) }
    {
        match self.take_job(number) {
            Some(job) => self.root_heard(alloc, with_list(job, list), place),
            None => Ok(nothing(alloc)),
        }
    }

    // A house answered to a line of a plan.
    fn step_heard(
        &mut self,
        alloc: Global,
        number: u64,
        house: HouseNo,
        last: &[u8],
    ) -> Result<Vec<u8>, AllocError>
        ensures { IfOk result (λ text. WithJob self.old number
            (λ d job. StepTold d job house last.now text.items self.new)
            text.items self.new) }
    {
        match self.take_job(number) {
            Some(job) => self.step_told(alloc, job, house, last),
            None => Ok(nothing(alloc)),
        }
    }

    // The house of a line of a plan is not reached.
    fn step_lost(&mut self, alloc: Global, number: u64) -> Result<Vec<u8>, AllocError>
        ensures { IfOk result (λ text. WithJob self.old number
            (λ d job. StepDown d job text.items self.new) text.items self.new) }
    {
        match self.take_job(number) {
            Some(job) => self.step_down(alloc, job),
            None => Ok(nothing(alloc)),
        }
    }

    // A question has its whole answer.
    fn answered(
        &mut self,
        alloc: Global,
        job: u64,
        topic: Topic,
        last: &[u8],
    ) -> Result<Vec<u8>, AllocError>
        ensures { IfOk result
            (λ text. AnswersTopic topic self.old job last.now text.items self.new) }
    {
        match topic {
            Topic::Show(lack, hearing) => {
                self.take_told(alloc, job, answer_to(lack, hearing.told(last)))
            }
            Topic::Root(place) => {
                let list = read_root(alloc, last)?;
                self.root_told(alloc, job, place, list)
            }
            Topic::Step(house) => self.step_heard(alloc, job, house, last),
        }
    }

    // A line of an answer that has more.
    fn hear_more(
        &mut self,
        alloc: Global,
        question: Question,
        line: &[u8],
    ) -> Result<Vec<u8>, AllocError>
        ensures { IfOk result
            (λ text. HearsMore self.old question line.now text.items self.new) }
    {
        let Question { number, job, topic } = question;
        let topic = topic_with(alloc, topic, line)?;
        self.questions.push(Question { number, job, topic })?;
        Ok(nothing(alloc))
    }

    // A line of the answer to this question.
    fn hear_line(
        &mut self,
        alloc: Global,
        question: Question,
        line: &[u8],
    ) -> Result<Vec<u8>, AllocError>
        ensures { IfOk result
            (λ text. HearsLine self.old question line.now text.items self.new) }
    {
        if is_last(line) {
            let Question {
                number: _,
                job,
                topic,
            } = question;
            self.answered(alloc, job, topic, line)
        } else {
            self.hear_more(alloc, question, line)
        }
    }

    // A line of the answer to a question.
    fn hear(&mut self, alloc: Global, number: u64, line: &[u8]) -> Result<Vec<u8>, AllocError>
        ensures { IfOk result (λ text. Hears self.old number line.now text.items self.new) }
    {
        match self.take_question(number) {
            Some(question) => self.hear_line(alloc, question, line),
            None => Ok(nothing(alloc)),
        }
    }

    // The house is not reached that was asked this.
    fn topic_down(&mut self, alloc: Global, job: u64, topic: Topic) -> Result<Vec<u8>, AllocError>
        ensures { IfOk result (λ text. TopicDown topic self.old job text.items self.new) }
    {
        match topic {
            Topic::Show(lack, _) => self.take_told(alloc, job, answer_to(lack, Told::Passed)),
            Topic::Root(place) => self.root_told(alloc, job, place, None),
            Topic::Step(_) => self.step_lost(alloc, job),
        }
    }

    // The house of a question is not reached.
    fn down(&mut self, alloc: Global, number: u64) -> Result<Vec<u8>, AllocError>
        ensures { IfOk result (λ text. IsDown self.old number text.items self.new) }
    {
        match self.take_question(number) {
            Some(question) => {
                let Question {
                    number: _,
                    job,
                    topic,
                } = question;
                self.topic_down(alloc, job, topic)
            }
            None => Ok(nothing(alloc)),
        }
    }

    /// What a clerk makes of a line: what it says and asks then. A line that is none of a clerk's,
    /// or is about a question that nobody asked, changes nothing; nor does a command whose number
    /// one has that is under way. If memory ran out a command may be lost, and the clerk is not to
    /// be asked again.
    pub fn next(&mut self, alloc: Global, line: &[u8]) -> Result<Vec<u8>, AllocError>
        ensures { IfOk result (λ text. IsTurn self.old line.now text.items self.new) }
    {
        match read_clerk_line(line) {
            Some(ClerkLine { word, number, text }) => self.take(alloc, word, number, text),
            None => Ok(nothing(alloc)),
        }
    }

    // What it makes of a line of its own: what that is, its number, and its text.
    fn take(
        &mut self,
        alloc: Global,
        word: ClerkWord,
        number: u64,
        text: &[u8],
    ) -> Result<Vec<u8>, AllocError>
        ensures { IfOk result
            (λ said. TakesWord word self.old number text.now said.items self.new) }
    {
        match word {
            ClerkWord::Do => self.begin(alloc, number, text),
            ClerkWord::Hear => self.hear(alloc, number, text),
            ClerkWord::Down => self.down(alloc, number),
        }
    }
}
