// A clearinghouse and its calls.
ghost use Rattle.std.specs.Prelude.{◌≡◌, ℕ, false, List, Some, None, IfOk, IfSome, IfNone, OnOk, OnErr, is_err, option_copied};
ghost use Rattle.std.specs.FinMap as map;
ghost use Rattle.std.specs.Result.{result_err};
ghost use Rattle.cds_stamps.specs.declared.numbers.HouseNo as house_no;
ghost use Rattle.cds_stamps.specs.Members.{master_of, members_of};
ghost use Rattle.cds_stamps.specs.Stamps.{next_stamp};
ghost use Rattle.directory.specs.Updates.{change_of};
ghost use Rattle.cell_model.specs.Cells as model;
ghost use Rattle.cell_model.specs.Turns.{found_directory, accept, skulk, new_epoch};
ghost use Rattle.clearinghouse.specs.LawfulHouses.{IsLawful};
ghost use Rattle.house_directory.specs.HouseMessages.{numbers_of};
ghost use Rattle.clearinghouse.specs.HouseLetters.{epoch_posts_at, posts_at, sender_of};
ghost use Rattle.clearinghouse.specs.PrivateTurns.{AnswersEpoch, AnswersUpdate, Heeds, SameHouse, StepsByUpdate};
ghost use Rattle.house_directory.specs.declared.outgoing.Outgoing.TheVariants as out;
ghost use Rattle.house_directory.specs.declared.states.DirState.TheVariants as state;
ghost use Rattle.house_directory.specs.Refusing.{accept_answer, skulk_answer, epoch_refused, IsLater};
ghost use Rattle.clearinghouse.specs.ModelHouses.{StandsHouse};
ghost use Rattle.clearinghouse.specs.HouseUpdates.{BeginsSkulk, PostsUpdate, TakesUpdate};
ghost use Rattle.house_directory.specs.DirectorySteps.{IsStampAnswer, IsAcceptAnswer, IsBegunAnswer, IsSkulkAnswer, begun_outgoing, first_held};
ghost use Rattle.clearinghouse.specs.HouseSteps.{IsCall, IsTurn, IsStep, Enters, with_new_directory};
ghost use Rattle.house_directory.specs.DirectorySteps.{IsEpochAnswer, accept_result, accept_posts, skulk_result, skulk_posts, epoch_result, epoch_posts};

use cds_stamps::{DirId, EpochNo, Floor, HouseNo, Members, Node, Stamp};
use directory::{Update, UpdateRefusal};
use house_directory::{
    Accepted, Begun, DirState, DirStates, EpochRefusal, EpochSet, Held, Issuer, Outgoing,
    PostedList, Sender, Skulked, Turn, post_leaves, refused,
};
use std::alloc::{AllocError, Global};

/// A clearinghouse: who it is, the floor of its stamps, what it has of directories, and whether it
/// is spent.
#[derive(Drop)]
pub struct Clearinghouse {
    pub(crate) house: HouseNo,
    pub(crate) node: Node,
    pub(crate) floor: Floor,
    pub(crate) dirs: DirStates,
    pub(crate) spent: bool,
}

impl Clearinghouse {
    /// A clearinghouse without directories. It takes no memory.
    pub fn new(alloc: Global, house: HouseNo, node: Node) -> Clearinghouse
        ensures { result ≡ record { house = house; node = node; floor = record { time = 0 }; dirs = map.empty; spent = false } }
    {
        Clearinghouse {
            house,
            node,
            floor: Floor { time: 0 },
            dirs: DirStates::new(alloc),
            spent: false,
        }
    }

    /// Its number.
    pub fn number(&self) -> HouseNo
        ensures { result ≡ self.now.house }
    {
        self.house
    }

    /// The node of its stamps.
    pub fn node(&self) -> Node
        ensures { result ≡ self.now.node }
    {
        self.node
    }

    /// What it has of a directory, if it ever had something.
    pub fn state(&self, dir: DirId) -> Option<&DirState>
        ensures { option_copied result ≡ map.get self.now.dirs dir }
    {
        self.dirs.get(&dir)
    }

    /// What it has of directories.
    pub fn states(&self) -> &DirStates
        ensures { result.now ≡ self.now.dirs }
    {
        &self.dirs
    }

    /// The floor of its stamps: nothing that it has has a later time.
    pub fn floor(&self) -> u64
        ensures { result ≡ self.now.floor.time }
    {
        self.floor.time
    }

    /// True once a call ran out of memory. From then on each call that can answer so answers so.
    /// Send nothing more of this house, drop it, and `start` it from the last image that was put:
    /// what it did since then was not sent, so no other house misses it.
    pub fn is_spent(&self) -> bool
        ensures { result ≡ self.now.spent }
    {
        self.spent
    }

    /// Makes a directory of which it is the master: in epoch 1, with a replica that is empty. It
    /// posts Joins to the other members. It requires that the house never had the directory, not
    /// even one that it left (test: `state(dir).is_none()`), and that the list names this house as
    /// the master (test: `members.master() == number()`).
    pub fn create_directory(
        &mut self,
        alloc: Global,
        dir: DirId,
        members: &Members,
    ) -> Result<PostedList, AllocError>
        requires absent { map.get self.old.dirs dir ≡ None }
        requires master { master_of (members_of members.now) ≡ self.old.house.0 }
        ensures call { IsCall self.old self.new result }
        ensures floor { self.new.floor ≡ self.old.floor }
        ensures kept { IsLawful self.old → IsLawful self.new }
        ensures held { OnOk result (self.new ≡ with_new_directory self.old dir members.now) }
        ensures posts { IfOk result (λ posted. posted ≡ posts_at self.new dir (Some out.Join)) }
        ensures step { (now : model.House) → StandsHouse self.old now
            → IfOk result
            (λ posted. IsTurn
            (found_directory self.old.house.0 now dir.0 (members_of members.now)) self.new posted) }
    {
        let outgoing = self.found(alloc, dir, members)?;
        self.posted(alloc, dir, Some(&outgoing))
    }

    /// Makes a directory, as `create_directory` does and with what that requires:
    /// `state(dir).is_none()`, and `members.master() == number()`. What is to be posted: put the
    /// `image` first, and then give it to `letters`.
    pub fn found(
        &mut self,
        alloc: Global,
        dir: DirId,
        members: &Members,
    ) -> Result<Outgoing, AllocError>
        requires absent { map.get self.old.dirs dir ≡ None }
        requires master { master_of (members_of members.now) ≡ self.old.house.0 }
        ensures call { IsCall self.old self.new result }
        ensures floor { self.new.floor ≡ self.old.floor }
        ensures kept { IsLawful self.old → IsLawful self.new }
        ensures held { OnOk result (self.new ≡ with_new_directory self.old dir members.now) }
        ensures posts { IfOk result (λ outgoing. outgoing ≡ out.Join) }
        ensures step { (now : model.House) → StandsHouse self.old now
            → IfOk result
            (λ outgoing. IsTurn
            (found_directory self.old.house.0 now dir.0 (members_of members.now)) self.new
            (posts_at self.new dir (Some outgoing))) }
    {
        self.usable()?;
        let done = self.insert_first(alloc, dir, members);
        self.heed(done)
    }

    /// Holds a new directory.
    fn insert_first(
        &mut self,
        alloc: Global,
        dir: DirId,
        members: &Members,
    ) -> Result<Outgoing, AllocError>
        ensures join { IfOk result (λ o. o ≡ out.Join) }
        ensures held { OnOk result
            (self.new ≡ record self.old { dirs = map.insert self.old.dirs dir (state.Held (first_held members.now)) }) }
        ensures err { OnErr result (self.new ≡ self.old) }
    {
        let held = Held::first(alloc, members)?;
        self.dirs.insert(dir, DirState::Held(held))?;
        Ok(Outgoing::Join)
    }

    /// Takes an update of a directory, stamps it, and posts it to each other member. Or refuses it:
    /// where it holds no replica, where it does not accept updates, as the table refuses it, and
    /// where no stamp is left.
    pub fn accept(
        &mut self,
        alloc: Global,
        clock: u64,
        dir: DirId,
        update: &Update,
    ) -> Result<Accepted, AllocError>
        ensures call { IsCall self.old self.new result }
        ensures kept { IsLawful self.old → IsLawful self.new }
        ensures answer { IfOk result (λ a. accept_result a
            ≡ accept_answer self.old.house.0 (next_stamp clock self.old.floor.time self.old.node)
            (change_of update.now) (map.get self.old.dirs dir)) }
        ensures refused { IfOk result (λ a. OnErr (accept_result a) (self.new ≡ self.old)) }
        ensures takes { IfOk result (λ a. IfOk (accept_result a) (λ s.
            PostsUpdate dir (change_of update.now) s self.old self.new (accept_posts a))) }
        ensures step { (now : model.House) → StandsHouse self.old now → now.clock ≡ clock
            → IfOk result
            (λ a. IsStep (IsAcceptAnswer a)
            (accept self.old.house.0 now dir.0 (change_of update.now)) self.old self.new
            (accept_posts a)) }
    {
        let Turn { answer, outgoing } = self.accept_update(alloc, clock, dir, update)?;
        let posted = self.posted(alloc, dir, outgoing.as_ref())?;
        match answer {
            Ok(stamp) => Ok(Accepted::Done { stamp, posted }),
            Err(refusal) => Ok(Accepted::Refused(refusal)),
        }
    }

    /// Takes an update, as `accept` does, or refuses it. What is to be posted: put the `image`
    /// first, and then give it to `letters`.
    pub fn accept_update(
        &mut self,
        alloc: Global,
        clock: u64,
        dir: DirId,
        update: &Update,
    ) -> Result<Turn<Result<Stamp, UpdateRefusal>>, AllocError>
        ensures call { IsCall self.old self.new result }
        ensures kept { IsLawful self.old → IsLawful self.new }
        ensures answer { IfOk result (λ turn. turn.answer
            ≡ accept_answer self.old.house.0 (next_stamp clock self.old.floor.time self.old.node)
            (change_of update.now) (map.get self.old.dirs dir)) }
        ensures refused { IfOk result
            (λ turn. OnErr turn.answer ((self.new ≡ self.old) × (turn.outgoing ≡ None))) }
        ensures takes { IfOk result (λ turn. IfOk turn.answer (λ s.
            TakesUpdate dir (change_of update.now) s self.old self.new turn.outgoing)) }
        ensures step { (now : model.House) → StandsHouse self.old now → now.clock ≡ clock
            → IfOk result
            (λ turn. IsStep (IsStampAnswer turn.answer)
            (accept self.old.house.0 now dir.0 (change_of update.now))
            self.old self.new (posts_at self.new dir turn.outgoing)) }
    {
        self.usable()?;
        let done = self.accept_at(alloc, clock, dir, update);
        self.heed(done)
    }

    /// Takes an update of a directory that it holds, or refuses it.
    fn accept_at(
        &mut self,
        alloc: Global,
        clock: u64,
        dir: DirId,
        update: &Update,
    ) -> Result<Turn<Result<Stamp, UpdateRefusal>>, AllocError>
        ensures who { SameHouse self.old self.new }
        ensures kept { IsLawful self.old → IsLawful self.new }
        ensures answer { AnswersUpdate self.old clock dir (change_of update.now) result }
        ensures refused { IfOk result
            (λ turn. OnErr turn.answer ((self.new ≡ self.old) × (turn.outgoing ≡ None))) }
        ensures takes { IfOk result (λ turn. IfOk turn.answer (λ s.
            TakesUpdate dir (change_of update.now) s self.old self.new turn.outgoing)) }
        ensures step { StepsByUpdate self.old self.new clock dir (change_of update.now) result }
    {
        let by = self.issuer(clock);
        match self.dirs.held_mut(dir) {
            Some(held) => held.accept(alloc, by, &mut self.floor, update),
            None => Ok(refused(UpdateRefusal::NoReplica)),
        }
    }

    /// Begins a skulk of a directory of which it is the master: it posts its first round. Or
    /// refuses it: where it holds no replica, where it is not the master, and where no stamp is
    /// left.
    pub fn start_skulk(
        &mut self,
        alloc: Global,
        clock: u64,
        dir: DirId,
    ) -> Result<Skulked, AllocError>
        ensures call { IsCall self.old self.new result }
        ensures kept { IsLawful self.old → IsLawful self.new }
        ensures answer { IfOk result (λ s. skulk_result s
            ≡ skulk_answer self.old.house.0 (next_stamp clock self.old.floor.time self.old.node)
            (map.get self.old.dirs dir)) }
        ensures refused { IfOk result (λ s. OnErr (skulk_result s) (self.new ≡ self.old)) }
        ensures begins { IfOk result
            (λ s. IfOk (skulk_result s) (λ b. BeginsSkulk dir b self.old self.new)) }
        ensures posts { IfOk result
            (λ s. skulk_posts s ≡ posts_at self.new dir (begun_outgoing (skulk_result s))) }
        ensures step { (now : model.House) → StandsHouse self.old now → now.clock ≡ clock
            → IfOk result
            (λ s. IsStep (IsSkulkAnswer s) (skulk self.old.house.0 now dir.0) self.old self.new
            (skulk_posts s)) }
    {
        let Turn { answer, outgoing } = self.begin_skulk(clock, dir)?;
        let posted = self.posted(alloc, dir, outgoing.as_ref())?;
        match answer {
            Ok(Begun::Started(t)) => Ok(Skulked::Started { t, posted }),
            Ok(Begun::Complete(t)) => Ok(Skulked::Complete(t)),
            Err(refusal) => Ok(Skulked::Refused(refusal)),
        }
    }

    /// Begins a skulk, as `start_skulk` does. It takes no memory. What is to be posted: put the
    /// `image` first, and then give it to `letters`. (The image has the floor, and so the stamp of
    /// the skulk is given once; a skulk itself ends at a crash.)
    pub fn begin_skulk(
        &mut self,
        clock: u64,
        dir: DirId,
    ) -> Result<Turn<Result<Begun, UpdateRefusal>>, AllocError>
        ensures call { IsCall self.old self.new result }
        ensures usable { is_err result ≡ self.old.spent }
        ensures kept { IsLawful self.old → IsLawful self.new }
        ensures answer { IfOk result (λ turn. turn.answer
            ≡ skulk_answer self.old.house.0 (next_stamp clock self.old.floor.time self.old.node)
            (map.get self.old.dirs dir)) }
        ensures posts { IfOk result (λ turn. turn.outgoing ≡ begun_outgoing turn.answer) }
        ensures begins { IfOk result
            (λ turn. IfOk turn.answer (λ b. BeginsSkulk dir b self.old self.new)) }
        ensures refused { IfOk result
            (λ turn. OnErr turn.answer ((self.new ≡ self.old) × (turn.outgoing ≡ None))) }
        ensures step { (now : model.House) → StandsHouse self.old now → now.clock ≡ clock
            → IfOk result
            (λ turn. IsStep (IsBegunAnswer turn.answer) (skulk self.old.house.0 now dir.0)
            self.old self.new (posts_at self.new dir turn.outgoing)) }
    {
        self.usable()?;
        Ok(self.begin_at(clock, dir))
    }

    /// Begins a skulk of a directory that it holds, or refuses it.
    fn begin_at(&mut self, clock: u64, dir: DirId) -> Turn<Result<Begun, UpdateRefusal>>
        ensures who { SameHouse self.old self.new }
        ensures kept { IsLawful self.old → IsLawful self.new }
        ensures answer { result.answer
            ≡ skulk_answer self.old.house.0 (next_stamp clock self.old.floor.time self.old.node)
            (map.get self.old.dirs dir) }
        ensures posts { result.outgoing ≡ begun_outgoing result.answer }
        ensures begins { IfOk result.answer (λ b. BeginsSkulk dir b self.old self.new) }
        ensures refused { OnErr result.answer ((self.new ≡ self.old) × (result.outgoing ≡ None)) }
        ensures step { (now : model.House) → StandsHouse self.old now → now.clock ≡ clock
            → IsStep (IsBegunAnswer result.answer)
            (skulk self.old.house.0 now dir.0) self.old self.new
            (posts_at self.new dir result.outgoing) }
    {
        let by = self.issuer(clock);
        match self.dirs.held_mut(dir) {
            Some(held) => held.begin_skulk(by, &mut self.floor),
            None => refused(UpdateRefusal::NoReplica),
        }
    }

    /// Takes a new epoch of a directory, of which it is to be the master, and posts Joins to the
    /// other members and Leaves to the houses that are members no more. Or refuses it. It requires
    /// that the list names this house as the master (test: `members.master() == number()`).
    pub fn new_epoch(
        &mut self,
        alloc: Global,
        dir: DirId,
        epoch: EpochNo,
        members: &Members,
        leaving: &[HouseNo],
    ) -> Result<EpochSet, AllocError>
        requires master { master_of (members_of members.now) ≡ self.old.house.0 }
        ensures call { IsCall self.old self.new result }
        ensures floor { self.new.floor ≡ self.old.floor }
        ensures kept { IsLawful self.old → IsLawful self.new }
        ensures answer { IfOk result
            (λ e. epoch_result e
            ≡ epoch_refused self.old.house.0 epoch.0 (members_of members.now)
            (map.get self.old.dirs dir)) }
        ensures refused { IfOk result (λ e. IfSome (epoch_result e) (λ _. self.new ≡ self.old)) }
        ensures held { IfOk result
            (λ e. IfNone (epoch_result e) (Enters self.old self.new dir epoch members.now)) }
        ensures posts { IfOk result
            (λ e. epoch_posts e ≡ epoch_posts_at self.new dir epoch leaving.now (epoch_result e)) }
        ensures step { (now : model.House) → StandsHouse self.old now
            → IsLater epoch.0 (map.get self.old.dirs dir)
            → IfOk result (λ e. IsStep (IsEpochAnswer epoch.0 (epoch_result e))
            (new_epoch self.old.house.0 now dir.0 epoch.0 (members_of members.now)
            (numbers_of leaving.now)) self.old self.new (epoch_posts e)) }
    {
        if let Err(refusal) = self.enter_epoch(alloc, dir, epoch, members)? {
            return Ok(EpochSet::Refused(refusal));
        }
        let mut posted = self.posted(alloc, dir, Some(&Outgoing::Join))?;
        let leaves = post_leaves(&mut posted, self.sender(dir), epoch, leaving);
        self.heed(leaves)?;
        Ok(EpochSet::Done(posted))
    }

    /// Takes a new epoch, as `new_epoch` does and with what that requires: `members.master() ==
    /// number()`. Or refuses it. A Join is to be posted, and a Leave to each house that is a member
    /// no more: put the `image` first, and then give `Outgoing::Join` to `letters`, and those
    /// houses to `leaves`.
    pub fn enter_epoch(
        &mut self,
        alloc: Global,
        dir: DirId,
        epoch: EpochNo,
        members: &Members,
    ) -> Result<Result<(), EpochRefusal>, AllocError>
        requires master { master_of (members_of members.now) ≡ self.old.house.0 }
        ensures call { IsCall self.old self.new result }
        ensures floor { self.new.floor ≡ self.old.floor }
        ensures kept { IsLawful self.old → IsLawful self.new }
        ensures answer { IfOk result
            (λ e. result_err e
            ≡ epoch_refused self.old.house.0 epoch.0 (members_of members.now)
            (map.get self.old.dirs dir)) }
        ensures refused { IfOk result (λ e. OnErr e (self.new ≡ self.old)) }
        ensures held { IfOk result (λ e. OnOk e (Enters self.old self.new dir epoch members.now)) }
        ensures step { (now : model.House) (leaving : List house_no.HouseNo)
            → StandsHouse self.old now → IsLater epoch.0 (map.get self.old.dirs dir)
            → IfOk result (λ e. IsStep (IsEpochAnswer epoch.0 (result_err e))
            (new_epoch self.old.house.0 now dir.0 epoch.0 (members_of members.now)
            (numbers_of leaving))
            self.old self.new (epoch_posts_at self.new dir epoch leaving (result_err e))) }
    {
        self.usable()?;
        let done = self.enter_at(alloc, dir, epoch, members);
        self.heed(done)
    }

    /// Takes a new epoch of a directory that it holds, or refuses it.
    fn enter_at(
        &mut self,
        alloc: Global,
        dir: DirId,
        epoch: EpochNo,
        members: &Members,
    ) -> Result<Result<(), EpochRefusal>, AllocError>
        ensures who { SameHouse self.old self.new }
        ensures answer { AnswersEpoch self.old dir epoch (members_of members.now) result }
        ensures refused { IfOk result (λ e. OnErr e (self.new ≡ self.old)) }
        ensures held { IfOk result (λ e. OnOk e (Enters self.old self.new dir epoch members.now)) }
        ensures err { OnErr result (self.new ≡ self.old) }
    {
        let house = self.house;
        match self.dirs.held_mut(dir) {
            Some(held) => held.enter(alloc, house, epoch, members),
            None => Ok(Err(EpochRefusal::NoReplica)),
        }
    }

    /// The messages that say this about a directory, to each receiver its own; none where nothing
    /// is to be posted.
    pub(crate) fn posted(
        &mut self,
        alloc: Global,
        dir: DirId,
        outgoing: Option<&Outgoing>,
    ) -> Result<PostedList, AllocError>
        ensures posts { IfOk result
            (λ p. p ≡ posts_at self.old dir (option_copied outgoing.entry)) }
        ensures heeds { Heeds self.old self.new result }
    {
        let posted = self.posts(alloc, dir, outgoing);
        self.heed(posted)
    }

    fn posts(
        &self,
        alloc: Global,
        dir: DirId,
        outgoing: Option<&Outgoing>,
    ) -> Result<PostedList, AllocError>
        ensures { IfOk result (λ p. p ≡ posts_at self.now dir (option_copied outgoing.entry)) }
    {
        let Some(outgoing) = outgoing else {
            return Ok(PostedList::new(alloc));
        };
        match self.dirs.held(&dir) {
            Some(held) => held.posted(alloc, self.sender(dir), outgoing),
            None => Ok(PostedList::new(alloc)),
        }
    }

    pub(crate) fn sender(&self, dir: DirId) -> Sender
        ensures { result ≡ sender_of self.now dir }
    {
        Sender {
            house: self.house,
            dir,
            floor: self.floor.time,
        }
    }

    fn issuer(&self, clock: u64) -> Issuer
        ensures { result ≡ record { house = self.now.house; node = self.now.node; clock = clock } }
    {
        Issuer {
            house: self.house,
            node: self.node,
            clock,
        }
    }

    /// Out of memory, where it is spent.
    pub(crate) fn usable(&self) -> Result<(), AllocError>
        ensures { is_err result ≡ self.now.spent }
    {
        if self.spent { Err(AllocError) } else { Ok(()) }
    }

    /// What a part of a call gave; it is spent where that wanted for memory.
    pub(crate) fn heed<T>(&mut self, done: Result<T, AllocError>) -> Result<T, AllocError>
        ensures result { result ≡ done }
        ensures heeds { Heeds self.old self.new done }
    {
        if done.is_err() {
            self.spent = true;
        }
        done
    }
}
