// Which steps are allowed, but for what the house that acts says to them. Nothing here takes
// memory.
ghost use Rattle.std.specs.Prelude.{◌≡◌, [], ◌∷◌, IfOk, is_none, is_some, not};
ghost use Rattle.std.specs.List.{list_any};
ghost use Rattle.std.specs.Option.{option_map};
ghost use Rattle.cds_stamps.specs.Members.{is_listed};
ghost use Rattle.cell_model.specs.Cells as model;
ghost use Rattle.cell_model.specs.Commands as command;
ghost use Rattle.cell_model.specs.Steps.{is_bad_list, is_down, is_missing, is_taken, is_unknown};
ghost use Rattle.house_directory.specs.HouseMessages.{numbers_of};
ghost use Rattle.cds_cell.specs.CellHouses.{is_up_state};
ghost use Rattle.cds_cell.specs.PrivateSteps.{AllowsCommand, IsAllowed, IsPlaceOf};
ghost use Rattle.cds_cell.specs.Scripted.{step_of};
ghost use Rattle.cds_cell.specs.ModelCells.{Stands, directory_of, house_of};

use crate::cell::Cell;
use crate::house::HouseState;
use crate::members::is_bad_list;
use cds_stamps::{DirId, HouseNo, Node};
use cell_script::Command;
use script_answers::ScriptRefusal;

impl Cell {
    /// That a step is allowed, or the first reason against it.
    pub(crate) fn allows(&self, command: &Command) -> Result<(), ScriptRefusal>
        ensures { AllowsCommand (step_of command.now) self.now result }
    {
        match command {
            Command::House(house, node) => self.untaken(*house, *node),
            Command::Clock(house, _) => self.made(*house, &[]),
            Command::Root(master, others) => self.allows_root(*master, others.houses()),
            Command::Mkdir(house, dir, _, master, others) => {
                self.allows_child(*house, *dir, *master, others.houses())
            }
            Command::Repoint(house, dir, _, master, others) => {
                self.allows_repoint(*house, *dir, *master, others.list())
            }
            Command::Update(house, dir, _) => self.allows_at(*house, *dir),
            Command::Epoch(dir, master, others) => self.allows_epoch(
                *dir,
                *master,
                others.houses(),
            ),
            Command::Skulk(house, dir) => self.allows_at(*house, *dir),
            Command::Deliver(_) | Command::Lose(_) => Ok(()),
            Command::Crash(house) => self.allows_crash(*house),
            Command::Start(house) => self.allows_start(*house),
        }
    }

    fn allows_root(&self, master: HouseNo, others: &[HouseNo]) -> Result<(), ScriptRefusal>
        ensures { AllowsCommand (command.Root master.0 (numbers_of others.now) []) self.now result }
    {
        if !self.is_unknown(DirId::ROOT) {
            return Err(ScriptRefusal::DirectoryExists);
        }
        self.listable(master, others)?;
        self.up(master)
    }

    fn allows_child(
        &self,
        house: HouseNo,
        dir: DirId,
        master: HouseNo,
        others: &[HouseNo],
    ) -> Result<(), ScriptRefusal>
        ensures { AllowsCommand (command.Mkdir house.0 dir.0 [] master.0 (numbers_of others.now) [])
            self.now result }
    {
        self.pointed(house, dir, master, others)?;
        self.up(house)?;
        self.up(master)
    }

    fn allows_repoint(
        &self,
        house: HouseNo,
        dir: DirId,
        master: HouseNo,
        others: &[HouseNo],
    ) -> Result<(), ScriptRefusal>
        ensures { AllowsCommand (command.Repoint house.0 dir.0 [] master.0 (numbers_of others.now))
            self.now result }
    {
        self.pointed(house, dir, master, others)?;
        self.up(house)
    }

    // An update or a skulk.
    fn allows_at(&self, house: HouseNo, dir: DirId) -> Result<(), ScriptRefusal>
        ensures { AllowsCommand (command.Skulk house.0 dir.0) self.now result }
    {
        self.acting_place(house, dir)?;
        Ok(())
    }

    /// Where the house is that takes an update or a skulk, or the first reason against that.
    pub(crate) fn acting_place(&self, house: HouseNo, dir: DirId) -> Result<usize, ScriptRefusal>
        ensures place { IfOk result (IsPlaceOf self.now.houses.items house.0) }
        ensures allowed { AllowsCommand (command.Skulk house.0 dir.0) self.now result }
    {
        self.known(dir)?;
        self.place_up(house)
    }

    // Where a house that is up is.
    fn place_up(&self, house: HouseNo) -> Result<usize, ScriptRefusal>
        ensures place { IfOk result (IsPlaceOf self.now.houses.items house.0) }
        ensures allowed { (g : model.Cell) → Stands self.now g
            → IsAllowed result
            ((is_missing g (house.0 ∷ []), command.NoHouse)
            ∷ (is_down g house.0, command.Down) ∷ []) }
    {
        let Some(at) = self.position(house) else {
            return Err(ScriptRefusal::NoHouse);
        };
        match &self.houses[at].state {
            HouseState::Up(_) => Ok(at),
            HouseState::Down(_) => Err(ScriptRefusal::Down),
        }
    }

    fn allows_epoch(
        &self,
        dir: DirId,
        master: HouseNo,
        others: &[HouseNo],
    ) -> Result<(), ScriptRefusal>
        ensures { AllowsCommand (command.Epoch dir.0 master.0 (numbers_of others.now) [])
            self.now result }
    {
        self.known(dir)?;
        self.listable(master, others)?;
        if !self.is_listed(dir, master) {
            return Err(ScriptRefusal::NotMember);
        }
        self.up(master)
    }

    fn allows_crash(&self, house: HouseNo) -> Result<(), ScriptRefusal>
        ensures { AllowsCommand (command.Crash house.0) self.now result }
    {
        self.place_up(house)?;
        Ok(())
    }

    fn allows_start(&self, house: HouseNo) -> Result<(), ScriptRefusal>
        ensures { AllowsCommand (command.Start house.0) self.now result }
    {
        self.made(house, &[])?;
        if !self.is_down(house) {
            return Err(ScriptRefusal::Up);
        }
        Ok(())
    }

    // Neither the number nor the node is another house's.
    fn untaken(&self, house: HouseNo, node: Node) -> Result<(), ScriptRefusal>
        ensures { (g : model.Cell) → Stands self.now g
            → IsAllowed result ((is_taken g house.0 node, command.HouseExists) ∷ []) }
    {
        if self.is_taken(house, node) {
            return Err(ScriptRefusal::HouseExists);
        }
        Ok(())
    }

    // These houses were made.
    fn made(&self, first: HouseNo, others: &[HouseNo]) -> Result<(), ScriptRefusal>
        ensures { (g : model.Cell) → Stands self.now g
            → IsAllowed result
            ((is_missing g (first.0 ∷ numbers_of others.now), command.NoHouse) ∷ []) }
    {
        if self.lacks(first, others) {
            return Err(ScriptRefusal::NoHouse);
        }
        Ok(())
    }

    // The house is up.
    fn up(&self, house: HouseNo) -> Result<(), ScriptRefusal>
        ensures { (g : model.Cell) → Stands self.now g
            → IsAllowed result ((is_down g house.0, command.Down) ∷ []) }
    {
        if self.is_down(house) {
            return Err(ScriptRefusal::Down);
        }
        Ok(())
    }

    // There is such a directory.
    fn known(&self, dir: DirId) -> Result<(), ScriptRefusal>
        ensures { (g : model.Cell) → Stands self.now g
            → IsAllowed result ((is_unknown g dir.0, command.NoDirectory) ∷ []) }
    {
        if self.is_unknown(dir) {
            return Err(ScriptRefusal::NoDirectory);
        }
        Ok(())
    }

    // There are such a directory and such a house.
    fn placed(&self, house: HouseNo, dir: DirId) -> Result<(), ScriptRefusal>
        ensures { (g : model.Cell) → Stands self.now g
            → IsAllowed result
            ((is_unknown g dir.0, command.NoDirectory)
            ∷ (is_missing g (house.0 ∷ []), command.NoHouse) ∷ []) }
    {
        self.known(dir)?;
        self.made(house, &[])
    }

    // These houses were made, and can be a list.
    fn listable(&self, master: HouseNo, others: &[HouseNo]) -> Result<(), ScriptRefusal>
        ensures { (g : model.Cell) → Stands self.now g
            → let hs = master.0 ∷ numbers_of others.now in
            IsAllowed result
            ((is_missing g hs, command.NoHouse) ∷ (is_bad_list hs, command.BadMembers) ∷ []) }
    {
        self.made(master, others)?;
        if is_bad_list(master, others) {
            return Err(ScriptRefusal::BadMembers);
        }
        Ok(())
    }

    // There are such a directory and such a house, and the others can be the list of a child.
    fn pointed(
        &self,
        house: HouseNo,
        dir: DirId,
        master: HouseNo,
        others: &[HouseNo],
    ) -> Result<(), ScriptRefusal>
        ensures { (g : model.Cell) → Stands self.now g
            → let hs = master.0 ∷ numbers_of others.now in
            IsAllowed result
            ((is_unknown g dir.0, command.NoDirectory)
            ∷ (is_missing g (house.0 ∷ hs), command.NoHouse)
            ∷ (is_bad_list hs, command.BadMembers) ∷ []) }
    {
        self.placed(house, dir)?;
        self.listable(master, others)
    }

    // Whether the number or the node is another house's.
    fn is_taken(&self, house: HouseNo, node: Node) -> bool
        ensures { (g : model.Cell) → Stands self.now g → result ≡ is_taken g house.0 node }
    {
        self.houses
            .iter()
            .any(|h| h.house == house || h.node == node)
    }

    /// Whether no directory has this number.
    pub fn is_unknown(&self, dir: DirId) -> bool
        ensures found { result ≡ is_none (directory_of self.now.directories.items dir.0) }
        ensures model { (g : model.Cell) → Stands self.now g → result ≡ is_unknown g dir.0 }
    {
        self.directory_place(dir).is_none()
    }

    // Whether the console lists the house as a member of the directory.
    fn is_listed(&self, dir: DirId, house: HouseNo) -> bool
        ensures { (g : model.Cell) → Stands self.now g
            → result ≡ is_listed house.0 (g.present dir.0) }
    {
        match self.directory_place(dir) {
            Some(at) => self.directories[at].members.place(house).is_some(),
            None => false,
        }
    }

    // Whether one of these houses was not made.
    fn lacks(&self, first: HouseNo, others: &[HouseNo]) -> bool
        ensures found { result ≡ list_any (λ x. not (is_some (house_of self.now.houses.items x)))
            (first.0 ∷ numbers_of others.now) }
        ensures model { (g : model.Cell) → Stands self.now g
            → result ≡ is_missing g (first.0 ∷ numbers_of others.now) }
    {
        !self.has_house(first) || others.iter().any(|house| !self.has_house(*house))
    }

    /// Whether a house is not up.
    pub fn is_down(&self, house: HouseNo) -> bool
        ensures found { result ≡ not
            (is_up_state (option_map (λ h. h.state) (house_of self.now.houses.items house.0))) }
        ensures model { (g : model.Cell) → Stands self.now g → result ≡ is_down g house.0 }
    {
        match self.house(house) {
            Some(HouseState::Up(_)) => false,
            Some(HouseState::Down(_)) => true,
            None => true,
        }
    }
}
