// Five houses over a net that loses, repeats and reorders, and which die at random: once all is
// delivered, they agree.
use crate::lives::Folder;
use cell_script::Words;
use house_journal::Leave;
use house_program::Death;
use std::alloc::Global;
use std::test::Fail;

// How many houses there are.
const HOUSES: u64 = 5;

// How often something happens in a trial, and how many messages are under way at most.
const STEPS: u64 = 120;

const MOST_LETTERS: usize = 200;

// The calls of its disk in which a house may die: those of two segments, or so.
const CALLS: u64 = 24;

// Numbers that look random, from a seed.
#[derive(Drop)]
struct Dice {
    state: u64,
}

impl Dice {
    // A number below `sides`.
    fn roll(&mut self, sides: u64) -> u64 {
        self.state = self
            .state
            .wrapping_mul(6_364_136_223_846_793_005)
            .wrapping_add(1_442_695_040_888_963_407);
        (self.state >> 33) % sides.max(1)
    }

    // In every fourth life, where it ends.
    fn death(&mut self) -> Option<Death> {
        if self.roll(4) > 0 {
            return None;
        }
        let call = 1 + self.roll(CALLS) % CALLS;
        let leave = match self.roll(3) {
            0 => Leave::Keep,
            1 => Leave::Drop,
            _ => Leave::Torn,
        };
        Some(Death { call, leave })
    }
}

// A message under way: the house that it goes to, and the lines that give it to a house.
#[derive(Drop)]
struct Letter {
    to: u64,
    lines: Vec<u8>,
}

impl Letter {
    fn copy(&self, alloc: Global) -> Result<Letter, Fail> {
        Ok(Letter {
            to: self.to,
            lines: Vec::from_slice(alloc, &self.lines)?,
        })
    }
}

#[derive(Drop)]
struct Net {
    folders: Vec<Folder>,
    letters: Vec<Letter>,
}

// The number of a house, of one digit.
fn house_in(word: &[u8]) -> u64 {
    match word.first() {
        Some(digit) => u64::from(digit.saturating_sub(b'0')),
        None => 0,
    }
}

// Adds the messages that a house posted, of what it wrote.
fn gather(alloc: Global, letters: &mut Vec<Letter>, text: &[u8]) -> Result<(), Fail> {
    let mut lines = Vec::new(alloc);
    for line in text.split(|octet| *octet == b'\n') {
        let mut words = Words::of(line);
        words.next();
        let (Some(kind), Some(to), Some(digits)) = (words.next(), words.next(), words.next()) else {
            continue;
        };
        if kind == b"more".as_slice() {
            lines.extend_from_slice(b"more ")?;
            lines.extend_from_slice(digits)?;
            lines.push(b'\n')?;
        } else if kind == b"post".as_slice() {
            lines.extend_from_slice(b"take ")?;
            lines.extend_from_slice(digits)?;
            lines.push(b'\n')?;
            let to = house_in(to);
            let whole = std::mem::replace(&mut lines, Vec::new(alloc));
            letters.push(Letter { to, lines: whole })?;
        }
    }
    Ok(())
}

// What a house wrote of the first line that it was given, without the line's number.
fn first_answer(alloc: Global, text: &[u8]) -> Result<Vec<u8>, Fail> {
    let mut answer = Vec::new(alloc);
    for line in text.split(|octet| *octet == b'\n') {
        if line.starts_with(b"1 ") {
            answer.extend_from_slice(line)?;
            answer.push(b'\n')?;
        }
    }
    Ok(answer)
}

impl Net {
    // Houses that were made, and hold the root.
    fn new(alloc: Global) -> Result<Net, Fail> {
        let mut net = Net {
            folders: Vec::new(alloc),
            letters: Vec::new(alloc),
        };
        for house in 1..HOUSES + 1 {
            net.folders.push(Folder::new(alloc))?;
            let line = format!(in alloc; "house {house} 00000000000{house}\n")?;
            net.tell(alloc, house, line.as_bytes(), None)?;
        }
        net.tell(alloc, 1, b"root 2 3 4 5\n", None)?;
        net.deliver_all(alloc)?;
        Ok(net)
    }

    // Gives lines to a house, and takes what it posts. What it wrote.
    fn tell(
        &mut self,
        alloc: Global,
        house: u64,
        lines: &[u8],
        death: Option<Death>,
    ) -> Result<Vec<u8>, Fail> {
        let Some(folder) = self.folders.get_mut(house.saturating_sub(1) as usize) else {
            return Err("no such house".into());
        };
        let text = folder.live(alloc, lines, death)?;
        gather(alloc, &mut self.letters, &text)?;
        Ok(text)
    }

    // Delivers all messages, and those that are posted then, in their order.
    fn deliver_all(&mut self, alloc: Global) -> Result<(), Fail> {
        for _ in 0..100 {
            if self.letters.is_empty() {
                return Ok(());
            }
            let letters = std::mem::replace(&mut self.letters, Vec::new(alloc));
            for letter in &letters {
                self.tell_quietly(alloc, letter)?;
            }
        }
        Err("messages never end".into())
    }

    // Delivers a message. What the house says again at its start is not sent again.
    fn tell_quietly(&mut self, alloc: Global, letter: &Letter) -> Result<(), Fail> {
        let before = self.letters.len();
        let text = self.tell(alloc, letter.to, &letter.lines, None)?;
        self.letters.truncate(before);
        let mut new = Vec::new(alloc);
        for line in text.split(|octet| *octet == b'\n') {
            if !line.starts_with(b"0 ") {
                new.extend_from_slice(line)?;
                new.push(b'\n')?;
            }
        }
        gather(alloc, &mut self.letters, &new)
    }

    // Loses a message, or delivers it, and perhaps keeps it to deliver it once more.
    fn carry(&mut self, alloc: Global, dice: &mut Dice) -> Result<(), Fail> {
        if self.letters.is_empty() {
            return Ok(());
        }
        let at = dice.roll(self.letters.len() as u64) as usize % self.letters.len();
        let letter = self.letters.swap_remove(at);
        match dice.roll(10) {
            0 => return Ok(()),
            1 if self.letters.len() < MOST_LETTERS => self.letters.push(letter.copy(alloc)?)?,
            _ => {}
        }
        let death = dice.death();
        self.tell(alloc, letter.to, &letter.lines, death)?;
        Ok(())
    }

    // An update at some house, or a skulk.
    fn ask(&mut self, alloc: Global, dice: &mut Dice, number: u64) -> Result<(), Fail> {
        let house = 1 + dice.roll(HOUSES) % HOUSES;
        let entry = dice.roll(6);
        let change = match dice.roll(5) {
            0 => format!(in alloc; "clock {number}\ncreate 1 e{entry}\n")?,
            1 => format!(in alloc; "delete 1 e{entry}\n")?,
            2 => format!(in alloc; "add 1 e{entry} A 0{entry}\n")?,
            3 => format!(in alloc; "remove 1 e{entry} A 0{entry}\n")?,
            _ => format!(in alloc; "skulk 1\n")?,
        };
        let death = dice.death();
        self.tell(alloc, house, change.as_bytes(), death)?;
        Ok(())
    }

    // Something happens.
    fn step(&mut self, alloc: Global, dice: &mut Dice, number: u64) -> Result<(), Fail> {
        if dice.roll(3) == 0 || self.letters.len() >= MOST_LETTERS {
            self.carry(alloc, dice)
        } else if dice.roll(2) == 0 {
            self.ask(alloc, dice, number)
        } else {
            self.carry(alloc, dice)
        }
    }

    // Whether all houses hold the root alike.
    fn agree(&mut self, alloc: Global) -> Result<bool, Fail> {
        let text = self.tell(alloc, 1, b"dump 1\n", None)?;
        let first = first_answer(alloc, &text)?;
        for house in 2..HOUSES + 1 {
            let text = self.tell(alloc, house, b"dump 1\n", None)?;
            if first_answer(alloc, &text)? != first {
                return Ok(false);
            }
        }
        Ok(!first.is_empty())
    }
}

// A trial: whether the houses agree in the end.
fn trial(alloc: Global, seed: u64) -> Result<bool, Fail> {
    let mut dice = Dice { state: seed };
    let mut net = Net::new(alloc)?;
    for number in 1..STEPS + 1 {
        net.step(alloc, &mut dice, number)?;
    }
    net.deliver_all(alloc)?;
    net.tell(alloc, 1, b"skulk 1\n", None)?;
    net.deliver_all(alloc)?;
    net.agree(alloc)
}

#[test]
fn houses_agree_over_an_awful_net(rt: HostRuntime) -> Result<(), Fail> {
    for seed in 1..6 {
        assert!(rt; trial(rt.alloc(), seed)?, "seed {seed}");
    }
    Ok(())
}
