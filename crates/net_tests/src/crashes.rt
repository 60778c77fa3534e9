// A house that dies in each call of its disk keeps each turn that it answered, and at most one
// more.
use crate::lives::Folder;
use cell_script::Words;
use house_journal::Leave;
use house_program::Death;
use std::alloc::Global;
use std::test::Fail;

// What is done before: a house with the root.
const BEFORE: &[u8] = b"house 1 00000000000a\nroot 2\n";

// Turns, a line each.
static TURNS: [&[u8]; 7] = [
    b"clock 100\ncreate 1 lpr\n",
    b"add 1 lpr A 01\n",
    b"add 1 lpr A 02\n",
    b"remove 1 lpr A 01\n",
    b"skulk 1\n",
    b"mkdir 1 sub 7 3\n",
    b"delete 1 lpr\n",
];

// The lines of the first turns.
fn lines_of(alloc: Global, count: usize) -> Result<Vec<u8>, Fail> {
    let mut lines = Vec::new(alloc);
    for turn in TURNS.iter().take(count) {
        lines.extend_from_slice(turn)?;
    }
    Ok(lines)
}

// The lines of an answer that give octets: from the first word that is `octets` on.
fn image_in(answers: &[u8]) -> &[u8] {
    let mut rest = answers;
    for _ in 0..answers.len() {
        if rest.starts_with(b" octets ") {
            return rest;
        }
        match rest.split_first() {
            Some((_, more)) => rest = more,
            None => return rest,
        }
    }
    rest
}

// What a folder's house says that its image is.
fn image_of(alloc: Global, folder: &mut Folder) -> Result<Vec<u8>, Fail> {
    let text = folder.live(alloc, b"image\n", None)?;
    Ok(Vec::from_slice(alloc, image_in(&text))?)
}

// How many turns were answered.
fn answered(answers: &[u8]) -> usize {
    let mut count = 0_usize;
    for line in answers.split(|octet| *octet == b'\n') {
        let mut words = Words::of(line);
        let number = words.next();
        let word = words.next();
        if number.is_some() && number != Some(b"0".as_slice()) && word == Some(b"ok".as_slice()) {
            count = count.saturating_add(1);
        }
    }
    count
}

// The images after no turn, after one, and so on.
fn images(alloc: Global, start: &Folder) -> Result<Vec<Vec<u8>>, Fail> {
    let mut images = Vec::new(alloc);
    for count in 0..TURNS.len() + 1 {
        let mut folder = start.copy(alloc)?;
        folder.live(alloc, &lines_of(alloc, count)?, None)?;
        images.push(image_of(alloc, &mut folder)?)?;
    }
    Ok(images)
}

// Lets the house die at a call; whether that life was not done before.
fn dies_well(
    alloc: Global,
    start: &Folder,
    images: &[Vec<u8>],
    death: Death,
) -> Result<bool, Fail> {
    let mut folder = start.copy(alloc)?;
    let lines = lines_of(alloc, TURNS.len())?;
    let answers = folder.live(alloc, &lines, Some(death))?;
    // The line that sets the clock is answered too.
    let count = answered(&answers).saturating_sub(1);
    let image = image_of(alloc, &mut folder)?;
    let kept = images.get(count) == Some(&image);
    let next = images.get(count.saturating_add(1)) == Some(&image);
    if !kept && !next {
        return Err("a turn is lost, or more than one was not answered".into());
    }
    Ok(count < TURNS.len())
}

// How many calls of its disk a house makes, in each of which it dies once.
fn deaths(alloc: Global, start: &Folder, images: &[Vec<u8>], leave: Leave) -> Result<u64, Fail> {
    for call in 1..1_000 {
        if !dies_well(alloc, start, images, Death { call, leave })? {
            return Ok(call - 1);
        }
    }
    Err("it makes no end of calls".into())
}

#[test]
fn a_house_dies_in_each_call_of_its_disk(rt: HostRuntime) -> Result<(), Fail> {
    let alloc = rt.alloc();
    let mut start = Folder::new(alloc);
    start.live(alloc, BEFORE, None)?;
    let images = images(alloc, &start)?;
    for leave in [Leave::Keep, Leave::Drop, Leave::Torn] {
        assert!(rt; deaths(alloc, &start, &images, leave)? > 20);
    }
    Ok(())
}
