// Questions: with enough memory a house answers each of them.
use crate::lives::Folder;
use std::alloc::Global;
use std::test::Fail;

// What is done before.
static BEFORE: [&[u8]; 8] = [
    b"house 1 00000000000a\n",
    b"root 2\n",
    b"create 1 lpr\n",
    b"add 1 lpr B 02\n",
    b"add 1 lpr A 01\n",
    b"add 1 lpr B 01\n",
    b"link 1 ln /.:/lpr\n",
    b"mkdir 1 sub 3 2\n",
];

static QUESTIONS: [&[u8]; 9] = [
    b"show low 1 lpr\n",
    b"show high 1 ln\n",
    b"show high 1 sub\n",
    b"show low 1 lpq\n",
    b"show low 9 lpr\n",
    b"status 1\n",
    b"status 3\n",
    b"status 9\n",
    b"directories\n",
];

static ANSWERS: [&[u8]; 21] = [
    b"1 object\n",
    b"1 attr A\n",
    b"1 value 01\n",
    b"1 attr B\n",
    b"1 value 01\n",
    b"1 value 02\n",
    b"1 end\n",
    b"2 link /.:/lpr\n",
    b"2 attr CDS_LinkTarget\n",
    b"2 value 2f2e3a2f6c7072\n",
    b"2 end\n",
    b"3 child 3 1 2\n",
    b"3 attr CDS_Replicas\n",
    b"3 value 00000003020102\n",
    b"3 end\n",
    b"4 refused NoSuchEntry\n",
    b"5 refused NoReplica\n",
    b"6 ok epoch 1 allupto none skulk none entries 3 members 1:1:m 2:1:r\n",
    b"7 ok epoch 1 allupto none skulk none entries 0 members 1:1:m 2:1:r\n",
    b"8 refused NoReplica\n",
    b"9 directory 1 held 1\n9 directory 3 held 1\n9 end 2\n",
];

// Lines one after the other.
fn joined(alloc: Global, lines: &[&[u8]]) -> Result<Vec<u8>, Fail> {
    let mut text = Vec::new(alloc);
    for line in lines {
        text.extend_from_slice(line)?;
    }
    Ok(text)
}

#[test]
fn questions_are_answered(rt: HostRuntime) -> Result<(), Fail> {
    let alloc = rt.alloc();
    let mut folder = Folder::new(alloc);
    folder.live(alloc, &joined(alloc, &BEFORE)?, None)?;
    let text = folder.live(alloc, &joined(alloc, &QUESTIONS)?, None)?;
    assert!(rt; text.ends_with(&joined(alloc, &ANSWERS)?));
    Ok(())
}
