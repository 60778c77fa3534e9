// Commands of a script with enough memory: each is printed as it was read.
use cell_script::{Command, ScriptLine, parse_line};
use command_lines::push_command;
use std::alloc::Global;
use std::test::Fail;

// A line of each command.
const LINES: [&[u8]; 18] = [
    b"house 1 00000000000a",
    b"clock 1 18446744073709551615",
    b"root 1 2 s3",
    b"mkdir 1 1 sub 1 2 s3",
    b"repoint 1 1 sub 1 2",
    b"create 1 1 lpr",
    b"link 1 1 up /.:/sub/lpr",
    b"delete 1 1 lpr",
    b"add 1 1 lpr A 5072",
    b"remove 1 1 lpr A 5072",
    b"put 1 1 lpr A 5072",
    b"clear 1 1 lpr A",
    b"epoch 1 1 2 s3",
    b"skulk 1 1",
    b"deliver 7",
    b"lose 8",
    b"crash 1",
    b"start 1",
];

// The command that a line says.
fn command_of(alloc: Global, line: &[u8]) -> Result<Command, Fail> {
    match parse_line(alloc, line)? {
        Some(ScriptLine::Cell(command)) => Ok(command),
        _ => Err("another line".into()),
    }
}

#[test]
fn each_command_is_printed_as_it_was_read(rt: HostRuntime) -> Result<(), Fail> {
    for line in LINES {
        let mut text = Vec::new(rt.alloc());
        push_command(&mut text, &command_of(rt.alloc(), line)?)?;
        assert_eq!(rt; text.as_slice(), line);
    }
    Ok(())
}
