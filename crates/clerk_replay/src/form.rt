// The form `clerk`: each line is replayed on a cell, which a clerk reads.
use crate::replayer::ClerkReplayer;
use cell_script::{ScriptLine, parse_line};
use line_forms::{DialogueForm, Said};
use reply_buffer::Waiting;
use std::alloc::{AllocError, Global};

impl DialogueForm for ClerkReplayer {
    ghost use Rattle.clerk_replay.specs.Clerking.{Clerked, clerk_dialogue};
    ghost use Rattle.clerk_replay.specs.ClerkLines.{Stands};

    type Line = ScriptLine;

    ghost State = { Clerked };

    ghost dialogue = { clerk_dialogue };

    ghost is_at = { Stands };

    ghost is_said = { λ line. Unit {0} };

    ghost counted = { λ r. r.replayer.steps };

    fn parse(alloc: Global, line: &[u8]) -> Said<ScriptLine> {
        parse_line(alloc, line)
    }

    fn reply_to(
        &mut self,
        alloc: Global,
        number: u32,
        line: ScriptLine,
        waiting: &mut Waiting,
    ) -> Result<(), AllocError> {
        let answer = self.reply(alloc, number, line)?;
        waiting.add_answer(alloc, number, &answer)
    }
}
