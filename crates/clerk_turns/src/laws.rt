//! What is true of each turn of a clerk.
ghost use Rattle.std.specs.Prelude.{◌≡◌, true, [], List, Some, ℕ};
ghost use Rattle.clerk_lines.specs.declared.line.ClerkWord.TheVariants.{Do};
ghost use Rattle.clerk_lines.specs.ClerkWords.{line_said};
ghost use Rattle.clerk_turns.specs.declared.clerk.Clerk.{Clerk};
ghost use Rattle.clerk_turns.specs.Turns.{IsTurn};
ghost use Rattle.clerk_turns.specs.Waiting.{AllWait, IsUnderWayOrSaid, has_number};

/// Each command is answered, or waits for a house: from a clerk without commands on, whatever lines
/// it takes, each command that is under way waits for a question that a house was asked, and no two
/// have one number. One that begins, or was under way, and is not under way after a line ended with
/// a line of its answer.
pub fn commands_wait_or_are_answered()
    ensures begins { (c : Clerk) → c.jobs.items ≡ [] → AllWait c }
    ensures goes_on { (c c' : Clerk) (line said : List ℕ) → IsTurn c line said c'
        → AllWait c → AllWait c' }
    ensures starts { (c c' : Clerk) (line said text : List ℕ) (k : ℕ)
        → line_said line ≡ Some (Do, k, text)
        → IsTurn c line said c' → AllWait c → IsUnderWayOrSaid k said c' }
    ensures ends { (c c' : Clerk) (line said : List ℕ) → IsTurn c line said c' → AllWait c
        → (k : ℕ) → has_number k c.jobs.items ≡ true → IsUnderWayOrSaid k said c' }
{}
