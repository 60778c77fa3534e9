//! Laws of what is said and heard: functions that do nothing, whose contracts are proved.
ghost use Rattle.std.specs.Prelude.{◌≡◌, Some};
ghost use Rattle.clerk_lines.specs.declared.hearing.Hearing.TheVariants.{Begun};
ghost use Rattle.clerk_lines.specs.declared.hearing.Told.TheVariants.{Shows};
ghost use Rattle.clerk_lines.specs.declared.shown.ShownEntry.{ShownEntry};
ghost use Rattle.clerk_lines.specs.Hearings.{told_by};
ghost use Rattle.clerk_lines.specs.ShownTexts.{IsSayable, entry_texts};

/// Entries are read back as they are said: by its lines a clerk hears the entry, whole.
pub fn entries_are_read_back()
    ensures { (e : ShownEntry) → IsSayable e → told_by Begun (entry_texts e) ≡ Some (Shows e) }
{}
