//! Laws of the definitions: functions that do nothing, whose contracts are proved.
ghost use Rattle.std.specs.Prelude.{◌≡◌, ℕ, false, Ok};
ghost use Rattle.cds_stamps.specs.declared.numbers.DirId.{DirId};
ghost use Rattle.cds_records.specs.RecordOctets.{image_octets};
ghost use Rattle.cds_records.specs.RecordRanges.{FitsImage};
ghost use Rattle.cds_messages.specs.Validity.{IsValidImage};
ghost use Rattle.cds_messages.specs.declared.message.Message.{Message};
ghost use Rattle.cell_model.specs.Cells as model;
ghost use Rattle.cell_model.specs.Turns.{crashed_house, started_house};
ghost use Rattle.clearinghouse.specs.HouseImages.{image_of, house_after_restart, skulks_of, start_of_octets, with_skulks};
ghost use Rattle.clearinghouse.specs.LawfulHouses.{IsLawful};
ghost use Rattle.house_directory.specs.HouseMessages.{LooksMessage};
ghost use Rattle.clearinghouse.specs.ModelHouses.{LooksHouse, StandsHouse};
ghost use Rattle.clearinghouse.specs.declared.house.Clearinghouse.{Clearinghouse};

/// A house starts of the octets that it kept, if its numbers fit their fields: no other fault is
/// found than out of memory.
pub fn a_house_starts_of_its_image()
    ensures { (c : Clearinghouse) → IsLawful c → FitsImage (image_of c)
        → start_of_octets (image_octets (image_of c)) ≡ Ok (house_after_restart c) }
{}

/// A house that starts of what it kept, and whose skulks run on, is as it was.
pub fn a_house_goes_on_with_its_skulks()
    ensures { (c : Clearinghouse) → IsLawful c → c.spent ≡ false
        → with_skulks (skulks_of c) (house_after_restart c) ≡ c }
{}

/// A clearinghouse that crashes and starts again stands for the house of the model that does so. It
/// is lawful again, and who it was. Its floor stays, since no time in what it keeps is above it.
pub fn a_crash_and_a_start_are_those_of_the_model()
    ensures down { (c : Clearinghouse) (now : model.House) → StandsHouse c now
        → StandsHouse (house_after_restart c) (crashed_house now) }
    ensures up { (c : Clearinghouse) (now : model.House) → StandsHouse c now
        → StandsHouse (house_after_restart c) (started_house (crashed_house now)) }
    ensures image { (c : Clearinghouse) → IsLawful c → IsValidImage (image_of c) }
    ensures lawful { (c : Clearinghouse) → IsLawful c → IsLawful (house_after_restart c) }
    ensures who { (c : Clearinghouse)
        → ((house_after_restart c).house ≡ c.house) × ((house_after_restart c).node ≡ c.node) }
    ensures floor { (c : Clearinghouse) → IsLawful c → (house_after_restart c).floor ≡ c.floor }
{}

/// Each lawful clearinghouse looks like some house of the model, in all directories at once, and
/// each message like one of the model. So what `Clearinghouse::take` promises of those that look so
/// binds it at every call. That its numbers fit their fields, and its members are lists of members,
/// holds of each clearinghouse of a program, by its types: `Clearinghouse::image` says so.
pub fn each_lawful_clearinghouse_looks_like_a_house()
    ensures houses { (c : Clearinghouse) → IsLawful c → FitsImage (image_of c)
        → (now : model.House) × ((dir : DirId) → LooksHouse c dir now) }
    ensures messages { (to : ℕ) (m : Message) → (n : model.Message) × LooksMessage to m n }
{}
