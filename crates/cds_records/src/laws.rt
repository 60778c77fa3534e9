//! Laws of the definitions: functions that do nothing, whose contracts are proved.
ghost use Rattle.std.specs.Prelude.{◌≡◌, ◌++◌, ◌∷◌, ◌<◌, [], ℕ, List, Ok, Err};
ghost use Rattle.std.specs.List.{All};
ghost use Rattle.cds_messages.specs.declared.message.Message.{Message};
ghost use Rattle.record_fields.specs.Decoding.{IsWhole, Decodes, decode_by, with_memory};
ghost use Rattle.record_fields.specs.declared.fault.Rule.TheVariants.{Short, BadTag};
ghost use Rattle.cds_messages.specs.declared.image.Image.{Image};
ghost use Rattle.cds_records.specs.Images.{image, image_1, either_image};
ghost use Rattle.cds_records.specs.Migration.{migrated_image};
ghost use Rattle.cds_records.specs.RecordOctets.{message_octets, image_octets};
ghost use Rattle.cds_records.specs.RecordRanges.{FitsMessage, FitsImage};
ghost use Rattle.cds_records.specs.Records.{message};
ghost use Rattle.cds_messages.specs.Validity.{IsValidMessage, IsValidImage};

/// The octets of no message begin those of another, so what follows a message is never taken as its
/// own, and octets are those of one message at most.
pub fn no_message_begins_another()
    ensures { (m other : Message) (a b x y : List ℕ) → IsWhole message m a → IsWhole message other b
        → a ++ x ≡ b ++ y → (m ≡ other) × (a ≡ b) × (x ≡ y) }
{}

/// So it is with images of either format.
pub fn no_image_begins_another()
    ensures { (i other : Image) (a b x y : List ℕ) → IsWhole either_image i a
        → IsWhole either_image other b → a ++ x ≡ b ++ y → (i ≡ other) × (a ≡ b) × (x ≡ y) }
{}

/// A message has one spelling: octets that are both the whole of it are the same.
pub fn a_message_has_one_spelling()
    ensures { (m : Message) (a b : List ℕ) → All (λ n. n < 256) a → All (λ n. n < 256) b
        → IsWhole message m a → IsWhole message m b → a ≡ b }
{}

/// So has an image in each format.
pub fn an_image_has_one_spelling()
    ensures present { (i : Image) (a b : List ℕ) → All (λ n. n < 256) a → All (λ n. n < 256) b
        → IsWhole image i a → IsWhole image i b → a ≡ b }
    ensures former { (i : Image) (a b : List ℕ) → All (λ n. n < 256) a → All (λ n. n < 256) b
        → IsWhole image_1 i a → IsWhole image_1 i b → a ≡ b }
{}

/// What octets decode to as a function is what the grammar says of them: the message at their
/// front, or their first fault; and so it is with images of each format, and of either.
pub fn octets_decode_to_one_thing()
    ensures messages { (octets : List ℕ)
        → Decodes message octets (with_memory (decode_by message octets)) }
    ensures images { (octets : List ℕ)
        → Decodes image octets (with_memory (decode_by image octets)) }
    ensures former_images { (octets : List ℕ)
        → Decodes image_1 octets (with_memory (decode_by image_1 octets)) }
    ensures either { (octets : List ℕ)
        → Decodes either_image octets (with_memory (decode_by either_image octets)) }
{}

/// The octets of a message are the whole of it, if its entries, tables and deltas are valid, its
/// numbers fit their fields, and its names, values and members keep their rules.
pub fn octets_of_a_message_are_whole()
    ensures { (m : Message) → IsValidMessage m → FitsMessage m
        → IsWhole message m (message_octets m) }
{}

/// So are the octets of an image.
pub fn octets_of_an_image_are_whole()
    ensures { (i : Image) → IsValidImage i → FitsImage i → IsWhole image i (image_octets i) }
{}

/// The first octet of an image says its format: after 1 it is read by format 1, after 2 by format
/// 2, and no other is known.
pub fn the_first_octet_says_the_format()
    ensures former { (rest : List ℕ)
        → decode_by either_image (1 ∷ rest) ≡ decode_by image_1 (1 ∷ rest) }
    ensures present { (rest : List ℕ)
        → decode_by either_image (2 ∷ rest) ≡ decode_by image (2 ∷ rest) }
    ensures unknown { (n : ℕ) (rest : List ℕ) → (n ≡ 1 → ⊥) → (n ≡ 2 → ⊥)
        → decode_by either_image (n ∷ rest) ≡ Err (record { rule = BadTag; place = 1 }) }
    ensures nothing { decode_by either_image [] ≡ Err (record { rule = Short; place = 1 }) }
{}

/// Octets of an image of format 1 are migrated to those of the same image in format 2. Those of an
/// image of format 2 stay.
pub fn an_image_is_migrated()
    ensures former { (i : Image) (octets : List ℕ) → IsWhole image_1 i octets
        → migrated_image octets ≡ Ok (image_octets i) }
    ensures present { (i : Image) (octets : List ℕ) → FitsImage i → All (λ n. n < 256) octets
        → All (λ n. n < 256) (image_octets i)
        → IsWhole image i octets → migrated_image octets ≡ Ok octets }
{}
