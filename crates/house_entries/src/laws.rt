// What follows of the definitions of records.
ghost use Rattle.std.specs.Prelude.{◌≡◌, ℕ, List, Option};
ghost use Rattle.house_entries.specs.Bodies.{IsBody};

/// Records are read back as they were written: octets are the body of one record at most.
pub fn entries_read_back()
    ensures { (octets : List ℕ) (n c : ℕ) (t : List ℕ) (i : Option (List ℕ))
        (n' c' : ℕ) (t' : List ℕ) (i' : Option (List ℕ))
        → IsBody octets n c t i → IsBody octets n' c' t' i'
        → (n ≡ n') × (c ≡ c') × (t ≡ t') × (i ≡ i') }
{}
