// Theorems on the definitions: each function's contract states one, and its body does nothing.
ghost use Rattle.std.specs.Prelude.{◌≡◌, ℕ, ◌/◌, List, map};
ghost use Rattle.des.specs.Laws.{Bytes, Inverse, Lawful};
ghost use Rattle.des.specs.Schedule.{key_schedule};
ghost use Rattle.des.specs.Vectors.{KnownAnswers};

// Deciphering undoes enciphering and the other way round, for every schedule and block.
pub fn deciphering_inverts()
    ensures { (schedule block : List ℕ) → Bytes 8 block → Inverse schedule block }
{}

// The schedule of a key is 128 bytes.
pub fn schedules_are_bytes()
    ensures { (key : List ℕ) → Bytes 128 (key_schedule key) }
{}

// The lowest bit of each byte of a key changes nothing.
pub fn parity_bits_are_ignored()
    ensures { (key other : List ℕ) → Bytes 8 key → Bytes 8 other → map (λ b. b / 2) key ≡ map (λ b. b / 2) other → key_schedule key ≡ key_schedule other }
{}

// The tables follow the rules that the standard gives for them.
pub fn tables_are_lawful()
    ensures { Lawful }
{}

// The definitions give the published answers.
pub fn answers_are_known()
    ensures { KnownAnswers }
{}
